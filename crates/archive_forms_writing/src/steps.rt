//! The trait of what writes the data of entries, and its implementations.
ghost use Rattle.std.specs.Prelude.{◌-◌, ◌^◌, ◌<◌, ⊤};
ghost use Rattle.archive_forms_laws.specs.Fields.{tuple2_spelling};
ghost use Rattle.archive_forms_laws.specs.Serializing.{HasState, Serializes};
ghost use Rattle.archive_forms_writing.specs.EntrySteps.{PartsWritten};

use crate::{Archive, ArchiveWith, ByArchive, Serialize};
use archive_shape::{Allocator, Error, Writer};
use std::marker::PhantomData;

/// Writes the data of entries: of each that of its key, and then that of its value. The values are archived by an `A`,
/// which is `ByArchive` for values that are archived by `Archive`.
pub trait EntryStep<K: Archive, V, A: ArchiveWith<V>, S: Writer + Allocator> {
    /// The condition under which `serialize_entry` may be called for a key and its value.
    ghost takes: { Self → A → K × V → Type 0 };

    /// Writes the data of an entry, whose value is archived by `with`. Returns the resolvers of its key and of its value.
    fn serialize_entry(
        &self,
        with: &A,
        key: &K,
        value: &V,
        serializer: &mut S,
    ) -> Result<(K::Resolver, A::Resolver), Error>
        requires taken { takes self.now with.now (key.now, value.now) }
        requires room { S.failures serializer.old < 2 ^ 64 - 1 }
        requires state { HasState S.pos S.known serializer.old }
        ensures { Serializes (tuple2_spelling K.Archived.shape K.spelling A.Archived.shape
            (A.spelling with.now)) S.Writer (key.now, value.now) serializer.old serializer.new result };
}

/// The `EntryStep` of entries whose keys and values can be archived by the serializer.
#[derive(Clone, Copy)]
pub struct SerializeEntry;

impl<S: Writer + Allocator, K: Serialize<S>, V: Serialize<S>> EntryStep<K, V, ByArchive, S>
    for SerializeEntry {
    ghost takes = { λ step with e. ⊤ };

    fn serialize_entry(
        &self,
        _with: &ByArchive,
        key: &K,
        value: &V,
        serializer: &mut S,
    ) -> Result<(K::Resolver, V::Resolver), Error> {
        let key = key.serialize(serializer)?;
        let value = value.serialize(serializer)?;
        Ok((key, value))
    }
}

/// An `EntryStep` that is made of a step for keys and a step for values.
#[derive(Drop)]
pub struct EntryParts<F, G> {
    pub key: F,
    pub value: G,
}

impl<
    K: Archive,
    V,
    A: ArchiveWith<V>,
    S: Writer + Allocator,
    F: Fn(&K, &mut S) -> Result<(K::Resolver, PhantomData<K::Archived>), Error>,
    G: Fn(&V, &mut S) -> Result<(A::Resolver, PhantomData<A::Archived>), Error>,
> EntryStep<K, V, A, S> for EntryParts<F, G> {
    ghost takes = { λ step with e. PartsWritten F.Fn G.Fn (λ q. q.0) (λ q. q.0) K.spelling (A.spelling with) S.Writer step.key step.value e };

    fn serialize_entry(
        &self,
        _with: &A,
        key: &K,
        value: &V,
        serializer: &mut S,
    ) -> Result<(K::Resolver, A::Resolver), Error> {
        let key = (self.key)(key, serializer)?.0;
        let value = (self.value)(value, serializer)?.0;
        Ok((key, value))
    }
}
