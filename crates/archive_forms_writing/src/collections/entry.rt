//! Entries of a borrowed key and a borrowed value.
ghost use Rattle.std.specs.Prelude.{◌≡◌, ◌-◌, ◌^◌, ◌<◌, [], ◌∷◌, refl};
ghost use Rattle.archive_forms_values.specs.Tuples.{tuple2};
ghost use Rattle.archive_forms_laws.specs.Fields.{tuple2_spelling};
ghost use Rattle.archive_forms_laws.specs.Serializing.{HasState, SerializesBy};
ghost use Rattle.archive_forms_laws.proofs.Fields.{tuple2_spells};
ghost use Rattle.archive_forms_laws.proofs.Views.{kept_spells, known_spells, seen_spells};
ghost use Rattle.archive_forms_writing.specs.Steps.{StepTakes, StepWrites};
ghost use Rattle.archive_forms_writing.specs.Entries.{entry_spelling};
ghost use Rattle.archive_forms_writing.specs.Calls.Pairs.{CanResolveEntry, ResolvesEntry};
ghost use Rattle.archive_forms_writing.specs.Calls.Data.{WritesData};

use crate::{Archive, Serialize, resolve_field, serialize_element};
use archive_forms_values::Entry;
use archive_shape::{Allocator, Error, Place, Portable, Writer};
use std::marker::PhantomData;

/// A borrowed key and a borrowed value, which are archived as an entry of a map.
#[derive_where(Clone, Copy)]
pub struct EntryAdapter<'a, K, V> {
    pub key: &'a K,
    pub value: &'a V,
}

impl<'a, K, V> EntryAdapter<'a, K, V> {
    /// Creates the entry of a key and a value.
    pub fn new(key: &'a K, value: &'a V) -> Self
        ensures key { result.key ≡ key.entry }
        ensures value { result.value ≡ value.entry }
    {
        EntryAdapter { key, value }
    }
}

/// The resolvers of a key and of its value.
#[derive(Clone, Copy)]
pub struct EntryResolver<A, B> {
    pub key: A,
    pub value: B,
}

impl<'a, K: Archive, V: Archive> Archive for EntryAdapter<'a, K, V> {
    type Archived = Entry<K::Archived, V::Archived>;

    type Resolver = EntryResolver<K::Resolver, V::Resolver>;

    ghost spelling = { entry_spelling K.Archived.shape K.spelling V.Archived.shape V.spelling };

    fn resolve(
        &self,
        resolver: EntryResolver<K::Resolver, V::Resolver>,
        out: Place<'_, Entry<K::Archived, V::Archived>>,
    ) -> Result<(), Error>
        requires { CanResolveEntry K.Archived.shape K.spelling V.Archived.shape V.spelling self.now resolver out }
        ensures { ResolvesEntry K.Archived.shape K.spelling V.Archived.shape V.spelling self.now resolver out.entry out.exit result }
    {
        let Place {
            out,
            start,
            pos,
            ..
        } = out;
        let end = resolve_field(self.key, resolver.key, out, start, pos, 0)?;
        resolve_field(self.value, resolver.value, out, start, pos, end)?;
        Ok(())
    }

    ghost spells = { λ fit. kept_spells fit (tuple2 K.Archived.shape V.Archived.shape) (λ names. K.Archived.knows names × V.Archived.knows names) _ _ (λ r. refl) _
        (seen_spells fit (tuple2 K.Archived.shape V.Archived.shape) (λ names. K.Archived.knows names × V.Archived.knows names) (λ e. (e.key.now, e.value.now))
        (tuple2_spelling K.Archived.shape K.spelling V.Archived.shape V.spelling)
        (tuple2_spells fit (λ names. K.Archived.knows names × V.Archived.knows names) K.Archived.shape K.spelling V.Archived.shape V.spelling
        (known_spells fit K.Archived.shape K.Archived.knows (λ names. K.Archived.knows names × V.Archived.knows names) (λ _ k. k.0) K.spelling (K.spells fit))
        (known_spells fit V.Archived.shape V.Archived.knows (λ names. K.Archived.knows names × V.Archived.knows names) (λ _ k. k.1) V.spelling (V.spells fit)))) };
}

/// Writes the data of a key and then that of its value, each by its own step.
pub fn serialize_entry_each<
    'a,
    K: Archive,
    V: Archive,
    S: Writer + Allocator,
    F: Fn(&K, &mut S) -> Result<(K::Resolver, PhantomData<K::Archived>), Error>,
    G: Fn(&V, &mut S) -> Result<(V::Resolver, PhantomData<V::Archived>), Error>,
>(
    entry: &EntryAdapter<'a, K, V>,
    serializer: &mut S,
    first: F,
    second: G,
) -> Result<EntryResolver<K::Resolver, V::Resolver>, Error>
    requires room { S.failures serializer.old < 2 ^ 64 - 1 }
    requires state { HasState S.pos S.known serializer.old }
    requires takes_first { StepTakes F.Fn S.Writer first (entry.now.key.now ∷ []) }
    requires writes_first { StepWrites F.Fn (λ q. q.0) K.spelling S.Writer first }
    requires takes_second { StepTakes G.Fn S.Writer second (entry.now.value.now ∷ []) }
    requires writes_second { StepWrites G.Fn (λ q. q.0) V.spelling S.Writer second }
    ensures { WritesData ⟦<EntryAdapter<'a, K, V> as Archive>⟧ S.Writer entry.now serializer.old serializer.new result }
{
    let key = first(entry.key, serializer)?.0;
    let value = second(entry.value, serializer)?.0;
    Ok(EntryResolver { key, value })
}

impl<'a, S: Writer + Allocator, K: Serialize<S>, V: Serialize<S>> Serialize<S>
    for EntryAdapter<'a, K, V> {
    fn serialize(
        &self,
        serializer: &mut S,
    ) -> Result<EntryResolver<K::Resolver, V::Resolver>, Error> {
        serialize_entry_each::<K, V, S, _, _>(
            self,
            serializer,
            |key: &K, s: &mut S| -> Result<(K::Resolver, PhantomData<K::Archived>), Error>
                requires room { S.failures s.old < 2 ^ 64 - 1 }
                requires state { HasState S.pos S.known s.old }
                ensures { SerializesBy (λ q. q.0) K.spelling S.Writer key.now s.old s.new result }
            { serialize_element(key, s) },
            |value: &V, s: &mut S| -> Result<(V::Resolver, PhantomData<V::Archived>), Error>
                requires room { S.failures s.old < 2 ^ 64 - 1 }
                requires state { HasState S.pos S.known s.old }
                ensures { SerializesBy (λ q. q.0) V.spelling S.Writer value.now s.old s.new result }
            { serialize_element(value, s) },
        )
    }
}
