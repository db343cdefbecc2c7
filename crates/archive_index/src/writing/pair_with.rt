//! What archives pairs of a key and a value, whose values are archived by something else than `Archive`.
ghost use Rattle.archive_forms_laws.specs.Fields.{tuple2_spelling};
ghost use Rattle.archive_forms_laws.proofs.Fields.{tuple2_spells};
ghost use Rattle.archive_forms_laws.proofs.Views.{known_spells};
ghost use Rattle.archive_forms_writing.specs.Calls.Resolving.{CanResolveTuple2, ResolvesTuple2};

use archive_forms_values::Entry;
use archive_forms_writing::{Archive, ArchiveWith, EntryAdapter, EntryResolver};
use archive_hash::EntryWith;
use archive_shape::{Error, Place};

/// Archives pairs of a key and a value as entries: the keys by `Archive`, and the values by `values`.
#[derive_where(Clone, Copy)]
pub(crate) struct PairWith<'a, A> {
    pub(crate) values: &'a A,
}

impl<'a, K: Archive, V, A: ArchiveWith<V>> ArchiveWith<(K, V)> for PairWith<'a, A> {
    type Archived = Entry<K::Archived, A::Archived>;

    type Resolver = (K::Resolver, A::Resolver);

    ghost spelling = { λ with. tuple2_spelling K.Archived.shape K.spelling A.Archived.shape (A.spelling with.values.now) };

    fn resolve_with(
        &self,
        pair: &(K, V),
        resolver: (K::Resolver, A::Resolver),
        out: Place<'_, Entry<K::Archived, A::Archived>>,
    ) -> Result<(), Error>
        requires { CanResolveTuple2 K.Archived.shape K.spelling A.Archived.shape (A.spelling self.now.values.now)
            pair.now resolver out }
        ensures { ResolvesTuple2 K.Archived.shape K.spelling A.Archived.shape (A.spelling self.now.values.now)
            pair.now resolver out.entry out.exit result }
    {
        let Place {
            out,
            start,
            pos,
            ..
        } = out;
        let by = EntryWith {
            values: self.values,
        };
        let both = EntryResolver {
            key: resolver.0,
            value: resolver.1,
        };
        let entry = EntryAdapter {
            key: &pair.0,
            value: &pair.1,
        };
        by.resolve_with(&entry, both, Place::within(out, start, pos))
    }

    ghost spells = { λ with fit. tuple2_spells fit (λ names. K.Archived.knows names × A.Archived.knows names) K.Archived.shape K.spelling A.Archived.shape (A.spelling with.values.now)
        (known_spells fit K.Archived.shape K.Archived.knows (λ names. K.Archived.knows names × A.Archived.knows names) (λ _ k. k.0) K.spelling (K.spells fit))
        (known_spells fit A.Archived.shape A.Archived.knows (λ names. K.Archived.knows names × A.Archived.knows names) (λ _ k. k.1) (A.spelling with.values.now) (A.spells with.values.now fit)) };
}
