//! What archives entries, whose values are archived by something else than `Archive`.
ghost use Rattle.std.specs.Prelude.{◌≡◌, refl};
ghost use Rattle.archive_forms_values.specs.Tuples.{tuple2};
ghost use Rattle.archive_forms_writing.specs.Entries.{entry_spelling};
ghost use Rattle.archive_forms_laws.specs.Fields.{tuple2_spelling};
ghost use Rattle.archive_forms_laws.specs.Forms.{seen_as};
ghost use Rattle.archive_forms_laws.proofs.Fields.{tuple2_spells};
ghost use Rattle.archive_forms_laws.proofs.Views.{kept_spells, known_spells, seen_spells};
ghost use Rattle.archive_hash_writing.specs.Beside.{beside_spelling};
ghost use Rattle.archive_hash_writing.proofs.Beside.{beside_spells};
ghost use Rattle.archive_hash.specs.Calls.Entries.{CanResolveBeside, ResolvesBeside};
ghost use Rattle.archive_forms_writing.specs.Calls.Pairs.{CanResolveEntry, ResolvesEntry};

use archive_forms_values::Entry;
use archive_forms_writing::{Archive, ArchiveWith, EntryAdapter, EntryResolver};
use archive_shape::{Error, Place};

/// A borrowed value beside what archives it. The two are archived as the value.
#[derive_where(Clone, Copy)]
struct ValueWith<'a, V, A> {
    with: &'a A,
    value: &'a V,
}

impl<'a, V, A: ArchiveWith<V>> Archive for ValueWith<'a, V, A> {
    type Archived = A::Archived;

    type Resolver = A::Resolver;

    ghost spelling = { seen_as (λ v. (v.with.now, v.value.now)) (beside_spelling A.spelling) };

    fn resolve(&self, resolver: A::Resolver, out: Place<'_, A::Archived>) -> Result<(), Error>
        requires { CanResolveBeside A.spelling A.Archived.shape self.now resolver out }
        ensures { ResolvesBeside A.spelling A.Archived.shape self.now resolver out.entry out.exit result }
    {
        let Place {
            out,
            start,
            pos,
            ..
        } = out;
        self.with
            .resolve_with(self.value, resolver, Place::within(out, start, pos))
    }

    ghost spells = { λ fit. seen_spells fit A.Archived.shape A.Archived.knows (λ v. (v.with.now, v.value.now))
        (beside_spelling A.spelling) (beside_spells fit A.Archived.shape A.Archived.knows A.spelling (λ with. A.spells with fit)) };
}

/// Archives entries of a borrowed key and a borrowed value: the keys by `Archive`, and the values by `values`.
#[derive_where(Clone, Copy)]
pub struct EntryWith<'a, A> {
    pub values: &'a A,
}

impl<'a, 'b, K: Archive, V, A: ArchiveWith<V>> ArchiveWith<EntryAdapter<'b, K, V>>
    for EntryWith<'a, A> {
    type Archived = Entry<K::Archived, A::Archived>;

    type Resolver = EntryResolver<K::Resolver, A::Resolver>;

    ghost spelling = { λ with. entry_spelling K.Archived.shape K.spelling A.Archived.shape (A.spelling with.values.now) };

    fn resolve_with(
        &self,
        entry: &EntryAdapter<'b, K, V>,
        resolver: EntryResolver<K::Resolver, A::Resolver>,
        out: Place<'_, Entry<K::Archived, A::Archived>>,
    ) -> Result<(), Error>
        requires { CanResolveEntry K.Archived.shape K.spelling A.Archived.shape (A.spelling self.now.values.now)
            entry.now resolver out }
        ensures { ResolvesEntry K.Archived.shape K.spelling A.Archived.shape (A.spelling self.now.values.now)
            entry.now resolver out.entry out.exit result }
    {
        let Place {
            out,
            start,
            pos,
            ..
        } = out;
        let value = ValueWith {
            with: self.values,
            value: entry.value,
        };
        let entry = EntryAdapter {
            key: entry.key,
            value: &value,
        };
        entry.resolve(resolver, Place::within(out, start, pos))
    }

    ghost spells = { λ with fit. kept_spells fit (tuple2 K.Archived.shape A.Archived.shape) (λ names. K.Archived.knows names × A.Archived.knows names) _ _ (λ r. refl) _
        (seen_spells fit (tuple2 K.Archived.shape A.Archived.shape) (λ names. K.Archived.knows names × A.Archived.knows names) (λ e. (e.key.now, e.value.now))
        (tuple2_spelling K.Archived.shape K.spelling A.Archived.shape (A.spelling with.values.now))
        (tuple2_spells fit (λ names. K.Archived.knows names × A.Archived.knows names) K.Archived.shape K.spelling A.Archived.shape (A.spelling with.values.now)
        (known_spells fit K.Archived.shape K.Archived.knows (λ names. K.Archived.knows names × A.Archived.knows names) (λ _ k. k.0) K.spelling (K.spells fit))
        (known_spells fit A.Archived.shape A.Archived.knows (λ names. K.Archived.knows names × A.Archived.knows names) (λ _ k. k.1) (A.spelling with.values.now) (A.spells with.values.now fit)))) };
}
