//! Archiving sets of std: their archived type, and the write of their own bytes.
ghost use Rattle.std.specs.Prelude.{◌≡◌, refl};
ghost use Rattle.std.proofs.Common.{ap};
ghost use Rattle.archive_shape_layout.specs.Shape.Shape.{tree, tuple};
ghost use Rattle.archive_shape_layout.specs.Shape.Shapes.{no_shapes};
ghost use Rattle.archive_forms_laws.specs.Fields.{unit_spelling};
ghost use Rattle.archive_forms_laws.specs.Forms.{seen_as};
ghost use Rattle.archive_forms_laws.specs.Serializing.{CanResolve, Resolves};
ghost use Rattle.archive_forms_laws.proofs.Fields.{unit_spells};
ghost use Rattle.archive_forms_laws.proofs.Views.{kept_spells_at, known_spells, seen_spells_at};
ghost use Rattle.archive_forms_values.specs.Parts.{both};
ghost use Rattle.archive_btree_spelling.proofs.Maps.{map_spells};
ghost use Rattle.archive_btree.specs.Owned.{entries_spelling, key_entries};

use crate::OwnedBTreeSet;
use archive_btree_maps::{ArchivedBTreeSet, BTreeSetResolver};
use archive_forms_writing::Archive;
use archive_shape::{Error, Place, Portable};

impl<K: Archive + Ord, const E: usize> Archive for OwnedBTreeSet<K, E> {
    type Archived = ArchivedBTreeSet<K::Archived, E>;

    type Resolver = BTreeSetResolver;

    ghost spelling = { seen_as (λ s. key_entries s.set.keys) (entries_spelling E K.Archived.shape (tuple no_shapes) K.spelling unit_spelling) };

    fn resolve(
        &self,
        resolver: BTreeSetResolver,
        out: Place<'_, ArchivedBTreeSet<K::Archived, E>>,
    ) -> Result<(), Error>
        requires { CanResolve (seen_as (λ s. key_entries s.set.keys)
            (entries_spelling E K.Archived.shape (tuple no_shapes) K.spelling unit_spelling))
            (tree E K.Archived.shape (tuple no_shapes)) self.now resolver out.out.now
            out.start out.pos }
        ensures { Resolves
            (seen_as (λ s. key_entries s.set.keys) (entries_spelling E K.Archived.shape (tuple no_shapes) K.spelling unit_spelling))
            (tree E K.Archived.shape (tuple no_shapes)) self.now resolver out.entry.pos out.entry.start
            out.entry.out.now out.exit.0.now result }
    {
        let Place {
            out,
            start,
            pos,
            ..
        } = out;
        ArchivedBTreeSet::<K::Archived, E>::resolve_from_len(
            self.set.len(),
            resolver,
            Place::within(out, start, pos),
        )
    }

    ghost spells = { λ fit m. seen_spells_at fit (tree E K.Archived.shape (tuple no_shapes)) (both K.Archived.knows ⟦<() as Portable>⟧.knows) (λ n. key_entries n.set.keys) (entries_spelling E K.Archived.shape (tuple no_shapes) K.spelling unit_spelling) m
        (kept_spells_at fit (tree E K.Archived.shape (tuple no_shapes)) (both K.Archived.knows ⟦<() as Portable>⟧.knows) _ _ (λ r. refl) _
        (key_entries m.set.keys)
        (map_spells fit E K.Archived.shape (tuple no_shapes) (both K.Archived.knows ⟦<() as Portable>⟧.knows) K.spelling unit_spelling
        (known_spells fit K.Archived.shape K.Archived.knows (both K.Archived.knows ⟦<() as Portable>⟧.knows) (λ _ k. k.0) K.spelling (K.spells fit))
        (unit_spells fit (both K.Archived.knows ⟦<() as Portable>⟧.knows)) (key_entries m.set.keys) (λ some. m.some (λ none. some (ap key_entries none))))) };
}
