//! Archives sets of std as hash tables.
ghost use Rattle.std.specs.Prelude.{◌≡◌, refl};
ghost use Rattle.archive_shape_layout.specs.Shape.Shape.{tuple};
ghost use Rattle.archive_shape_layout.specs.Shape.Shapes.{no_shapes};
ghost use Rattle.archive_forms_values.specs.Tuples.{tuple2};
ghost use Rattle.archive_forms_laws.specs.Fields.{tuple2_spelling, unit_spelling};
ghost use Rattle.archive_forms_laws.specs.Forms.{seen_as};
ghost use Rattle.archive_forms_laws.proofs.Fields.{tuple2_spells, unit_spells};
ghost use Rattle.archive_forms_laws.proofs.Views.{kept_spells, known_spells, seen_spells_at};
ghost use Rattle.archive_hash_maps.specs.Sets.{set_shape, set_knows};
ghost use Rattle.archive_hash_probing.specs.Inputs.{input_hash};
ghost use Rattle.archive_hash_probing.proofs.Small.{input_hash_small};
ghost use Rattle.archive_hash_writing.proofs.SpellingTables.{table_spells};
ghost use Rattle.archive_hash.specs.Owned.{entries_spelling, key_entries};
ghost use Rattle.archive_hash.specs.Calls.Owned.{CanResolveSet, ResolvesSet};

use crate::OwnedHashSet;
use crate::map::LOAD_FACTOR;
use archive_forms_writing::Archive;
use archive_hash_maps::{ArchivedHashSet, HashSetResolver, HashTableResolver};
use archive_hash_probing::FxHasher64;
use archive_shape::{Error, Place};
use std::hash::Hash;

impl<K: Archive + Eq + Hash> Archive for OwnedHashSet<K> {
    type Archived = ArchivedHashSet<K::Archived, FxHasher64>;

    type Resolver = HashTableResolver;

    ghost spelling = { seen_as (λ s. key_entries s.set.keys) (entries_spelling (λ k. input_hash (K.hash_input k)) K.Archived.shape (tuple no_shapes) K.spelling unit_spelling) };

    fn resolve(
        &self,
        resolver: HashTableResolver,
        out: Place<'_, ArchivedHashSet<K::Archived, FxHasher64>>,
    ) -> Result<(), Error>
        requires { CanResolveSet K.Hash K.Archived.shape K.spelling self.now resolver out }
        ensures { ResolvesSet K.Hash K.Archived.shape K.spelling self.now resolver out.entry out.exit result }
    {
        let Place {
            out,
            start,
            pos,
            ..
        } = out;
        ArchivedHashSet::<K::Archived, FxHasher64>::resolve_from_len(
            self.set.len(),
            LOAD_FACTOR,
            HashSetResolver { table: resolver },
            Place::within(out, start, pos),
        )
    }

    ghost spells = { λ fit s. seen_spells_at fit (set_shape K.Archived.shape) (set_knows K.Archived.knows) (λ t. key_entries t.set.keys) (entries_spelling (λ k. input_hash (K.hash_input k)) K.Archived.shape (tuple no_shapes) K.spelling unit_spelling) s
        (kept_spells fit (set_shape K.Archived.shape) (set_knows K.Archived.knows) _ _ (λ r. refl) _
        (table_spells fit (tuple2 K.Archived.shape (tuple no_shapes)) (set_knows K.Archived.knows) (tuple2_spelling K.Archived.shape K.spelling (tuple no_shapes) unit_spelling) 7 8 (λ e. input_hash (K.hash_input e.0)) (λ e. input_hash_small (K.hash_input e.0))
        (tuple2_spells fit (set_knows K.Archived.knows) K.Archived.shape K.spelling (tuple no_shapes) unit_spelling
        (known_spells fit K.Archived.shape K.Archived.knows (set_knows K.Archived.knows) (λ _ k. k.0) K.spelling (K.spells fit))
        (unit_spells fit (set_knows K.Archived.knows)))) (key_entries s.set.keys)) };
}
