//! Archives maps of std as hash tables.
ghost use Rattle.std.specs.Prelude.{◌≡◌, refl};
ghost use Rattle.archive_shape_layout.specs.Shape.Shape.{table};
ghost use Rattle.archive_forms_values.specs.Tuples.{tuple2};
ghost use Rattle.archive_forms_laws.specs.Fields.{tuple2_spelling};
ghost use Rattle.archive_forms_laws.specs.Forms.{seen_as};
ghost use Rattle.archive_forms_laws.proofs.Fields.{tuple2_spells};
ghost use Rattle.archive_forms_laws.proofs.Views.{kept_spells, known_spells, seen_spells_at};
ghost use Rattle.archive_forms_values.specs.Parts.{both};
ghost use Rattle.archive_hash_probing.specs.Inputs.{input_hash};
ghost use Rattle.archive_hash_probing.proofs.Small.{input_hash_small};
ghost use Rattle.archive_hash_writing.proofs.SpellingTables.{table_spells};
ghost use Rattle.archive_hash.specs.Owned.{entries_spelling};
ghost use Rattle.archive_hash.specs.Calls.Owned.{CanResolveMap, ResolvesMap};

use crate::map::{LOAD_FACTOR, OwnedHashMap};
use archive_forms_writing::Archive;
use archive_hash_maps::{ArchivedHashMap, HashMapResolver, HashTableResolver};
use archive_hash_probing::FxHasher64;
use archive_shape::{Error, Place};
use std::hash::Hash;

impl<K: Archive + Eq + Hash, V: Archive> Archive for OwnedHashMap<K, V> {
    type Archived = ArchivedHashMap<K::Archived, V::Archived, FxHasher64>;

    type Resolver = HashTableResolver;

    ghost spelling = { seen_as (λ m. m.map.entries) (entries_spelling (λ k. input_hash (K.hash_input k)) K.Archived.shape V.Archived.shape K.spelling V.spelling) };

    fn resolve(
        &self,
        resolver: HashTableResolver,
        out: Place<'_, ArchivedHashMap<K::Archived, V::Archived, FxHasher64>>,
    ) -> Result<(), Error>
        requires { CanResolveMap K.Hash K.Archived.shape V.Archived.shape K.spelling V.spelling self.now resolver out }
        ensures { ResolvesMap K.Hash K.Archived.shape V.Archived.shape K.spelling V.spelling self.now resolver
            out.entry out.exit result }
    {
        let Place {
            out,
            start,
            pos,
            ..
        } = out;
        ArchivedHashMap::<K::Archived, V::Archived, FxHasher64>::resolve_from_len(
            self.map.len(),
            LOAD_FACTOR,
            HashMapResolver { table: resolver },
            Place::within(out, start, pos),
        )
    }

    ghost spells = { λ fit m. seen_spells_at fit (table (tuple2 K.Archived.shape V.Archived.shape)) (both K.Archived.knows V.Archived.knows) (λ n. n.map.entries) (entries_spelling (λ k. input_hash (K.hash_input k)) K.Archived.shape V.Archived.shape K.spelling V.spelling) m
        (kept_spells fit (table (tuple2 K.Archived.shape V.Archived.shape)) (both K.Archived.knows V.Archived.knows) _ _ (λ r. refl) _
        (table_spells fit (tuple2 K.Archived.shape V.Archived.shape) (both K.Archived.knows V.Archived.knows) (tuple2_spelling K.Archived.shape K.spelling V.Archived.shape V.spelling) 7 8 (λ e. input_hash (K.hash_input e.0)) (λ e. input_hash_small (K.hash_input e.0))
        (tuple2_spells fit (both K.Archived.knows V.Archived.knows) K.Archived.shape K.spelling V.Archived.shape V.spelling
        (known_spells fit K.Archived.shape K.Archived.knows (both K.Archived.knows V.Archived.knows) (λ _ k. k.0) K.spelling (K.spells fit))
        (known_spells fit V.Archived.shape V.Archived.knows (both K.Archived.knows V.Archived.knows) (λ _ k. k.1) V.spelling (V.spells fit)))) m.map.entries) };
}
