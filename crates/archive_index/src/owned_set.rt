//! Keys that are archived as an index set, in their order, and read back.
ghost use Rattle.std.specs.Prelude.{◌≡◌, refl};
ghost use Rattle.archive_forms_laws.specs.Fields.{tuple2_spelling, unit_spelling};
ghost use Rattle.archive_forms_laws.specs.Forms.{seen_as};
ghost use Rattle.archive_forms_laws.proofs.Fields.{tuple2_spells, unit_spells};
ghost use Rattle.archive_forms_laws.proofs.Views.{kept_spells, known_spells, seen_spells_at};
ghost use Rattle.archive_forms.specs.Reading.{reads_all, reads_in, reads_key};
ghost use Rattle.archive_hash_maps.specs.Sets.{set_knows};
ghost use Rattle.archive_hash_probing.specs.Inputs.{input_hash};
ghost use Rattle.archive_hash_probing.proofs.Small.{input_hash_small};
ghost use Rattle.archive_hash.specs.Owned.{key_entries};
ghost use Rattle.archive_hash_writing.specs.IndexResolvers.{pairs_spelling, positions_of, resolver_of};
ghost use Rattle.archive_hash_writing.proofs.IndexMaps.{index_spells};
ghost use Rattle.archive_index.specs.Calls.Owned.{CanResolveOwnedSet, ResolvesOwnedSet};
ghost use Rattle.archive_index.specs.Sets.{set_shape, unit_shape};

use crate::set::{ArchivedIndexSet, IndexSetResolver};
use crate::writing::serialize_given_keys;
use archive_forms::{Deserialize, ReadBack};
use archive_forms_writing::{Archive, Serialize};
use archive_hash::LOAD_FACTOR;
use archive_hash_probing::FxHasher64;
use archive_hash_writing::index::IndexMapResolver;
use archive_shape::{Allocator, Error, Place, Ref, Writer};
use std::alloc::Global;
use std::hash::Hash;

/// Keys that are archived as an index set, in their order, by their hashes. At most seven of eight places are full. Keys are
/// not compared: of equal keys each is written, and the first is found.
#[derive(Drop)]
pub struct OwnedIndexSet<K> {
    pub keys: Vec<K>,
}

impl<K: Archive + Hash> Archive for OwnedIndexSet<K> {
    type Archived = ArchivedIndexSet<K::Archived, FxHasher64>;

    type Resolver = IndexMapResolver;

    ghost spelling = { seen_as (λ s. key_entries s.keys.items) (pairs_spelling (λ k. input_hash (K.hash_input k)) K.Archived.shape unit_shape K.spelling unit_spelling) };

    fn resolve(
        &self,
        resolver: IndexMapResolver,
        out: Place<'_, ArchivedIndexSet<K::Archived, FxHasher64>>,
    ) -> Result<(), Error>
        requires { CanResolveOwnedSet K.Hash K.Archived.shape K.spelling self.now resolver out }
        ensures { ResolvesOwnedSet K.Hash K.Archived.shape K.spelling self.now resolver out.entry out.exit result }
    {
        let Place {
            out,
            start,
            pos,
            ..
        } = out;
        ArchivedIndexSet::<K::Archived, FxHasher64>::resolve_from_len(
            self.keys.len(),
            LOAD_FACTOR,
            IndexSetResolver { map: resolver },
            Place::within(out, start, pos),
        )
    }

    ghost spells = { λ fit s. seen_spells_at fit (set_shape K.Archived.shape) (set_knows K.Archived.knows) (λ t. key_entries t.keys.items) (pairs_spelling (λ k. input_hash (K.hash_input k)) K.Archived.shape unit_shape K.spelling unit_spelling) s
        (kept_spells fit (set_shape K.Archived.shape) (set_knows K.Archived.knows) resolver_of positions_of (λ r. refl) _
        (index_spells fit K.Archived.shape unit_shape (set_knows K.Archived.knows) (tuple2_spelling K.Archived.shape K.spelling unit_shape unit_spelling) 7 8 (λ e. input_hash (K.hash_input e.0)) (λ e. input_hash_small (K.hash_input e.0))
        (tuple2_spells fit (set_knows K.Archived.knows) K.Archived.shape K.spelling unit_shape unit_spelling
        (known_spells fit K.Archived.shape K.Archived.knows (set_knows K.Archived.knows) (λ _ k. k.0) K.spelling (K.spells fit))
        (unit_spells fit (set_knows K.Archived.knows)))) (key_entries s.keys.items)) };
}

impl<S: Writer + Allocator, K: Serialize<S> + Hash> Serialize<S> for OwnedIndexSet<K> {
    fn serialize(&self, serializer: &mut S) -> Result<IndexMapResolver, Error> {
        serialize_given_keys(self.keys.len(), self.keys.iter(), LOAD_FACTOR, serializer)
    }
}

impl<K, A: ReadBack<K>> ReadBack<OwnedIndexSet<K>> for ArchivedIndexSet<A, FxHasher64> {
    ghost reads = { reads_in (λ s. s.keys.items) (reads_all (reads_key A.reads)) };
}

impl<K: Archive + Hash + Drop, A: Deserialize<K>> Deserialize<OwnedIndexSet<K>>
    for ArchivedIndexSet<A, FxHasher64> {
    type Pool = A::Pool;

    fn deserialize(
        this: &Ref<'_, ArchivedIndexSet<A, FxHasher64>>,
        alloc: Global,
        deserializer: &mut A::Pool,
    ) -> Result<OwnedIndexSet<K>, Error> {
        let keys = <ArchivedIndexSet<A, FxHasher64> as Deserialize<Vec<K>>>::deserialize(
            this,
            alloc,
            deserializer,
        )?;
        Ok(OwnedIndexSet { keys })
    }
}
