//! Pairs that are archived as an index map, in their order, and read back.
ghost use Rattle.std.specs.Prelude.{◌≡◌, refl};
ghost use Rattle.archive_shape_layout.specs.Shape.Shape.{index_map};
ghost use Rattle.archive_forms_values.specs.Parts.{both};
ghost use Rattle.archive_forms_laws.specs.Fields.{tuple2_spelling};
ghost use Rattle.archive_forms_laws.specs.Forms.{seen_as};
ghost use Rattle.archive_forms_laws.proofs.Fields.{tuple2_spells};
ghost use Rattle.archive_forms_laws.proofs.Views.{kept_spells, known_spells, seen_spells_at};
ghost use Rattle.archive_forms.specs.Reading.{reads_all, reads_in, reads_tuple2};
ghost use Rattle.archive_hash_probing.specs.Inputs.{input_hash};
ghost use Rattle.archive_hash_probing.proofs.Small.{input_hash_small};
ghost use Rattle.archive_hash_writing.specs.IndexResolvers.{pairs_spelling, positions_of, resolver_of};
ghost use Rattle.archive_hash_writing.proofs.IndexMaps.{index_spells};
ghost use Rattle.archive_index.specs.Calls.Owned.{CanResolveOwned, ResolvesOwned};

use crate::map::ArchivedIndexMap;
use crate::writing::serialize_pairs_each;
use archive_forms::{Deserialize, ReadBack};
use archive_forms_writing::{Archive, ByArchive, Serialize, SerializeEntry};
use archive_hash::LOAD_FACTOR;
use archive_hash_probing::FxHasher64;
use archive_hash_writing::index::IndexMapResolver;
use archive_shape::{Allocator, Error, Place, Ref, Writer};
use std::alloc::Global;
use std::hash::Hash;

/// Pairs of a key and a value that are archived as an index map, in their order, by the hashes of their keys. At most seven
/// of eight places are full. Keys are not compared: of equal keys each is written, and the first is found.
#[derive(Drop)]
pub struct OwnedIndexMap<K, V> {
    pub pairs: Vec<(K, V)>,
}

impl<K: Archive + Hash, V: Archive> Archive for OwnedIndexMap<K, V> {
    type Archived = ArchivedIndexMap<K::Archived, V::Archived, FxHasher64>;

    type Resolver = IndexMapResolver;

    ghost spelling = { seen_as (λ m. m.pairs.items) (pairs_spelling (λ k. input_hash (K.hash_input k)) K.Archived.shape V.Archived.shape K.spelling V.spelling) };

    fn resolve(
        &self,
        resolver: IndexMapResolver,
        out: Place<'_, ArchivedIndexMap<K::Archived, V::Archived, FxHasher64>>,
    ) -> Result<(), Error>
        requires { CanResolveOwned K.Hash K.Archived.shape V.Archived.shape K.spelling V.spelling self.now resolver out }
        ensures { ResolvesOwned K.Hash K.Archived.shape V.Archived.shape K.spelling V.spelling self.now resolver
            out.entry out.exit result }
    {
        let Place {
            out,
            start,
            pos,
            ..
        } = out;
        ArchivedIndexMap::<K::Archived, V::Archived, FxHasher64>::resolve_from_len(
            self.pairs.len(),
            LOAD_FACTOR,
            resolver,
            Place::within(out, start, pos),
        )
    }

    ghost spells = { λ fit m. seen_spells_at fit (index_map K.Archived.shape V.Archived.shape) (both K.Archived.knows V.Archived.knows) (λ n. n.pairs.items) (pairs_spelling (λ k. input_hash (K.hash_input k)) K.Archived.shape V.Archived.shape K.spelling V.spelling) m
        (kept_spells fit (index_map K.Archived.shape V.Archived.shape) (both K.Archived.knows V.Archived.knows) resolver_of positions_of (λ r. refl) _
        (index_spells fit K.Archived.shape V.Archived.shape (both K.Archived.knows V.Archived.knows) (tuple2_spelling K.Archived.shape K.spelling V.Archived.shape V.spelling) 7 8 (λ e. input_hash (K.hash_input e.0)) (λ e. input_hash_small (K.hash_input e.0))
        (tuple2_spells fit (both K.Archived.knows V.Archived.knows) K.Archived.shape K.spelling V.Archived.shape V.spelling
        (known_spells fit K.Archived.shape K.Archived.knows (both K.Archived.knows V.Archived.knows) (λ _ k. k.0) K.spelling (K.spells fit))
        (known_spells fit V.Archived.shape V.Archived.knows (both K.Archived.knows V.Archived.knows) (λ _ k. k.1) V.spelling (V.spells fit)))) m.pairs.items) };
}

impl<S: Writer + Allocator, K: Serialize<S> + Hash, V: Serialize<S>> Serialize<S>
    for OwnedIndexMap<K, V> {
    fn serialize(&self, serializer: &mut S) -> Result<IndexMapResolver, Error> {
        serialize_pairs_each::<K, V, ByArchive, S, SerializeEntry>(
            &ByArchive,
            self.pairs.as_slice(),
            serializer,
            &SerializeEntry,
        )
    }
}

impl<K, V, A: ReadBack<K>, B: ReadBack<V>> ReadBack<OwnedIndexMap<K, V>>
    for ArchivedIndexMap<A, B, FxHasher64> {
    ghost reads = { reads_in (λ m. m.pairs.items) (reads_all (reads_tuple2 A.reads B.reads)) };
}

impl<K: Archive + Hash + Drop, V: Archive + Drop, A: Deserialize<K>, B: Deserialize<V>> Deserialize<
    OwnedIndexMap<K, V>,
> for ArchivedIndexMap<A, B, FxHasher64> {
    type Pool = (A::Pool, B::Pool);

    fn deserialize(
        this: &Ref<'_, ArchivedIndexMap<A, B, FxHasher64>>,
        alloc: Global,
        deserializer: &mut (A::Pool, B::Pool),
    ) -> Result<OwnedIndexMap<K, V>, Error> {
        let pairs = <ArchivedIndexMap<A, B, FxHasher64> as Deserialize<Vec<(K, V)>>>::deserialize(
            this,
            alloc,
            deserializer,
        )?;
        Ok(OwnedIndexMap { pairs })
    }
}
