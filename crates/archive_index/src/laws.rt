//! Laws of index maps that are written and read back. Each function below has no body: its contract is the law.
ghost use Rattle.std.specs.Prelude.{◌≡◌};
ghost use Rattle.archive_forms.specs.Faithful.{AreFaithful, IsFaithful};
ghost use Rattle.archive_forms_laws.specs.Orders.{no_fields_equality, no_fields_hashed, more_fields_equality, more_fields_hashed, tuple_equality, tuple_hashed, unit_equality, vector_equality, vector_hashed};
ghost use Rattle.archive_hash.specs.Owned.{key_entries};
ghost use Rattle.archive_index.specs.Calls.Laws.{MapWrittenAtAnswers, MapsAreFaithful, MapsAreReadBack, OwnedIsWritten, OwnedMapsAreReadBack, OwnedSetsAreReadBack, PlainIsWritten, SetWrittenAtAnswers, SetsAreFaithful, SetsAreReadBack, ValuesAreReadable, WrittenMapAnswers};

use crate::map::ArchivedIndexMap;
use crate::set::ArchivedIndexSet;
use crate::{OwnedIndexMap, OwnedIndexSet};
use archive_forms::ReadBack;
use archive_forms_comparing::{ArchivedEq, ArchivedHash};
use archive_forms_writing::Archive;
use archive_hash::HashedKeyOf;
use archive_hash_probing::FxHasher64;
use archive_shape::Portable;
use std::hash::{Hash, Hasher};

/// States that the archive of an index map has the entries that it was written of, in their order, and that a look-up of
/// a key finds the number of the first entry with the key, and nothing if there is none.
pub fn written_map_answers<Q: Hash, K: Archive + Hash, V: Archive>()
where
    K::Archived: HashedKeyOf<K, Q>,
    ensures { WrittenMapAnswers K.Archived.HashedKey K.Archived.key V.Archived.Portable K.spelling V.spelling K.Hash Q.Hash
        ⟦<FxHasher64 as Default>⟧ ⟦<FxHasher64 as Hasher>⟧ }
{}

/// States that an index map that was written anywhere in an archive, as in a struct, a list or another map, has, where it
/// can be read, the entries that it was written of, as by [`written_map_answers`] the map that is the root of an archive,
/// and a set has its keys. It must suit some fit: each map without shared pointers suits the one that binds nothing, and
/// how its table is filled need not be known.
pub fn map_written_at_answers<Q: Hash, K: Archive + Hash, V: Archive>()
where
    K::Archived: HashedKeyOf<K, Q>,
    ensures maps { MapWrittenAtAnswers K.Archived.HashedKey K.Archived.key K.spelling Q.Hash ⟦<FxHasher64 as Default>⟧
        ⟦<FxHasher64 as Hasher>⟧ V.Archived.Portable V.spelling ⟦<OwnedIndexMap<K, V> as Archive>⟧ }
    ensures sets { SetWrittenAtAnswers K.Archived.HashedKey K.Archived.key K.spelling Q.Hash ⟦<FxHasher64 as Default>⟧
        ⟦<FxHasher64 as Hasher>⟧ ⟦<OwnedIndexSet<K> as Archive>⟧ }
{}

/// States that where a written map can be read, so can the value that [`ArchivedIndexMap::get`] returns: that of the
/// first entry with the key. Nothing is returned if there is none.
pub fn values_are_readable<Q: Hash, K: Archive + Hash, V: Archive>()
where
    K::Archived: HashedKeyOf<K, Q>,
    ensures { ValuesAreReadable K.Archived.HashedKey K.Archived.key K.spelling Q.Hash ⟦<FxHasher64 as Default>⟧
        ⟦<FxHasher64 as Hasher>⟧ V.Archived.Portable V.spelling ⟦<OwnedIndexMap<K, V> as Archive>⟧ }
{}

/// States that what is written of an `OwnedIndexMap` as a whole archive is the archive of an index map of its pairs,
/// for which [`written_map_answers`] holds: under each fit that binds and suits it, and without one where each fit
/// suits all keys and values, as where they have no tables.
pub fn owned_map_is_written<K: Archive + Hash, V: Archive>()
    ensures fitted { OwnedIsWritten K.Archived.Portable V.Archived.Portable K.spelling V.spelling K.Hash
        ⟦<OwnedIndexMap<K, V> as Archive>⟧ (λ m. m.pairs.items) }
    ensures plain { PlainIsWritten K.Archived.Portable V.Archived.Portable K.spelling V.spelling K.Hash
        ⟦<OwnedIndexMap<K, V> as Archive>⟧ (λ m. m.pairs.items) }
{}

/// States the same of an `OwnedIndexSet`, whose archive is that of an index map of its keys, each with `()`.
pub fn owned_set_is_written<K: Archive + Hash>()
    ensures fitted { OwnedIsWritten K.Archived.Portable ⟦<() as Portable>⟧ K.spelling ⟦<() as Archive>⟧.spelling K.Hash
        ⟦<OwnedIndexSet<K> as Archive>⟧ (λ s. key_entries s.keys.items) }
    ensures plain { PlainIsWritten K.Archived.Portable ⟦<() as Portable>⟧ K.spelling ⟦<() as Archive>⟧.spelling K.Hash
        ⟦<OwnedIndexSet<K> as Archive>⟧ (λ s. key_entries s.keys.items) }
{}

/// States that index maps and sets are read back as lists, and as an `OwnedIndexMap` and an `OwnedIndexSet`, that are
/// archived as the values they were read of, where their keys and values are. Only the entries and their order are meant:
/// the places of a table that was not written so may be others.
pub fn index_maps_are_faithful<K: Archive + Hash, V: Archive, A: ReadBack<K>, B: ReadBack<V>>()
    requires keys { IsFaithful K.spelling A.reads }
    requires values { IsFaithful V.spelling B.reads }
    ensures maps { MapsAreFaithful K.Hash K.Archived.shape V.Archived.shape K.spelling V.spelling
        ⟦<ArchivedIndexMap<A, B, FxHasher64> as ReadBack<Vec<(K, V)>>>⟧ }
    ensures sets { SetsAreFaithful K.Hash K.Archived.shape K.spelling
        ⟦<ArchivedIndexSet<A, FxHasher64> as ReadBack<Vec<K>>>⟧ }
    ensures owned_maps { AreFaithful ⟦<OwnedIndexMap<K, V> as Archive>⟧
        ⟦<ArchivedIndexMap<A, B, FxHasher64> as ReadBack<OwnedIndexMap<K, V>>>⟧ }
    ensures owned_sets { AreFaithful ⟦<OwnedIndexSet<K> as Archive>⟧
        ⟦<ArchivedIndexSet<A, FxHasher64> as ReadBack<OwnedIndexSet<K>>>⟧ }
{}

/// States that index maps and sets are equal where they have the same number of entries and these are equal one by one,
/// in order, by their keys and their values, and those of sets by their keys.
pub fn index_maps_are_equal_in_order<K: ArchivedEq, V: ArchivedEq, H>()
    ensures maps { ⟦<ArchivedIndexMap<K, V, H> as ArchivedEq>⟧.equal
        ≡ vector_equality (tuple_equality (more_fields_equality K.equal (more_fields_equality V.equal no_fields_equality))) }
    ensures sets { ⟦<ArchivedIndexSet<K, H> as ArchivedEq>⟧.equal
        ≡ vector_equality (tuple_equality (more_fields_equality K.equal (more_fields_equality unit_equality no_fields_equality))) }
{}

/// States that what is hashed of an index map is the number of its entries and then each of them, in order.
pub fn index_maps_are_hashed_in_order<K: ArchivedHash, V: ArchivedHash, H>()
    ensures { ⟦<ArchivedIndexMap<K, V, H> as ArchivedHash>⟧.hashed
        ≡ vector_hashed (tuple_hashed (more_fields_hashed K.hashed (more_fields_hashed V.hashed no_fields_hashed))) }
{}

/// What an index map is archived as is read back as lists that have its pairs, in order, and what an index set is as lists
/// that have its keys: no more, no fewer and no others. They are the same values where values of their types that are
/// archived alike are one. So are an `OwnedIndexMap` and an `OwnedIndexSet`.
pub fn index_maps_are_read_back<K: Archive + Hash, V: Archive, A: ReadBack<K>, B: ReadBack<V>>()
    requires keys { IsFaithful K.spelling A.reads }
    requires values { IsFaithful V.spelling B.reads }
    ensures maps { MapsAreReadBack K.Hash K.Archived.shape V.Archived.shape K.spelling V.spelling
        ⟦<ArchivedIndexMap<A, B, FxHasher64> as ReadBack<Vec<(K, V)>>>⟧ }
    ensures sets { SetsAreReadBack K.Hash K.Archived.shape K.spelling
        ⟦<ArchivedIndexSet<A, FxHasher64> as ReadBack<Vec<K>>>⟧ }
    ensures owned_maps { OwnedMapsAreReadBack ⟦<OwnedIndexMap<K, V> as Archive>⟧
        ⟦<ArchivedIndexMap<A, B, FxHasher64> as ReadBack<OwnedIndexMap<K, V>>>⟧ K.spelling V.spelling }
    ensures owned_sets { OwnedSetsAreReadBack ⟦<OwnedIndexSet<K> as Archive>⟧
        ⟦<ArchivedIndexSet<A, FxHasher64> as ReadBack<OwnedIndexSet<K>>>⟧ K.spelling }
{}
