//! The laws of all parts of `archive_hash`. Each is a function with an empty body, whose contract is the law.
ghost use Rattle.std.specs.Prelude.{◌≡◌};
ghost use Rattle.archive_shape_layout.specs.Numbers.{IsLeafShape};
ghost use Rattle.archive_shape_layout.specs.Shape.Shape.{text};
ghost use Rattle.archive_forms.specs.Alike.{AlikeAreEqual};
ghost use Rattle.archive_forms.specs.Faithful.{AreFaithful};
ghost use Rattle.archive_hash.specs.Edited.{EditedMapAnswers, HasOneValue};
ghost use Rattle.archive_hash.specs.Calls.Laws.{WrittenMapAnswers, MapWrittenAtAnswers, SetWrittenAtAnswers, MapsAreReadBack, SetsAreReadBack, ValuesAreReadable};

use crate::keys::HashedKeyOf;
use crate::{OwnedHashMap, OwnedHashSet};
use archive_forms::ReadBack;
use archive_forms_writing::Archive;
pub use archive_hash_maps::found_is_present;
pub use archive_hash_maps::walking::{
    items_descend, keys_stay, one_hash, one_table, table_is_read, table_stays,
};
use archive_hash_maps::{ArchivedHashMap, ArchivedHashSet};
use archive_hash_probing::FxHasher64;
pub use archive_hash_probing::{
    counts_to_the_place, every_place_is_shown, few_strides, one_answer,
};
pub use archive_hash_writing::{each_is_filled, tables_are_written};
use archive_shape::Portable;
use std::hash::{Hash, Hasher};

/// The archive of a map has the entries that it was written of: they are its items, in some order, and a look-up of a
/// key returns the first entry with the key, and nothing if there is none. Each key can be passed to `index`.
pub fn written_map_answers<Q: Hash, K: Archive + Hash, V: Archive>()
where
    K::Archived: HashedKeyOf<K, Q>,
    ensures { WrittenMapAnswers K.Archived.HashedKey K.Archived.key V.Archived.Portable K.spelling V.spelling K.Hash Q.Hash
        ⟦<FxHasher64 as Default>⟧ ⟦<FxHasher64 as Hasher>⟧ }
{}

/// A map that was written anywhere in an archive, as in a struct, a list or another map, has, where it can be read, the
/// entries that it was written of, as [`written_map_answers`] states of the root, and a set has its keys. Each must suit
/// the fit that binds nothing, as all do where no key and no value holds a shared pointer; how the table is filled need
/// not be known.
pub fn map_written_at_answers<Q: Hash, K: Archive + Eq + Hash, V: Archive>()
where
    K::Archived: HashedKeyOf<K, Q>,
    ensures maps { MapWrittenAtAnswers K.Archived.HashedKey K.Archived.key K.spelling Q.Hash ⟦<FxHasher64 as Default>⟧
        ⟦<FxHasher64 as Hasher>⟧ V.Archived.Portable V.spelling ⟦<OwnedHashMap<K, V> as Archive>⟧ }
    ensures sets { SetWrittenAtAnswers K.Archived.HashedKey K.Archived.key K.spelling Q.Hash ⟦<FxHasher64 as Default>⟧
        ⟦<FxHasher64 as Hasher>⟧ ⟦<OwnedHashSet<K> as Archive>⟧ }
{}

/// Where a written map can be read, so can the value that [`ArchivedHashMap::get`] returns: that of the first entry with
/// the key. Nothing is returned if there is none. So a look-up in a map that is a value of another map is known too.
pub fn values_are_readable<Q: Hash, K: Archive + Eq + Hash, V: Archive>()
where
    K::Archived: HashedKeyOf<K, Q>,
    ensures { ValuesAreReadable K.Archived.HashedKey K.Archived.key K.spelling Q.Hash ⟦<FxHasher64 as Default>⟧
        ⟦<FxHasher64 as Hasher>⟧ V.Archived.Portable V.spelling ⟦<OwnedHashMap<K, V> as Archive>⟧ }
{}

/// Where the value of the entry that a look-up of a key finds is written over in place, the map answers for its entries
/// with the new value: a look-up of the key returns it, and look-ups of other keys return what they did. The key may be
/// among the entries at most once, as in a map of std; and what [`held_once`] states has to hold of keys and values, as
/// it does of numbers, truth values, chars and texts.
pub fn edited_map_answers<Q: Hash, K: Archive + Hash, V: Archive>()
where
    K::Archived: HashedKeyOf<K, Q>,
    ensures { EditedMapAnswers K.Archived.HashedKey K.Archived.key K.spelling Q.Hash ⟦<FxHasher64 as Default>⟧
        ⟦<FxHasher64 as Hasher>⟧ V.Archived.Portable V.spelling }
{}

/// Bytes have at most one number, truth value, char or text at a position, whatever was read before it.
pub fn held_once<T: Portable>()
    ensures leaves { IsLeafShape T.shape → HasOneValue T.shape T.knows }
    ensures texts { T.shape ≡ text → HasOneValue T.shape T.knows }
{}

/// What a map of std is archived as is read back as maps that have its entries, in some order, and a set as sets that have
/// its elements: no more, no fewer and no others, and each look-up returns the same. They are the same values where values
/// of their types that are archived alike are one. Bytes that were not written of a map may have equal keys; of these the
/// law does not speak.
pub fn maps_are_read_back<K: Archive + Eq + Hash, V: Archive, A: ReadBack<K>, B: ReadBack<V>>()
    requires keys { AreFaithful K.Archive A.ReadBack }
    requires values { AreFaithful V.Archive B.ReadBack }
    requires alike { AlikeAreEqual K.spelling K.eq }
    ensures maps { MapsAreReadBack ⟦<OwnedHashMap<K, V> as Archive>⟧
        ⟦<ArchivedHashMap<A, B, FxHasher64> as ReadBack<OwnedHashMap<K, V>>>⟧
        (λ m. m.map) K.eq K.spelling V.spelling }
    ensures sets { SetsAreReadBack ⟦<OwnedHashSet<K> as Archive>⟧
        ⟦<ArchivedHashSet<A, FxHasher64> as ReadBack<OwnedHashSet<K>>>⟧
        (λ s. s.set) K.eq K.spelling }
{}
