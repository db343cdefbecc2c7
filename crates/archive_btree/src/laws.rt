//! The laws of all parts of `archive_btree`. Each is a function whose contract is the law, and whose body is empty, but
//! for those that ask a map of std whether its keys ascend.
ghost use Rattle.std.specs.Prelude.{ℕ, ◌<◌, List, length};
ghost use Rattle.archive_shape_layout.specs.Shape.Shape.{tree, tuple};
ghost use Rattle.archive_shape_layout.specs.Shape.Shapes.{no_shapes};
ghost use Rattle.archive_shape_layout.specs.Holds.{root_position};
ghost use Rattle.archive_shape_canonical.specs.Canonical.{AreBytes};
ghost use Rattle.archive_shape.specs.Key.{HeldAt};
ghost use Rattle.archive_forms_values.specs.Parts.{both};
ghost use Rattle.archive_forms_laws.specs.State.{State};
ghost use Rattle.archive_forms_laws.specs.Fields.{unit_spelling};
ghost use Rattle.archive_forms_laws.specs.Forms.{seen_as};
ghost use Rattle.archive_forms.specs.Alike.{AlikeAreEqual};
ghost use Rattle.archive_forms.specs.Faithful.{AreFaithful};
ghost use Rattle.archive_btree_spelling.specs.Maps.{btree_spelling};
ghost use Rattle.archive_btree.specs.Answering.{IsWrittenMap, KeysAscend, AnswersKeys};
ghost use Rattle.archive_btree.specs.Laws.{AnswersUnshared, AnswersWhereWritten, MapsAreReadBack, RangesAreOfEntries, SetsAreReadBack, ValuesAreReadable};
ghost use Rattle.archive_btree.specs.Owned.{entries_spelling, key_entries, IsSpelledAs};

use crate::{OwnedBTreeMap, OwnedBTreeSet};
pub use archive_btree_layout::{
    descent_finds, descent_is_equal, descent_meets, nodes_stay, one_packed, packed_height,
    packed_is_least, pairs_stay, tree_is_read, tree_stays, values_apart,
};
pub use archive_btree_maps::walking::{map_is_read, one_map};
pub use archive_btree_maps::{
    equal_maps_are_hashed_alike, equal_sets_are_hashed_alike, found_is_present,
    map_equalities_are_equivalences, maps_are_equal_by_entries, maps_are_hashed_by_entries,
    set_equalities_are_equivalences, set_is_read, sets_are_equal_by_keys, sets_are_hashed_by_keys,
};
use archive_btree_maps::{ArchivedBTreeMap, ArchivedBTreeSet};
pub use archive_btree_spelling::{
    maps_are_packed, maps_are_written, six_pairs_are_written, trees_are_packed, written_is_least,
    written_is_packed, written_is_read,
};
use archive_forms::ReadBack;
use archive_forms_writing::{Archive, KeyOf, OrderedKeyOf};
use archive_shape::{Portable, Ref};
use std::ops::RangeBounds;

/// The archive of entries whose keys ascend has the entries that it was written of, in order, and a look-up of a key
/// returns the entry with the key, and nothing if there is none. Each key can be passed to `index`.
pub fn written_entries_answer<Q, K: Archive, V: Archive, const E: usize>()
where
    K::Archived: KeyOf<K, Q>,
    ensures { (bytes : List ℕ) (es : List (K × V)) → 0 < E
        → IsWrittenMap E K.Archived.shape V.Archived.shape K.Archived.knows V.Archived.knows K.spelling V.spelling bytes es
        → KeysAscend E K.Archived.shape V.Archived.shape K.Archived.knows V.Archived.knows K.spelling V.spelling bytes K.Archived.key K.Archived.order es
        → AnswersKeys E K.Archived.shape V.Archived.shape K.Archived.knows V.Archived.knows K.spelling V.spelling bytes K.Archived.key K.Archived.order
        K.Archived.key_of (root_position (length bytes) (tree E K.Archived.shape V.Archived.shape)) es }
{}

/// The archive of a map of std has the map's entries and answers its keys in the same way, because the keys of such a
/// map ascend, and archived keys are in the order of the keys.
pub fn written_map_answers<Q, K: Archive + Ord, V: Archive, const E: usize>(
    map: &OwnedBTreeMap<K, V, E>,
)
where
    K::Archived: OrderedKeyOf<K, Q>,
    ensures { (bytes : List ℕ) → 0 < E
        → IsWrittenMap E K.Archived.shape V.Archived.shape K.Archived.knows V.Archived.knows K.spelling V.spelling bytes map.now.map.entries
        → AnswersKeys E K.Archived.shape V.Archived.shape K.Archived.knows V.Archived.knows K.spelling V.spelling bytes K.Archived.key K.Archived.order
        K.Archived.key_of (root_position (length bytes) (tree E K.Archived.shape V.Archived.shape)) map.now.map.entries }
{
    // The call ensures that the keys ascend.
    let _len = map.map.len();
}

/// Where the layout has what is written of entries whose keys ascend, at any position, as in a struct, a list or another
/// map, it has these entries, in order, and look-ups return them in the same way.
pub fn held_entries_answer<Q, K: Archive, V: Archive, const E: usize>()
where
    K::Archived: KeyOf<K, Q>,
    ensures { (bytes : List ℕ) (pos : ℕ) (es : List (K × V)) (st : State) → 0 < E → AreBytes bytes
        → HeldAt (tree E K.Archived.shape V.Archived.shape) (both K.Archived.knows V.Archived.knows) bytes pos
        ((btree_spelling E K.Archived.shape V.Archived.shape K.spelling V.spelling).value es st)
        → KeysAscend E K.Archived.shape V.Archived.shape K.Archived.knows V.Archived.knows K.spelling V.spelling bytes K.Archived.key K.Archived.order es
        → AnswersKeys E K.Archived.shape V.Archived.shape K.Archived.knows V.Archived.knows K.spelling V.spelling bytes K.Archived.key K.Archived.order
        K.Archived.key_of pos es }
{}

/// A map of std answers its keys in the same way where the layout has what is written of it, at any position.
pub fn held_map_answers<Q, K: Archive + Ord, V: Archive, const E: usize>(
    map: &OwnedBTreeMap<K, V, E>,
)
where
    K::Archived: OrderedKeyOf<K, Q>,
    ensures { (bytes : List ℕ) (pos : ℕ) (st : State) → 0 < E → AreBytes bytes
        → HeldAt (tree E K.Archived.shape V.Archived.shape) (both K.Archived.knows V.Archived.knows) bytes pos
        (⟦<OwnedBTreeMap<K, V, E> as Archive>⟧.spelling.value map.now st)
        → AnswersKeys E K.Archived.shape V.Archived.shape K.Archived.knows V.Archived.knows K.spelling V.spelling bytes K.Archived.key K.Archived.order
        K.Archived.key_of pos map.now.map.entries }
{
    // The call ensures that the keys ascend.
    let _len = map.map.len();
}

/// A map of std answers its keys, as [`written_map_answers`] states, at any position where it was written: if some fit suits it and the
/// shared values that were written before it have their values, or if no key and no value holds a shared pointer.
pub fn map_written_at_answers<Q, K: Archive + Ord, V: Archive, const E: usize>(
    map: &OwnedBTreeMap<K, V, E>,
)
where
    K::Archived: OrderedKeyOf<K, Q>,
    ensures shared { AnswersWhereWritten E K.Archived.ArchivedKey K.Archived.key K.spelling V.Archived.Portable V.spelling
        ⟦<OwnedBTreeMap<K, V, E> as Archive>⟧ (λ m. m.map.entries) map.now }
    ensures unshared { AnswersUnshared E K.Archived.ArchivedKey K.Archived.key K.spelling V.Archived.Portable V.spelling
        ⟦<OwnedBTreeMap<K, V, E> as Archive>⟧ (λ m. m.map.entries) map.now }
{
    // The call ensures that the keys ascend.
    let _len = map.map.len();
}

/// A set of std answers its keys at any position where it was written, as a map of them to `()`.
pub fn set_written_at_answers<Q, K: Archive + Ord, const E: usize>(set: &OwnedBTreeSet<K, E>)
where
    K::Archived: OrderedKeyOf<K, Q>,
    ensures shared { AnswersWhereWritten E K.Archived.ArchivedKey K.Archived.key K.spelling ⟦<() as Portable>⟧ unit_spelling
        ⟦<OwnedBTreeSet<K, E> as Archive>⟧ (λ s. key_entries s.set.keys) set.now }
    ensures unshared { AnswersUnshared E K.Archived.ArchivedKey K.Archived.key K.spelling ⟦<() as Portable>⟧ unit_spelling
        ⟦<OwnedBTreeSet<K, E> as Archive>⟧ (λ s. key_entries s.set.keys) set.now }
{
    // The call ensures that the keys ascend.
    let _len = set.set.len();
}

/// What [`ArchivedBTreeMap::range`] returns of a map that answers its keys: the entries whose keys lie between the bounds,
/// one by one and in order, each at its place. No order of the places need be given.
pub fn ranges_are_of_entries<Q, R: RangeBounds<Q>, K: Archive, V: Archive, const E: usize>(
    this: Ref<'_, ArchivedBTreeMap<K::Archived, V::Archived, E>>,
)
where
    K::Archived: KeyOf<K, Q>,
    ensures { RangesAreOfEntries E K.Archived.Portable K.Archived.ArchivedKey K.Archived.key K.spelling V.Archived.Portable V.spelling R.RangeBounds
        this.entry }
{}

/// Where a written map can be read, so can the value that [`ArchivedBTreeMap::get`] returns: that of the entry with the key.
/// Nothing is returned if there is none. So a look-up in a map that is a value of another map is known too.
pub fn values_are_readable<Q, K: Archive + Ord, V: Archive, const E: usize>(
    map: &OwnedBTreeMap<K, V, E>,
)
where
    K::Archived: OrderedKeyOf<K, Q>,
    ensures { ValuesAreReadable E K.Archived.ArchivedKey K.Archived.key V.Archived.Portable V.spelling
        ⟦<OwnedBTreeMap<K, V, E> as Archive>⟧ (λ m. m.map.entries) map.now }
{
    // The call ensures that the keys ascend.
    let _len = map.map.len();
}

/// A map of std is archived as its entries in order, and a set as the entries of its elements: the laws above are of
/// these.
pub fn spelled_as_entries<K: Archive + Ord, V: Archive, const E: usize>()
    ensures maps { IsSpelledAs ⟦<OwnedBTreeMap<K, V, E> as Archive>⟧.spelling
        (seen_as (λ m. m.map.entries) (entries_spelling E K.Archived.shape V.Archived.shape K.spelling V.spelling)) }
    ensures sets { IsSpelledAs ⟦<OwnedBTreeSet<K, E> as Archive>⟧.spelling
        (seen_as (λ s. key_entries s.set.keys) (entries_spelling E K.Archived.shape (tuple no_shapes) K.spelling unit_spelling)) }
{}

/// What a map of std is archived as is read back as maps that have its entries, in order, and a set as sets that have its
/// elements: no more, no fewer and no others. They are the same values where values of their types that are archived
/// alike are one. Bytes that were not written of a map may have keys in another order, or equal ones; of these the law
/// does not speak.
pub fn maps_are_read_back<
    K: Archive + Ord,
    V: Archive,
    A: ReadBack<K>,
    B: ReadBack<V>,
    const E: usize,
>()
    requires keys { AreFaithful K.Archive A.ReadBack }
    requires values { AreFaithful V.Archive B.ReadBack }
    requires alike { AlikeAreEqual K.spelling K.eq }
    ensures maps { MapsAreReadBack ⟦<OwnedBTreeMap<K, V, E> as Archive>⟧
        ⟦<ArchivedBTreeMap<A, B, E> as ReadBack<OwnedBTreeMap<K, V, E>>>⟧
        (λ m. m.map.entries) K.cmp K.spelling V.spelling }
    ensures sets { SetsAreReadBack ⟦<OwnedBTreeSet<K, E> as Archive>⟧
        ⟦<ArchivedBTreeSet<A, E> as ReadBack<OwnedBTreeSet<K, E>>>⟧
        (λ s. s.set.keys) K.cmp K.spelling }
{}
