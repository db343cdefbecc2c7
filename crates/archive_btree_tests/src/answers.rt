//! Tests of what the archives of maps and sets answer, by the laws of those that were written.
ghost use Rattle.std.specs.Prelude.{◌≡◌, ℕ, List, IfOk};
ghost use Rattle.archive_shape_canonical.specs.Canonical.{AreBytes};
ghost use Rattle.archive_forms_laws.specs.Fields.{unit_spelling};
ghost use Rattle.archive_forms_laws.specs.Sample.{number_shape, number_spelling};
ghost use Rattle.archive_forms_laws.specs.State.{State};
ghost use Rattle.archive_btree_maps.specs.Maps.{HasMap};
ghost use Rattle.archive_btree_maps.specs.Sets.{HasSet, unit_shape};
ghost use Rattle.archive_btree.specs.Owned.{entries_spelling, key_entries};
ghost use Rattle.archive_btree_tests.specs.Answers.{any, has_key, number_from, number_with, IsAnswered};

use crate::archives::Numbers;
use crate::writing::{numbers, set_of};
use archive_btree::laws::{
    ranges_are_of_entries, set_written_at_answers, spelled_as_entries, values_are_readable,
    written_map_answers,
};
use archive_btree::{ArchivedBTreeMap, ArchivedBTreeSet, OwnedBTreeMap, OwnedBTreeSet};
use archive_core::laws::{part_is_held, root_is_written, unshared_suits};
use archive_core::{Archive, access, to_bytes};
use archive_forms_values::native_of;
use archive_shape::{ArchivedU32, Error, Ref};
use std::alloc::Global;
use std::ops::RangeFrom;

/// Each byte is less than 256.
fn each_is_a_byte(bytes: &[u8])
    ensures { AreBytes bytes.now }
{}

/// Returns the number of a key in an archived map, if the map has the key.
fn number_of(map: Ref<'_, Numbers>, key: u32) -> Option<u32>
    requires { HasMap 5 number_shape number_shape any any map }
    ensures { (es : List (ℕ × ℕ)) → IsAnswered number_shape number_spelling map.entry.bytes.now map.entry.pos es
        → result ≡ number_with key es }
{
    match ArchivedBTreeMap::get(map, &key) {
        Some(number) => Some(native_of(number)),
        None => None,
    }
}

/// Returns the number of the least key in an archived map that is not less than `start`, if the map has one.
fn first_from(map: Ref<'_, Numbers>, start: u32) -> Option<u32>
    requires { HasMap 5 number_shape number_shape any any map }
    ensures { (es : List (ℕ × ℕ)) → AreBytes map.entry.bytes.now
        → IsAnswered number_shape number_spelling map.entry.bytes.now map.entry.pos es
        → result ≡ number_from start es }
{
    ranges_are_of_entries::<u32, RangeFrom<u32>, u32, u32, 5>(map);
    let mut entries = ArchivedBTreeMap::range(map, start..);
    match entries.next() {
        Some((_key, number)) => Some(native_of(number)),
        None => None,
    }
}

/// Archives a map. Returns the number of a key in the archive, and that of the least key that is not less than it: those of
/// the map.
fn in_archive(
    alloc: Global,
    map: &OwnedBTreeMap<u32, u32, 5>,
    key: u32,
) -> Result<(Option<u32>, Option<u32>), Error>
    ensures { IfOk result (λ r. (r.0 ≡ number_with key map.now.map.entries) × (r.1 ≡ number_from key map.now.map.entries)) }
{
    written_map_answers::<u32, u32, u32, 5>(map);
    let bytes = to_bytes(alloc, map)?;
    each_is_a_byte(&bytes);
    let archive = bytes.as_slice();
    let root = access::<Numbers>(alloc, archive)?;
    Ok((number_of(root, key), first_from(root, key)))
}

/// Archives a map, and returns the number that a look-up of a key finds in the archive: that of the map.
fn found_in_archive(
    alloc: Global,
    map: &OwnedBTreeMap<u32, u32, 5>,
    key: u32,
) -> Result<Option<u32>, Error>
    ensures { IfOk result (λ number. number ≡ number_with key map.now.map.entries) }
{
    values_are_readable::<u32, u32, u32, 5>(map);
    part_is_held::<u32>();
    root_is_written::<OwnedBTreeMap<u32, u32, 5>>();
    unshared_suits::<OwnedBTreeMap<u32, u32, 5>>();
    let bytes = to_bytes(alloc, map)?;
    let archive = bytes.as_slice();
    let root = access::<Numbers>(alloc, archive)?;
    each_is_a_byte(root.bytes);
    match ArchivedBTreeMap::get(root, &key) {
        Some(number) => Ok(Some(native_of(number))),
        None => Ok(None),
    }
}

/// The data that is written of a map is that of its entries, and of a set that of its keys beside `()`.
fn data_is_of_entries<K: Archive + Ord, V: Archive, const E: usize>()
    ensures maps { (map : _) (st : State) → ⟦<OwnedBTreeMap<K, V, E> as Archive>⟧.spelling.piece map st
        ≡ (entries_spelling E K.Archived.shape V.Archived.shape K.spelling V.spelling).piece map.map.entries st }
    ensures sets { (set : _) (st : State) → ⟦<OwnedBTreeSet<K, E> as Archive>⟧.spelling.piece set st
        ≡ (entries_spelling E K.Archived.shape unit_shape K.spelling unit_spelling).piece (key_entries set.set.keys) st }
{
    spelled_as_entries::<K, V, E>();
}

/// Archives a set, and returns whether the archive has a key: as the set does.
fn is_in_archive(alloc: Global, set: &OwnedBTreeSet<u32, 5>, key: u32) -> Result<bool, Error>
    ensures { IfOk result (λ has. has ≡ has_key key (key_entries set.now.set.keys)) }
{
    set_written_at_answers::<u32, u32, 5>(set);
    root_is_written::<OwnedBTreeSet<u32, 5>>();
    let bytes = to_bytes(alloc, set)?;
    each_is_a_byte(&bytes);
    let archive = bytes.as_slice();
    let root = access::<ArchivedBTreeSet<ArchivedU32, 5>>(alloc, archive)?;
    Ok(has_number(root, key))
}

/// Returns whether an archived set has a key.
fn has_number(set: Ref<'_, ArchivedBTreeSet<ArchivedU32, 5>>, key: u32) -> bool
    requires { HasSet 5 number_shape any set.bytes.now set.pos }
    ensures { (es : _) → IsAnswered unit_shape unit_spelling set.entry.bytes.now set.entry.pos es → result ≡ has_key key es }
{
    ArchivedBTreeSet::contains_key(set, &key)
}

/// Keys of the map from 1, 3, 5, 7, 9 and 11 to 10, 30, 50, 70, 90 and 110, their numbers, and those of the least key from
/// them on.
const ROWS: [(u32, Option<u32>, Option<u32>); 6] = [
    (0, None, Some(10)),
    (1, Some(10), Some(10)),
    (6, None, Some(70)),
    (9, Some(90), Some(90)),
    (10, None, Some(110)),
    (12, None, None),
];

#[test]
fn archives_of_maps_and_sets_answer_as_they_do(rt: HostRuntime) {
    let keys = [1, 3, 5, 7, 9, 11];
    data_is_of_entries::<u32, u32, 5>();
    for &(key, number, from) in &ROWS {
        let alloc = rt.alloc();
        let Some(map) = numbers(alloc, &keys, &[10, 30, 50, 70, 90, 110]) else {
            panic!(rt; "out of memory")
        };
        let Some(set) = set_of(alloc, &keys) else {
            panic!(rt; "out of memory")
        };
        let has = number.is_some();
        assert!(rt;
            in_archive(alloc, &map, key).ok() == Some((number, from))
                && found_in_archive(alloc, &map, key).ok() == Some(number)
                && is_in_archive(alloc, &set, key).ok() == Some(has)
        );
    }
}
