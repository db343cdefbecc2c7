//! Tests of cursors that write over the values of maps, and of the own bytes of tables.
ghost use Rattle.archive_shape_layout.specs.Shape.Shape.{table};
ghost use Rattle.archive_forms_values.specs.Tuples.{tuple2};
ghost use Rattle.archive_forms_values.specs.Parts.{HasValue, both};

use crate::maps::{Keys, NOTHING, THREE, Texts};
use crate::reading::root_of;
use archive_forms_values::{ArchivedString, ArchivedTuple2};
use archive_hash_maps::{
    ArchivedHashMap, ArchivedHashSet, ArchivedHashTable, HashMapResolver, HashSetResolver,
    HashTableResolver,
};
use archive_shape::{ArchivedU32, Error, OwnSeal, Place, Portable, Seal};
use std::alloc::Global;

/// An archived table of numbers.
type Table = ArchivedHashTable<ArchivedU32>;

/// Fills the own bytes of each value with a byte, in calls that the values are lent to, and returns whether these met the
/// values at the given positions, each with the given number of values left after it.
fn visit_values<K: Portable, V: Portable, H>(
    map: Seal<'_, ArchivedHashMap<K, V, H>>,
    byte: u8,
    expected: &[(usize, usize)],
) -> bool
    requires { HasValue (table (tuple2 K.shape V.shape)) (both K.knows V.knows) map.bytes.now map.pos }
{
    let mut fill = |value: &mut OwnSeal<'_, V>| -> usize {
        value.own.fill(byte);
        value.pos()
    };
    let mut met = 0;
    let mut are_met = true;
    let mut values = ArchivedHashMap::values_seal(map);
    while let Some(at) = values.visit_next(&mut fill) {
        are_met = are_met && expected.get(met) == Some(&(at, values.len()));
        met = usize::wrapping_add(met, 1);
    }
    are_met && met == expected.len()
}

/// Fills each value in calls that the values are lent to, and returns whether these met the values as expected.
fn visits_values(alloc: Global, bytes: &mut [u8], byte: u8, expected: &[(usize, usize)]) -> bool {
    let Ok(root) = root_of::<Texts>(alloc, bytes) else {
        return false;
    };
    let pos = root.pos();
    visit_values(Seal::<Texts>::new(bytes, pos), byte, expected)
}

#[test]
fn calls_that_values_are_lent_to_write_each_value(rt: HostRuntime) {
    let mut bytes = THREE;
    assert!(rt; visits_values(rt.alloc(), &mut bytes, 7, &[(56, 2), (24, 1), (8, 0)]));
    let mut expected = THREE;
    for at in [8, 24, 56] {
        expected[at..at + 8].fill(7);
    }
    let mut nothing = NOTHING;
    assert!(rt; visits_values(rt.alloc(), &mut nothing, 7, &[]));
    assert!(rt; bytes == expected && nothing == NOTHING);
}

/// Returns the positions of the key and the value that a cursor lends first, after filling the value with a byte, and the
/// number of entries that are left after it.
fn fill_first<K: Portable, V: Portable, H>(
    map: Seal<'_, ArchivedHashMap<K, V, H>>,
    byte: u8,
) -> Option<(usize, usize, usize)>
    requires { HasValue (table (tuple2 K.shape V.shape)) (both K.knows V.knows) map.bytes.now map.pos }
{
    let mut entries = ArchivedHashMap::iter_seal(map);
    let (key, value) = match entries.next() {
        Some((key, value)) => {
            value.own.fill(byte);
            (key.pos(), value.pos())
        }
        None => return None,
    };
    Some((key, value, entries.len()))
}

/// Returns the position of the value that a cursor lends first, after filling it with a byte, and the number of values that
/// are left after it.
fn fill_first_value<K: Portable, V: Portable, H>(
    map: Seal<'_, ArchivedHashMap<K, V, H>>,
    byte: u8,
) -> Option<(usize, usize)>
    requires { HasValue (table (tuple2 K.shape V.shape)) (both K.knows V.knows) map.bytes.now map.pos }
{
    let mut values = ArchivedHashMap::values_seal(map);
    let at = match values.next() {
        Some(value) => {
            value.own.fill(byte);
            value.pos()
        }
        None => return None,
    };
    Some((at, values.len()))
}

/// Returns what both return for the map of three texts, and the bytes after the two values were filled.
fn filled_first(alloc: Global) -> Option<((usize, usize, usize), (usize, usize), [u8; 108])> {
    let mut bytes = THREE;
    let Ok(root) = root_of::<Texts>(alloc, &THREE) else {
        return None;
    };
    let pos = root.pos();
    let mut again = THREE;
    let first = fill_first(Seal::<Texts>::new(&mut bytes, pos), 9)?;
    let value = fill_first_value(Seal::<Texts>::new(&mut again, pos), 9)?;
    if bytes == again {
        Some((first, value, bytes))
    } else {
        None
    }
}

#[test]
fn cursors_lend_keys_beside_their_values(rt: HostRuntime) {
    let mut expected = THREE;
    expected[56..64].fill(9);
    assert!(rt; filled_first(rt.alloc()) == Some(((48, 56, 2), (56, 2), expected)));
}

/// Returns the position of the item that a cursor lends first, and the number of items that are left after it.
fn first_item<T: Portable>(of: Seal<'_, ArchivedHashTable<T>>) -> Option<(usize, usize)>
    requires { HasValue (table T.shape) T.knows of.bytes.now of.pos }
{
    let mut items = ArchivedHashTable::raw_iter_seal(of);
    let at = match items.next() {
        Some(item) => item.pos(),
        None => return None,
    };
    Some((at, items.len()))
}

/// The map of three texts as a table of its entries.
type Entries = ArchivedHashTable<ArchivedTuple2<ArchivedString, ArchivedString>>;

#[test]
fn cursors_count_the_items_that_are_left(rt: HostRuntime) {
    let mut bytes = THREE;
    match root_of::<Entries>(rt.alloc(), &THREE) {
        Ok(root) => {
            let pos = root.pos();
            let entries = Seal::<Entries>::new(&mut bytes, pos);
            assert!(rt; first_item(entries) == Some((48, 2)));
        }
        Err(_) => assert!(rt; false),
    }
}

/// Passes the entries of a map, and returns whether these have the given positions of their keys and values, each with
/// the given number of entries left after it.
fn passes_entries<K: Portable, V: Portable, H>(
    map: Seal<'_, ArchivedHashMap<K, V, H>>,
    expected: &[(usize, usize, usize)],
) -> bool
    requires { HasValue (table (tuple2 K.shape V.shape)) (both K.knows V.knows) map.bytes.now map.pos }
{
    let mut met = 0;
    let mut are_met = true;
    let mut entries = ArchivedHashMap::iter_seal(map);
    while let Some(entry) = entries.advance() {
        are_met = are_met && expected.get(met) == Some(&(entry.key, entry.value, entries.len()));
        met = usize::wrapping_add(met, 1);
    }
    are_met && met == expected.len()
}

/// Passes the values of a map, and returns whether these have the given positions, each with the given number of values
/// left after it.
fn passes_values<K: Portable, V: Portable, H>(
    map: Seal<'_, ArchivedHashMap<K, V, H>>,
    expected: &[(usize, usize)],
) -> bool
    requires { HasValue (table (tuple2 K.shape V.shape)) (both K.knows V.knows) map.bytes.now map.pos }
{
    let mut met = 0;
    let mut are_met = true;
    let mut values = ArchivedHashMap::values_seal(map);
    while let Some(at) = values.advance() {
        are_met = are_met && expected.get(met) == Some(&(at, values.len()));
        met = usize::wrapping_add(met, 1);
    }
    are_met && met == expected.len()
}

/// Passes the items of a table, and returns whether these have the given positions, each with the given number of
/// items left after it.
fn passes_items<T: Portable>(
    of: Seal<'_, ArchivedHashTable<T>>,
    expected: &[(usize, usize)],
) -> bool
    requires { HasValue (table T.shape) T.knows of.bytes.now of.pos }
{
    let mut met = 0;
    let mut are_met = true;
    let mut items = ArchivedHashTable::raw_iter_seal(of);
    while let Some(at) = items.advance() {
        are_met = are_met && expected.get(met) == Some(&(at, items.len()));
        met = usize::wrapping_add(met, 1);
    }
    are_met && met == expected.len()
}

/// Returns whether cursors over the entries, the values and the items of a map pass these entries.
fn are_passed(alloc: Global, bytes: &mut [u8], entries: &[(usize, usize, usize)]) -> Option<bool> {
    let (mut values, mut items) = (Vec::new(alloc), Vec::new(alloc));
    for (key, value, left) in entries {
        if values.push((*value, *left)).is_err() || items.push((*key, *left)).is_err() {
            return None;
        }
    }
    let Ok(root) = root_of::<Texts>(alloc, bytes) else {
        return None;
    };
    let pos = root.pos();
    let of_entries = passes_entries(Seal::<Texts>::new(bytes, pos), entries);
    let Ok(root) = root_of::<Texts>(alloc, bytes) else {
        return None;
    };
    let pos = root.pos();
    let of_values = passes_values(Seal::<Texts>::new(bytes, pos), &values);
    let Ok(root) = root_of::<Entries>(alloc, bytes) else {
        return None;
    };
    let pos = root.pos();
    let of_items = passes_items(Seal::<Entries>::new(bytes, pos), &items);
    Some(of_entries && of_values && of_items)
}

#[test]
fn cursors_pass_each_entry_once(rt: HostRuntime) {
    let (mut three, mut nothing) = (THREE, NOTHING);
    let entries = [(48, 56, 2), (16, 24, 1), (0, 8, 0)];
    assert!(rt;
        are_passed(rt.alloc(), &mut three, &entries) == Some(true)
            && are_passed(rt.alloc(), &mut nothing, &[]) == Some(true)
    );
}

/// The own bytes of a table of one item, as they are in the archive of one item.
const ONE: [u8; 12] = [0xe0, 0xff, 0xff, 0xff, 1, 0, 0, 0, 2, 0, 0, 0];

/// Returns the twelve own bytes of a table, of a map and of a set of `len` items at position 40.
fn own_bytes(
    len: usize,
    load_factor: (usize, usize),
    to: Option<usize>,
) -> Result<[[u8; 12]; 3], Error> {
    let mut table = [0; 12];
    let mut map = [0; 12];
    let mut set = [0; 12];
    let resolver = HashTableResolver::from_pos(to);
    let place = Place::<Table>::new(&mut table, 40);
    ArchivedHashTable::resolve_from_len(len, load_factor, resolver, place)?;
    let of_map = HashMapResolver { table: resolver };
    let place = Place::<Texts>::new(&mut map, 40);
    ArchivedHashMap::resolve_from_len(len, load_factor, of_map, place)?;
    let of_set = HashSetResolver { table: resolver };
    let place = Place::<Keys>::new(&mut set, 40);
    ArchivedHashSet::resolve_from_len(len, load_factor, of_set, place)?;
    Ok([table, map, set])
}

#[test]
fn own_bytes_tell_the_controls_the_items_and_the_places(rt: HostRuntime) {
    let rows: [(
        usize,
        (usize, usize),
        Option<usize>,
        Result<[[u8; 12]; 3], Error>,
    ); 5] = [
        (0, (7, 8), None, Ok([NOTHING; 3])),
        (1, (7, 8), Some(8), Ok([ONE; 3])),
        (1, (0, 8), Some(8), Err(Error::InvalidLoadFactor)),
        (0xffff_ffff, (7, 8), Some(8), Err(Error::LengthTooLarge)),
        (1, (7, 8), Some(0xffff_ffff), Err(Error::IsizeOverflow)),
    ];
    for (len, load_factor, to, bytes) in rows {
        assert!(rt; own_bytes(len, load_factor, to) == bytes);
    }
}
