//! Tests of archived index maps and sets: their entries in order, look-ups, writes through seals, comparing and printing.
ghost use Rattle.std.specs.Prelude.{◌≡◌, [], length};
ghost use Rattle.archive_forms_comparing.specs.Calls.Comparing.{Compares};
ghost use Rattle.archive_forms_laws.specs.Orders.{no_fields_equality, more_fields_equality, tuple_equality, unit_equality, vector_equality};
ghost use Rattle.archive_hash_maps.specs.Sets.{set_knows};
ghost use Rattle.archive_index.specs.Sets.{HasSet, set_shape};

use crate::maps::prints;
use crate::reading::root_of;
use archive_core_validation::HighValidator;
use archive_forms_comparing::{ArchivedEq, ArchivedHash};
use archive_forms_values::ArchivedString;
use archive_hash_probing::FxHasher64;
use archive_index::laws::index_maps_are_equal_in_order;
use archive_index::{ArchivedIndexMap, ArchivedIndexSet};
use archive_shape::{ArchivedU32, CheckBytes, OwnSeal, Ref, Seal};
use std::alloc::Global;
use std::hash::Hasher;

/// An archived index map from texts to numbers.
pub(crate) type Numbers = ArchivedIndexMap<ArchivedString, ArchivedU32, FxHasher64>;

/// An archived index set of texts.
pub(crate) type Keys = ArchivedIndexSet<ArchivedString, FxHasher64>;

/// The map from z to 1 and from a to 2, in this order: a table of three places, with the number 0 of z at place 1 and
/// the number 1 of a at place 2, whose bucket is the first; its sixteen controls and fifteen more; a byte of padding; the
/// two entries of twelve bytes; and the map, whose controls begin 56 bytes before it, and whose entries begin 36 bytes
/// before their offset.
pub(crate) const TWO: [u8; 84] = [
    1, 0, 0, 0, 0, 0, 0, 0, 0, 0, 0, 0, 0xff, 0x11, 0x55, 0xff, 0x11, 0x55, 0xff, 0xff, 0xff, 0xff,
    0xff, 0xff, 0xff, 0xff, 0xff, 0xff, 0xff, 0xff, 0xff, 0xff, 0xff, 0xff, 0xff, 0xff, 0xff, 0xff,
    0xff, 0xff, 0xff, 0xff, 0xff, 0, b'z', 0xff, 0xff, 0xff, 0xff, 0xff, 0xff, 0xff, 1, 0, 0, 0,
    b'a', 0xff, 0xff, 0xff, 0xff, 0xff, 0xff, 0xff, 2, 0, 0, 0, 0xc8, 0xff, 0xff, 0xff, 2, 0, 0, 0,
    3, 0, 0, 0, 0xdc, 0xff, 0xff, 0xff,
];

/// The map of the same entries in the other order: the two numbers are exchanged, and so are the two entries.
pub(crate) const EXCHANGED: [u8; 84] = [
    0, 0, 0, 0, 1, 0, 0, 0, 0, 0, 0, 0, 0xff, 0x11, 0x55, 0xff, 0x11, 0x55, 0xff, 0xff, 0xff, 0xff,
    0xff, 0xff, 0xff, 0xff, 0xff, 0xff, 0xff, 0xff, 0xff, 0xff, 0xff, 0xff, 0xff, 0xff, 0xff, 0xff,
    0xff, 0xff, 0xff, 0xff, 0xff, 0, b'a', 0xff, 0xff, 0xff, 0xff, 0xff, 0xff, 0xff, 2, 0, 0, 0,
    b'z', 0xff, 0xff, 0xff, 0xff, 0xff, 0xff, 0xff, 1, 0, 0, 0, 0xc8, 0xff, 0xff, 0xff, 2, 0, 0, 0,
    3, 0, 0, 0, 0xdc, 0xff, 0xff, 0xff,
];

/// The set of the texts z and a, in this order: the same table, and keys of eight bytes.
pub(crate) const TWO_KEYS: [u8; 76] = [
    1, 0, 0, 0, 0, 0, 0, 0, 0, 0, 0, 0, 0xff, 0x11, 0x55, 0xff, 0x11, 0x55, 0xff, 0xff, 0xff, 0xff,
    0xff, 0xff, 0xff, 0xff, 0xff, 0xff, 0xff, 0xff, 0xff, 0xff, 0xff, 0xff, 0xff, 0xff, 0xff, 0xff,
    0xff, 0xff, 0xff, 0xff, 0xff, 0, b'z', 0xff, 0xff, 0xff, 0xff, 0xff, 0xff, 0xff, b'a', 0xff,
    0xff, 0xff, 0xff, 0xff, 0xff, 0xff, 0xd0, 0xff, 0xff, 0xff, 2, 0, 0, 0, 3, 0, 0, 0, 0xe4, 0xff,
    0xff, 0xff,
];

/// A map or a set without entries.
pub(crate) const NOTHING: [u8; 16] = [1, 0, 0, 0, 0, 0, 0, 0, 0, 0, 0, 0, 1, 0, 0, 0];

/// Returns whether iterators over the keys and the values alone walk these positions, each with its key first.
fn are_walked(alloc: Global, bytes: &[u8], positions: &[(usize, usize)]) -> bool {
    let Ok(root) = root_of::<Numbers>(alloc, bytes) else {
        return false;
    };
    let mut keys = ArchivedIndexMap::keys(root);
    let mut values = ArchivedIndexMap::values(root);
    for (key_at, value_at) in positions {
        match (keys.next(), values.next()) {
            (Some(key), Some(value)) if key.pos() == *key_at && value.pos() == *value_at => {}
            _ => return false,
        }
    }
    keys.next().is_none() && values.next().is_none()
}

#[test]
fn keys_and_values_are_walked_in_order(rt: HostRuntime) {
    assert!(rt;
        are_walked(rt.alloc(), &TWO, &[(44, 52), (56, 64)]) && are_walked(rt.alloc(), &NOTHING, &[])
    );
}

/// Returns the number and the position of the key that each seal lends for a text, and the lowest byte of the value of
/// a after `number` was written through each seal.
fn lent(
    alloc: Global,
    text: &str,
    number: u32,
) -> Option<(Option<(usize, usize)>, Option<usize>, [u8; 3])> {
    let Ok(root) = root_of::<Numbers>(alloc, &TWO) else {
        return None;
    };
    let pos = root.pos();
    let (mut first, mut second, mut third) = (TWO, TWO, TWO);
    let (mut full, mut pair) = (None, None);
    let seal = Seal::<Numbers>::new(&mut first, pos);
    if let Some((index, key, value)) = ArchivedIndexMap::get_full_seal(seal, &text) {
        full = Some((index, key.pos()));
        value.write(number);
    }
    let seal = Seal::<Numbers>::new(&mut second, pos);
    if let Some((key, value)) = ArchivedIndexMap::get_key_value_seal(seal, &text) {
        pair = Some(key.pos());
        value.write(number);
    }
    let seal = Seal::<Numbers>::new(&mut third, pos);
    if let Some(value) = ArchivedIndexMap::get_seal(seal, &text) {
        value.write(number);
    }
    Some((full, pair, [first[64], second[64], third[64]]))
}

#[test]
fn values_are_written_over(rt: HostRuntime) {
    assert!(rt;
        lent(rt.alloc(), "a", 9) == Some((Some((1, 56)), Some(56), [9, 9, 9]))
            && lent(rt.alloc(), "b", 9) == Some((None, None, [2, 2, 2]))
    );
}

/// Returns the number and the position of the key that visits of a text's entry return, and the two archives after `number`
/// was put over the visited value.
fn visited(
    alloc: Global,
    text: &str,
    number: u32,
) -> Option<(Option<(usize, usize)>, Option<usize>, [[u8; 84]; 2])> {
    let Ok(root) = root_of::<Numbers>(alloc, &TWO) else {
        return None;
    };
    let pos = root.pos();
    let (mut first, mut second) = (TWO, TWO);
    let mut put = |key: Ref<'_, ArchivedString>, value: &mut OwnSeal<'_, ArchivedU32>| -> usize
        requires { length value.now.own.now ≡ 4 }
    {
        value.put(number);
        key.pos()
    };
    let map = Seal::<Numbers>::new(&mut first, pos);
    let full = ArchivedIndexMap::visit_full_seal(map, &text, &mut put);
    let map = Seal::<Numbers>::new(&mut second, pos);
    let pair = ArchivedIndexMap::visit_key_value_seal(map, &text, &mut put);
    Some((full, pair, [first, second]))
}

#[test]
fn calls_that_values_are_lent_to_write_the_found_value(rt: HostRuntime) {
    let mut changed = TWO;
    changed[64] = 9;
    assert!(rt;
        visited(rt.alloc(), "a", 9) == Some((Some((1, 56)), Some(56), [changed; 2]))
            && visited(rt.alloc(), "b", 9) == Some((None, None, [TWO; 2]))
    );
}

/// Returns whether two archives are equal.
fn equal_to<T: ArchivedEq + CheckBytes<HighValidator>>(
    alloc: Global,
    bytes: &[u8],
    others: &[u8],
) -> Option<bool>
    requires { T.knows [] }
{
    let Ok(this) = root_of::<T>(alloc, bytes) else {
        return None;
    };
    match root_of::<T>(alloc, others) {
        Ok(other) => Some(ArchivedEq::eq(&this, &other)),
        Err(_) => None,
    }
}

/// Returns the hash of a map.
fn hashed(alloc: Global, bytes: &[u8]) -> Option<u64> {
    let Ok(root) = root_of::<Numbers>(alloc, bytes) else {
        return None;
    };
    let mut state = FxHasher64::default();
    ArchivedHash::hash(&root, &mut state);
    Some(state.finish())
}

#[test]
fn maps_of_equal_entries_in_the_same_order_are_equal_and_hash_alike(rt: HostRuntime) {
    let alloc = rt.alloc();
    assert!(rt;
        equal_to::<Numbers>(alloc, &TWO, &TWO) == Some(true)
            && equal_to::<Numbers>(alloc, &TWO, &EXCHANGED) == Some(false)
            && equal_to::<Numbers>(alloc, &TWO, &NOTHING) == Some(false)
            && equal_to::<Numbers>(alloc, &NOTHING, &NOTHING) == Some(true)
    );
    let hash = hashed(alloc, &TWO);
    assert!(rt; hash.is_some() && hashed(alloc, &TWO) == hash && hashed(alloc, &EXCHANGED) != hash);
}

/// Returns whether two sets are equal: whether they have the same number of keys, and these are equal one by one, in
/// order.
fn are_equal_in_order<K: ArchivedEq>(
    this: &Ref<'_, ArchivedIndexSet<K, FxHasher64>>,
    other: &Ref<'_, ArchivedIndexSet<K, FxHasher64>>,
) -> bool
    requires this { HasSet K.shape K.knows this.now }
    requires other { HasSet K.shape K.knows other.now }
    ensures { Compares (set_shape K.shape) (set_knows K.knows) this.now other.now
        (vector_equality (tuple_equality (more_fields_equality K.equal (more_fields_equality unit_equality no_fields_equality)))) result }
{
    index_maps_are_equal_in_order::<K, (), FxHasher64>();
    ArchivedEq::eq(this, other)
}

/// Returns whether two archived sets are equal in order.
fn equal_keys(alloc: Global, bytes: &[u8], others: &[u8]) -> Option<bool> {
    let Ok(this) = root_of::<Keys>(alloc, bytes) else {
        return None;
    };
    match root_of::<Keys>(alloc, others) {
        Ok(other) => Some(are_equal_in_order(&this, &other)),
        Err(_) => None,
    }
}

#[test]
fn sets_of_equal_keys_in_the_same_order_are_equal(rt: HostRuntime) {
    let alloc = rt.alloc();
    let mut other = TWO_KEYS;
    other[44] = b'y';
    assert!(rt;
        equal_keys(alloc, &TWO_KEYS, &TWO_KEYS) == Some(true)
            && equal_keys(alloc, &TWO_KEYS, &other) == Some(false)
            && equal_keys(alloc, &TWO_KEYS, &NOTHING) == Some(false)
            && equal_keys(alloc, &NOTHING, &NOTHING) == Some(true)
    );
}

#[test]
fn maps_and_sets_are_printed_as_those_of_std(rt: HostRuntime) {
    let alloc = rt.alloc();
    assert!(rt;
        prints::<Numbers>(alloc, &TWO, "{\"z\": 1, \"a\": 2}")
            && prints::<Keys>(alloc, &TWO_KEYS, "{\"z\", \"a\"}")
            && prints::<Numbers>(alloc, &NOTHING, "{}")
    );
}

/// Returns whether each look-up of a text in the set returns this number and position of its key, or none.
fn has_key(alloc: Global, text: &str, found: Option<(usize, usize)>) -> bool {
    let Ok(root) = root_of::<Keys>(alloc, &TWO_KEYS) else {
        return false;
    };
    if ArchivedIndexSet::contains(root, &text) != found.is_some() {
        return false;
    }
    let full = ArchivedIndexSet::get_full(root, &text);
    let key = ArchivedIndexSet::get(root, &text);
    match (full, key, ArchivedIndexSet::get_index_of(root, &text)) {
        (Some((index, at)), Some(key), Some(number)) => {
            found == Some((index, at.pos())) && found == Some((number, key.pos()))
        }
        (None, None, None) => found.is_none(),
        _ => false,
    }
}

/// Returns whether the key with a number has this position, or there is none.
fn has_numbered_key(alloc: Global, index: usize, found: Option<usize>) -> bool {
    let Ok(root) = root_of::<Keys>(alloc, &TWO_KEYS) else {
        return false;
    };
    match ArchivedIndexSet::get_index(root, index) {
        Some(key) => found == Some(key.pos()),
        None => found.is_none(),
    }
}

#[test]
fn keys_of_sets_are_found_and_have_numbers(rt: HostRuntime) {
    let alloc = rt.alloc();
    assert!(rt;
        has_key(alloc, "z", Some((0, 44)))
            && has_key(alloc, "a", Some((1, 52)))
            && has_key(alloc, "b", None)
            && has_numbered_key(alloc, 1, Some(52))
            && has_numbered_key(alloc, 2, None)
    );
}
