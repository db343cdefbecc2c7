//! Tests of iterating over, writing to, comparing and printing archived hash maps, and of printing archived hash sets.
ghost use Rattle.std.specs.Prelude.{[]};

use crate::reading::{HASH_OF_A, ONE_OF_TWO, root_of};
use archive_core_validation::HighValidator;
use archive_forms_comparing::ArchivedDebug;
use archive_forms_values::ArchivedString;
use archive_hash::SetIter;
use archive_hash_maps::{
    ArchivedHashMap, ArchivedHashSet, ArchivedHashTable, eq_hash_map, eq_hash_set,
};
use archive_hash_probing::FxHasher64;
use archive_shape::{ArchivedU32, CheckBytes, Ref, Seal};
use std::alloc::Global;
use std::collections::{HashMap, HashSet};
use std::fmt::Formatter;

/// An archived map from texts to texts.
pub(crate) type Texts = ArchivedHashMap<ArchivedString, ArchivedString, FxHasher64>;

/// An archived set of texts.
pub(crate) type Keys = ArchivedHashSet<ArchivedString, FxHasher64>;

/// The map from hello to world, foo to bar and baz to bat. They have the places 2, 3 and 0 of four. The bucket of the
/// last place is first. The bytes are a bucket of sixteen bytes for each place, sixteen controls and fifteen more, a
/// byte of padding, and the map, whose controls begin 32 bytes before it.
pub(crate) const THREE: [u8; 108] = [
    b'f', b'o', b'o', 0xff, 0xff, 0xff, 0xff, 0xff, b'b', b'a', b'r', 0xff, 0xff, 0xff, 0xff, 0xff,
    b'h', b'e', b'l', b'l', b'o', 0xff, 0xff, 0xff, b'w', b'o', b'r', b'l', b'd', 0xff, 0xff, 0xff,
    0, 0, 0, 0, 0, 0, 0, 0, 0, 0, 0, 0, 0, 0, 0, 0, b'b', b'a', b'z', 0xff, 0xff, 0xff, 0xff, 0xff,
    b'b', b'a', b't', 0xff, 0xff, 0xff, 0xff, 0xff, 0x40, 0xff, 0x4d, 0x25, 0x40, 0xff, 0x4d, 0x25,
    0xff, 0xff, 0xff, 0xff, 0xff, 0xff, 0xff, 0xff, 0xff, 0xff, 0xff, 0xff, 0xff, 0xff, 0xff, 0xff,
    0xff, 0xff, 0xff, 0xff, 0xff, 0xff, 0xff, 0, 0xe0, 0xff, 0xff, 0xff, 3, 0, 0, 0, 4, 0, 0, 0,
];

/// The set of the texts hello, foo and baz, in the same places, with buckets of eight bytes.
const THREE_KEYS: [u8; 76] = [
    b'f', b'o', b'o', 0xff, 0xff, 0xff, 0xff, 0xff, b'h', b'e', b'l', b'l', b'o', 0xff, 0xff, 0xff,
    0, 0, 0, 0, 0, 0, 0, 0, b'b', b'a', b'z', 0xff, 0xff, 0xff, 0xff, 0xff, 0x40, 0xff, 0x4d, 0x25,
    0x40, 0xff, 0x4d, 0x25, 0xff, 0xff, 0xff, 0xff, 0xff, 0xff, 0xff, 0xff, 0xff, 0xff, 0xff, 0xff,
    0xff, 0xff, 0xff, 0xff, 0xff, 0xff, 0xff, 0xff, 0xff, 0xff, 0xff, 0, 0xe0, 0xff, 0xff, 0xff, 3,
    0, 0, 0, 4, 0, 0, 0,
];

/// A map or a set without entries.
pub(crate) const NOTHING: [u8; 12] = [1, 0, 0, 0, 0, 0, 0, 0, 0, 0, 0, 0];

/// Returns whether the iterator over the keys of the set of three walks these positions.
fn keys_are_walked(alloc: Global, positions: &[usize]) -> bool {
    let Ok(root) = root_of::<Keys>(alloc, &THREE_KEYS) else {
        return false;
    };
    let mut keys: SetIter<'_, ArchivedString> = ArchivedHashSet::iter(root);
    for position in positions {
        match keys.next() {
            Some(key) if key.pos() == *position => {}
            _ => return false,
        }
    }
    keys.next().is_none()
}

/// Returns whether iterators over the keys and the values alone walk these positions, each with its key first.
fn are_walked(alloc: Global, positions: &[(usize, usize)]) -> bool {
    let Ok(root) = root_of::<Texts>(alloc, &THREE) else {
        return false;
    };
    let mut keys = ArchivedHashMap::keys(root);
    let mut values = ArchivedHashMap::values(root);
    for (key_at, value_at) in positions {
        match (keys.next(), values.next()) {
            (Some(key), Some(value)) if key.pos() == *key_at && value.pos() == *value_at => {}
            _ => return false,
        }
    }
    keys.next().is_none() && values.next().is_none()
}

#[test]
fn keys_and_values_are_walked_by_ascending_place(rt: HostRuntime) {
    assert!(rt; are_walked(rt.alloc(), &[(48, 56), (16, 24), (0, 8)]));
}

#[test]
fn keys_of_a_set_are_walked_by_ascending_place(rt: HostRuntime) {
    assert!(rt; keys_are_walked(rt.alloc(), &[24, 8, 0]));
}

/// Returns the position of the key that the caller's comparison accepts for the hash of a text, and that of its value.
fn compared(alloc: Global, text: &str, at: usize) -> Option<(Option<usize>, Option<usize>)> {
    let Ok(root) = root_of::<Texts>(alloc, &THREE) else {
        return None;
    };
    let is_there = |_text: &&str, key: Ref<'_, ArchivedString>| key.pos() == at;
    let key = match ArchivedHashMap::get_key_value_with(root, &text, &is_there) {
        Some((key, _)) => Some(key.pos()),
        None => None,
    };
    let value = match ArchivedHashMap::get_with(root, &text, &is_there) {
        Some(value) => Some(value.pos()),
        None => None,
    };
    Some((key, value))
}

#[test]
fn comparisons_of_the_caller_find_keys_under_the_hash(rt: HostRuntime) {
    let alloc = rt.alloc();
    assert!(rt;
        compared(alloc, "hello", 16) == Some((Some(16), Some(24)))
            && compared(alloc, "hello", 20) == Some((None, None))
            && compared(alloc, "world", 16) == Some((None, None))
    );
}

/// Returns the bytes of the map after a text was written over the value of a key, which is inline.
fn written(alloc: Global, key: &str, text: &str) -> Option<[u8; 108]> {
    let mut bytes = THREE;
    let Ok(root) = root_of::<Texts>(alloc, &bytes) else {
        return None;
    };
    let pos = root.pos();
    if let Some(value) = ArchivedHashMap::get_seal(Seal::<Texts>::new(&mut bytes, pos), &key) {
        let Seal { bytes, pos, .. } = value;
        if pos <= bytes.len() && text.len() <= bytes.len() - pos {
            bytes[pos..pos + text.len()].copy_from_slice(text.as_bytes());
        }
    }
    Some(bytes)
}

#[test]
fn values_of_keys_are_written_over(rt: HostRuntime) {
    let mut expected = THREE;
    expected[24..29].copy_from_slice(b"WORLD");
    assert!(rt;
        written(rt.alloc(), "hello", "WORLD") == Some(expected)
            && written(rt.alloc(), "world", "WORLD") == Some(THREE)
    );
}

/// Returns the bytes of a table of one number after another number was written over the item of a hash.
fn item_written(alloc: Global, hash: u64, number: u32) -> Option<[u8; 52]> {
    let mut bytes = ONE_OF_TWO;
    let Ok(root) = root_of::<ArchivedHashTable<ArchivedU32>>(alloc, &bytes) else {
        return None;
    };
    let pos = root.pos();
    let is_first = |item: Ref<'_, ArchivedU32>| item.pos() == 0;
    let seal = Seal::<ArchivedHashTable<ArchivedU32>>::new(&mut bytes, pos);
    if let Some(item) = ArchivedHashTable::get_seal_with(seal, hash, &is_first) {
        item.write(number);
    }
    Some(bytes)
}

#[test]
fn items_of_hashes_are_written_over(rt: HostRuntime) {
    let mut expected = ONE_OF_TWO;
    expected[0] = 9;
    assert!(rt;
        item_written(rt.alloc(), HASH_OF_A, 9) == Some(expected)
            && item_written(rt.alloc(), 0, 9) == Some(ONE_OF_TWO)
    );
}

/// Returns whether the map is equal to a map of std with these pairs.
fn equals(alloc: Global, pairs: &[(&'static str, &'static str)]) -> Option<bool> {
    let Ok(root) = root_of::<Texts>(alloc, &THREE) else {
        return None;
    };
    let mut other = HashMap::new(alloc);
    for (key, value) in pairs {
        if other.insert(*key, *value).is_err() {
            return None;
        }
    }
    Some(eq_hash_map(&root, &other))
}

/// Pairs of maps of std, and whether the map is equal to each of those.
const PAIRS: [(&[(&str, &str)], bool); 4] = [
    (&[("foo", "bar"), ("baz", "bat"), ("hello", "world")], true),
    (&[("foo", "bar"), ("baz", "bat"), ("hello", "WORLD")], false),
    (&[("foo", "bar"), ("baz", "bat"), ("world", "world")], false),
    (&[("foo", "bar"), ("baz", "bat")], false),
];

#[test]
fn maps_of_the_same_pairs_are_equal(rt: HostRuntime) {
    for (pairs, is_equal) in PAIRS {
        assert!(rt; equals(rt.alloc(), pairs) == Some(is_equal));
    }
}

/// Returns whether the set of three is equal to a set of std with these texts.
fn has_texts(alloc: Global, texts: &[&'static str]) -> Option<bool> {
    let Ok(root) = root_of::<Keys>(alloc, &THREE_KEYS) else {
        return None;
    };
    let mut other = HashSet::new(alloc);
    for text in texts {
        if other.insert(*text).is_err() {
            return None;
        }
    }
    Some(eq_hash_set(&root, &other))
}

#[test]
fn sets_of_the_same_texts_are_equal(rt: HostRuntime) {
    let alloc = rt.alloc();
    assert!(rt;
        has_texts(alloc, &["foo", "baz", "hello"]) == Some(true)
            && has_texts(alloc, &["foo", "baz", "world"]) == Some(false)
            && has_texts(alloc, &["foo", "baz"]) == Some(false)
    );
}

/// Returns whether the set of three is equal to an archived set.
fn equal_to_keys(alloc: Global, others: &[u8]) -> Option<bool> {
    let Ok(this) = root_of::<Keys>(alloc, &THREE_KEYS) else {
        return None;
    };
    match root_of::<Keys>(alloc, others) {
        Ok(other) => Some(ArchivedHashSet::equals(this, other)),
        Err(_) => None,
    }
}

#[test]
fn archived_sets_of_equal_keys_are_equal(rt: HostRuntime) {
    let mut changed = THREE_KEYS;
    changed[8] = b'H';
    assert!(rt;
        equal_to_keys(rt.alloc(), &THREE_KEYS) == Some(true)
            && equal_to_keys(rt.alloc(), &changed) == Some(false)
            && equal_to_keys(rt.alloc(), &NOTHING) == Some(false)
    );
}

/// Returns whether two archives of maps are equal.
fn equal_to(alloc: Global, bytes: &[u8], others: &[u8]) -> Option<bool> {
    let Ok(this) = root_of::<Texts>(alloc, bytes) else {
        return None;
    };
    match root_of::<Texts>(alloc, others) {
        Ok(other) => Some(ArchivedHashMap::equals(this, other)),
        Err(_) => None,
    }
}

#[test]
fn archived_maps_of_equal_entries_are_equal(rt: HostRuntime) {
    let mut changed = THREE;
    changed[24..29].copy_from_slice(b"WORLD");
    let alloc = rt.alloc();
    assert!(rt;
        equal_to(alloc, &THREE, &THREE) == Some(true)
            && equal_to(alloc, &THREE, &changed) == Some(false)
            && equal_to(alloc, &THREE, &NOTHING) == Some(false)
            && equal_to(alloc, &NOTHING, &NOTHING) == Some(true)
    );
}

/// Returns whether a map or a set has this debug text.
pub(crate) fn prints<T: ArchivedDebug + CheckBytes<HighValidator>>(
    alloc: Global,
    bytes: &[u8],
    text: &str,
) -> bool
    requires { T.knows [] }
{
    let Ok(root) = root_of::<T>(alloc, bytes) else {
        return false;
    };
    let mut f = Formatter::new(String::new(alloc));
    T::fmt(&root, &mut f).is_ok() && f.into_inner().as_str() == text
}

#[test]
fn maps_and_sets_are_printed_as_those_of_std(rt: HostRuntime) {
    let alloc = rt.alloc();
    let three = "{\"baz\": \"bat\", \"hello\": \"world\", \"foo\": \"bar\"}";
    assert!(rt;
        prints::<Texts>(alloc, &THREE, three)
            && prints::<Keys>(alloc, &THREE_KEYS, "{\"baz\", \"hello\", \"foo\"}")
            && prints::<Texts>(alloc, &NOTHING, "{}")
    );
}
