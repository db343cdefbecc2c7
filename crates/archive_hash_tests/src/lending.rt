//! Tests of entries of hash maps whose values are lent, by a query and by the caller's comparison.
ghost use Rattle.archive_forms_values.specs.Parts.{HasValue};

use crate::maps::{THREE, Texts};
use crate::reading::{HASH_OF_A, ONE_OF_TWO, root_of};
use archive_core::{from_bytes, to_bytes};
use archive_forms_values::{ArchivedOption, ArchivedString};
use archive_hash::OwnedHashMap;
use archive_hash_maps::{ArchivedHashMap, ArchivedHashTable};
use archive_hash_probing::FxHasher64;
use archive_shape::{ArchivedU32, OwnSeal, Portable, Ref, Seal};
use std::alloc::Global;
use std::collections::HashMap;

/// The positions of a key and its value, if they were lent, and the bytes of the map of three texts after the value was
/// filled.
type Loan = (Option<(usize, usize)>, [u8; 108]);

/// Returns what is lent for a text.
fn lent(alloc: Global, text: &str) -> Option<Loan> {
    let Ok(root) = root_of::<Texts>(alloc, &THREE) else {
        return None;
    };
    let pos = root.pos();
    let mut bytes = THREE;
    let map = Seal::<Texts>::new(&mut bytes, pos);
    let mut found = None;
    if let Some((key, value)) = ArchivedHashMap::get_key_value_seal(map, &text) {
        found = Some((key.pos(), value.pos()));
        value.own.fill(9);
    }
    Some((found, bytes))
}

/// Returns what is lent of the entry that has the hash of a text and whose key is at a position.
fn lent_with(alloc: Global, text: &str, at: usize) -> Option<Loan> {
    let Ok(root) = root_of::<Texts>(alloc, &THREE) else {
        return None;
    };
    let pos = root.pos();
    let is_there = |_text: &&str, key: Ref<'_, ArchivedString>| key.pos() == at;
    let mut bytes = THREE;
    let map = Seal::<Texts>::new(&mut bytes, pos);
    let mut found = None;
    if let Some((key, value)) = ArchivedHashMap::get_key_value_seal_with(map, &text, &is_there) {
        found = Some((key.pos(), value.pos()));
        value.own.fill(9);
    }
    Some((found, bytes))
}

/// Returns the position of the value of that entry, and the bytes after the value was filled.
fn value_lent_with(alloc: Global, text: &str, at: usize) -> Option<(Option<usize>, [u8; 108])> {
    let Ok(root) = root_of::<Texts>(alloc, &THREE) else {
        return None;
    };
    let pos = root.pos();
    let is_there = |_text: &&str, key: Ref<'_, ArchivedString>| key.pos() == at;
    let mut bytes = THREE;
    let map = Seal::<Texts>::new(&mut bytes, pos);
    let mut found = None;
    if let Some(value) = ArchivedHashMap::get_seal_with(map, &text, &is_there) {
        let Seal { bytes, pos, .. } = value;
        found = Some(pos);
        if pos <= bytes.len() && 8 <= bytes.len() - pos {
            bytes[pos..pos + 8].fill(9);
        }
    }
    Some((found, bytes))
}

/// Returns what a call was lent for a text, and what one was lent of the entry that has the hash of the text and whose
/// key is at a position.
fn visited(alloc: Global, text: &str, at: usize) -> Option<[Loan; 2]> {
    let Ok(root) = root_of::<Texts>(alloc, &THREE) else {
        return None;
    };
    let pos = root.pos();
    let (mut first, mut second) = (THREE, THREE);
    let is_there = |_text: &&str, key: Ref<'_, ArchivedString>| key.pos() == at;
    let mut fill = |key: Ref<'_, ArchivedString>, value: &mut OwnSeal<'_, ArchivedString>| -> (
        usize,
        usize,
    ) {
        value.own.fill(9);
        (key.pos(), value.pos())
    };
    let map = Seal::<Texts>::new(&mut first, pos);
    let found = ArchivedHashMap::visit_key_value_seal(map, &text, &mut fill);
    let map = Seal::<Texts>::new(&mut second, pos);
    let accepted = ArchivedHashMap::visit_key_value_seal_with(map, &text, &is_there, &mut fill);
    Some([(found, first), (accepted, second)])
}

#[test]
fn values_are_lent_by_a_query_and_by_a_comparison(rt: HostRuntime) {
    let alloc = rt.alloc();
    let mut filled = THREE;
    filled[24..32].fill(9);
    let found = (Some((16, 24)), filled);
    assert!(rt;
        lent(alloc, "hello") == Some(found)
            && lent_with(alloc, "hello", 16) == Some(found)
            && value_lent_with(alloc, "hello", 16) == Some((Some(24), filled))
            && visited(alloc, "hello", 16) == Some([found; 2])
    );
}

#[test]
fn nothing_is_lent_of_other_keys(rt: HostRuntime) {
    let alloc = rt.alloc();
    let none = (None, THREE);
    assert!(rt;
        lent(alloc, "world") == Some(none)
            && lent_with(alloc, "hello", 0) == Some(none)
            && value_lent_with(alloc, "hello", 0) == Some((None, THREE))
            && visited(alloc, "world", 16) == Some([none; 2])
    );
}

/// Returns the position of the item of a hash that a call was lent, and the bytes of the table after it was filled.
fn item_visited(alloc: Global, hash: u64) -> Option<(Option<usize>, [u8; 52])> {
    let Ok(root) = root_of::<ArchivedHashTable<ArchivedU32>>(alloc, &ONE_OF_TWO) else {
        return None;
    };
    let pos = root.pos();
    let mut bytes = ONE_OF_TWO;
    let is_first = |item: Ref<'_, ArchivedU32>| item.pos() == 0;
    let mut fill = |item: &mut OwnSeal<'_, ArchivedU32>| -> usize {
        item.own.fill(9);
        item.pos()
    };
    let table = Seal::<ArchivedHashTable<ArchivedU32>>::new(&mut bytes, pos);
    let found = ArchivedHashTable::visit_seal_with(table, hash, &is_first, &mut fill);
    Some((found, bytes))
}

#[test]
fn calls_that_items_are_lent_to_write_the_found_item(rt: HostRuntime) {
    let mut filled = ONE_OF_TWO;
    filled[..4].fill(9);
    assert!(rt;
        item_visited(rt.alloc(), HASH_OF_A) == Some((Some(0), filled))
            && item_visited(rt.alloc(), 0) == Some((None, ONE_OF_TWO))
    );
}

/// A map from texts to numbers that may be absent.
type Optional = OwnedHashMap<String, Option<u32>>;

type ArchivedOptional = ArchivedHashMap<ArchivedString, ArchivedOption<ArchivedU32>, FxHasher64>;

/// Returns the map from a to `first` and from b to no number.
fn counts(alloc: Global, first: u32) -> Option<Optional> {
    let mut map = HashMap::new(alloc);
    for (text, count) in [("a", Some(first)), ("b", None)] {
        if map
            .insert(String::from_str(alloc, text).ok()?, count)
            .is_err()
        {
            return None;
        }
    }
    Some(OwnedHashMap { map })
}

/// Writes a number over the one that is there, if one is.
fn write_over(count: Seal<'_, ArchivedOption<ArchivedU32>>, number: u32)
    requires { HasValue ⟦<ArchivedOption<ArchivedU32> as Portable>⟧.shape
        ⟦<ArchivedOption<ArchivedU32> as Portable>⟧.knows count.bytes.now count.pos }
{
    if let Some(there) = ArchivedOption::as_seal(count) {
        there.write(number);
    }
}

/// Writes a number over that of a text in an archived map, if the text has one. Returns whether the bytes are such a map.
fn put(alloc: Global, bytes: &mut [u8], text: &str, number: u32) -> bool {
    let Ok(root) = root_of::<ArchivedOptional>(alloc, bytes) else {
        return false;
    };
    let pos = root.pos();
    let map = Seal::<ArchivedOptional>::new(bytes, pos);
    if let Some(count) = ArchivedHashMap::get_seal(map, &text) {
        write_over(count, number);
    }
    true
}

/// Returns the map that is read back after a number was written over that of a text.
fn counted(alloc: Global, first: u32, text: &str, number: u32) -> Option<Optional> {
    let mut bytes = to_bytes(alloc, &counts(alloc, first)?).ok()?;
    if !put(alloc, bytes.as_mut_slice(), text, number) {
        return None;
    }
    from_bytes::<Optional>(alloc, bytes.as_slice()).ok()
}

#[test]
fn a_number_is_written_over_where_its_text_is_found(rt: HostRuntime) {
    let alloc = rt.alloc();
    for (text, first) in [("a", 9), ("b", 7), ("c", 7)] {
        match (counted(alloc, 7, text, 9), counts(alloc, first)) {
            (Some(read), Some(expected)) => assert!(rt; read.map == expected.map),
            _ => assert!(rt; false),
        }
    }
}
