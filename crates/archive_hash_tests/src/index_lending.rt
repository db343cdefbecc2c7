//! Tests of entries of index maps that the caller's comparison finds: as they are looked up, and with their values
//! lent.
ghost use Rattle.std.specs.Prelude.{◌≡◌, length};

use crate::index_maps::{Numbers, TWO};
use crate::reading::root_of;
use archive_forms_values::ArchivedString;
use archive_index::ArchivedIndexMap;
use archive_shape::{ArchivedU32, OwnSeal, Ref, Seal};
use std::alloc::Global;

/// The number of an entry, and the positions of its key and its value.
type Entry = (usize, usize, usize);

/// Returns the entry that has the hash of a text and whose key is at a position.
fn found(alloc: Global, text: &str, at: usize) -> Option<Option<Entry>> {
    let Ok(root) = root_of::<Numbers>(alloc, &TWO) else {
        return None;
    };
    let is_there = |_text: &&str, key: Ref<'_, ArchivedString>| key.pos() == at;
    match ArchivedIndexMap::get_full_with(root, &text, &is_there) {
        Some((index, key, value)) => Some(Some((index, key.pos(), value.pos()))),
        None => Some(None),
    }
}

/// Returns the same by look-ups of the number, of the key and the value, and of the value alone, if they agree.
fn found_by_parts(alloc: Global, text: &str, at: usize) -> Option<Option<Entry>> {
    let Ok(root) = root_of::<Numbers>(alloc, &TWO) else {
        return None;
    };
    let is_there = |_text: &&str, key: Ref<'_, ArchivedString>| key.pos() == at;
    let index = ArchivedIndexMap::get_index_of_with(root, &text, &is_there);
    let pair = ArchivedIndexMap::get_key_value_with(root, &text, &is_there);
    match (
        index,
        pair,
        ArchivedIndexMap::get_with(root, &text, &is_there),
    ) {
        (Some(index), Some((key, value)), Some(alone)) if alone.pos() == value.pos() => {
            Some(Some((index, key.pos(), value.pos())))
        }
        (None, None, None) => Some(None),
        _ => None,
    }
}

/// Returns that entry as it is lent, and the bytes after a number was written over its value.
fn lent(alloc: Global, text: &str, at: usize, number: u32) -> Option<(Option<Entry>, [u8; 84])> {
    let Ok(root) = root_of::<Numbers>(alloc, &TWO) else {
        return None;
    };
    let pos = root.pos();
    let is_there = |_text: &&str, key: Ref<'_, ArchivedString>| key.pos() == at;
    let mut bytes = TWO;
    let map = Seal::<Numbers>::new(&mut bytes, pos);
    let mut found = None;
    if let Some((index, key, value)) = ArchivedIndexMap::get_full_seal_with(map, &text, &is_there) {
        found = Some((index, key.pos(), value.pos()));
        value.write(number);
    }
    Some((found, bytes))
}

/// Returns the position of its key, and the bytes after a number was written over its value, as both are lent and as
/// the value alone is.
fn lent_by_parts(
    alloc: Global,
    text: &str,
    at: usize,
    number: u32,
) -> Option<(Option<usize>, [[u8; 84]; 2])> {
    let Ok(root) = root_of::<Numbers>(alloc, &TWO) else {
        return None;
    };
    let pos = root.pos();
    let is_there = |_text: &&str, key: Ref<'_, ArchivedString>| key.pos() == at;
    let (mut first, mut second) = (TWO, TWO);
    let map = Seal::<Numbers>::new(&mut first, pos);
    let mut found = None;
    if let Some((key, value)) = ArchivedIndexMap::get_key_value_seal_with(map, &text, &is_there) {
        found = Some(key.pos());
        value.write(number);
    }
    let map = Seal::<Numbers>::new(&mut second, pos);
    if let Some(value) = ArchivedIndexMap::get_seal_with(map, &text, &is_there) {
        value.write(number);
    }
    Some((found, [first, second]))
}

/// Returns the number of that entry and the position of its key, as calls that its value is lent to return them, and
/// the bytes after both.
fn visited(
    alloc: Global,
    text: &str,
    at: usize,
    number: u32,
) -> Option<(Option<(usize, usize)>, Option<usize>, [[u8; 84]; 2])> {
    let Ok(root) = root_of::<Numbers>(alloc, &TWO) else {
        return None;
    };
    let pos = root.pos();
    let is_there = |_text: &&str, key: Ref<'_, ArchivedString>| key.pos() == at;
    let (mut first, mut second) = (TWO, TWO);
    let mut put = |key: Ref<'_, ArchivedString>, value: &mut OwnSeal<'_, ArchivedU32>| -> usize
        requires { length value.now.own.now ≡ 4 }
    {
        value.put(number);
        key.pos()
    };
    let map = Seal::<Numbers>::new(&mut first, pos);
    let full = ArchivedIndexMap::visit_full_seal_with(map, &text, &is_there, &mut put);
    let map = Seal::<Numbers>::new(&mut second, pos);
    let pair = ArchivedIndexMap::visit_key_value_seal_with(map, &text, &is_there, &mut put);
    Some((full, pair, [first, second]))
}

#[test]
fn comparisons_of_the_caller_find_entries_under_the_hash(rt: HostRuntime) {
    let alloc = rt.alloc();
    for (text, at, entry) in [
        ("a", 56, Some((1, 56, 64))),
        ("z", 44, Some((0, 44, 52))),
        ("a", 44, None),
        ("b", 56, None),
    ] {
        assert!(rt; found(alloc, text, at) == Some(entry));
        assert!(rt; found_by_parts(alloc, text, at) == Some(entry));
    }
}

#[test]
fn values_that_are_lent_are_written_over(rt: HostRuntime) {
    let alloc = rt.alloc();
    let mut changed = TWO;
    changed[64] = 9;
    assert!(rt;
        lent(alloc, "a", 56, 9) == Some((Some((1, 56, 64)), changed))
            && lent_by_parts(alloc, "a", 56, 9) == Some((Some(56), [changed; 2]))
            && visited(alloc, "a", 56, 9) == Some((Some((1, 56)), Some(56), [changed; 2]))
    );
}

#[test]
fn nothing_is_written_where_the_comparison_accepts_none(rt: HostRuntime) {
    let alloc = rt.alloc();
    assert!(rt;
        lent(alloc, "a", 44, 9) == Some((None, TWO))
            && lent_by_parts(alloc, "a", 44, 9) == Some((None, [TWO; 2]))
            && visited(alloc, "a", 44, 9) == Some((None, None, [TWO; 2]))
    );
}
