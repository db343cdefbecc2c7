//! Tests of the search trees that are refused, and of the errors.

use crate::archives::ONE_PAIR;
use archive_btree::check_btree_each;
use archive_btree_maps::{ArchivedBTreeMap, InvalidLength};
use archive_core_validation::{ArchiveValidator, access};
use archive_shape::{ArchivedNonZeroU32, ArchivedU32, CheckBytes, Error, Ref};
use std::alloc::Global;

/// A map of numbers without 0 to numbers.
type Keys = ArchivedBTreeMap<ArchivedNonZeroU32, ArchivedU32, 5>;

/// Returns the result of the check of the map from 7 to 11 once the kind, the first key and the length of its leaf are
/// replaced.
fn checked(alloc: Global, kind: u8, key: u8, len: u8) -> Result<(), Error> {
    let mut bytes = *ONE_PAIR;
    bytes[0] = kind;
    bytes[4] = key;
    bytes[44] = len;
    match access::<Keys>(alloc, &bytes) {
        Ok(_) => Ok(()),
        Err(refusal) => Err(refusal),
    }
}

/// Returns the result of verifying that map once the first key and the length of its leaf, and its number of entries, are
/// replaced.
fn verified(alloc: Global, key: u8, len: u8, entries: u8) -> Result<(), Error> {
    let mut bytes = *ONE_PAIR;
    bytes[4] = key;
    bytes[44] = len;
    bytes[52] = entries;
    let mut context = ArchiveValidator::new(alloc, &bytes);
    let map: Ref<'_, Keys> = Ref::new(&bytes, 48);
    ArchivedBTreeMap::verify(map, alloc, &mut context)
}

/// Returns the result of checking that map by steps of the caller's, once the first key is replaced.
fn checked_by_steps(alloc: Global, key: u8) -> Result<(), Error> {
    let mut bytes = *ONE_PAIR;
    bytes[4] = key;
    let mut context = ArchiveValidator::new(alloc, &bytes);
    check_btree_each::<ArchivedNonZeroU32, ArchivedU32, ArchiveValidator, _, _, 5>(
        &bytes,
        48,
        &mut context,
        |c: &mut ArchiveValidator, pos: usize| ArchivedNonZeroU32::check(alloc, &bytes, pos, c),
        |c: &mut ArchiveValidator, pos: usize| ArchivedU32::check(alloc, &bytes, pos, c),
    )
}

/// Kinds, keys and lengths of leaves, and the errors of the check.
const REFUSED: [(u8, u8, u8, Error); 4] = [
    (0, 7, 6, Error::NodeLength { len: 6, maximum: 5 }),
    (2, 7, 1, Error::InvalidTag),
    (0, 0, 0, Error::EntriesLengthMismatch { entries: 0, len: 1 }),
    (0, 0, 1, Error::InvalidTag),
];

/// Keys, lengths of leaves and numbers of entries, and the results of verifying them.
const VERIFIED: [(u8, u8, u8, Result<(), Error>); 4] = [
    (7, 1, 1, Ok(())),
    (0, 1, 1, Err(Error::InvalidTag)),
    (0, 6, 1, Err(InvalidLength { len: 6, maximum: 5 })),
    (0, 6, 0, Ok(())),
];

#[test]
fn spoilt_search_trees_are_refused(rt: HostRuntime) {
    for &(kind, key, len, refusal) in &REFUSED {
        assert!(rt; checked(rt.alloc(), kind, key, len) == Err(refusal));
    }
}

#[test]
fn search_trees_are_verified(rt: HostRuntime) {
    for &(key, len, entries, result) in &VERIFIED {
        assert!(rt; verified(rt.alloc(), key, len, entries) == result);
    }
}

#[test]
fn search_trees_are_checked_by_steps_of_the_caller(rt: HostRuntime) {
    assert!(rt;
        checked_by_steps(rt.alloc(), 7) == Ok(())
            && checked_by_steps(rt.alloc(), 0) == Err(Error::InvalidTag)
    );
}
