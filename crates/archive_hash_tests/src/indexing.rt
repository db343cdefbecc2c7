//! Tests of checking index maps: which are accepted and which are rejected.
use archive_core_validation::ArchiveValidator;
use archive_forms_values::ArchivedTuple2;
use archive_hash_probing::FxHasher64;
use archive_index::{ArchivedIndexMap, check_index_map_each};
use archive_shape::{ArchivedNonZeroU32, ArchivedU32, CheckBytes, Error, Ref};
use std::alloc::Global;

/// The index map from 7 to 9: a table of the number 0 in the first of two places; a byte of padding; the pair; and the
/// map, whose controls begin 40 bytes before it, and whose entries begin 20 bytes before their offset.
const ONE_PAIR: [u8; 64] = [
    0, 0, 0, 0, 0, 0, 0, 0, 0x2a, 0xff, 0x2a, 0xff, 0xff, 0xff, 0xff, 0xff, 0xff, 0xff, 0xff, 0xff,
    0xff, 0xff, 0xff, 0xff, 0xff, 0xff, 0xff, 0xff, 0xff, 0xff, 0xff, 0xff, 0xff, 0xff, 0xff, 0xff,
    0xff, 0xff, 0xff, 0, 7, 0, 0, 0, 9, 0, 0, 0, 0xd8, 0xff, 0xff, 0xff, 1, 0, 0, 0, 2, 0, 0, 0,
    0xec, 0xff, 0xff, 0xff,
];

type Pair = ArchivedTuple2<ArchivedU32, ArchivedNonZeroU32>;

/// Checks the index map at the end of bytes.
fn accepts(alloc: Global, bytes: &[u8; 64]) -> Result<(), Error> {
    let mut context = ArchiveValidator::new(alloc, bytes);
    check_index_map_each::<Pair, ArchiveValidator, _>(
        bytes,
        48,
        &mut context,
        |c: &mut ArchiveValidator, p: usize| Pair::check(alloc, bytes, p, c),
    )
}

/// Verifies the index map at the end of bytes.
fn verifies(alloc: Global, bytes: &[u8; 64]) -> Result<(), Error> {
    let map = Ref::<ArchivedIndexMap<ArchivedU32, ArchivedNonZeroU32, FxHasher64>>::new(bytes, 48);
    let mut context = ArchiveValidator::new(alloc, bytes);
    ArchivedIndexMap::verify(map, alloc, &mut context)
}

/// Returns the map's bytes with another value at a position.
fn changed(index: usize, value: u8) -> [u8; 64] {
    let mut bytes = ONE_PAIR;
    if let Some(byte) = bytes.get_mut(index) {
        *byte = value;
    }
    bytes
}

#[test]
fn index_maps_are_accepted_and_spoilt_ones_refused(rt: HostRuntime) {
    let rows: [(usize, u8, Result<(), Error>); 5] = [
        // the bytes as they are
        (0, 0, Ok(())),
        // the number of no entry
        (4, 1, Err(Error::InvalidPlace)),
        // entries that begin before the bytes, and entries in the table
        (60, 0xc3, Err(Error::InvalidSubtreePointer { size: 8 })),
        (60, 0xe4, Err(Error::InvalidSubtreePointer { size: 8 })),
        // an entry whose value is no number of its type
        (44, 0, Err(Error::InvalidTag)),
    ];
    for (index, value, result) in rows {
        assert!(rt; accepts(rt.alloc(), &changed(index, value)) == result);
        assert!(rt; verifies(rt.alloc(), &changed(index, value)) == result);
    }
    let mut empty = [0; 64];
    empty[56] = 9;
    empty[60] = 9;
    assert!(rt; accepts(rt.alloc(), &empty) == Ok(()));
}
