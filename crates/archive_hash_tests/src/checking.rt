//! Tests of checking hash tables: which are accepted and which are rejected.
use archive_core_validation::ArchiveValidator;
use archive_hash_maps::checking::{
    TableHead, check_head, check_place_buckets, check_table_each, control_count, controls_at,
};
use archive_hash_maps::{ArchivedHashTable, InvalidLength};
use archive_shape::{ArchivedNonZeroU32, ArchivedU32, CheckBytes, Error, Ref};
use std::alloc::Global;

/// A table of one number in the second of two places: the bucket of each place, the second place's first; sixteen
/// controls for the places and fifteen more; a byte of padding; and the table, whose controls begin 32 bytes before it.
const ONE_OF_TWO: [u8; 52] = [
    7, 0, 0, 0, 0, 0, 0, 0, 0xff, 0x55, 0xff, 0x55, 0xff, 0xff, 0xff, 0xff, 0xff, 0xff, 0xff, 0xff,
    0xff, 0xff, 0xff, 0xff, 0xff, 0xff, 0xff, 0xff, 0xff, 0xff, 0xff, 0xff, 0xff, 0xff, 0xff, 0xff,
    0xff, 0xff, 0xff, 0, 0xe0, 0xff, 0xff, 0xff, 1, 0, 0, 0, 2, 0, 0, 0,
];

/// Checks the table of numbers at the end of bytes.
fn accepts(alloc: Global, bytes: &[u8; 52]) -> Result<(), Error> {
    let mut context = ArchiveValidator::new(alloc, bytes);
    check_table_each::<ArchivedU32, ArchiveValidator, _>(
        bytes,
        40,
        &mut context,
        |c: &mut ArchiveValidator, p: usize| ArchivedU32::check(alloc, bytes, p, c),
    )
}

/// Returns the table's bytes with other values at some positions.
fn changed(changes: &[(usize, u8)]) -> [u8; 52] {
    let mut bytes = ONE_OF_TWO;
    for (index, value) in changes {
        if let Some(byte) = bytes.get_mut(*index) {
            *byte = *value;
        }
    }
    bytes
}

#[test]
fn tables_are_accepted_and_spoilt_ones_refused(rt: HostRuntime) {
    let wrong = Error::WrongNumberOfElements {
        expected: 1,
        actual: 2,
    };
    let rows: [(&[(usize, u8)], Result<(), Error>); 7] = [
        (&[], Ok(())),
        // as many items as places
        (&[(44, 2)], Err(Error::TableLength { len: 2, cap: 2 })),
        // controls and buckets that begin before the bytes
        (
            &[(40, 0xd7)],
            Err(Error::InvalidSubtreePointer { size: 39 }),
        ),
        (
            &[(40, 0xdc)],
            Err(Error::InvalidSubtreePointer { size: 39 }),
        ),
        // a control that does not repeat, and a tag behind the repeated controls
        (&[(11, 0x54)], Err(Error::UnwrappedControlByte { index: 3 })),
        (
            &[(38, 0x55)],
            Err(Error::UnwrappedControlByte { index: 30 }),
        ),
        // another number of items
        (&[(8, 0), (10, 0)], Err(wrong)),
    ];
    for (changes, result) in rows {
        assert!(rt; accepts(rt.alloc(), &changed(changes)) == result);
    }
    let mut empty = [0; 52];
    empty[48] = 9;
    assert!(rt; accepts(rt.alloc(), &empty) == Ok(()));
}

/// Checks the buckets and controls of a table of one entry.
fn accepts_numbers(alloc: Global, bytes: &[u8; 52]) -> Result<(), Error> {
    let mut context = ArchiveValidator::new(alloc, bytes);
    check_place_buckets(bytes, 8, 1, 2, &mut context)
}

#[test]
fn numbers_of_no_entry_are_refused(rt: HostRuntime) {
    let mut bytes = ONE_OF_TWO;
    assert!(rt; accepts_numbers(rt.alloc(), &bytes) == Err(Error::InvalidPlace));
    bytes[0] = 0;
    assert!(rt; accepts_numbers(rt.alloc(), &bytes) == Ok(()));
}

#[test]
#[tactic(auto, unfolding(archive_shape_layout::specs::Content::control_count, archive_shape_layout::specs::Bytes::align_up))]
fn controls_are_as_many_as_sixteens_of_places_and_fifteen_more(rt: HostRuntime) {
    let head = TableHead {
        len: 1,
        capacity: 2,
        controls: 8,
    };
    let controls = controls_at(&ONE_OF_TWO, 8, 2);
    assert!(rt;
        [control_count(2), control_count(16), control_count(17)] == [31, 31, 47]
            && check_head::<ArchivedU32>(&ONE_OF_TWO, 40) == Ok(Some(head))
            && controls[1] == 0x55
            && controls.len() == 31
    );
}

/// Verifies the table of numbers without 0 at the end of bytes.
fn verifies(alloc: Global, bytes: &[u8; 52]) -> Result<(), Error> {
    let mut context = ArchiveValidator::new(alloc, bytes);
    let table: Ref<'_, ArchivedHashTable<ArchivedNonZeroU32>> = Ref::new(bytes, 40);
    ArchivedHashTable::verify(table, alloc, &mut context)
}

#[test]
fn tables_are_verified(rt: HostRuntime) {
    let rows: [(&[(usize, u8)], Result<(), Error>); 4] = [
        (&[], Ok(())),
        (&[(0, 0)], Err(Error::InvalidTag)),
        (&[(0, 0), (44, 2)], Err(InvalidLength { len: 2, cap: 2 })),
        (&[(0, 0), (44, 0)], Ok(())),
    ];
    for (changes, result) in rows {
        assert!(rt; verifies(rt.alloc(), &changed(changes)) == result);
    }
}
