//! Tests of bytes that are opened, or refused by their first fault, by each scan.
use crate::archives::{
    A_APART, A_TO_ONE, A_TWICE, A_TWICE_KEPT, CYCLE, EMPTY_ORDERED, FIVE, SHARED, SHORT, TWO,
    TWO_LEAVES, TWO_OPTIONS, WHOLES_APART,
};
use archive_shape_layout::Error;
use cabinet::{Group1, Group8, Group16, OpenRefusal, check_scanned};
use cabinet_doubles::archives::{
    COFFEE_AND_TEA, TWO_SHARED, TWO_WHOLES, WHOLE_IN_MAPS, WHOLE_IN_WHOLE, Z_AND_A,
};
use std::alloc::Global;

/// Bytes with other values at some positions.
type Changed = (&'static [u8], &'static [(usize, u8)]);

/// Bytes that are opened.
const OPENED: [Changed; 16] = [
    (FIVE, &[]),
    (TWO, &[]),
    (TWO_OPTIONS, &[]),
    (SHARED, &[]),
    (TWO_SHARED, &[]),
    // both texts are empty; the second text begins where the first ends
    (TWO_SHARED, &[(24, 0), (48, 0)]),
    (TWO_SHARED, &[(24, 5), (44, 0xd9), (48, 7)]),
    // the pointer of a map without entries is not read
    (EMPTY_ORDERED, &[]),
    (TWO_LEAVES, &[]),
    (A_TO_ONE, &[]),
    // a key in a place that its search shows
    (A_APART, &[]),
    (Z_AND_A, &[]),
    (TWO_WHOLES, &[]),
    (WHOLE_IN_WHOLE, &[]),
    (WHOLE_IN_MAPS, &[]),
    // equal wholes that lie at two positions
    (WHOLES_APART, &[]),
];

/// Numbers, lists and options that are no archive.
const PLAIN: [(Changed, Error); 14] = [
    ((&[], &[]), Error::InvalidSubtreePointer { size: 24 }),
    ((SHORT, &[]), Error::InvalidSubtreePointer { size: 24 }),
    ((FIVE, &[(0, 10)]), Error::InvalidTag),
    ((FIVE, &[(0, 255)]), Error::InvalidTag),
    ((FIVE, &[(0, 0), (1, 2)]), Error::InvalidTag),
    ((FIVE, &[(0, 2), (4, 0x81)]), Error::CheckStringRepr),
    ((FIVE, &[(0, 2), (4, 0xfe)]), Error::InvalidUtf8),
    // a list that begins in its own node, and one that begins before the bytes
    (
        (
            FIVE,
            &[(0, 5), (4, 0xfc), (5, 255), (6, 255), (7, 255), (8, 1)],
        ),
        Error::InvalidSubtreePointer { size: 24 },
    ),
    (
        (
            FIVE,
            &[(0, 5), (4, 0xe4), (5, 255), (6, 255), (7, 255), (8, 2)],
        ),
        Error::InvalidSubtreePointer { size: 48 },
    ),
    (
        (TWO, &[(52, 0xd4)]),
        Error::InvalidSubtreePointer { size: 48 },
    ),
    ((TWO, &[(52, 0xce), (56, 1)]), Error::Unaligned { align: 8 }),
    ((TWO, &[(0, 10)]), Error::InvalidTag),
    ((TWO, &[(24, 10)]), Error::InvalidTag),
    // both options lead to one node
    (
        (TWO_OPTIONS, &[(80, 0xb0)]),
        Error::InvalidSubtreePointer { size: 24 },
    ),
];

/// Shared texts that are no archive.
const TEXTS: [(Changed, Error); 13] = [
    ((SHARED, &[(11, 0xff)]), Error::InvalidUtf8),
    // a text that reaches into its node, one that begins in it, and one that begins before the bytes
    (
        (SHARED, &[(24, 17)]),
        Error::InvalidSubtreePointer { size: 17 },
    ),
    (
        (SHARED, &[(20, 0xfc), (24, 1)]),
        Error::InvalidSubtreePointer { size: 1 },
    ),
    (
        (SHARED, &[(20, 0xeb)]),
        Error::InvalidSubtreePointer { size: 12 },
    ),
    ((TWO_SHARED, &[(24, 11)]), Error::MetadataMismatch),
    ((TWO_SHARED, &[(48, 11)]), Error::MetadataMismatch),
    ((TWO_SHARED, &[(24, 0)]), Error::MetadataMismatch),
    ((TWO_SHARED, &[(48, 0)]), Error::MetadataMismatch),
    ((TWO_SHARED, &[(0, 0xff)]), Error::InvalidUtf8),
    ((TWO_SHARED, &[(3, 0xff)]), Error::InvalidUtf8),
    (
        (TWO_SHARED, &[(24, 17)]),
        Error::InvalidSubtreePointer { size: 17 },
    ),
    // the last eleven bytes of the text once more, and the shared bytes as a text of its own
    (
        (TWO_SHARED, &[(44, 0xd5), (48, 11)]),
        Error::InvalidSubtreePointer { size: 11 },
    ),
    (
        (
            TWO_SHARED,
            &[
                (40, 2),
                (44, 0x8c),
                (45, 0),
                (46, 0),
                (47, 0),
                (48, 0xd4),
                (49, 255),
                (50, 255),
                (51, 255),
            ],
        ),
        Error::InvalidSubtreePointer { size: 12 },
    ),
];

/// Wholes that are no archive.
const WHOLES: [(Changed, Error); 7] = [
    // a whole that begins in its own node, and one that begins before the bytes
    ((FIVE, &[(0, 9)]), Error::InvalidSubtreePointer { size: 24 }),
    (
        (TWO_WHOLES, &[(28, 0xe3)]),
        Error::InvalidSubtreePointer { size: 24 },
    ),
    // a whole of the node in which it lies
    ((CYCLE, &[]), Error::CyclicSharedPointer),
    // the first element itself as the second one's node, and a node that begins in the one before
    (
        (TWO_WHOLES, &[(52, 0xe4)]),
        Error::InvalidSubtreePointer { size: 24 },
    ),
    (
        (TWO_WHOLES, &[(52, 0xd4)]),
        Error::InvalidSubtreePointer { size: 24 },
    ),
    // a shared text where the node of a whole lies
    ((TWO_WHOLES, &[(48, 3)]), Error::TypeMismatch),
    ((TWO_WHOLES, &[(0, 10)]), Error::InvalidTag),
];

/// Ordered maps that are no archive.
const TREES: [(Changed, Error); 16] = [
    (
        (EMPTY_ORDERED, &[(8, 1)]),
        Error::InvalidSubtreePointer { size: 168 },
    ),
    // a leaf's kind: no kind, or an inner node, whose 192 bytes reach into the root
    ((COFFEE_AND_TEA, &[(0, 2)]), Error::InvalidTag),
    (
        (COFFEE_AND_TEA, &[(0, 1)]),
        Error::InvalidSubtreePointer { size: 192 },
    ),
    ((COFFEE_AND_TEA, &[(4, 0xfe)]), Error::InvalidUtf8),
    ((COFFEE_AND_TEA, &[(48, 10)]), Error::InvalidTag),
    // the number of entries in the leaf, and in the map
    (
        (COFFEE_AND_TEA, &[(168, 6)]),
        Error::NodeLength { len: 6, maximum: 5 },
    ),
    (
        (COFFEE_AND_TEA, &[(168, 1)]),
        Error::EntriesLengthMismatch { entries: 1, len: 2 },
    ),
    (
        (COFFEE_AND_TEA, &[(184, 3)]),
        Error::EntriesLengthMismatch { entries: 2, len: 3 },
    ),
    // the leaf's position: -1, 4 and 16, so that the kind, the keys and the values end in the root
    (
        (COFFEE_AND_TEA, &[(180, 0x4b)]),
        Error::InvalidSubtreePointer { size: 168 },
    ),
    (
        (COFFEE_AND_TEA, &[(180, 0x50)]),
        Error::Unaligned { align: 8 },
    ),
    (
        (COFFEE_AND_TEA, &[(180, 0x5c)]),
        Error::InvalidSubtreePointer { size: 168 },
    ),
    // an inner node's first and last child: one leaf as both, as the first two, both leaves in the other order, and the
    // inner node itself as the first, and as the last
    (
        (TWO_LEAVES, &[(540, 0xe4), (541, 0xfd)]),
        Error::InvalidSubtreePointer { size: 168 },
    ),
    (
        (
            TWO_LEAVES,
            &[(524, 0xf4), (525, 0xfd), (526, 0xff), (527, 0xff)],
        ),
        Error::InvalidSubtreePointer { size: 168 },
    ),
    (
        (
            TWO_LEAVES,
            &[(520, 0xa8), (521, 0xfe), (540, 0xe4), (541, 0xfd)],
        ),
        Error::InvalidSubtreePointer { size: 168 },
    ),
    (
        (TWO_LEAVES, &[(520, 0x58), (521, 0xff)]),
        Error::InvalidSubtreePointer { size: 168 },
    ),
    (
        (TWO_LEAVES, &[(540, 0x44), (541, 0xff)]),
        Error::InvalidSubtreePointer { size: 168 },
    ),
];

/// Hashed and kept maps that are no archive.
const TABLES: [(Changed, Error); 8] = [
    (
        (A_TO_ONE, &[(108, 1)]),
        Error::TableLength { len: 1, cap: 1 },
    ),
    (
        (A_TO_ONE, &[(67, 0x54)]),
        Error::UnwrappedControlByte { index: 3 },
    ),
    (
        (A_TO_ONE, &[(68, 0)]),
        Error::UnwrappedControlByte { index: 4 },
    ),
    (
        (A_TO_ONE, &[(65, 0xff), (67, 0xff)]),
        Error::WrongNumberOfElements {
            expected: 1,
            actual: 0,
        },
    ),
    ((Z_AND_A, &[(0, 2)]), Error::InvalidPlace),
    (
        (Z_AND_A, &[(124, 2)]),
        Error::TableLength { len: 2, cap: 2 },
    ),
    (
        (Z_AND_A, &[(13, 0x12)]),
        Error::UnwrappedControlByte { index: 4 },
    ),
    (
        (Z_AND_A, &[(128, 0xb8)]),
        Error::InvalidSubtreePointer { size: 64 },
    ),
];

/// Archives of no document.
const AUDITED: [(Changed, OpenRefusal); 10] = [
    ((A_TO_ONE, &[(65, 0x54), (67, 0x54)]), OpenRefusal::WrongTag),
    ((A_TWICE, &[]), OpenRefusal::NotFound),
    // a key in a place that its search does not show
    (
        (A_APART, &[(1029, 0xff), (1044, 0x55), (1061, 0xff)]),
        OpenRefusal::NotFound,
    ),
    // a control of another tag, two places that name one entry, and two that name each other's
    ((Z_AND_A, &[(13, 0x12), (16, 0x12)]), OpenRefusal::WrongTag),
    ((Z_AND_A, &[(0, 0)]), OpenRefusal::WrongTag),
    ((Z_AND_A, &[(0, 0), (4, 1)]), OpenRefusal::WrongTag),
    // another key under the tag, and a key that only another entry has
    ((Z_AND_A, &[(48, b'y')]), OpenRefusal::WrongTag),
    (
        (Z_AND_A, &[(48, b'a'), (13, 0x55), (16, 0x55)]),
        OpenRefusal::NotFound,
    ),
    ((A_TWICE_KEPT, &[]), OpenRefusal::NotFound),
    // the control of z, whose place lies behind one of a, and its repetition: all controls come before the keys
    (
        (A_TWICE_KEPT, &[(17, 0x12), (21, 0x12)]),
        OpenRefusal::WrongTag,
    ),
];

/// Returns whether opening the changed bytes has this outcome by each scan.
fn has_outcome_by_each(alloc: Global, changed: Changed, outcome: Result<(), OpenRefusal>) -> bool {
    let (archive, changes) = changed;
    let Ok(mut bytes) = Vec::from_slice(alloc, archive) else {
        return false;
    };
    for (index, value) in changes {
        if let Some(byte) = bytes.get_mut(*index) {
            *byte = *value;
        }
    }
    check_scanned::<Group1>(alloc, &bytes) == outcome
        && check_scanned::<Group8>(alloc, &bytes) == outcome
        && check_scanned::<Group16>(alloc, &bytes) == outcome
}

#[test]
fn archives_are_opened(rt: HostRuntime) {
    for changed in OPENED {
        assert!(rt; has_outcome_by_each(rt.alloc(), changed, Ok(())));
    }
}

#[test]
fn plain_nodes_are_refused_by_their_first_fault(rt: HostRuntime) {
    for (changed, error) in PLAIN {
        let refusal = OpenRefusal::Access(error);
        assert!(rt; has_outcome_by_each(rt.alloc(), changed, Err(refusal)));
    }
}

#[test]
fn shared_texts_are_refused_by_their_first_fault(rt: HostRuntime) {
    for (changed, error) in TEXTS {
        let refusal = OpenRefusal::Access(error);
        assert!(rt; has_outcome_by_each(rt.alloc(), changed, Err(refusal)));
    }
}

#[test]
fn wholes_are_refused_by_their_first_fault(rt: HostRuntime) {
    for (changed, error) in WHOLES {
        let refusal = OpenRefusal::Access(error);
        assert!(rt; has_outcome_by_each(rt.alloc(), changed, Err(refusal)));
    }
}

#[test]
fn search_trees_are_refused_by_their_first_fault(rt: HostRuntime) {
    for (changed, error) in TREES {
        let refusal = OpenRefusal::Access(error);
        assert!(rt; has_outcome_by_each(rt.alloc(), changed, Err(refusal)));
    }
}

#[test]
fn tables_are_refused_by_their_first_fault(rt: HostRuntime) {
    for (changed, error) in TABLES {
        let refusal = OpenRefusal::Access(error);
        assert!(rt; has_outcome_by_each(rt.alloc(), changed, Err(refusal)));
    }
}

#[test]
fn tags_and_look_ups_are_audited(rt: HostRuntime) {
    for (changed, refusal) in AUDITED {
        assert!(rt; has_outcome_by_each(rt.alloc(), changed, Err(refusal)));
    }
}
