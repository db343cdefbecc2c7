//! Tests of the check of boxes.
use super::check_alone;
use archive_forms_values::ArchivedBox;
use archive_shape::{ArchivedI32, Error};

#[test]
fn boxes_of_a_number(rt: HostRuntime) {
    let rows = [
        (*b"\x07\0\0\0\xfc\xff\xff\xff", 4, 1, Ok(())),
        (*b"\x04\0\0\0\x07\0\0\0", 0, 1, Ok(())),
        (
            *b"\x07\0\0\0\xfc\xff\xff\xff",
            4,
            0,
            Err(Error::ExceededMaximumSubtreeDepth),
        ),
        (
            *b"\x07\0\0\0\xfd\xff\xff\xff",
            4,
            1,
            Err(Error::Unaligned { align: 4 }),
        ),
        (
            *b"\x07\0\0\0\xfb\xff\xff\xff",
            4,
            1,
            Err(Error::InvalidSubtreePointer { size: 4 }),
        ),
        (
            *b"\x05\0\0\0\x07\0\0\0",
            0,
            1,
            Err(Error::InvalidSubtreePointer { size: 4 }),
        ),
        (
            *b"\0\0\0\0\0\0\0\x80",
            4,
            1,
            Err(Error::InvalidSubtreePointer { size: 4 }),
        ),
    ];
    for (bytes, pos, most, result) in rows {
        assert!(rt;
            check_alone::<ArchivedBox<ArchivedI32>>(rt.alloc(), &bytes, pos, most) == result
        );
    }
}

#[test]
fn boxes_in_boxes(rt: HostRuntime) {
    let nested = *b"\x07\0\0\0\xfc\xff\xff\xff\xfc\xff\xff\xff";
    let rows = [
        (nested, 8, 2, Ok(())),
        (nested, 8, 1, Err(Error::ExceededMaximumSubtreeDepth)),
        (
            *b"\x04\0\0\0\x04\0\0\0\x07\0\0\0",
            0,
            2,
            Err(Error::InvalidSubtreePointer { size: 4 }),
        ),
    ];
    for (bytes, pos, most, result) in rows {
        assert!(rt;
            check_alone::<ArchivedBox<ArchivedBox<ArchivedI32>>>(rt.alloc(), &bytes, pos, most)
                == result
        );
    }
}
