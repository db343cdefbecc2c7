//! Tests of the check of vectors.
use super::check_alone;
use archive_forms_values::ArchivedVec;
use archive_shape::{ArchivedU16, ArchivedU128, Error};

#[test]
fn vectors_of_two_numbers(rt: HostRuntime) {
    let two = *b"\x01\0\x02\0\xfc\xff\xff\xff\x02\0\0\0";
    let rows = [
        (two, 1, Ok(())),
        (two, 0, Err(Error::ExceededMaximumSubtreeDepth)),
        (
            *b"\x01\0\x02\0\xfd\xff\xff\xff\x02\0\0\0",
            1,
            Err(Error::Unaligned { align: 2 }),
        ),
        (
            *b"\x01\0\x02\0\xfc\xff\xff\xff\x07\0\0\0",
            1,
            Err(Error::InvalidSubtreePointer { size: 14 }),
        ),
        (
            *b"\x01\0\x02\0\xfb\xff\xff\xff\x02\0\0\0",
            1,
            Err(Error::InvalidSubtreePointer { size: 4 }),
        ),
    ];
    for (bytes, most, result) in rows {
        assert!(rt; check_alone::<ArchivedVec<ArchivedU16>>(rt.alloc(), &bytes, 4, most) == result);
    }
}

#[test]
fn sizes_of_long_vectors(rt: HostRuntime) {
    let rows = [
        (
            *b"\0\0\0\0\x01\0\0\0",
            Error::InvalidSubtreePointer { size: 16 },
        ),
        (
            *b"\0\0\0\0\xff\xff\xff\xff",
            Error::InvalidSubtreePointer {
                size: 68_719_476_720,
            },
        ),
    ];
    for (bytes, error) in rows {
        assert!(rt;
            check_alone::<ArchivedVec<ArchivedU128>>(rt.alloc(), &bytes, 0, 1) == Err(error)
        );
    }
}
