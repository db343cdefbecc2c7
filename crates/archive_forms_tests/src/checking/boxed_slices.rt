//! Tests of the check of boxes of slices and of texts.
use super::check_alone;
use archive_forms_values::{ArchivedBoxedSlice, ArchivedBoxedStr};
use archive_shape::Error;

#[test]
fn boxes_of_truth_values(rt: HostRuntime) {
    let rows = [
        (*b"\x01\0\x01\0\xfc\xff\xff\xff\x03\0\0\0", Ok(())),
        (
            *b"\x01\0\x02\0\xfc\xff\xff\xff\x03\0\0\0",
            Err(Error::InvalidTag),
        ),
        (*b"\x02\0\0\0\xfc\xff\xff\xff\0\0\0\0", Ok(())),
    ];
    for (bytes, result) in rows {
        assert!(rt; check_alone::<ArchivedBoxedSlice<bool>>(rt.alloc(), &bytes, 4, 1) == result);
    }
}

#[test]
fn boxes_of_texts(rt: HostRuntime) {
    let hello = *b"...hello\xfb\xff\xff\xff\x05\0\0\0";
    let rows = [
        (hello, 1, Ok(())),
        (hello, 0, Err(Error::ExceededMaximumSubtreeDepth)),
        (
            *b"...hell\xc3\xfb\xff\xff\xff\x05\0\0\0",
            1,
            Err(Error::InvalidUtf8),
        ),
        (*b"...hell\xc3\xfb\xff\xff\xff\x04\0\0\0", 1, Ok(())),
        (
            *b"...hello\xfb\xff\xff\xff\x0e\0\0\0",
            1,
            Err(Error::InvalidSubtreePointer { size: 14 }),
        ),
        (
            *b"...hello\xf7\xff\xff\xff\x05\0\0\0",
            1,
            Err(Error::InvalidSubtreePointer { size: 5 }),
        ),
        (
            *b"...hello\xfb\xff\xff\xff\xff\xff\xff\xff",
            1,
            Err(Error::InvalidSubtreePointer {
                size: 4_294_967_295,
            }),
        ),
    ];
    for (bytes, most, result) in rows {
        assert!(rt; check_alone::<ArchivedBoxedStr>(rt.alloc(), &bytes, 8, most) == result);
    }
}
