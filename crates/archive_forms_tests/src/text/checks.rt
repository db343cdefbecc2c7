//! Tests of the check of texts.
use crate::checking::check_alone;
use archive_forms_values::ArchivedString;
use archive_shape::Error;

#[test]
fn texts_by_their_own_bytes(rt: HostRuntime) {
    let alloc = rt.alloc();
    let rows = [
        (*b"world\xff\xff\xff", 0, Ok(())),
        ([0xff; 8], 0, Ok(())),
        (*b"12345678", 0, Ok(())),
        (*b"\xfeorld\xff\xff\xff", 0, Err(Error::InvalidUtf8)),
        (*b"worl\xc3\xff\xff\xff", 0, Err(Error::InvalidUtf8)),
        (*b"\xc0\x80orld\xff\xff", 0, Err(Error::InvalidUtf8)),
        (
            *b"\x81\0\0\0\xf8\xff\xff\xff",
            1,
            Err(Error::CheckStringRepr),
        ),
        (
            *b"\x80\x01\0\0\xff\xff\xff\xff",
            1,
            Err(Error::InvalidSubtreePointer { size: 64 }),
        ),
        (
            *b"\xbf\xff\xff\xff\0\0\0\0",
            1,
            Err(Error::InvalidSubtreePointer { size: 0x3fff_ffff }),
        ),
    ];
    for (own, most, result) in rows {
        assert!(rt; check_alone::<ArchivedString>(alloc, &own, 0, most) == result);
    }
    let behind = b".\xc3\xa9\xff\xff\xff\xff\xff\xff";
    assert!(rt; check_alone::<ArchivedString>(alloc, behind, 1, 0) == Ok(()));
}

#[test]
fn texts_out_of_line(rt: HostRuntime) {
    let alloc = rt.alloc();
    let hello = *b"hello world!\x8c\0\0\0\xf4\xff\xff\xff";
    let rows = [
        (hello, 1, Ok(())),
        (*b"123456789...\x89\0\0\0\xf4\xff\xff\xff", 1, Ok(())),
        (hello, 0, Err(Error::ExceededMaximumSubtreeDepth)),
        (
            *b"hello world!\x8c\0\0\0\xf3\xff\xff\xff",
            1,
            Err(Error::InvalidSubtreePointer { size: 12 }),
        ),
        (
            *b"hello\xff world\x8c\0\0\0\xf4\xff\xff\xff",
            1,
            Err(Error::InvalidUtf8),
        ),
        (
            *b"....12345678\x88\0\0\0\xf8\xff\xff\xff",
            1,
            Err(Error::CheckStringRepr),
        ),
    ];
    for (bytes, most, result) in rows {
        assert!(rt; check_alone::<ArchivedString>(alloc, &bytes, 12, most) == result);
    }
}
