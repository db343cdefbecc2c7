//! Tests of counted pointers: how they are archived under keys, and the errors of their checks.
use crate::rc::values::{fives, numbers, text};
use archive_core::{
    ArchivedRc, ArchivedRcSlice, ArchivedTuple2, ArchivedU32, CheckBytes, Error, HighValidator,
    RcFlavor, access, to_bytes,
};
use std::alloc::Global;

/// Returns the error of checking an archive, if there is one.
pub(crate) fn refusal<T: CheckBytes<HighValidator>>(alloc: Global, bytes: &[u8]) -> Option<Error> {
    access::<T>(alloc, bytes).err()
}

#[test]
fn texts_of_one_key_stand_once_and_of_two_keys_apart(rt: HostRuntime) -> Result<(), Error> {
    let alloc = rt.alloc();
    let rows: [(usize, &str, &[u8]); 4] = [
        (
            3,
            "hello world!",
            b"hello world!\xf4\xff\xff\xff\x0c\0\0\0\xec\xff\xff\xff\x0c\0\0\0",
        ),
        (
            4,
            "abcd",
            b"abcdabcd\xf8\xff\xff\xff\x04\0\0\0\xf4\xff\xff\xff\x04\0\0\0",
        ),
        // An empty text is followed by a zero.
        (
            3,
            "",
            b"\0\0\0\0\xfc\xff\xff\xff\0\0\0\0\xf4\xff\xff\xff\0\0\0\0",
        ),
        (
            4,
            "",
            b"\0\0\0\0\xfc\xff\xff\xff\0\0\0\0\xf5\xff\xff\xff\0\0\0\0",
        ),
    ];
    for (key, word, expected) in rows {
        let pair = (text(alloc, 3, word)?, text(alloc, key, word)?);
        let bytes = to_bytes(alloc, &pair)?;
        assert!(rt; &*bytes == expected);
    }
    Ok(())
}

#[test]
fn numbers_of_one_key_stand_once(rt: HostRuntime) -> Result<(), Error> {
    let alloc = rt.alloc();
    let bytes = to_bytes(alloc, &fives(alloc, &[7, 7])?)?;
    let expected: &[u8] = b"\x05\0\0\0\xfc\xff\xff\xff\xf8\xff\xff\xff\xf8\xff\xff\xff\x02\0\0\0";
    assert!(rt; &*bytes == expected);
    Ok(())
}

#[test]
fn elements_of_one_key_stand_once(rt: HostRuntime) -> Result<(), Error> {
    let alloc = rt.alloc();
    let pair = (numbers(alloc, 0, &[6, 7])?, numbers(alloc, 0, &[6, 7])?);
    let bytes = to_bytes(alloc, &pair)?;
    let expected: &[u8] =
        b"\x06\0\0\0\x07\0\0\0\xf8\xff\xff\xff\x02\0\0\0\xf0\xff\xff\xff\x02\0\0\0";
    assert!(rt; &*bytes == expected);
    Ok(())
}

#[test]
fn position_has_one_shape_and_one_length(rt: HostRuntime) {
    type TwoShapes = ArchivedTuple2<
        ArchivedRc<ArchivedU32, RcFlavor>,
        ArchivedRcSlice<u8, RcFlavor>,
    >;
    type TwoSlices = [ArchivedRcSlice<u8, RcFlavor>; 2];
    let bytes = b"\x01\x02\x03\x04\xfc\xff\xff\xff\xf8\xff\xff\xff\x03\0\0\0";
    assert!(rt; refusal::<TwoShapes>(rt.alloc(), bytes) == Some(Error::TypeMismatch));
    let rows: [(&[u8], Option<Error>); 2] = [
        (
            b"\x01\x02\x03\x04\xfc\xff\xff\xff\x04\0\0\0\xf4\xff\xff\xff\x02\0\0\0",
            Some(Error::MetadataMismatch),
        ),
        (
            b"\x01\x02\x03\x04\xfc\xff\xff\xff\x04\0\0\0\xf4\xff\xff\xff\x04\0\0\0",
            None,
        ),
    ];
    for (bytes, result) in rows {
        assert!(rt; refusal::<TwoSlices>(rt.alloc(), bytes) == result);
    }
}
