//! Tests of the bytes of boxes and vectors.
use archive_forms_values::{ArchivedBox, ArchivedVec, BoxResolver, VecResolver};
use archive_shape::{Error, Place};

#[test]
fn boxes_are_offsets(rt: HostRuntime) {
    let rows = [
        (0, Ok(()), *b".\xf8\xff\xff\xff."),
        (12, Ok(()), *b".\x04\0\0\0."),
        (1 << 32, Err(Error::IsizeOverflow), *b"......"),
    ];
    for (target, result, bytes) in rows {
        let mut out = *b"......";
        let place = Place::within(&mut out, 1, 8);
        assert!(rt;
            ArchivedBox::<u8>::resolve_from_raw_parts(BoxResolver::from_pos(target), place)
                == result
                && out == bytes
        );
    }
}

#[test]
fn vectors_are_offsets_and_lengths(rt: HostRuntime) {
    let rows = [
        (3, 0, Ok(()), *b"\xf8\xff\xff\xff\x03\0\0\0."),
        (258, 12, Ok(()), *b"\x04\0\0\0\x02\x01\0\0."),
        (3, 1 << 32, Err(Error::IsizeOverflow), *b"........."),
        (1 << 32, 0, Err(Error::LengthTooLarge), *b"........."),
        (1 << 32, 1 << 32, Err(Error::LengthTooLarge), *b"........."),
    ];
    for (len, target, result, bytes) in rows {
        let mut out = *b".........";
        let place = Place::new(&mut out, 8);
        assert!(rt;
            ArchivedVec::<u8>::resolve_from_len(len, VecResolver::from_pos(target), place) == result
                && out == bytes
        );
    }
}
