//! Tests of the check of tuples.
use super::check_alone;
use archive_forms_values::{ArchivedBox, ArchivedTuple4};
use archive_shape::Error;

#[test]
fn tuples_of_four_refuse_the_first_bad_field(rt: HostRuntime) {
    let rows = [
        (
            *b"\x07\0\0\0\x09\xff\xff\xff\xf8\xff\xff\xff\x01\x05\xff\xff",
            Ok(()),
        ),
        (
            *b"\x07\0\0\0\x09\0\0\0\0\0\0\x80\x01\x05\0\0",
            Err(Error::InvalidSubtreePointer { size: 1 }),
        ),
        (
            *b"\x07\0\0\0\x09\0\0\0\xf8\xff\xff\xff\x02\x05\0\0",
            Err(Error::InvalidTag),
        ),
        (
            *b"\x07\0\0\0\x09\0\0\0\0\0\0\x80\x02\x05\0\0",
            Err(Error::InvalidSubtreePointer { size: 1 }),
        ),
    ];
    for (bytes, result) in rows {
        assert!(rt;
            check_alone::<ArchivedTuple4<u8, ArchivedBox<u8>, bool, u8>>(rt.alloc(), &bytes, 4, 1)
                == result
        );
    }
}
