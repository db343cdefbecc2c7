//! Tests of values that are read back from bytes.
use super::read_back;
use archive_forms_values::{
    ArchivedBox, ArchivedBoxedSlice, ArchivedOption, ArchivedResult, ArchivedVec,
};
use archive_shape::{ArchivedU16, ArchivedU32};
use std::boxed::BoxedSlice;

#[test]
fn results_are_read_back(rt: HostRuntime) {
    let rows = [
        (*b"\0\0\0\0\x05\0\0\0", Ok(Ok(5))),
        (*b"\x01\0\0\0\x07\0\0\0", Ok(Err(7))),
    ];
    for (bytes, result) in rows {
        assert!(rt;
            read_back::<Result<u32, u8>, ArchivedResult<ArchivedU32, u8>>(rt.alloc(), &bytes, 0, 0)
                == result
        );
    }
}

#[test]
fn vector_of_options_is_read_back(rt: HostRuntime) {
    let bytes = b"\x01\x07\0\x09\xfc\xff\xff\xff\x02\0\0\0";
    let read = read_back::<Vec<Option<u8>>, ArchivedVec<ArchivedOption<u8>>>(
        rt.alloc(),
        bytes,
        4,
        1,
    );
    assert!(rt; matches!(&read, Ok(items) if items.as_slice() == [Some(7), None].as_slice()));
}

#[test]
fn array_of_a_box_is_read_back(rt: HostRuntime) {
    let bytes = b"\x05\0\0\0\xfc\xff\xff\xff";
    let read = read_back::<[Box<u32>; 1], [ArchivedBox<ArchivedU32>; 1]>(rt.alloc(), bytes, 4, 1);
    assert!(rt; matches!(&read, Ok([value]) if **value == 5));
}

#[test]
fn elements_of_a_box_are_read_back(rt: HostRuntime) {
    let bytes = b"\x05\0\x06\0\x07\0..\xf8\xff\xff\xff\x03\0\0\0";
    let read = read_back::<BoxedSlice<u16>, ArchivedBoxedSlice<ArchivedU16>>(
        rt.alloc(),
        bytes,
        8,
        1,
    );
    assert!(rt; matches!(&read, Ok(back) if back.as_slice() == [5, 6, 7].as_slice()));
}
