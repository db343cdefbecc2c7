//! Tests of what is printed.
use super::answers::printed_as;
use archive_forms_values::{
    ArchivedBox, ArchivedBoxedSlice, ArchivedBoxedStr, ArchivedOption, ArchivedResult,
    ArchivedString, ArchivedTuple2, ArchivedVec, Entry,
};
use archive_shape::ArchivedI16;

#[test]
fn options_results_tuples_entries_and_texts(rt: HostRuntime) {
    let alloc = rt.alloc();
    assert!(rt;
        printed_as::<ArchivedOption<u8>>(alloc, b"\x01\x05", 0, "Some(5)")
            && printed_as::<ArchivedOption<u8>>(alloc, b"\0\x05", 0, "None")
            && printed_as::<ArchivedResult<u8, bool>>(alloc, b"\x01\x01", 0, "Err(true)")
    );
    let pair = b"\xff\xff\0.";
    assert!(rt;
        printed_as::<ArchivedTuple2<ArchivedI16, bool>>(alloc, pair, 0, "(-1, false)")
            && printed_as::<Entry<ArchivedI16, bool>>(alloc, pair, 0, "(-1, false)")
    );
    let text = b"a\"b\xff\xff\xff\xff\xff";
    assert!(rt; printed_as::<ArchivedString>(alloc, text, 0, "\"a\\\"b\""));
}

#[test]
fn vectors_boxes_and_arrays(rt: HostRuntime) {
    let alloc = rt.alloc();
    let two = b"\x01\x02..\xfc\xff\xff\xff\x02\0\0\0";
    assert!(rt;
        printed_as::<ArchivedVec<u8>>(alloc, two, 4, "[1, 2]")
            && printed_as::<ArchivedBoxedSlice<u8>>(alloc, two, 4, "[1, 2]")
            && printed_as::<ArchivedVec<u8>>(alloc, &[0; 8], 0, "[]")
            && printed_as::<ArchivedBox<u8>>(alloc, b"\x05...\xfc\xff\xff\xff", 4, "5")
            && printed_as::<[u8; 2]>(alloc, b"\x01\x02", 0, "[1, 2]")
    );
    let text = b".....a\"b\xfd\xff\xff\xff\x03\0\0\0";
    assert!(rt; printed_as::<ArchivedBoxedStr>(alloc, text, 8, "\"a\\\"b\""));
}
