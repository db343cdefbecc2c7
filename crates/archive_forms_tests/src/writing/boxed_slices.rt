//! Tests of a box of boxes of texts that is archived.
use super::is_archived_as;
use std::alloc::Global;
use std::boxed::{BoxedSlice, BoxedStr};

/// Returns a box of two boxes of texts, or `None` where no memory is left.
fn boxed_texts(alloc: Global, first: &str, second: &str) -> Option<BoxedSlice<BoxedStr>> {
    let Ok(first) = BoxedStr::from_str(alloc, first) else {
        return None;
    };
    let Ok(second) = BoxedStr::from_str(alloc, second) else {
        return None;
    };
    match vec![in alloc; first, second] {
        Ok(both) => Some(both.into_boxed_slice()),
        Err(_) => None,
    }
}

#[test]
fn a_box_of_boxes_of_texts(rt: HostRuntime) {
    let alloc = rt.alloc();
    let Some(both) = boxed_texts(alloc, "ab", "c") else {
        panic!(rt; "no memory");
    };
    let bytes =
        *b"abc\0\xfc\xff\xff\xff\x02\0\0\0\xf6\xff\xff\xff\x01\0\0\0\xf0\xff\xff\xff\x02\0\0\0";
    assert!(rt; is_archived_as(alloc, &both, &bytes));
}
