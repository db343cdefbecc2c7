//! Tests of results, and of a vector of options of boxes, that are archived.
use super::is_archived_as;

#[test]
fn results_of_different_sizes(rt: HostRuntime) {
    let rows = [
        (Ok(7u8), *b"\0\0\0\0\x07\0\0\0"),
        (Err(258u32), *b"\x01\0\0\0\x02\x01\0\0"),
    ];
    for (outcome, bytes) in rows {
        assert!(rt; is_archived_as(rt.alloc(), &outcome, &bytes));
    }
}

#[test]
fn a_vector_of_options_of_boxes(rt: HostRuntime) {
    let alloc = rt.alloc();
    let Ok(seven) = Box::new(alloc, 7i32) else {
        panic!(rt; "no memory");
    };
    let Ok(list) = vec![in alloc; Some(seven), None] else {
        panic!(rt; "no memory");
    };
    let bytes = *b"\x07\0\0\0\x01\0\0\0\xf8\xff\xff\xff\0\0\0\0\0\0\0\0\xf0\xff\xff\xff\x02\0\0\0";
    assert!(rt; is_archived_as(alloc, &list, &bytes));
}
