//! Tests of arrays that are archived.
use super::is_archived_as;

#[test]
fn an_array_of_boxes(rt: HostRuntime) {
    let alloc = rt.alloc();
    let Ok(seven) = Box::new(alloc, 7u32) else {
        panic!(rt; "no memory");
    };
    let Ok(eight) = Box::new(alloc, 8u32) else {
        panic!(rt; "no memory");
    };
    let bytes = b"\x07\0\0\0\x08\0\0\0\xf8\xff\xff\xff\xf8\xff\xff\xff";
    assert!(rt; is_archived_as(alloc, &[seven, eight], bytes));
}
