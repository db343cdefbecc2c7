//! Tests of how forms with parts are compared.
use super::answers::compared_as;
use archive_forms_values::{ArchivedBoxedSlice, ArchivedOption, ArchivedTuple2};
use std::cmp::Ordering;

#[test]
fn none_before_some_and_tuples_by_their_first_field_and_then_by_their_second(rt: HostRuntime) {
    let alloc = rt.alloc();
    let none = (b"\0\x09".as_slice(), 0);
    let some = (b"\x01\0".as_slice(), 0);
    assert!(rt;
        compared_as::<ArchivedOption<u8>>(alloc, none, some, false, Ordering::Less)
            && compared_as::<ArchivedOption<u8>>(alloc, some, none, false, Ordering::Greater)
            && compared_as::<ArchivedOption<u8>>(alloc, some, some, true, Ordering::Equal)
    );
    let low = (b"\x01\x02".as_slice(), 0);
    let middle = (b"\x01\x03".as_slice(), 0);
    let high = (b"\x02\x00".as_slice(), 0);
    assert!(rt;
        compared_as::<ArchivedTuple2<u8, u8>>(alloc, low, middle, false, Ordering::Less)
            && compared_as::<ArchivedTuple2<u8, u8>>(alloc, middle, high, false, Ordering::Less)
    );
}

#[test]
fn boxed_slice_by_its_first_other_element_and_then_by_its_length(rt: HostRuntime) {
    let alloc = rt.alloc();
    let short = (b"\x01\x02..\xfc\xff\xff\xff\x02\0\0\0".as_slice(), 4);
    let long = (b"....\x01\x02\0.\xfc\xff\xff\xff\x03\0\0\0".as_slice(), 8);
    let high = (b"\x02...\xfc\xff\xff\xff\x01\0\0\0".as_slice(), 4);
    assert!(rt;
        compared_as::<ArchivedBoxedSlice<u8>>(alloc, short, short, true, Ordering::Equal)
            && compared_as::<ArchivedBoxedSlice<u8>>(alloc, short, long, false, Ordering::Less)
            && compared_as::<ArchivedBoxedSlice<u8>>(alloc, high, long, false, Ordering::Greater)
    );
}
