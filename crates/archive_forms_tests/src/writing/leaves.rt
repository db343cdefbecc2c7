//! Tests of numbers, truth values, chars and the unit type that are archived.
use super::is_archived_as;
use std::marker::PhantomData;
use std::num::{NonZeroI64, NonZeroU8, NonZeroU128};

#[test]
fn numbers_chars_truth_values_and_units(rt: HostRuntime) {
    let alloc = rt.alloc();
    let wide = b"\xfe\xff\xff\xff\xff\xff\xff\xff\xff\xff\xff\xff\xff\xff\xff\xff";
    let mark: PhantomData<u32> = PhantomData;
    assert!(rt;
        is_archived_as(alloc, &-2i16, b"\xfe\xff")
            && is_archived_as(alloc, &-2i128, wide)
            && is_archived_as(alloc, &'\u{1f600}', b"\0\xf6\x01\0")
            && is_archived_as(alloc, &true, b"\x01")
            && is_archived_as(alloc, &(), b"")
            && is_archived_as(alloc, &mark, b"")
    );
}

#[test]
fn numbers_without_0(rt: HostRuntime) {
    let alloc = rt.alloc();
    let tagged = b"\x01\0\0\0\0\0\0\0\x02\x01\0\0\0\0\0\0";
    assert!(rt;
        is_archived_as(alloc, &NonZeroU8::new(3), b"\x01\x03")
            && is_archived_as(alloc, &NonZeroI64::new(258), tagged)
            && is_archived_as(alloc, &NonZeroU128::new(0), &[0; 32])
    );
}

#[test]
fn sizes_of_at_most_four_bytes(rt: HostRuntime) {
    let alloc = rt.alloc();
    assert!(rt;
        is_archived_as(alloc, &258usize, b"\x02\x01\0\0")
            && is_archived_as(alloc, &-2isize, b"\xfe\xff\xff\xff")
            && !is_archived_as(alloc, &(1usize << 32), b"\0\0\0\0")
            && !is_archived_as(alloc, &(1isize << 31), b"\0\0\0\x80")
    );
}
