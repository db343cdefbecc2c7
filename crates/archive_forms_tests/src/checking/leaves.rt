//! Tests of the check of leaves.
use super::check_alone;
use archive_shape::{ArchivedChar, ArchivedI64, ArchivedNonZeroI128, ArchivedNonZeroU16, Error};
use std::marker::PhantomData;
use std::num::{NonZeroI8, NonZeroU8};

#[test]
fn leaves_by_their_bytes(rt: HostRuntime) {
    let alloc = rt.alloc();
    let accepted = [
        check_alone::<bool>(alloc, &[1], 0, 0),
        check_alone::<u8>(alloc, &[0], 0, 0),
        check_alone::<i8>(alloc, &[0xff], 0, 0),
        check_alone::<NonZeroU8>(alloc, &[1], 0, 0),
        check_alone::<()>(alloc, &[], 0, 0),
        check_alone::<PhantomData<u64>>(alloc, &[], 0, 0),
        check_alone::<ArchivedI64>(alloc, &[0xff; 8], 0, 0),
        check_alone::<ArchivedNonZeroU16>(alloc, &[0, 1], 0, 0),
        check_alone::<ArchivedChar>(alloc, &[0xff, 0xd7, 0, 0], 0, 0),
    ];
    let refused = [
        check_alone::<bool>(alloc, &[2], 0, 0),
        check_alone::<bool>(alloc, &[0xff], 0, 0),
        check_alone::<NonZeroU8>(alloc, &[0], 0, 0),
        check_alone::<NonZeroI8>(alloc, &[0], 0, 0),
        check_alone::<ArchivedNonZeroU16>(alloc, &[0, 0], 0, 0),
        check_alone::<ArchivedNonZeroI128>(alloc, &[0; 16], 0, 0),
        check_alone::<ArchivedChar>(alloc, &[0, 0xd8, 0, 0], 0, 0),
    ];
    assert!(rt; accepted == [Ok(()); 9] && refused == [Err(Error::InvalidTag); 7]);
}
