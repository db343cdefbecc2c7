//! Tests of offsets, at the least and greatest that fit.

use archive_shape::{
    ArchivedI16, ArchivedI32, ArchivedI64, ArchivedU16, ArchivedU32, ArchivedU64, Offset,
    signed_offset,
};
use archive_shape_layout::Error;

const HALF: usize = 0x8000_0000_0000_0000;

#[test]
fn differences(rt: HostRuntime) {
    for (from, to, want) in [
        (180, 0, Ok(-180)),
        (0, HALF, Err(Error::IsizeOverflow)),
        (HALF, 0, Ok(isize::MIN)),
        (0, HALF - 1, Ok(isize::MAX)),
    ] {
        assert!(rt; signed_offset(from, to) == want);
    }
}

#[test]
fn offsets_of_one_byte(rt: HostRuntime) {
    let refused = Error::IsizeOverflow;
    for (offset, signed, unsigned) in [
        (-129, Err(refused), Err(refused)),
        (-128, Ok(-128), Err(refused)),
        (-1, Ok(-1), Err(refused)),
        (0, Ok(0), Ok(0)),
        (127, Ok(127), Ok(127)),
        (128, Err(refused), Ok(128)),
        (255, Err(refused), Ok(255)),
        (256, Err(refused), Err(refused)),
    ] {
        assert!(rt; i8::from_isize(offset) == signed && u8::from_isize(offset) == unsigned);
    }
}

#[test]
fn offsets_of_more_bytes_and_stored_offsets(rt: HostRuntime) {
    let refused = Error::IsizeOverflow;
    assert!(rt;
        ArchivedI16::from_isize(0x8000) == Err(refused)
            && ArchivedU16::from_isize(0x8000) == Ok(0x8000)
            && ArchivedI32::from_isize(0x8000_0000) == Err(refused)
            && ArchivedU32::from_isize(-1) == Err(refused)
            && ArchivedI64::from_isize(isize::MIN) == Ok(i64::MIN)
            && ArchivedU64::from_isize(-1) == Err(refused)
    );
    let stored = (
        ArchivedU64::to_isize(u64::MAX),
        u8::to_isize(255),
        i8::to_isize(-128),
    );
    assert!(rt; stored == (-1, 255, -128));
}
