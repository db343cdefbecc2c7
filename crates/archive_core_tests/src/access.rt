//! Tests of access to buffers.
ghost use Rattle.std.specs.Prelude.{◌≡◌, length};

use archive_core_validation::{
    ArchiveValidator, HighValidator, SharedValidator, Validator, access, access_mut, access_pos,
    access_pos_mut, access_pos_with_context, access_with_context, check_pos_with_context,
    root_position,
};
use archive_forms_values::{ArchivedBox, ArchivedBoxedSlice, ArchivedOption, ArchivedVec};
use archive_shape::{ArchivedU32, CheckBytes, Error, Ref};
use std::alloc::Global;

type MaybeBytes = ArchivedOption<ArchivedBoxedSlice<u8>>;

type TwoSlices = [ArchivedBoxedSlice<u8>; 2];

type Link<T> = ArchivedOption<ArchivedBox<T>>;

fn validator(alloc: Global, bytes: &[u8], max_depth: usize) -> HighValidator
    ensures start { result.archive.start ≡ 0 }
    ensures end { result.archive.end ≡ length bytes.now }
{
    Validator::new(
        ArchiveValidator::with_max_depth(alloc, bytes, max_depth),
        SharedValidator::new(alloc),
    )
}

fn position_of<T>(root: Result<Ref<'_, T>, Error>) -> Result<usize, Error> {
    match root {
        Ok(root) => Ok(root.pos()),
        Err(refusal) => Err(refusal),
    }
}

fn root_of<T: CheckBytes<HighValidator>>(alloc: Global, bytes: &[u8]) -> Result<usize, Error> {
    position_of(access::<T>(alloc, bytes))
}

#[test]
fn root_lies_at_the_end_rounded_down(rt: HostRuntime) {
    let rows = [
        (0, 0, 0),
        (3, 0, 0),
        (7, 0, 0),
        (8, 4, 0),
        (11, 4, 0),
        (24, 20, 12),
        (27, 20, 12),
        (28, 24, 16),
    ];
    for (len, number, option) in rows {
        assert!(rt;
            root_position::<ArchivedU32>(len) == number
                && root_position::<MaybeBytes>(len) == option
        );
    }
}

#[test]
fn bytes_that_are_lent_stay_as_they_were(rt: HostRuntime) {
    let bytes = *b"Hello world\0\x01\0\0\0\xf0\xff\xff\xff\x0b\0\0\0";
    let spoilt = *b"Hello world\0\x02\0\0\0\xf0\xff\xff\xff\x0b\0\0\0";
    let rows = [
        (bytes, 12, Ok(12)),
        (spoilt, 13, Err(Error::InvalidSubtreePointer { size: 12 })),
    ];
    for (given, pos, result) in rows {
        let mut lent = given;
        let found = match access_pos_mut::<MaybeBytes>(rt.alloc(), &mut lent, pos) {
            Ok(root) => Ok(root.pos()),
            Err(refusal) => Err(refusal),
        };
        assert!(rt; found == result && lent == given);
    }
    let mut lent = spoilt;
    match access_mut::<MaybeBytes>(rt.alloc(), &mut lent) {
        Ok(_root) => assert!(rt; false),
        Err(refusal) => assert!(rt; refusal == Error::InvalidTag),
    }
    assert!(rt; lent == spoilt);
}

#[test]
fn position_is_checked_and_not_the_root(rt: HostRuntime) {
    let bytes = *b"\x01\0\0\0\x02\0\0\0\x01\0\0\0";
    let rows = [
        (0, Ok(0)),
        (4, Err(Error::InvalidTag)),
        (2, Err(Error::Unaligned { align: 4 })),
        (8, Err(Error::InvalidSubtreePointer { size: 8 })),
    ];
    for (pos, result) in rows {
        assert!(rt;
            position_of(access_pos::<ArchivedOption<ArchivedU32>>(rt.alloc(), &bytes, pos))
                == result
        );
    }
}

#[test]
fn regions_that_overlap_or_lead_on_are_refused(rt: HostRuntime) {
    let slices = [
        (
            *b"Hello world\0\xf4\xff\xff\xff\x05\0\0\0\xf2\xff\xff\xff\x05\0\0\0",
            Ok(12),
        ),
        (
            *b"Hello world\0\xf0\xff\xff\xff\x0b\0\0\0\xe8\xff\xff\xff\x0b\0\0\0",
            Err(Error::InvalidSubtreePointer { size: 11 }),
        ),
        (
            *b"Hello world\0\xf4\xff\xff\xff\x0b\0\0\0\xec\xff\xff\xff\x0b\0\0\0",
            Err(Error::InvalidSubtreePointer { size: 11 }),
        ),
    ];
    for (bytes, result) in slices {
        let found = root_of::<TwoSlices>(rt.alloc(), &bytes);
        assert!(rt; found == result);
    }
    let boxes = [
        (
            *b"\x01\0\0\0\x04\0\0\0\x01\0\0\0\xf4\xff\xff\xff",
            Err(Error::InvalidSubtreePointer { size: 8 }),
        ),
        (*b"\0\0\0\0\0\0\0\0\x01\0\0\0\xf4\xff\xff\xff", Ok(8)),
        (*b"\x01\0\0\0\x04\0\0\0\0\0\0\0\xf4\xff\xff\xff", Ok(8)),
    ];
    for (bytes, result) in boxes {
        let found = root_of::<Link<Link<Link<u8>>>>(rt.alloc(), &bytes);
        assert!(rt; found == result);
    }
}

#[test]
fn short_buffers_have_no_root(rt: HostRuntime) {
    let rows = [
        (
            root_of::<MaybeBytes>(
                rt.alloc(),
                b"Hello world\0\x01\0\0\0\xf0\xff\xff\xff\x0b\0\0",
            ),
            Err(Error::InvalidTag),
        ),
        (
            root_of::<u8>(rt.alloc(), &[]),
            Err(Error::InvalidSubtreePointer { size: 1 }),
        ),
        (
            root_of::<ArchivedU32>(rt.alloc(), &[]),
            Err(Error::InvalidSubtreePointer { size: 4 }),
        ),
        (
            root_of::<MaybeBytes>(rt.alloc(), &[]),
            Err(Error::InvalidSubtreePointer { size: 12 }),
        ),
        (
            root_of::<TwoSlices>(rt.alloc(), &[]),
            Err(Error::InvalidSubtreePointer { size: 16 }),
        ),
        (root_of::<()>(rt.alloc(), &[]), Ok(0)),
    ];
    for (result, wanted) in rows {
        assert!(rt; result == wanted);
    }
}

/// Checks the value at `pos` of a buffer in a new validator with this depth.
fn check_in_depth<T: CheckBytes<HighValidator>>(
    alloc: Global,
    bytes: &[u8],
    pos: usize,
    max_depth: usize,
) -> Result<(), Error> {
    let mut context = validator(alloc, bytes, max_depth);
    check_pos_with_context::<T, HighValidator>(alloc, bytes, pos, &mut context)
}

#[test]
fn a_value_nests_as_its_pointers_do(rt: HostRuntime) {
    let exceeded = Err(Error::ExceededMaximumSubtreeDepth);
    let bytes = *b"\x07\0\0\0\xfc\xff\xff\xff\x01\0\0\0\xf8\xff\xff\xff";
    let rows = [
        (1, exceeded, exceeded, exceeded),
        (2, Ok(()), exceeded, exceeded),
        (3, Ok(()), Ok(()), exceeded),
        (4, Ok(()), Ok(()), Ok(())),
    ];
    for (depth, number, vector, boxed) in rows {
        let alloc = rt.alloc();
        let found = check_in_depth::<ArchivedU32>(alloc, &bytes, 0, depth);
        assert!(rt; found == number);
        let found = check_in_depth::<ArchivedVec<u8>>(alloc, &bytes, 4, depth);
        assert!(rt; found == vector);
        let found = check_in_depth::<ArchivedBox<ArchivedVec<u8>>>(alloc, &bytes, 12, depth);
        assert!(rt; found == boxed);
    }
}

#[test]
fn depth_is_limited_by_the_validator(rt: HostRuntime) {
    let bytes = *b"Hello world\0\x01\0\0\0\xf0\xff\xff\xff\x0b\0\0\0";
    let rows = [
        (0, Err(Error::ExceededMaximumSubtreeDepth)),
        (1, Err(Error::ExceededMaximumSubtreeDepth)),
        (2, Err(Error::ExceededMaximumSubtreeDepth)),
        (3, Ok(12)),
        (usize::MAX, Ok(12)),
    ];
    for (max_depth, result) in rows {
        let mut context = validator(rt.alloc(), &bytes, max_depth);
        assert!(rt;
            position_of(access_with_context::<MaybeBytes, HighValidator>(
                rt.alloc(),
                &bytes,
                &mut context
            )) == result
        );
        let mut context = validator(rt.alloc(), &bytes, max_depth);
        assert!(rt;
            position_of(access_pos_with_context::<MaybeBytes, HighValidator>(
                rt.alloc(),
                &bytes,
                12,
                &mut context
            )) == result
        );
    }
}
