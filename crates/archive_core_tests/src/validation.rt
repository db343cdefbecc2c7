//! Tests of validators.
mod shared;

use archive_core_validation::{ArchiveContext, ArchiveContextExt, ArchiveValidator, PushedRange};
use archive_shape::{ArchivedI32, Error};
use std::alloc::Global;

/// Opens `pushes` pushes, each in the one before, in a validator with this depth.
fn nest(alloc: Global, max_depth: usize, pushes: usize) -> Result<(), Error> {
    let mut validator = ArchiveValidator::with_max_depth(alloc, b"\0\0\0\0", max_depth);
    for _ in 0..pushes {
        validator.push_subtree_range(0, 4)?;
    }
    Ok(())
}

#[test]
fn depths(rt: HostRuntime) {
    let exceeded = Err(Error::ExceededMaximumSubtreeDepth);
    let rows = [
        (0, 0, Ok(())),
        (0, 1, exceeded),
        (1, 0, Ok(())),
        (1, 1, exceeded),
        (2, 1, Ok(())),
        (2, 2, exceeded),
        (3, 2, Ok(())),
        (3, 3, exceeded),
        (41, 40, Ok(())),
        (41, 41, exceeded),
        (usize::MAX - 1, 40, Ok(())),
        (usize::MAX, 40, Ok(())),
    ];
    for (max_depth, pushes, result) in rows {
        assert!(rt; nest(rt.alloc(), max_depth, pushes) == result);
    }
}

#[test]
fn claims(rt: HostRuntime) {
    let rows = [
        (0, 8, Ok(())),
        (4, 4, Ok(())),
        (8, 0, Ok(())),
        (4, 5, Err(Error::InvalidSubtreePointer { size: 5 })),
        (9, 0, Err(Error::InvalidSubtreePointer { size: 0 })),
        (0, 9, Err(Error::InvalidSubtreePointer { size: 9 })),
        (usize::MAX, 2, Err(Error::InvalidSubtreePointer { size: 2 })),
        (2, 4, Err(Error::Unaligned { align: 4 })),
    ];
    let validator = ArchiveValidator::new(rt.alloc(), b"\0\0\0\0\0\0\0\0");
    for (pos, size, result) in rows {
        assert!(rt; validator.check_subtree_ptr(pos, size, 4) == result);
    }
}

#[test]
fn pop_of_a_range_that_is_not_the_last_push(rt: HostRuntime) -> Result<(), Error> {
    let out_of_order = Err(Error::RangePoppedOutOfOrder);
    let rows = [
        (4, 8, 12, Ok(())),
        (5, 8, 12, out_of_order),
        (4, 7, 12, out_of_order),
        (4, 8, 8, out_of_order),
    ];
    for (pos, end, outer, result) in rows {
        let mut validator = ArchiveValidator::new(rt.alloc(), b"\0\0\0\0\0\0\0\0\0\0\0\0");
        validator.push_subtree_range(4, 8)?;
        let range = PushedRange { pos, end, outer };
        assert!(rt; validator.pop_subtree_range(range) == result);
    }
    Ok(())
}

#[test]
fn regions_that_overlap_or_run_backward_are_refused(rt: HostRuntime) {
    let refused = Err(Error::InvalidSubtreePointer { size: 4 });
    let rows = [
        (0, 4, Ok(())),
        (0, 8, Ok(())),
        (0, 3, refused),
        (4, 4, refused),
        (4, 0, refused),
        (8, 4, refused),
    ];
    for (first, second, result) in rows {
        let mut validator = ArchiveValidator::new(rt.alloc(), b"\0\0\0\0\0\0\0\0\0\0\0\0");
        let before = validator.in_subtree_raw(first, 4, 1, |_: &mut ArchiveValidator| Ok(()));
        assert!(rt; before == Ok(()));
        let after = validator.in_subtree_raw(second, 4, 1, |_: &mut ArchiveValidator| Ok(()));
        assert!(rt; after == result);
    }
}

#[test]
fn subtrees_in_subtrees(rt: HostRuntime) {
    let rows = [(3, Ok(())), (2, Err(Error::ExceededMaximumSubtreeDepth))];
    for (max_depth, result) in rows {
        let mut validator = ArchiveValidator::with_max_depth(
            rt.alloc(),
            b"\0\0\0\0\0\0\0\0\0\0\0\0",
            max_depth,
        );
        assert!(rt;
            validator.in_subtree_raw(8, 4, 4, |outer: &mut ArchiveValidator| {
                outer.in_subtree::<ArchivedI32, (), _>(4, |inner: &mut ArchiveValidator| {
                    inner.check_subtree_ptr(0, 4, 4)
                })
            }) == result
        );
    }
}
