//! The check of arrays.
ghost use Rattle.std.specs.Prelude.{ℕ, ◌+◌, ◌<◌, ◌≤◌, length};
ghost use Rattle.archive_shape_layout.specs.Shape.{size_of};
ghost use Rattle.archive_shape_layout.specs.Shape.Shape.{array};
ghost use Rattle.archive_shape.specs.Kept.{IsWithin};
ghost use Rattle.archive_shape.specs.Checks.{ChecksAt, Moves};
ghost use Rattle.archive_shape.specs.Steps.{StepTakes, StepChecks};

use crate::checking::elements::check_slice_each;
use crate::checking::{ArchiveContext, CheckBytes, Error};
use crate::types::Portable;
use std::alloc::Global;

/// Checks the array of `N` contiguous elements at `pos`. Returns the first error of the step.
pub fn check_array_each<
    T: Portable,
    const N: usize,
    C: ArchiveContext,
    F: Fn(&mut C, usize) -> Result<(), Error>,
>(bytes: &[u8], pos: usize, context: &mut C, step: F) -> Result<(), Error>
    requires fits { pos + size_of (array N T.shape) ≤ length bytes.now }
    requires range { IsWithin (C.kept context.old) (length bytes.now) }
    requires takes { 0 < N → StepTakes F.Fn C.kept bytes.now T.shape step (C.kept context.old) 0 }
    requires checks { StepChecks F.Fn C.kept bytes.now T.shape step T.knows }
    ensures moves { Moves (C.kept context.old) result (C.kept context.new) }
    ensures exact { ChecksAt C.kept T.knows bytes.now pos (array N T.shape) context.old result context.new }
{
    check_slice_each::<T, C, F>(bytes, pos, N, context, step)
}

impl<C: ArchiveContext, T: CheckBytes<C>, const N: usize> CheckBytes<C> for [T; N] {
    fn check(alloc: Global, bytes: &[u8], pos: usize, context: &mut C) -> Result<(), Error> {
        check_array_each::<T, N, C, _>(
            bytes,
            pos,
            context,
            |c: &mut C, p: usize| T::check(alloc, bytes, p, c),
        )
    }
}
