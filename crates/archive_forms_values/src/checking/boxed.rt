//! The checks of boxes, and of a value that a pointer leads to.
ghost use Rattle.std.specs.Prelude.{ℕ, ◌+◌, ◌≤◌, length};
ghost use Rattle.archive_shape_layout.specs.Shape.Pointee.{sized};
ghost use Rattle.archive_shape.specs.Kept.{IsWithin};
ghost use Rattle.archive_shape.specs.Checks.{Moves};
ghost use Rattle.archive_shape.specs.Steps.{StepTakes, StepChecks};
ghost use Rattle.archive_forms_values.specs.Calls.Checking.{ChecksBox, ChecksTarget};

use archive_shape::{ArchiveContext, Error, Portable, RawRelPtrI32, Ref};

/// Checks the value at `target`, which is the target of a pointer or the root. Its bytes are claimed, and the regions
/// that the step claims lie before them.
///
/// Returns `InvalidSubtreePointer` with the size of the value if it is not in the range; then `Unaligned`,
/// `ExceededMaximumSubtreeDepth`, or the error of the step. `OutOfMemory` comes from the context or the step.
pub fn check_behind_each<T: Portable, C: ArchiveContext, F: Fn(&mut C, usize) -> Result<(), Error>>(
    bytes: &[u8],
    target: usize,
    context: &mut C,
    step: F,
) -> Result<(), Error>
    requires range { IsWithin (C.kept context.old) (length bytes.now) }
    requires takes { StepTakes F.Fn C.kept bytes.now T.shape step (C.kept context.old) T.SIZE }
    requires checks { StepChecks F.Fn C.kept bytes.now T.shape step T.knows }
    ensures moves { Moves (C.kept context.old) result (C.kept context.new) }
    ensures exact { ChecksTarget C.kept T.knows bytes.now target T.shape context.old result context.new }
{
    let _len = bytes.len();
    let size = T::SIZE;
    let align = T::ALIGN;
    context.check_subtree_ptr(target, size, align)?;
    let range = context.push_subtree_range(target, target + size)?;
    step(context, target)?;
    context.pop_subtree_range(range)
}

/// Checks the box of four bytes at `pos`: an offset to the value, in bytes from `pos`. The value's bytes are claimed,
/// and the regions that the step claims lie before them.
///
/// Returns `InvalidSubtreePointer` with the size of the value if it is not in the range or the offset leads before the
/// first byte; then `Unaligned`, `ExceededMaximumSubtreeDepth`, or the error of the step. `OutOfMemory` comes from the
/// context or the step.
pub fn check_box_each<T: Portable, C: ArchiveContext, F: Fn(&mut C, usize) -> Result<(), Error>>(
    bytes: &[u8],
    pos: usize,
    context: &mut C,
    step: F,
) -> Result<(), Error>
    requires fits { pos + 4 ≤ length bytes.now }
    requires range { IsWithin (C.kept context.old) (length bytes.now) }
    requires takes { StepTakes F.Fn C.kept bytes.now T.shape step (C.kept context.old) T.SIZE }
    requires checks { StepChecks F.Fn C.kept bytes.now T.shape step T.knows }
    ensures moves { Moves (C.kept context.old) result (C.kept context.new) }
    ensures exact { ChecksBox C.kept T.knows bytes.now pos (sized T.shape) context.old result context.new }
{
    let _len = bytes.len();
    let size = T::SIZE;
    let Some(target) = RawRelPtrI32::target(Ref::new(bytes, pos)) else {
        return Err(Error::InvalidSubtreePointer { size });
    };
    check_behind_each::<T, C, F>(bytes, target, context, step)
}
