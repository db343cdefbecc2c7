//! The check of a table, by its own bytes and the buckets and controls that these lead to.
ghost use Rattle.std.specs.Prelude.{ℕ, ◌+◌, ◌≤◌, length};
ghost use Rattle.archive_shape_layout.specs.Shape.Shape.{table};
ghost use Rattle.archive_shape.specs.Kept.{IsWithin};
ghost use Rattle.archive_shape.specs.Checks.{Moves, ChecksAt};
ghost use Rattle.archive_shape.specs.Steps.{StepTakes, StepChecks};

use crate::checking::buckets::check_buckets;
use crate::checking::head::check_head;
use archive_shape::{ArchiveContext, Error, Portable};

/// Checks the table of twelve bytes at `pos`: an offset to its controls, in bytes from `pos`, its number of items, and
/// its number of places. If there are no items, nothing else is checked.
///
/// The buckets, which lie below the controls, and the controls are claimed as one region, and the regions that the
/// items claim lie before it.
///
/// The errors are, in this order:
///
/// - `TableLength` if there are as many items as places or more;
/// - `InvalidSubtreePointer`, with the size of all buckets and controls (at most `usize::MAX`), if these are not in the
///   range; then `Unaligned` and `ExceededMaximumSubtreeDepth`;
/// - `UnwrappedControlByte` for the first control from the capacity on that does not repeat the one a capacity before
///   it, or is not empty from twice the capacity on;
/// - `WrongNumberOfElements` if the number of tags below the capacity is not that of the items;
/// - the first error of the step, by ascending places.
///
/// `OutOfMemory` comes from the context or the step.
pub fn check_table_each<T: Portable, C: ArchiveContext, F: Fn(&mut C, usize) -> Result<(), Error>>(
    bytes: &[u8],
    pos: usize,
    context: &mut C,
    step: F,
) -> Result<(), Error>
    requires fits { pos + 12 ≤ length bytes.now }
    requires range { IsWithin (C.kept context.old) (length bytes.now) }
    requires takes { StepTakes F.Fn C.kept bytes.now T.shape step (C.kept context.old) T.SIZE }
    requires checks { StepChecks F.Fn C.kept bytes.now T.shape step T.knows }
    ensures moves { Moves (C.kept context.old) result (C.kept context.new) }
    ensures exact { ChecksAt C.kept T.knows bytes.now pos (table T.shape) context.old result context.new }
{
    let Some(head) = check_head::<T>(bytes, pos)? else {
        return Ok(());
    };
    check_buckets::<T, C, F>(
        bytes,
        head.controls,
        head.len,
        head.capacity,
        context,
        &step,
    )
}
