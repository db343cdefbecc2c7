//! The check of a table's buckets and controls.
ghost use Rattle.std.specs.Prelude.{◌≡◌, ℕ, ◌+◌, ◌-◌, ◌^◌, ◌<◌, ◌≤◌, length};
ghost use Rattle.archive_shape_layout.specs.Content.{item};
ghost use Rattle.archive_shape.specs.Kept.{IsWithin};
ghost use Rattle.archive_shape.specs.Checks.{Moves};
ghost use Rattle.archive_shape.specs.Steps.{StepTakes, StepChecks};
ghost use Rattle.archive_hash_maps.specs.Calls.Checks.{ClaimsBuckets, ChecksBuckets};

use crate::checking::controls::{check_tags, controls_at};
use crate::checking::items::check_items;
use crate::checking::sizes::{buckets_size, table_size};
use archive_shape::{ArchiveContext, Error, Portable, PushedRange};

/// Claims the buckets below `target` and the controls from there on. What is claimed next lies before them.
pub(crate) fn claim_buckets<T: Portable, C: ArchiveContext>(
    target: usize,
    capacity: usize,
    context: &mut C,
) -> Result<PushedRange, Error>
    requires end { (C.kept context.old).end < 2 ^ 63 }
    requires target { target < 2 ^ 64 - 1 }
    requires capacity { capacity < 2 ^ 32 }
    ensures { ClaimsBuckets C.kept target capacity (item T.shape) context.old result context.new }
{
    let below = buckets_size::<T>(capacity);
    let size = table_size::<T>(capacity);
    if target < below {
        return Err(Error::InvalidSubtreePointer { size });
    }
    let start = target - below;
    context.check_subtree_ptr(start, size, T::ALIGN)?;
    context.push_subtree_range(start, start + size)
}

/// Checks the buckets below `target` and the controls from there on, of a table that has `len` items in `capacity`
/// places.
///
/// Returns `InvalidSubtreePointer` if the buckets begin before the first byte, or the error of the claim; then
/// `UnwrappedControlByte` for the first control from the capacity on that does not repeat, `WrongNumberOfElements` for
/// another number of items, and the first error of the items, by ascending places.
pub(crate) fn check_buckets<
    T: Portable,
    C: ArchiveContext,
    F: Fn(&mut C, usize) -> Result<(), Error>,
>(
    bytes: &[u8],
    target: usize,
    len: usize,
    capacity: usize,
    context: &mut C,
    step: &F,
) -> Result<(), Error>
    requires some { 0 < capacity }
    requires small { capacity < 2 ^ 32 }
    requires target { target < 2 ^ 64 - 1 }
    requires range { IsWithin (C.kept context.old) (length bytes.now) }
    requires takes { StepTakes F.Fn C.kept bytes.now T.shape step.now (C.kept context.old) T.SIZE }
    requires checks { StepChecks F.Fn C.kept bytes.now T.shape step.now T.knows }
    ensures moves { Moves (C.kept context.old) result (C.kept context.new) }
    ensures exact { ChecksBuckets C.kept T.Portable bytes.now target len capacity context.old result context.new }
{
    let _len = bytes.len();
    let range = claim_buckets::<T, C>(target, capacity, context)?;
    let controls = controls_at(bytes, target, capacity);
    check_tags(controls, capacity, len)?;
    check_items::<T, C, F>(bytes, target, &controls[..capacity], context, step)?;
    context.pop_subtree_range(range)
}
