//! The check of archived vectors.
ghost use Rattle.std.specs.Prelude.{◌≡◌, ℕ, ◌+◌, ◌-◌, ◌*◌, ◌^◌, ◌≤◌, min, length};
ghost use Rattle.archive_shape_layout.specs.Shape.{size_of};
ghost use Rattle.archive_shape_layout.specs.Shape.Shape.{vector};
ghost use Rattle.archive_shape.specs.Kept.{IsWithin};
ghost use Rattle.archive_shape.specs.Checks.{ChecksAt, Moves};
ghost use Rattle.archive_shape.specs.Steps.{StepTakes, StepChecks};
ghost use Rattle.archive_forms_values.specs.Calls.Checking.{ChecksSlice};

use archive_shape::{
    ArchiveContext, ArchivedIsize, Error, Portable, Ref, RelPtr, Slice, check_slice_each,
};

/// Claims `len` elements at `target`, which have `size` bytes in all, and checks each by the step.
pub fn check_elements_behind<
    T: Portable,
    C: ArchiveContext,
    F: Fn(&mut C, usize) -> Result<(), Error>,
>(
    bytes: &[u8],
    target: usize,
    len: usize,
    size: usize,
    context: &mut C,
    step: F,
) -> Result<(), Error>
    requires bytes_of_all { size ≡ min (len * size_of T.shape) (2 ^ 64 - 1) }
    requires range { IsWithin (C.kept context.old) (length bytes.now) }
    requires takes { StepTakes F.Fn C.kept bytes.now T.shape step (C.kept context.old) T.SIZE }
    requires checks { StepChecks F.Fn C.kept bytes.now T.shape step T.knows }
    ensures moves { Moves (C.kept context.old) result (C.kept context.new) }
    ensures exact { ChecksSlice C.kept T.knows bytes.now target T.shape len context.old result context.new }
{
    let _len = bytes.len();
    let align = T::ALIGN;
    context.check_subtree_ptr(target, size, align)?;
    let range = context.push_subtree_range(target, target + size)?;
    check_slice_each::<T, C, F>(bytes, target, len, context, step)?;
    context.pop_subtree_range(range)
}

/// Checks the vector of eight bytes at `pos`: an offset to the elements, in bytes from `pos`, and the number of
/// elements. The bytes of all elements are claimed as one region, and the regions that the step claims lie before it.
///
/// Returns `InvalidSubtreePointer` with the size of all elements in bytes (at most `usize::MAX`) if they are not in the
/// range or the offset leads before the first byte; then `Unaligned`, `ExceededMaximumSubtreeDepth`, or the first error
/// of the step. `OutOfMemory` comes from the context or the step.
pub fn check_vec_each<T: Portable, C: ArchiveContext, F: Fn(&mut C, usize) -> Result<(), Error>>(
    bytes: &[u8],
    pos: usize,
    context: &mut C,
    step: F,
) -> Result<(), Error>
    requires fits { pos + 8 ≤ length bytes.now }
    requires range { IsWithin (C.kept context.old) (length bytes.now) }
    requires takes { StepTakes F.Fn C.kept bytes.now T.shape step (C.kept context.old) T.SIZE }
    requires checks { StepChecks F.Fn C.kept bytes.now T.shape step T.knows }
    ensures moves { Moves (C.kept context.old) result (C.kept context.new) }
    ensures exact { ChecksAt C.kept T.knows bytes.now pos (vector T.shape) context.old result context.new }
{
    let _len = bytes.len();
    let pointer = Ref::<RelPtr<Slice<T>, ArchivedIsize>>::new(bytes, pos);
    let len = RelPtr::metadata(pointer);
    let element = T::SIZE;
    let size = len.saturating_mul(element);
    let Some(target) = RelPtr::target(pointer) else {
        return Err(Error::InvalidSubtreePointer { size });
    };
    check_elements_behind::<T, C, F>(bytes, target, len, size, context, step)
}
