//! The check of contiguous elements.
ghost use Rattle.std.specs.Prelude.{ℕ, ◌+◌, ◌*◌, ◌<◌, ◌≤◌, length};
ghost use Rattle.archive_shape_layout.specs.Shape.{size_of};
ghost use Rattle.archive_shape_layout.specs.Content.{Names, elements};
ghost use Rattle.archive_shape.specs.Kept.{IsWithin};
ghost use Rattle.archive_shape.specs.Checks.{ChecksAll, Moves};
ghost use Rattle.archive_shape.specs.Steps.{StepTakes, StepChecks};

use crate::checking::{ArchiveContext, Error};
use crate::types::Portable;

/// Checks `len` contiguous elements from position `pos` on, in order, each by the step. Returns the first error of the
/// step. Zero elements are accepted.
pub fn check_slice_each<T: Portable, C: ArchiveContext, F: Fn(&mut C, usize) -> Result<(), Error>>(
    bytes: &[u8],
    pos: usize,
    len: usize,
    context: &mut C,
    step: F,
) -> Result<(), Error>
    requires fits { pos + len * size_of T.shape ≤ length bytes.now }
    requires range { IsWithin (C.kept context.old) (length bytes.now) }
    requires takes { 0 < len → StepTakes F.Fn C.kept bytes.now T.shape step (C.kept context.old) 0 }
    requires checks { StepChecks F.Fn C.kept bytes.now T.shape step T.knows }
    ensures moves { Moves (C.kept context.old) result (C.kept context.new) }
    ensures exact { (names : Names) → T.knows names
        → ChecksAll names bytes.now (elements pos len T.shape) (C.kept context.old) result (C.kept context.new) }
{
    let _len = bytes.len();
    let size = T::SIZE;
    let mut at = pos;
    for i in 0..len {
        step(context, at)?;
        at += size;
    }
    Ok(())
}
