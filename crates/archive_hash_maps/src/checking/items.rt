//! The check of a table's items.
ghost use Rattle.std.specs.Prelude.{ℕ, ◌+◌, ◌*◌, ◌≤◌, length};
ghost use Rattle.archive_shape_layout.specs.Shape.{size_of};
ghost use Rattle.archive_shape.specs.Kept.{IsWithin};
ghost use Rattle.archive_shape.specs.Checks.{Moves};
ghost use Rattle.archive_shape.specs.Steps.{StepTakes, StepChecks};
ghost use Rattle.archive_hash_maps.specs.Calls.Checks.{ChecksItems};

use archive_shape::{ArchiveContext, Error, Portable};

/// Checks the items whose controls are tags, by ascending places. The first place is the bucket directly below
/// `target`.
pub(crate) fn check_items<
    T: Portable,
    C: ArchiveContext,
    F: Fn(&mut C, usize) -> Result<(), Error>,
>(bytes: &[u8], target: usize, controls: &[u8], context: &mut C, step: &F) -> Result<(), Error>
    requires below { length controls.now * size_of T.shape ≤ target }
    requires fits { target ≤ length bytes.now }
    requires range { IsWithin (C.kept context.old) (length bytes.now) }
    requires takes { StepTakes F.Fn C.kept bytes.now T.shape step.now (C.kept context.old) 0 }
    requires checks { StepChecks F.Fn C.kept bytes.now T.shape step.now T.knows }
    ensures moves { Moves (C.kept context.old) result (C.kept context.new) }
    ensures exact { ChecksItems C.kept T.Portable bytes.now target controls.now context.old result context.new }
{
    let _len = bytes.len();
    let size = T::SIZE;
    let mut bucket = target;
    for place in 0..controls.len() {
        bucket -= size;
        if controls[place] < 128 {
            step(context, bucket)?;
        }
    }
    Ok(())
}
