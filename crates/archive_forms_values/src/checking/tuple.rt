//! The checks of archived tuples of one field and of two.
ghost use Rattle.std.specs.Prelude.{◌≡◌, ℕ, ◌+◌, ◌-◌, ◌^◌, ◌<◌, ◌≤◌, min, length};
ghost use Rattle.archive_shape_layout.specs.Bytes.{align_up};
ghost use Rattle.archive_shape_layout.specs.Shape.{size_of};
ghost use Rattle.archive_shape.specs.Kept.{IsWithin};
ghost use Rattle.archive_shape.specs.Checks.{Moves};
ghost use Rattle.archive_shape.specs.Steps.{StepChecks};
ghost use Rattle.archive_forms_values.specs.Tuples.{tuple1, tuple2};
ghost use Rattle.archive_forms_values.specs.Calls.Checking.{ChecksTuple1, ChecksTuple2, TakesPart};

use crate::checking::next_multiple;
use archive_shape::{ArchiveContext, Error, Portable};

/// Checks the tuple of one field at `pos`, whose field lies at the same position. Returns the error of the step.
pub fn check_tuple1_each<
    A: Portable,
    Context: ArchiveContext,
    F: Fn(&mut Context, usize) -> Result<(), Error>,
>(bytes: &[u8], pos: usize, context: &mut Context, first_step: F) -> Result<(), Error>
    requires fits { pos + size_of (tuple1 A.shape) ≤ length bytes.now }
    requires range { IsWithin (Context.kept context.old) (length bytes.now) }
    requires takes_first { TakesPart F.Fn Context.kept bytes.now A.shape first_step context.old }
    requires checks_first { StepChecks F.Fn Context.kept bytes.now A.shape first_step A.knows }
    ensures moves { Moves (Context.kept context.old) result (Context.kept context.new) }
    ensures exact { ChecksTuple1 Context.kept A.knows bytes.now pos A.shape context.old result context.new }
{
    first_step(context, pos)
}

/// Checks the tuple of two fields at `pos`: the first field, and then the second at the first multiple of its alignment
/// after the first. Returns the first error of the steps, which are called in the order of the fields.
pub fn check_tuple2_each<
    A: Portable,
    B: Portable,
    C: ArchiveContext,
    F: Fn(&mut C, usize) -> Result<(), Error>,
    G: Fn(&mut C, usize) -> Result<(), Error>,
>(bytes: &[u8], pos: usize, context: &mut C, first_step: F, second_step: G) -> Result<(), Error>
    requires fits { pos + size_of (tuple2 A.shape B.shape) ≤ length bytes.now }
    requires range { IsWithin (C.kept context.old) (length bytes.now) }
    requires takes_first { TakesPart F.Fn C.kept bytes.now A.shape first_step context.old }
    requires takes_second { TakesPart G.Fn C.kept bytes.now B.shape second_step context.old }
    requires checks_first { StepChecks F.Fn C.kept bytes.now A.shape first_step A.knows }
    requires checks_second { StepChecks G.Fn C.kept bytes.now B.shape second_step B.knows }
    ensures moves { Moves (C.kept context.old) result (C.kept context.new) }
    ensures exact { ChecksTuple2 C.kept A.knows B.knows bytes.now pos A.shape B.shape context.old result context.new }
{
    let _len = bytes.len();
    let offset = next_multiple(A::SIZE, B::ALIGN);
    first_step(context, pos)?;
    second_step(context, pos + offset)
}
