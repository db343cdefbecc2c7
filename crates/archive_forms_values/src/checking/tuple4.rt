//! The check of archived tuples of four fields.
ghost use Rattle.std.specs.Prelude.{◌≡◌, ℕ, ◌+◌, ◌-◌, ◌^◌, ◌<◌, ◌≤◌, min, length};
ghost use Rattle.archive_shape_layout.specs.Bytes.{align_up};
ghost use Rattle.archive_shape_layout.specs.Shape.{size_of};
ghost use Rattle.archive_shape.specs.Kept.{IsWithin};
ghost use Rattle.archive_shape.specs.Checks.{Moves};
ghost use Rattle.archive_shape.specs.Steps.{StepChecks};
ghost use Rattle.archive_forms_values.specs.Tuples.{tuple4};
ghost use Rattle.archive_forms_values.specs.Calls.Checking.{ChecksTuple4, TakesPart};

use crate::checking::next_multiple;
use archive_shape::{ArchiveContext, Error, Portable};

/// Checks the tuple of four fields at `pos`: the first field, and each further one at the first multiple of its
/// alignment after the field before. Returns the first error of the steps, which are called in the order of the fields.
pub fn check_tuple4_each<
    A: Portable,
    B: Portable,
    C: Portable,
    D: Portable,
    Context: ArchiveContext,
    F: Fn(&mut Context, usize) -> Result<(), Error>,
    G: Fn(&mut Context, usize) -> Result<(), Error>,
    H: Fn(&mut Context, usize) -> Result<(), Error>,
    I: Fn(&mut Context, usize) -> Result<(), Error>,
>(
    bytes: &[u8],
    pos: usize,
    context: &mut Context,
    first_step: F,
    second_step: G,
    third_step: H,
    fourth_step: I,
) -> Result<(), Error>
    requires fits { pos + size_of (tuple4 A.shape B.shape C.shape D.shape) ≤ length bytes.now }
    requires range { IsWithin (Context.kept context.old) (length bytes.now) }
    requires takes_first { TakesPart F.Fn Context.kept bytes.now A.shape first_step context.old }
    requires takes_second { TakesPart G.Fn Context.kept bytes.now B.shape second_step context.old }
    requires takes_third { TakesPart H.Fn Context.kept bytes.now C.shape third_step context.old }
    requires takes_fourth { TakesPart I.Fn Context.kept bytes.now D.shape fourth_step context.old }
    requires checks_first { StepChecks F.Fn Context.kept bytes.now A.shape first_step A.knows }
    requires checks_second { StepChecks G.Fn Context.kept bytes.now B.shape second_step B.knows }
    requires checks_third { StepChecks H.Fn Context.kept bytes.now C.shape third_step C.knows }
    requires checks_fourth { StepChecks I.Fn Context.kept bytes.now D.shape fourth_step D.knows }
    ensures moves { Moves (Context.kept context.old) result (Context.kept context.new) }
    ensures exact { ChecksTuple4 Context.kept A.knows B.knows C.knows D.knows bytes.now pos A.shape B.shape C.shape D.shape context.old result context.new }
{
    let _len = bytes.len();
    let second = next_multiple(A::SIZE, B::ALIGN);
    let third = next_multiple(second + B::SIZE, C::ALIGN);
    let fourth = next_multiple(third + C::SIZE, D::ALIGN);
    first_step(context, pos)?;
    second_step(context, pos + second)?;
    third_step(context, pos + third)?;
    fourth_step(context, pos + fourth)
}
