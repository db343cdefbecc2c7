//! The check of archived results.
ghost use Rattle.std.specs.Prelude.{◌≡◌, ℕ, ◌+◌, ◌-◌, ◌^◌, ◌<◌, ◌≤◌, ◌++◌, max, min, length};
ghost use Rattle.archive_shape_layout.specs.Bytes.{align_up};
ghost use Rattle.archive_shape_layout.specs.Shape.{size_of};
ghost use Rattle.archive_shape_layout.specs.Shape.Shape.{result as result_shape};
ghost use Rattle.archive_shape.specs.Kept.{IsWithin};
ghost use Rattle.archive_shape.specs.Checks.{Moves};
ghost use Rattle.archive_shape.specs.Steps.{StepChecks};
ghost use Rattle.archive_forms_values.specs.Calls.Checking.{ChecksResult, TakesPart};

use archive_shape::{ArchiveContext, Error, Portable};

/// Checks the result at `pos`: a tag of one byte, which is 0 for a value and 1 for an error. Either follows at the
/// first multiple of the greater alignment of the two after the tag.
///
/// Returns `InvalidTag` for any other tag, the error of `value_step` for a value, and that of `error_step` for an
/// error.
pub fn check_result_each<
    T: Portable,
    E: Portable,
    C: ArchiveContext,
    F: Fn(&mut C, usize) -> Result<(), Error>,
    G: Fn(&mut C, usize) -> Result<(), Error>,
>(bytes: &[u8], pos: usize, context: &mut C, value_step: F, error_step: G) -> Result<(), Error>
    requires fits { pos + size_of (result_shape T.shape E.shape) ≤ length bytes.now }
    requires range { IsWithin (C.kept context.old) (length bytes.now) }
    requires takes_value { TakesPart F.Fn C.kept bytes.now T.shape value_step context.old }
    requires takes_error { TakesPart G.Fn C.kept bytes.now E.shape error_step context.old }
    requires checks_value { StepChecks F.Fn C.kept bytes.now T.shape value_step T.knows }
    requires checks_error { StepChecks G.Fn C.kept bytes.now E.shape error_step E.knows }
    ensures moves { Moves (C.kept context.old) result (C.kept context.new) }
    ensures exact { ChecksResult C.kept T.knows E.knows bytes.now pos T.shape E.shape context.old result context.new }
{
    let _len = bytes.len();
    let value_align = T::ALIGN;
    let error_align = E::ALIGN;
    let offset = value_align.max(error_align);
    match bytes[pos] {
        0 => value_step(context, pos + offset),
        1 => error_step(context, pos + offset),
        _ => Err(Error::InvalidTag),
    }
}
