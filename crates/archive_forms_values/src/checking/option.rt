//! The check of archived options.
ghost use Rattle.std.specs.Prelude.{◌≡◌, ℕ, ◌+◌, ◌-◌, ◌^◌, ◌<◌, ◌≤◌, min, length};
ghost use Rattle.archive_shape_layout.specs.Bytes.{align_up};
ghost use Rattle.archive_shape_layout.specs.Shape.{size_of};
ghost use Rattle.archive_shape_layout.specs.Shape.Shape.{option};
ghost use Rattle.archive_shape.specs.Kept.{IsWithin};
ghost use Rattle.archive_shape.specs.Checks.{ChecksAt, Moves};
ghost use Rattle.archive_shape.specs.Steps.{StepChecks};
ghost use Rattle.archive_forms_values.specs.Calls.Checking.{TakesPart};

use archive_shape::{ArchiveContext, Error, Portable};

/// Checks the option at `pos`: a tag of one byte, which is 0 for none. With 1 the value follows at the first multiple
/// of its alignment after the tag.
///
/// Returns `InvalidTag` for any other tag, and for a value the error of the step.
pub fn check_option_each<T: Portable, C: ArchiveContext, F: Fn(&mut C, usize) -> Result<(), Error>>(
    bytes: &[u8],
    pos: usize,
    context: &mut C,
    step: F,
) -> Result<(), Error>
    requires fits { pos + size_of (option T.shape) ≤ length bytes.now }
    requires range { IsWithin (C.kept context.old) (length bytes.now) }
    requires takes { TakesPart F.Fn C.kept bytes.now T.shape step context.old }
    requires checks { StepChecks F.Fn C.kept bytes.now T.shape step T.knows }
    ensures moves { Moves (C.kept context.old) result (C.kept context.new) }
    ensures exact { ChecksAt C.kept T.knows bytes.now pos (option T.shape) context.old result context.new }
{
    let _len = bytes.len();
    let offset = T::ALIGN;
    match bytes[pos] {
        0 => Ok(()),
        1 => step(context, pos + offset),
        _ => Err(Error::InvalidTag),
    }
}
