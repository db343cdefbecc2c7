//! The parts of archived options, results and boxes that comparisons use.
ghost use Rattle.archive_shape_layout.specs.Shape.Shape.{option, box};
ghost use Rattle.archive_shape_layout.specs.Shape.Pointee.{sized};
ghost use Rattle.archive_forms_values.specs.Parts.{HasValue};
ghost use Rattle.archive_forms_values.specs.Calls.Reading.{HasResult};
ghost use Rattle.archive_forms_comparing.specs.Calls.Parts.{GivesOption, GivesOutcome, GivesBoxed};

use archive_forms_values::{ArchivedBox, ArchivedOption, ArchivedResult};
use archive_shape::{Portable, Ref};

/// Returns the value of an archived option, if there is one.
pub fn option_value<'a, T: Portable>(this: &Ref<'a, ArchivedOption<T>>) -> Option<Ref<'a, T>>
    requires { HasValue (option T.shape) T.knows this.now.bytes.now this.now.pos }
    ensures { GivesOption T.shape T.knows this.now result }
{
    ArchivedOption::as_ref(*this)
}

/// Returns the value or the error of an archived result.
pub fn result_outcome<'a, T: Portable, E: Portable>(
    this: &Ref<'a, ArchivedResult<T, E>>,
) -> Result<Ref<'a, T>, Ref<'a, E>>
    requires { HasResult T.shape E.shape T.knows E.knows this.now }
    ensures { GivesOutcome T.shape E.shape T.knows E.knows this.now result }
{
    ArchivedResult::as_ref(*this)
}

/// Returns the value of an archived box.
pub fn box_value<'a, T: Portable>(this: &Ref<'a, ArchivedBox<T>>) -> Ref<'a, T>
    requires { HasValue (box (sized T.shape)) T.knows this.now.bytes.now this.now.pos }
    ensures { GivesBoxed T.shape T.knows this.now result }
{
    ArchivedBox::get(*this)
}
