//! A law. The function below has no body: its contract is the law.
ghost use Rattle.archive_forms_values.specs.Repr.{IsGreatestLength};

use crate::text::ArchivedStringRepr;

/// No text out of line is longer than `ArchivedStringRepr::OUT_OF_LINE_CAPACITY` bytes, and some length word has that
/// length.
pub fn out_of_line_capacity()
    ensures { IsGreatestLength ArchivedStringRepr.OUT_OF_LINE_CAPACITY }
{}
