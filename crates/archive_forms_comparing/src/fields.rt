//! The comparison of a field, for which the fields before it come first.
ghost use Rattle.std.specs.Prelude.{◌&&◌};
ghost use Rattle.std.specs.Ordering.{ordering_then};
ghost use Rattle.archive_forms_values.specs.Parts.{HasValue};
ghost use Rattle.archive_forms_comparing.specs.Calls.Comparing.{Compares};

use crate::{ArchivedEq, ArchivedOrd};
use archive_shape::Ref;
use std::cmp::Ordering;

/// Returns `true` if two fields are equal and `found` says that those before them are.
pub(crate) fn equal_then<T: ArchivedEq>(found: bool, this: &Ref<'_, T>, other: &Ref<'_, T>) -> bool
    requires this { HasValue T.shape T.knows this.now.bytes.now this.now.pos }
    requires other { HasValue T.shape T.knows other.now.bytes.now other.now.pos }
    ensures { Compares T.shape T.knows this.now other.now (λ v w. found && T.equal v w) result }
{
    if !found {
        return false;
    }
    T::eq(this, other)
}

/// Returns `found`, the order of the fields before, unless it is `Equal`, and otherwise the order of the two fields.
pub(crate) fn compare_then<T: ArchivedOrd>(
    found: Ordering,
    this: &Ref<'_, T>,
    other: &Ref<'_, T>,
) -> Ordering
    requires this { HasValue T.shape T.knows this.now.bytes.now this.now.pos }
    requires other { HasValue T.shape T.knows other.now.bytes.now other.now.pos }
    ensures { Compares T.shape T.knows this.now other.now (λ v w. ordering_then found (T.order v w)) result }
{
    match found {
        Ordering::Equal => T::cmp(this, other),
        found => found,
    }
}
