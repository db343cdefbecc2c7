//! `ArchivedOrd`, the order of archived values.
ghost use Rattle.std.specs.Cmp.{IsTotalOrder};
ghost use Rattle.archive_forms_laws.specs.Orders.{Order};
ghost use Rattle.archive_forms_laws.specs.OrderingLaws.{Agree};
ghost use Rattle.archive_forms_values.specs.Parts.{HasValue};
ghost use Rattle.archive_forms_comparing.specs.Calls.Comparing.{Compares};

use crate::ArchivedEq;
use archive_shape::Ref;
use std::cmp::Ordering;

/// A type of archived values with a total order. The result depends only on the two values, not on their positions.
pub trait ArchivedOrd: ArchivedEq {
    /// The order of two values.
    ghost order: { Order };

    /// Returns the order of the first value relative to the second.
    fn cmp(this: &Ref<'_, Self>, other: &Ref<'_, Self>) -> Ordering
        requires this { HasValue Self.shape Self.knows this.now.bytes.now this.now.pos }
        requires other { HasValue Self.shape Self.knows other.now.bytes.now other.now.pos }
        ensures { Compares Self.shape Self.knows this.now other.now order result };

    ghost is_total: { IsTotalOrder order };

    /// Values are equal exactly when the order of the two is `Equal`.
    ghost agrees: { Agree Self.equal order };
}
