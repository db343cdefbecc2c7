//! `ArchivedEq`, the equality of archived values.
ghost use Rattle.std.specs.Cmp.{IsEquivalence};
ghost use Rattle.archive_forms_laws.specs.Orders.{Equality};
ghost use Rattle.archive_forms_values.specs.Parts.{HasValue};
ghost use Rattle.archive_forms_comparing.specs.Calls.Comparing.{Compares};

use archive_shape::{Portable, Ref};

/// A type of archived values that can be compared for equality. The result depends only on the two values, not on their
/// positions.
pub trait ArchivedEq: Portable {
    /// The equality of two values.
    ghost equal: { Equality };

    /// Returns `true` if the two values are equal.
    fn eq(this: &Ref<'_, Self>, other: &Ref<'_, Self>) -> bool
        requires this { HasValue Self.shape Self.knows this.now.bytes.now this.now.pos }
        requires other { HasValue Self.shape Self.knows other.now.bytes.now other.now.pos }
        ensures { Compares Self.shape Self.knows this.now other.now equal result };

    ghost is_equivalence: { IsEquivalence equal };
}
