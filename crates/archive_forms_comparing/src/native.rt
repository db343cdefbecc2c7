//! `ComparedNative`, native numbers and chars that are compared as their values in the layout.
ghost use Rattle.std.specs.Prelude.{◌≡◌};
ghost use Rattle.std.specs.Hash.{Alike};
ghost use Rattle.archive_forms_laws.specs.Orders.{Comparison, Hashed};
ghost use Rattle.archive_forms_laws.specs.OrderingLaws.{IsLawful};

use archive_shape::Native;
use std::hash::Hash;

/// A number or char whose value in the layout determines how it is compared and what is hashed of it.
pub trait ComparedNative: Native + Ord + Hash {
    /// The comparison of the values.
    ghost comparison: { Comparison };

    /// What is hashed of a value.
    ghost hashed: { Hashed };

    ghost equal_by_value: { (a b : Self) → Self.eq a b ≡ comparison.equal (Self.value_of a) (Self.value_of b) };

    ghost order_by_value: { (a b : Self) → Self.cmp a b ≡ comparison.order (Self.value_of a) (Self.value_of b) };

    ghost hashed_by_value: { (a : Self) → Self.hash_input a ≡ hashed (Self.value_of a) };

    ghost is_lawful: { IsLawful comparison };

    /// Equal values have the same hash input.
    ghost alike: { Alike comparison.equal hashed };
}
