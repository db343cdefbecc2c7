//! `Deserializer`, the trait of what keeps shared values while an archive is read back.
ghost use Rattle.std.specs.Prelude.{ℕ, List, ⊤};
ghost use Rattle.archive_forms.specs.Keeping.{one_of, both_of, three_of, four_of};

use std::alloc::Global;

/// What is lent to each call that reads back. It keeps the shared values that were read, so that each is read once.
///
/// `()` keeps none, for types without shared values. A tuple has a deserializer for each field.
pub trait Deserializer: Drop {
    /// What it keeps was read from these bytes.
    ghost is_of: { Self → List ℕ → Type 0 };

    /// Creates a deserializer that keeps nothing. It does not allocate.
    fn new(alloc: Global) -> Self
        ensures { (bytes : List ℕ) → is_of result bytes };
}

impl Deserializer for () {
    ghost is_of = { λ _ _. ⊤ };

    fn new(_alloc: Global) {}
}

impl<D: Deserializer> Deserializer for (D,) {
    ghost is_of = { one_of D.is_of };

    fn new(alloc: Global) -> (D,) {
        (D::new(alloc),)
    }
}

impl<D: Deserializer, E: Deserializer> Deserializer for (D, E) {
    ghost is_of = { both_of D.is_of E.is_of };

    fn new(alloc: Global) -> (D, E) {
        (D::new(alloc), E::new(alloc))
    }
}

impl<D: Deserializer, E: Deserializer, F: Deserializer> Deserializer for (D, E, F) {
    ghost is_of = { three_of D.is_of E.is_of F.is_of };

    fn new(alloc: Global) -> (D, E, F) {
        (D::new(alloc), E::new(alloc), F::new(alloc))
    }
}

impl<D: Deserializer, E: Deserializer, F: Deserializer, G: Deserializer> Deserializer
    for (D, E, F, G) {
    ghost is_of = { four_of D.is_of E.is_of F.is_of G.is_of };

    fn new(alloc: Global) -> (D, E, F, G) {
        (D::new(alloc), E::new(alloc), F::new(alloc), G::new(alloc))
    }
}
