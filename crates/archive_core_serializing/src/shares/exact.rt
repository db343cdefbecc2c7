//! The values that a pool can keep: those whose clones are the same to contracts.
ghost use Rattle.std.specs.Prelude.{◌≡◌};

use std::alloc::AllocError;
use std::marker::Model;
use std::rc::Rc;

/// A type whose clones are the same value to contracts. `Rc` is not such a type, because contracts see its address;
/// [`RcValue`] is.
pub trait ExactClone: Clone {
    ghost is_exact: { (value copy : Self) → Self.is_clone value copy → copy ≡ value };
}

impl ExactClone for usize {
    ghost is_exact = { λ _ _ same. same };
}

impl<T> ExactClone for &T {
    ghost is_exact = { λ _ _ same. same };
}

/// An `Rc` that contracts see as its value, regardless of its address.
#[derive(Drop)]
pub struct RcValue<T> {
    rc: Rc<T>,
}

impl<T> Model for RcValue<T> {
    ghost Value = { T };

    ghost view = { λ handle. handle.rc.value };
}

impl<T> RcValue<T> {
    /// Wraps the handle, which contracts then see as its value.
    pub fn new(rc: Rc<T>) -> Self
        ensures { result ≡ rc.value }
    {
        RcValue { rc }
    }

    /// Returns the handle.
    pub fn into_rc(self) -> Rc<T>
        ensures { result.value ≡ self }
    {
        self.rc
    }
}

impl<T: Drop> Clone for RcValue<T> {
    ghost is_clone = { λ value copy. copy ≡ value };

    fn clone(&self) -> Result<Self, AllocError> {
        Ok(RcValue {
            rc: self.rc.clone()?,
        })
    }
}

impl<T: Drop> ExactClone for RcValue<T> {
    ghost is_exact = { λ _ _ same. same };
}
