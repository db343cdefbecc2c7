//! A flag that says whether values of a type may be archived as a copy of their bytes.
ghost use Rattle.std.specs.Prelude.{◌≡◌, true, false};

use std::marker::PhantomData;

/// A flag that says whether values of `T` may be archived as a copy of their bytes.
#[derive_where(Clone, Copy)]
pub struct CopyOptimization<T> {
    pub enabled: bool,
    pub of: PhantomData<T>,
}

impl<T> CopyOptimization<T> {
    /// Returns a flag that allows the copy.
    pub const fn enable() -> Self
        ensures { result.enabled ≡ true }
    {
        CopyOptimization::enable_if(true)
    }

    /// Returns a flag that allows the copy if `value` is true.
    pub const fn enable_if(value: bool) -> Self
        ensures { result.enabled ≡ value }
    {
        CopyOptimization {
            enabled: value,
            of: PhantomData,
        }
    }

    /// Returns a flag that forbids the copy.
    pub const fn disable() -> Self
        ensures { result.enabled ≡ false }
    {
        CopyOptimization::enable_if(false)
    }

    /// Returns whether the copy is allowed.
    pub const fn is_enabled(self) -> bool
        ensures { result ≡ self.enabled }
    {
        self.enabled
    }
}
