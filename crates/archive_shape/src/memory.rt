//! The trait of values that have an allocator.
ghost use Rattle.std.specs.Prelude.{◌≡◌};
ghost use Rattle.std.specs.Global.{Global};

use std::alloc::Global;

/// A value that has an allocator.
pub trait Allocator {
    /// The allocator.
    ghost memory: { Self → Global };

    /// Returns the allocator that memory is taken from.
    fn memory(&self) -> Global
        ensures { result ≡ memory self.now };
}

impl Allocator for Global {
    ghost memory = { λ alloc. alloc };

    fn memory(&self) -> Global {
        *self
    }
}
