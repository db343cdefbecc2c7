//! The flavors of counted pointers, which allow or forbid cycles.
ghost use Rattle.std.specs.Prelude.{◌≡◌, Bool, false, refl};

/// The flavor of a counted pointer.
pub trait Flavor {
    ghost ALLOW_CYCLES: { Bool };

    /// Whether a pointer may lead to a value that it lies inside.
    const ALLOW_CYCLES: bool;
}

/// A flavor that forbids cycles. Its pointers are compared, hashed and printed as the values that they lead to, which
/// would not end on a cycle.
pub trait Acyclic: Flavor {
    ghost acyclic: { Self.ALLOW_CYCLES ≡ false };
}

/// The flavor of `Rc` and `Arc`, which forbids cycles.
#[derive(Clone, Copy, Debug, PartialEq, Eq)]
pub struct RcFlavor;

impl Flavor for RcFlavor {
    ghost ALLOW_CYCLES = { false };

    const ALLOW_CYCLES: bool = false;
}

impl Acyclic for RcFlavor {
    ghost acyclic = { refl };
}
