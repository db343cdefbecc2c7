//! The laws of leaves and named types, each a function with an empty body whose contract is the law.
ghost use Rattle.archive_shape_layout.specs.Numbers.{LegalIsReadable, LeafIsRead, HeldLeafIsRead, IllegalIsRefused};
ghost use Rattle.archive_shape_layout.specs.Naming.{IsConsistent};

use crate::types::Portable;

/// Where own bytes represent a number, char or bool, the layout has that value there, and nothing else. With what
/// `read` ensures, that is the native value.
pub fn leaf_is_read()
    ensures { LeafIsRead }
{}

/// Where the layout has a number, char or bool, the own bytes there represent it. With `leaf_is_read`, the layout has
/// exactly the values that own bytes represent.
pub fn held_leaf_is_read()
    ensures { HeldLeafIsRead }
{}

/// Own bytes are legal exactly where some value has them. By `legal_by_shape`, the same is true of `is_legal`.
pub fn legal_is_readable()
    ensures { LegalIsReadable }
{}

/// Where own bytes of a type are not legal, the layout has no value. With what `accepts` ensures, that is so where it
/// returns false.
pub fn illegal_is_refused()
    ensures { IllegalIsRefused }
{}

/// Where each name denotes one shape, a type's list of named types is one that its layout is read under.
pub fn named_is_known<T: Portable>()
    ensures { IsConsistent T.named → T.knows T.named }
{}
