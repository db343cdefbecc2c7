//! The archived forms of numbers, chars and bools, and the layouts of archived types.

mod array;
mod byte;
mod laws;
mod leaf;
mod nonzero_byte;
mod number;
mod phantom;
mod portable;
mod signed_byte;
mod signed_nonzero_byte;
mod truth;
mod unit;

pub use crate::numbers::Native;
pub use archive_shape_layout::{Alignment, Pointee, Shape, Shapes, Width, same_shape};
pub use laws::{
    held_leaf_is_read, illegal_is_refused, leaf_is_read, legal_is_readable, named_is_known,
};
pub use leaf::ArchivedLeaf;
pub use number::{
    ArchivedChar, ArchivedI16, ArchivedI32, ArchivedI64, ArchivedI128, ArchivedIsize,
    ArchivedNonZeroI16, ArchivedNonZeroI32, ArchivedNonZeroI64, ArchivedNonZeroI128,
    ArchivedNonZeroIsize, ArchivedNonZeroU16, ArchivedNonZeroU32, ArchivedNonZeroU64,
    ArchivedNonZeroU128, ArchivedNonZeroUsize, ArchivedU16, ArchivedU32, ArchivedU64, ArchivedU128,
    ArchivedUsize, FixedIsize, FixedNonZeroIsize, FixedNonZeroUsize, FixedUsize, LittleEndian,
};
pub use portable::{NoUndef, Portable};
