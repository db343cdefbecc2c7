//! Relative pointers: offsets that are counted from the pointer's own position.

mod offset;
mod raw_pointer;
mod rel_pointer;

pub use offset::{Offset, signed_offset};
pub use raw_pointer::{
    RawRelPtr, RawRelPtrI8, RawRelPtrI16, RawRelPtrI32, RawRelPtrI64, RawRelPtrU8, RawRelPtrU16,
    RawRelPtrU32, RawRelPtrU64,
};
pub use rel_pointer::RelPtr;
