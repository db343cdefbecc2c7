//! The lowest layer of the archive library: errors, writers, numbers, layouts, references, pointers and checks.
#![tactic(auto)]

mod checking;
mod numbers;
mod pointers;
mod references;
mod types;

pub use checking::{
    ArchiveContext, CheckBytes, PushedRange, SharedContext, ValidationState, accepted_is_answered,
    check_array_each, check_leaf, check_slice_each, deep_child_is_refused, fault_refuses,
    one_fault,
};
pub use numbers::Native;
pub use pointers::{
    Offset, RawRelPtr, RawRelPtrI8, RawRelPtrI16, RawRelPtrI32, RawRelPtrI64, RawRelPtrU8,
    RawRelPtrU16, RawRelPtrU32, RawRelPtrU64, RelPtr, signed_offset,
};
pub use references::{
    ArchivePointee, LayoutRaw, Metadata, OwnSeal, Place, Ref, Seal, Slice, Str, extent_is_claimed,
    overwrite_spares, sealed_leaf, sealed_text,
};
pub use types::{
    ArchivedChar, ArchivedI16, ArchivedI32, ArchivedI64, ArchivedI128, ArchivedIsize, ArchivedLeaf,
    ArchivedNonZeroI16, ArchivedNonZeroI32, ArchivedNonZeroI64, ArchivedNonZeroI128,
    ArchivedNonZeroIsize, ArchivedNonZeroU16, ArchivedNonZeroU32, ArchivedNonZeroU64,
    ArchivedNonZeroU128, ArchivedNonZeroUsize, ArchivedU16, ArchivedU32, ArchivedU64, ArchivedU128,
    ArchivedUsize, FixedIsize, FixedNonZeroIsize, FixedNonZeroUsize, FixedUsize, LittleEndian,
    NoUndef, Portable, held_leaf_is_read, illegal_is_refused, leaf_is_read, legal_is_readable,
    named_is_known,
};

mod copy;
mod key;
pub mod laws;
mod memory;
mod pooling;
mod sharing;
mod steps;

pub use archive_shape_layout::{
    Alignment, Error, Pointee, Positional, Registry, Shape, Shapes, Width, Writer, same_shape,
    write_all_pieces, write_three_pieces, write_two_pieces,
};
pub use copy::CopyOptimization;
pub use key::ArchivedKey;
pub use memory::Allocator;
pub use pooling::{Pooling, PoolingState};
pub use sharing::{Sharing, SharingState};
pub use steps::Steps;
