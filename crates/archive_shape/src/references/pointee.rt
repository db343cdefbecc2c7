//! The types that pointers may lead to, and the metadata that their pointers have.
ghost use Rattle.std.specs.Prelude.{◌≡◌, ℕ, ◌+◌, ◌%◌, ◌≤◌, List, [], length, IfOk, refl};
ghost use Rattle.std.specs.Int.{w32, to_le_bytes};
ghost use Rattle.std.proofs.Common.{lit≤};
ghost use Rattle.archive_shape_layout.specs.Bytes.{window};
ghost use Rattle.archive_shape_layout.specs.Shape.{Pointee as Layout, pointer_size};
ghost use Rattle.archive_shape_layout.specs.Shape.Pointee.{sized, slice, str};
ghost use Rattle.archive_shape_layout.specs.RuntimeShape.{pointee_of};
ghost use Rattle.archive_shape.specs.Pointees.{GivesLength};

use crate::references::{Ref, Slice, Str};
use crate::types::{ArchivedUsize, LittleEndian, Native, Portable};
use archive_shape_layout::Pointee;
use std::alloc::{AllocError, Global};

/// The archived metadata of a pointer, which is stored beside the offset: at most 8 bytes.
pub trait Metadata: Portable + Copy {
    /// The bytes that the metadata is stored as.
    ghost bytes_of: { Self → List ℕ };

    /// The metadata of a pointer to no elements.
    ghost none: { Self };

    /// Returns the metadata of a pointer to no elements.
    fn none() -> Self
        ensures { result ≡ none };

    /// Writes the bytes that the metadata is stored as.
    fn store(self, out: &mut [u8])
        requires { length out.old ≡ Self.SIZE }
        ensures { out.new ≡ bytes_of self };

    ghost is_small: { Self.SIZE ≤ 8 };
}

impl Metadata for () {
    ghost bytes_of = { λ _. [] };

    ghost none = { tt };

    fn none() {}

    fn store(self, _out: &mut [u8]) {}

    ghost is_small = { lit≤ tt };
}

impl Metadata for ArchivedUsize {
    ghost bytes_of = { λ length. to_le_bytes w32 length };

    ghost none = { 0 };

    fn none() -> ArchivedUsize {
        LittleEndian::from_native(0)
    }

    fn store(self, out: &mut [u8]) {
        self.to_native().store(out);
    }

    ghost is_small = { lit≤ tt };
}

/// A type that a pointer may lead to, with the metadata that an archive has after the offset: nothing for a sized type,
/// else the length.
pub trait ArchivePointee {
    /// The archived form of the metadata.
    type ArchivedMetadata: Metadata;

    ghost pointee: { Layout };

    /// Returns this type as a pointee of the layout, or an error when an allocation fails.
    fn pointee(alloc: Global) -> Result<Pointee, AllocError>
        ensures { IfOk result (λ p. pointee_of p ≡ pointee) };

    /// Returns the number of elements that the pointer leads to: 1 for a sized type, else the length.
    fn pointer_metadata(archived: &Ref<'_, Self::ArchivedMetadata>) -> usize
        requires { archived.now.pos + Self.ArchivedMetadata.SIZE ≤ length archived.now.bytes.now }
        ensures { GivesLength pointee (window archived.now.bytes.now archived.now.pos Self.ArchivedMetadata.SIZE) result };

    /// Metadata follows an offset of four bytes without a gap.
    ghost metadata_follows: { 4 % Self.ArchivedMetadata.ALIGN ≡ 0 };

    /// The metadata ends where the layout's pointer ends.
    ghost metadata_ends: { pointer_size pointee ≡ 4 + Self.ArchivedMetadata.SIZE };
}

impl<T: Portable> ArchivePointee for T {
    type ArchivedMetadata = ();

    ghost pointee = { sized T.shape };

    fn pointee(alloc: Global) -> Result<Pointee, AllocError> {
        Ok(Pointee::Sized(Box::new(alloc, T::shape(alloc)?)?))
    }

    fn pointer_metadata(_archived: &Ref<'_, ()>) -> usize {
        1
    }

    ghost metadata_follows = { refl };

    ghost metadata_ends = { refl };
}

impl<T: Portable> ArchivePointee for Slice<T> {
    type ArchivedMetadata = ArchivedUsize;

    ghost pointee = { slice T.shape };

    fn pointee(alloc: Global) -> Result<Pointee, AllocError> {
        Ok(Pointee::Slice(Box::new(alloc, T::shape(alloc)?)?))
    }

    fn pointer_metadata(archived: &Ref<'_, ArchivedUsize>) -> usize {
        archived.to_native() as usize
    }

    ghost metadata_follows = { refl };

    ghost metadata_ends = { refl };
}

impl ArchivePointee for Str {
    type ArchivedMetadata = ArchivedUsize;

    ghost pointee = { str };

    fn pointee(_alloc: Global) -> Result<Pointee, AllocError> {
        Ok(Pointee::Text)
    }

    fn pointer_metadata(archived: &Ref<'_, ArchivedUsize>) -> usize {
        Slice::<u8>::pointer_metadata(archived)
    }

    ghost metadata_follows = { refl };

    ghost metadata_ends = { refl };
}
