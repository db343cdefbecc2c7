//! Pointers that have metadata after the offset.
ghost use Rattle.std.specs.Prelude.{◌≡◌, ℕ, ◌+◌, ◌≤◌, ◌↔◌, pos, ◌++◌, max, length, IsTrue, IsOk, MatchResult};
ghost use Rattle.archive_shape_layout.specs.Bytes.{window, align_up};
ghost use Rattle.archive_shape_layout.specs.Content.{pointee_length};
ghost use Rattle.archive_shape_layout.specs.Shape.{pointer_size};
ghost use Rattle.archive_shape_layout.specs.Shape.Shape.{tuple};
ghost use Rattle.archive_shape_layout.specs.Shape.Shapes.{no_shapes, more_shapes};
ghost use Rattle.archive_shape_layout.proofs.Naming.{first_types, other_types};
ghost use Rattle.archive_shape.specs.Bytes.{overwrite};
ghost use Rattle.archive_shape.specs.Calls.{LeadsBack, LeadsFrom};
ghost use Rattle.archive_shape.specs.Pointees.{GivesLength};
ghost use Rattle.archive_shape.specs.Offsets.{difference};
ghost use Rattle.archive_shape.specs.Pointers.{metadata_at, metadata_end, pointer_written};
ghost use Rattle.archive_shape_layout.proofs.PointerSizes.{pointer_sized, pointer_aligned, pointer_aligns};
ghost use Rattle.archive_shape_layout.specs.declared.error.Error.TheVariants.{IsizeOverflow};

use crate::pointers::{Offset, RawRelPtr};
use crate::references::{ArchivePointee, Metadata, Place, Ref};
use crate::types::Portable;
use archive_shape_layout::{Error, Shape, Shapes};
use std::alloc::{AllocError, Global};
use std::marker::PhantomData;

/// A pointer to a `T` that is stored as an offset of type `O` from its own position. The metadata of `T` follows the
/// offset, at the next multiple of the metadata's alignment.
#[derive_where(Clone, Copy)]
pub struct RelPtr<T, O> {
    pub of: PhantomData<(T, O)>,
}

/// Where a pointer's metadata begins and ends, in bytes after the pointer's own position.
trait MetadataLayout {
    ghost METADATA_OFFSET: { ℕ };

    ghost METADATA_END: { ℕ };

    const METADATA_OFFSET: usize;

    const METADATA_END: usize;
}

impl<T: ArchivePointee, O: Offset> MetadataLayout for RelPtr<T, O> {
    ghost METADATA_OFFSET = { metadata_at O.SIZE T.ArchivedMetadata.ALIGN };

    ghost METADATA_END = { metadata_end O.SIZE T.ArchivedMetadata.ALIGN T.ArchivedMetadata.SIZE };

    const METADATA_OFFSET: usize = O::SIZE
        + (T::ArchivedMetadata::ALIGN - O::SIZE % T::ArchivedMetadata::ALIGN)
            % T::ArchivedMetadata::ALIGN;

    const METADATA_END: usize = Self::METADATA_OFFSET + T::ArchivedMetadata::SIZE;
}

impl<T: ArchivePointee, O: Offset> Portable for RelPtr<T, O> {
    ghost SIZE = { align_up (metadata_end O.SIZE T.ArchivedMetadata.ALIGN T.ArchivedMetadata.SIZE)
        (max O.ALIGN T.ArchivedMetadata.ALIGN) };

    ghost ALIGN = { max O.ALIGN T.ArchivedMetadata.ALIGN };

    ghost shape = { tuple (more_shapes O.shape (more_shapes T.ArchivedMetadata.shape no_shapes)) };

    ghost knows = { λ names. O.knows names × T.ArchivedMetadata.knows names };

    ghost named = { O.named ++ T.ArchivedMetadata.named };

    const SIZE: usize = Self::METADATA_END
        + (Self::ALIGN - Self::METADATA_END % Self::ALIGN) % Self::ALIGN;

    const ALIGN: usize = if O::ALIGN < T::ArchivedMetadata::ALIGN {
        T::ArchivedMetadata::ALIGN
    } else {
        O::ALIGN
    };

    fn shape(alloc: Global) -> Result<Shape, AllocError> {
        let offset = Box::new(alloc, O::shape(alloc)?)?;
        let metadata = Box::new(alloc, T::ArchivedMetadata::shape(alloc)?)?;
        let end = Box::new(alloc, Shapes::Empty)?;
        let rest = Box::new(alloc, Shapes::Another(metadata, end))?;
        Ok(Shape::Tuple(Shapes::Another(offset, rest)))
    }

    ghost sized = { pointer_sized O.shape T.ArchivedMetadata.shape
        O.SIZE T.ArchivedMetadata.SIZE O.ALIGN T.ArchivedMetadata.ALIGN
        O.is_small O.sized O.aligned O.aligns
        T.ArchivedMetadata.is_small T.ArchivedMetadata.sized T.ArchivedMetadata.aligned T.ArchivedMetadata.aligns };

    ghost aligned = { pointer_aligned O.shape T.ArchivedMetadata.shape O.ALIGN T.ArchivedMetadata.ALIGN
        O.aligned T.ArchivedMetadata.aligned T.ArchivedMetadata.aligns.0 };

    ghost aligns = { pointer_aligns O.ALIGN T.ArchivedMetadata.ALIGN O.aligns T.ArchivedMetadata.aligns };

    ghost known = { λ names has. (
      O.known names (first_types names O.named T.ArchivedMetadata.named has),
      T.ArchivedMetadata.known names (other_types names O.named T.ArchivedMetadata.named has),
    ) };
}

impl<T: Portable, O: Offset> RelPtr<T, O> {
    /// Writes the pointer that leads to the position `to`. Returns `IsizeOverflow`, and writes nothing, where the
    /// offset does not fit.
    pub fn try_emplace(to: usize, out: Place<'_, Self>) -> Result<(), Error>
        requires { out.start + O.SIZE ≤ length out.out.now }
        ensures contents { MatchResult result
            (λ _. O.fits (difference out.entry.pos to) × (out.exit.0.now ≡ overwrite out.entry.out.now out.entry.start
            (O.offset_bytes (difference out.entry.pos to))))
            (λ e. (e ≡ IsizeOverflow) × ((O.fits (difference out.entry.pos to) → ⊥) × (out.exit.0.now ≡ out.entry.out.now))) }
        ensures leads { LeadsBack (λ by. O.offset_of (O.offset_bytes by)) out.entry.pos to result }
    {
        let Place {
            out,
            start,
            pos,
            ..
        } = out;
        RawRelPtr::<O>::try_emplace(to, Place::within(out, start, pos))
    }
}

impl<T: ArchivePointee, O: Offset> RelPtr<T, O> {
    /// Writes the pointer that leads to the position `to`, and its metadata. Returns `IsizeOverflow`, and writes
    /// nothing, where the offset does not fit.
    #[tactic(auto, using(archive_shape_layout::proofs::Framed::le_align_up))]
    pub fn try_emplace_unsized(
        to: usize,
        metadata: T::ArchivedMetadata,
        out: Place<'_, Self>,
    ) -> Result<(), Error>
        requires { out.start + metadata_end O.SIZE T.ArchivedMetadata.ALIGN T.ArchivedMetadata.SIZE ≤ length out.out.now }
        ensures contents { MatchResult result
            (λ _. O.fits (difference out.entry.pos to) × (out.exit.0.now ≡ pointer_written out.entry.out.now out.entry.start
            (O.offset_bytes (difference out.entry.pos to))
            (metadata_at O.SIZE T.ArchivedMetadata.ALIGN) (T.ArchivedMetadata.bytes_of metadata)))
            (λ e. (e ≡ IsizeOverflow) × ((O.fits (difference out.entry.pos to) → ⊥) × (out.exit.0.now ≡ out.entry.out.now))) }
        ensures leads { LeadsBack (λ by. O.offset_of (O.offset_bytes by)) out.entry.pos to result }
    {
        let Place {
            out,
            start,
            pos,
            ..
        } = out;
        RawRelPtr::<O>::try_emplace(to, Place::within(&mut *out, start, pos))?;
        let at = start + Self::METADATA_OFFSET;
        let end = start + Self::METADATA_END;
        metadata.store(&mut out[at..end]);
        Ok(())
    }

    /// Writes a pointer that leads nowhere, whose offset is 1, with the metadata of no elements.
    #[tactic(auto, using(archive_shape_layout::proofs::Framed::le_align_up))]
    pub fn try_emplace_invalid(out: Place<'_, Self>) -> Result<(), Error>
        requires { out.start + metadata_end O.SIZE T.ArchivedMetadata.ALIGN T.ArchivedMetadata.SIZE ≤ length out.out.now }
        ensures ok { IsOk result }
        ensures contents { out.exit.0.now ≡ pointer_written out.entry.out.now out.entry.start
            (O.offset_bytes (pos 1))
            (metadata_at O.SIZE T.ArchivedMetadata.ALIGN) (T.ArchivedMetadata.bytes_of T.ArchivedMetadata.none) }
        ensures invalid { O.offset_of (O.offset_bytes (pos 1)) ≡ pos 1 }
    {
        let Place {
            out,
            start,
            pos,
            ..
        } = out;
        RawRelPtr::<O>::try_emplace_invalid(Place::within(&mut *out, start, pos))?;
        let at = start + Self::METADATA_OFFSET;
        let end = start + Self::METADATA_END;
        T::ArchivedMetadata::none().store(&mut out[at..end]);
        Ok(())
    }

    /// Returns whether the pointer leads nowhere.
    pub fn is_invalid(this: Ref<'_, Self>) -> bool
        requires { this.pos + O.SIZE ≤ length this.bytes.now }
        ensures { IsTrue result ↔ (O.offset_of (window this.entry.bytes.now this.entry.pos O.SIZE) ≡ pos 1) }
    {
        RawRelPtr::is_invalid(Self::raw(this))
    }

    /// Returns the position that the offset is counted from.
    pub fn base(this: Ref<'_, Self>) -> usize
        ensures { result ≡ this.entry.pos }
    {
        RawRelPtr::base(Self::raw(this))
    }

    /// Returns the offset of the target from the pointer's position, in bytes.
    pub fn offset(this: Ref<'_, Self>) -> isize
        requires { this.pos + O.SIZE ≤ length this.bytes.now }
        ensures { result ≡ O.offset_of (window this.entry.bytes.now this.entry.pos O.SIZE) }
    {
        RawRelPtr::offset(Self::raw(this))
    }

    /// Returns the position that the pointer leads to, or `None` where it leads to no position.
    pub fn target(this: Ref<'_, Self>) -> Option<usize>
        requires { this.pos + O.SIZE ≤ length this.bytes.now }
        ensures { LeadsFrom this.entry.pos (O.offset_of (window this.entry.bytes.now this.entry.pos O.SIZE)) result }
    {
        RawRelPtr::target(Self::raw(this))
    }

    /// Returns the number of elements that the pointer leads to: 1 for a sized type, else the length. With an offset of
    /// four bytes it is the number that the layout reads in the pointer's own bytes.
    pub fn metadata(this: Ref<'_, Self>) -> usize
        requires { this.pos + metadata_end O.SIZE T.ArchivedMetadata.ALIGN T.ArchivedMetadata.SIZE ≤ length this.bytes.now }
        ensures length { GivesLength T.pointee
            (window this.entry.bytes.now (this.entry.pos + metadata_at O.SIZE T.ArchivedMetadata.ALIGN) T.ArchivedMetadata.SIZE)
            result }
        ensures own { O.SIZE ≡ 4
            → pointee_length T.pointee (window this.entry.bytes.now this.entry.pos (pointer_size T.pointee)) ≡ result }
    {
        T::pointer_metadata(&Ref::new(this.bytes, this.pos + Self::METADATA_OFFSET))
    }

    /// Returns the offset alone, as a pointer without metadata.
    fn raw(this: Ref<'_, Self>) -> Ref<'_, RawRelPtr<O>>
        ensures bytes { result.bytes ≡ this.entry.bytes }
        ensures pos { result.pos ≡ this.entry.pos }
    {
        Ref::new(this.bytes, this.pos)
    }
}
