//! Pointers that are stored as offsets from their own positions.
ghost use Rattle.std.specs.Prelude.{◌≡◌, ◌+◌, ◌≤◌, ◌<◌, ◌^◌, ◌↔◌, pos, length, IsTrue, IsOk, MatchResult};
ghost use Rattle.archive_shape_layout.specs.Bytes.{window};
ghost use Rattle.archive_shape.specs.Bytes.{overwrite};
ghost use Rattle.archive_shape.specs.Calls.{LeadsBack, LeadsFrom};
ghost use Rattle.archive_shape.specs.Offsets.{difference};
ghost use Rattle.archive_shape_layout.specs.declared.error.Error.TheVariants.{IsizeOverflow};

use crate::pointers::{Offset, signed_offset};
use crate::references::{Place, Ref};
use crate::types::{
    ArchivedI16, ArchivedI32, ArchivedI64, ArchivedU16, ArchivedU32, ArchivedU64, Portable,
};
use archive_shape_layout::{Error, Shape};
use std::alloc::{AllocError, Global};
use std::marker::PhantomData;

/// A pointer that is stored as an offset of type `O` from its own position.
#[derive_where(Clone, Copy)]
pub struct RawRelPtr<O> {
    pub of: PhantomData<O>,
}

pub type RawRelPtrI8 = RawRelPtr<i8>;

pub type RawRelPtrI16 = RawRelPtr<ArchivedI16>;

pub type RawRelPtrI32 = RawRelPtr<ArchivedI32>;

pub type RawRelPtrI64 = RawRelPtr<ArchivedI64>;

pub type RawRelPtrU8 = RawRelPtr<u8>;

pub type RawRelPtrU16 = RawRelPtr<ArchivedU16>;

pub type RawRelPtrU32 = RawRelPtr<ArchivedU32>;

pub type RawRelPtrU64 = RawRelPtr<ArchivedU64>;

impl<O: Offset> Portable for RawRelPtr<O> {
    ghost SIZE = { O.SIZE };

    ghost ALIGN = { O.ALIGN };

    ghost shape = { O.shape };

    ghost knows = { O.knows };

    ghost named = { O.named };

    const SIZE: usize = O::SIZE;

    const ALIGN: usize = O::ALIGN;

    fn shape(alloc: Global) -> Result<Shape, AllocError> {
        O::shape(alloc)
    }

    ghost sized = { O.sized };

    ghost aligned = { O.aligned };

    ghost aligns = { O.aligns };

    ghost known = { O.known };
}

impl<O: Offset> RawRelPtr<O> {
    /// Writes the pointer that leads to the position `to`. Returns `IsizeOverflow`, and writes nothing, where the
    /// offset does not fit.
    pub fn try_emplace(to: usize, out: Place<'_, Self>) -> Result<(), Error>
        requires { out.start + O.SIZE ≤ length out.out.now }
        ensures contents { MatchResult result
            (λ _. O.fits (difference out.entry.pos to) × (out.exit.0.now ≡ overwrite out.entry.out.now out.entry.start (O.offset_bytes (difference out.entry.pos to))))
            (λ e. (e ≡ IsizeOverflow) × ((O.fits (difference out.entry.pos to) → ⊥) × (out.exit.0.now ≡ out.entry.out.now))) }
        ensures leads { LeadsBack (λ by. O.offset_of (O.offset_bytes by)) out.entry.pos to result }
    {
        let offset = signed_offset(out.pos, to)?;
        let native = O::from_isize(offset)?;
        let Place {
            out,
            start,
            pos,
            ..
        } = out;
        Place::<O>::within(out, start, pos).write(native);
        Ok(())
    }

    /// Writes a pointer that leads nowhere, whose offset is 1.
    pub fn try_emplace_invalid(out: Place<'_, Self>) -> Result<(), Error>
        requires { out.start + O.SIZE ≤ length out.out.now }
        ensures ok { IsOk result }
        ensures contents { out.exit.0.now ≡ overwrite out.entry.out.now out.entry.start (O.offset_bytes (pos 1)) }
        ensures invalid { O.offset_of (O.offset_bytes (pos 1)) ≡ pos 1 }
    {
        let native = O::from_isize(1)?;
        let Place {
            out,
            start,
            pos,
            ..
        } = out;
        Place::<O>::within(out, start, pos).write(native);
        Ok(())
    }

    /// Returns whether the pointer leads nowhere.
    pub fn is_invalid(this: Ref<'_, Self>) -> bool
        requires { this.pos + O.SIZE ≤ length this.bytes.now }
        ensures { IsTrue result ↔ (O.offset_of (window this.entry.bytes.now this.entry.pos O.SIZE) ≡ pos 1) }
    {
        RawRelPtr::offset(this) == 1
    }

    /// Returns the position that the offset is counted from.
    pub fn base(this: Ref<'_, Self>) -> usize
        ensures { result ≡ this.entry.pos }
    {
        this.pos()
    }

    /// Returns the offset of the target from the pointer's position, in bytes.
    pub fn offset(this: Ref<'_, Self>) -> isize
        requires { this.pos + O.SIZE ≤ length this.bytes.now }
        ensures { result ≡ O.offset_of (window this.entry.bytes.now this.entry.pos O.SIZE) }
    {
        O::to_isize(Ref::<O>::new(this.bytes, this.pos).to_native())
    }

    /// Returns the position that the pointer leads to, or `None` where it leads to no position.
    pub fn target(this: Ref<'_, Self>) -> Option<usize>
        requires { this.pos + O.SIZE ≤ length this.bytes.now }
        ensures { LeadsFrom this.entry.pos (O.offset_of (window this.entry.bytes.now this.entry.pos O.SIZE)) result }
    {
        offset_target(RawRelPtr::base(this), RawRelPtr::offset(this))
    }
}

/// Returns the position at an offset from `from`, or `None` where there is no such position. `checked_add_signed`
/// branches on the sign, which is slow where pointers lead both ways. With `from` below 2^63, only an offset below 0
/// can lead to no position, and the sum then wraps to 2^63 or more.
fn offset_target(from: usize, offset: isize) -> Option<usize>
    requires { from < 2 ^ 63 }
    ensures { LeadsFrom from offset result }
{
    let to = from.wrapping_add_signed(offset);
    if offset < 0 && to.cast_signed() < 0 {
        None
    } else {
        Some(to)
    }
}
