//! `ArchivedBoxedSlice`, a pointer to elements: its layout, its check and the methods that read it.
ghost use Rattle.std.specs.Prelude.{◌≡◌, ℕ, ◌+◌, ◌≤◌, length};
ghost use Rattle.std.proofs.Common.{refl, lit<, lit≤};
ghost use Rattle.archive_shape_layout.specs.Shape.Shape.{box};
ghost use Rattle.archive_shape_layout.specs.Shape.Pointee.{slice};
ghost use Rattle.archive_shape.specs.Kept.{IsWithin};
ghost use Rattle.archive_shape.specs.Checks.{Moves};
ghost use Rattle.archive_shape.specs.Steps.{StepTakes, StepChecks};
ghost use Rattle.archive_forms_values.specs.Parts.{HasValue};
ghost use Rattle.archive_forms_values.specs.Boxes.{IsBoxedSliceAt};
ghost use Rattle.archive_forms_values.specs.Calls.Checking.{ChecksBox};
ghost use Rattle.archive_forms_values.specs.Calls.Reading.{TellsEmpty};

use crate::checking::check_vec_each;
use crate::reading::{ArchivedVec, SliceRef, SliceSeal};
use archive_shape::{
    ArchiveContext, CheckBytes, Error, NoUndef, Pointee, Portable, Ref, Seal, Shape,
};
use std::alloc::{AllocError, Global};
use std::marker::PhantomData;

/// An archived box of a slice, as rkyv's `ArchivedBox<[T]>`: an offset of four bytes that leads to the elements, and
/// four bytes with their number. It has the layout of an `ArchivedVec`.
#[derive_where(Clone, Copy)]
pub struct ArchivedBoxedSlice<T> {
    pub of: PhantomData<T>,
}

impl<T> NoUndef for ArchivedBoxedSlice<T> {}

impl<T: Portable> Portable for ArchivedBoxedSlice<T> {
    ghost SIZE = { 8 };

    ghost ALIGN = { 4 };

    ghost shape = { box (slice T.shape) };

    ghost knows = { T.knows };

    ghost named = { T.named };

    const SIZE: usize = 8;

    const ALIGN: usize = 4;

    fn shape(alloc: Global) -> Result<Shape, AllocError> {
        Ok(Shape::Boxed(Pointee::Slice(Box::new(alloc, T::shape(alloc)?)?)))
    }

    ghost sized = { refl };

    ghost aligned = { refl };

    ghost aligns = { (lit< tt, lit≤ tt) };

    ghost known = { T.known };
}

/// Checks the box of a slice, eight bytes at `pos`: an offset to the elements, in bytes from `pos`, and the number of
/// elements. The bytes of all elements are claimed as one region, and the regions that the step claims lie before it.
///
/// Returns `InvalidSubtreePointer` with the size of all elements in bytes (at most `usize::MAX`) if they are not in the
/// range or the offset leads before the first byte; then `Unaligned`, `ExceededMaximumSubtreeDepth`, or the first error
/// of the step. `OutOfMemory` comes from the context or the step.
pub fn check_boxed_slice_each<
    T: Portable,
    C: ArchiveContext,
    F: Fn(&mut C, usize) -> Result<(), Error>,
>(bytes: &[u8], pos: usize, context: &mut C, step: F) -> Result<(), Error>
    requires fits { pos + 8 ≤ length bytes.now }
    requires range { IsWithin (C.kept context.old) (length bytes.now) }
    requires takes { StepTakes F.Fn C.kept bytes.now T.shape step (C.kept context.old) T.SIZE }
    requires checks { StepChecks F.Fn C.kept bytes.now T.shape step T.knows }
    ensures moves { Moves (C.kept context.old) result (C.kept context.new) }
    ensures exact { ChecksBox C.kept T.knows bytes.now pos (slice T.shape) context.old result context.new }
{
    check_vec_each::<T, C, F>(bytes, pos, context, step)
}

impl<C: ArchiveContext, T: CheckBytes<C>> CheckBytes<C> for ArchivedBoxedSlice<T> {
    fn check(alloc: Global, bytes: &[u8], pos: usize, context: &mut C) -> Result<(), Error> {
        check_boxed_slice_each::<T, C, _>(
            bytes,
            pos,
            context,
            |c: &mut C, p: usize| T::check(alloc, bytes, p, c),
        )
    }
}

impl<T: Portable> ArchivedBoxedSlice<T> {
    /// Returns the elements.
    pub fn get<'a>(this: Ref<'a, ArchivedBoxedSlice<T>>) -> SliceRef<'a, T>
        requires { HasValue (box (slice T.shape)) T.knows this.bytes.now this.pos }
        ensures bytes { result.bytes ≡ this.entry.bytes }
        ensures elements { IsBoxedSliceAt T.shape T.knows this.entry.bytes.now
            this.entry.pos result.pos result.len }
    {
        ArchivedVec::as_slice(Ref::<ArchivedVec<T>>::new(this.bytes, this.pos))
    }

    /// Returns the elements, which may be edited. The contents of the buffer after the loan are not specified.
    pub fn get_seal<'a>(this: Seal<'a, ArchivedBoxedSlice<T>>) -> SliceSeal<'a, T>
        requires { HasValue (box (slice T.shape)) T.knows this.bytes.now this.pos }
        ensures same_reference { result.bytes.ghost_name ≡ this.entry.bytes.ghost_name }
        ensures bytes { result.bytes.now ≡ this.entry.bytes.now }
        ensures elements { IsBoxedSliceAt T.shape T.knows this.entry.bytes.now
            this.entry.pos result.pos result.len }
    {
        let Seal { bytes, pos, .. } = this;
        ArchivedVec::as_slice_seal(Seal::<ArchivedVec<T>>::new(bytes, pos))
    }

    /// Returns the number of elements.
    pub fn len(this: Ref<'_, ArchivedBoxedSlice<T>>) -> usize
        requires { HasValue (box (slice T.shape)) T.knows this.bytes.now this.pos }
        ensures { (to : ℕ) × IsBoxedSliceAt T.shape T.knows this.entry.bytes.now
            this.entry.pos to result }
    {
        ArchivedBoxedSlice::get(this).len()
    }

    /// Returns `true` if the box has no elements.
    pub fn is_empty(this: Ref<'_, ArchivedBoxedSlice<T>>) -> bool
        requires { HasValue (box (slice T.shape)) T.knows this.bytes.now this.pos }
        ensures { TellsEmpty (IsBoxedSliceAt T.shape T.knows) this.entry result }
    {
        ArchivedBoxedSlice::len(this) == 0
    }
}
