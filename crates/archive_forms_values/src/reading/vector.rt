//! `ArchivedVec`, a pointer to elements: its layout, its check and the methods that read it.
ghost use Rattle.std.specs.Prelude.{◌≡◌, ℕ, ◌≤◌};
ghost use Rattle.std.proofs.Common.{refl, lit<, lit≤};
ghost use Rattle.archive_shape_layout.specs.Shape.Shape.{vector};
ghost use Rattle.archive_forms_values.specs.Parts.{HasValue, IsVecAt};
ghost use Rattle.archive_forms_values.specs.Calls.Reading.{FindsVecElement, SealsVecElement, TellsEmpty};

use crate::checking::check_vec_each;
use crate::reading::slice::element_at;
use crate::reading::target::target_of;
use crate::reading::{SliceRef, SliceSeal};
use archive_shape::{
    ArchiveContext, ArchivedIsize, CheckBytes, Error, NoUndef, Portable, Ref, RelPtr, Seal, Shape,
    Slice,
};
use std::alloc::{AllocError, Global};
use std::marker::PhantomData;

/// An archived vector: an offset of four bytes that leads to the elements, and four bytes with their number.
#[derive_where(Clone, Copy)]
pub struct ArchivedVec<T> {
    pub of: PhantomData<T>,
}

impl<T> NoUndef for ArchivedVec<T> {}

impl<T: Portable> Portable for ArchivedVec<T> {
    ghost SIZE = { 8 };

    ghost ALIGN = { 4 };

    ghost shape = { vector T.shape };

    ghost knows = { T.knows };

    ghost named = { T.named };

    const SIZE: usize = 8;

    const ALIGN: usize = 4;

    fn shape(alloc: Global) -> Result<Shape, AllocError> {
        Ok(Shape::Vector(Box::new(alloc, T::shape(alloc)?)?))
    }

    ghost sized = { refl };

    ghost aligned = { refl };

    ghost aligns = { (lit< tt, lit≤ tt) };

    ghost known = { T.known };
}

impl<C: ArchiveContext, T: CheckBytes<C>> CheckBytes<C> for ArchivedVec<T> {
    fn check(alloc: Global, bytes: &[u8], pos: usize, context: &mut C) -> Result<(), Error> {
        check_vec_each::<T, C, _>(
            bytes,
            pos,
            context,
            |c: &mut C, p: usize| T::check(alloc, bytes, p, c),
        )
    }
}

/// Returns the position of the elements of the vector at `pos`, and their number.
fn elements_at<T: Portable>(bytes: &[u8], pos: usize) -> (usize, usize)
    requires { HasValue (vector T.shape) T.knows bytes.now pos }
    ensures { IsVecAt T.shape T.knows bytes.now pos result.0 result.1 }
{
    let len = RelPtr::metadata(Ref::<RelPtr<Slice<T>, ArchivedIsize>>::new(bytes, pos));
    (target_of(bytes, pos), len)
}

impl<T: Portable> ArchivedVec<T> {
    /// Returns the number of elements.
    pub fn len(this: Ref<'_, ArchivedVec<T>>) -> usize
        requires { HasValue (vector T.shape) T.knows this.bytes.now this.pos }
        ensures { (to : ℕ) × IsVecAt T.shape T.knows this.entry.bytes.now this.entry.pos to result }
    {
        elements_at::<T>(this.bytes, this.pos).1
    }

    /// Returns `true` if the vector has no elements.
    pub fn is_empty(this: Ref<'_, ArchivedVec<T>>) -> bool
        requires { HasValue (vector T.shape) T.knows this.bytes.now this.pos }
        ensures { TellsEmpty (IsVecAt T.shape T.knows) this.entry result }
    {
        ArchivedVec::len(this) == 0
    }

    /// Returns the elements.
    pub fn as_slice<'a>(this: Ref<'a, ArchivedVec<T>>) -> SliceRef<'a, T>
        requires { HasValue (vector T.shape) T.knows this.bytes.now this.pos }
        ensures bytes { result.bytes ≡ this.entry.bytes }
        ensures elements { IsVecAt T.shape T.knows this.entry.bytes.now
            this.entry.pos result.pos result.len }
    {
        let (pos, len) = elements_at::<T>(this.bytes, this.pos);
        SliceRef {
            bytes: this.bytes,
            pos,
            len,
            of: PhantomData,
        }
    }

    /// Returns the element at `index`, or `None` if it is out of bounds.
    pub fn get<'a>(this: Ref<'a, ArchivedVec<T>>, index: usize) -> Option<Ref<'a, T>>
        requires { HasValue (vector T.shape) T.knows this.bytes.now this.pos }
        ensures { FindsVecElement T.shape T.knows this.entry index result }
    {
        ArchivedVec::as_slice(this).get(index)
    }

    /// Returns the elements, which may be edited. The contents of the buffer after the loan are not specified.
    pub fn as_slice_seal<'a>(this: Seal<'a, ArchivedVec<T>>) -> SliceSeal<'a, T>
        requires { HasValue (vector T.shape) T.knows this.bytes.now this.pos }
        ensures same_reference { result.bytes.ghost_name ≡ this.entry.bytes.ghost_name }
        ensures bytes { result.bytes.now ≡ this.entry.bytes.now }
        ensures elements { IsVecAt T.shape T.knows this.entry.bytes.now
            this.entry.pos result.pos result.len }
    {
        let Seal { bytes, pos, .. } = this;
        let (pos, len) = elements_at::<T>(bytes, pos);
        SliceSeal {
            bytes,
            pos,
            len,
            of: PhantomData,
        }
    }

    /// Returns the element at `index`, which may be edited, or `None` if it is out of bounds. The contents of the
    /// buffer after the loan are not specified.
    pub fn get_seal<'a>(this: Seal<'a, ArchivedVec<T>>, index: usize) -> Option<Seal<'a, T>>
        requires { HasValue (vector T.shape) T.knows this.bytes.now this.pos }
        ensures { SealsVecElement T.shape T.knows this.entry index result }
    {
        let Seal { bytes, pos, .. } = this;
        let (pos, len) = elements_at::<T>(bytes, pos);
        match element_at::<T>(bytes, pos, len, index) {
            Some(at) => Some(Seal::new(bytes, at)),
            None => None,
        }
    }
}
