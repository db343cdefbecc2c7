//! `ArchivedBox`, a pointer to one value: its layout, its check and the methods that read it.
ghost use Rattle.std.specs.Prelude.{◌≡◌};
ghost use Rattle.std.proofs.Common.{refl, lit<, lit≤};
ghost use Rattle.archive_shape_layout.specs.Shape.Shape.{box};
ghost use Rattle.archive_shape_layout.specs.Shape.Pointee.{sized};
ghost use Rattle.archive_forms_values.specs.Parts.{HasValue, IsBoxAt};

use crate::checking::check_box_each;
use crate::reading::target::target_of;
use archive_shape::{
    ArchiveContext, CheckBytes, Error, NoUndef, Pointee, Portable, Ref, Seal, Shape,
};
use std::alloc::{AllocError, Global};
use std::marker::PhantomData;

/// An archived box: an offset of four bytes that leads to the value, in bytes from the box's own position.
#[derive_where(Clone, Copy)]
pub struct ArchivedBox<T> {
    pub of: PhantomData<T>,
}

impl<T> NoUndef for ArchivedBox<T> {}

impl<T: Portable> Portable for ArchivedBox<T> {
    ghost SIZE = { 4 };

    ghost ALIGN = { 4 };

    ghost shape = { box (sized T.shape) };

    ghost knows = { T.knows };

    ghost named = { T.named };

    const SIZE: usize = 4;

    const ALIGN: usize = 4;

    fn shape(alloc: Global) -> Result<Shape, AllocError> {
        Ok(Shape::Boxed(Pointee::Sized(Box::new(alloc, T::shape(alloc)?)?)))
    }

    ghost sized = { refl };

    ghost aligned = { refl };

    ghost aligns = { (lit< tt, lit≤ tt) };

    ghost known = { T.known };
}

impl<C: ArchiveContext, T: CheckBytes<C>> CheckBytes<C> for ArchivedBox<T> {
    fn check(alloc: Global, bytes: &[u8], pos: usize, context: &mut C) -> Result<(), Error> {
        check_box_each::<T, C, _>(
            bytes,
            pos,
            context,
            |c: &mut C, p: usize| T::check(alloc, bytes, p, c),
        )
    }
}

/// Returns the position of the value of the box at `pos`.
fn value_at<T: Portable>(bytes: &[u8], pos: usize) -> usize
    requires { HasValue (box (sized T.shape)) T.knows bytes.now pos }
    ensures { IsBoxAt T.shape T.knows bytes.now pos result }
{
    target_of(bytes, pos)
}

impl<T: Portable> ArchivedBox<T> {
    /// Returns the value that the box points to.
    pub fn get<'a>(this: Ref<'a, ArchivedBox<T>>) -> Ref<'a, T>
        requires { HasValue (box (sized T.shape)) T.knows this.bytes.now this.pos }
        ensures bytes { result.bytes ≡ this.entry.bytes }
        ensures value { IsBoxAt T.shape T.knows this.entry.bytes.now this.entry.pos result.pos }
    {
        Ref::new(this.bytes, value_at::<T>(this.bytes, this.pos))
    }

    /// Returns the value that the box points to, which may be edited. The contents of the buffer after the loan are not
    /// specified.
    pub fn get_seal<'a>(this: Seal<'a, ArchivedBox<T>>) -> Seal<'a, T>
        requires { HasValue (box (sized T.shape)) T.knows this.bytes.now this.pos }
        ensures same_reference { result.bytes.ghost_name ≡ this.entry.bytes.ghost_name }
        ensures bytes { result.bytes.now ≡ this.entry.bytes.now }
        ensures value { IsBoxAt T.shape T.knows this.entry.bytes.now this.entry.pos result.pos }
    {
        let Seal { bytes, pos, .. } = this;
        let at = value_at::<T>(bytes, pos);
        Seal::new(bytes, at)
    }
}
