//! Archived tuples of one field.
ghost use Rattle.std.specs.Prelude.{◌≡◌, ℕ, ◌-◌, ◌^◌, ◌<◌, min, [], ◌∷◌};
ghost use Rattle.std.proofs.Common.{refl};
ghost use Rattle.archive_shape_layout.specs.Shape.{size_of};
ghost use Rattle.archive_forms_values.specs.Tuples.{tuple1};
ghost use Rattle.archive_forms_laws.proofs.FieldSizes.{alone_aligned};
ghost use Rattle.archive_forms_values.specs.Parts.{HasValue};
ghost use Rattle.archive_forms_values.specs.Fields.{field, AreFieldsAt};

use crate::checking::{check_tuple1_each, field_end, next_multiple};
use archive_shape::{ArchiveContext, CheckBytes, Error, Portable, Ref, Shape, Shapes};
use std::alloc::{AllocError, Global};
use std::marker::PhantomData;

/// An archived tuple of one field, which lies at the tuple's own position.
#[derive_where(Clone, Copy)]
pub struct ArchivedTuple1<A> {
    pub of: PhantomData<A>,
}

impl<A: Portable> Portable for ArchivedTuple1<A> {
    ghost SIZE = { min (size_of (tuple1 A.shape)) (2 ^ 64 - 1) };

    ghost ALIGN = { A.ALIGN };

    ghost shape = { tuple1 A.shape };

    ghost knows = { A.knows };

    ghost named = { A.named };

    const SIZE: usize = next_multiple(field_end(0, A::SIZE, A::ALIGN), Self::ALIGN);

    const ALIGN: usize = A::ALIGN;

    fn shape(alloc: Global) -> Result<Shape, AllocError> {
        let first = Box::new(alloc, A::shape(alloc)?)?;
        let end = Box::new(alloc, Shapes::Empty)?;
        Ok(Shape::Tuple(Shapes::Another(first, end)))
    }

    ghost sized = { refl };

    ghost aligned = { alone_aligned A.shape A.ALIGN A.aligned A.aligns.0 };

    ghost aligns = { A.aligns };

    ghost known = { A.known };
}

impl<Context: ArchiveContext, A: CheckBytes<Context>> CheckBytes<Context> for ArchivedTuple1<A> {
    fn check(alloc: Global, bytes: &[u8], pos: usize, context: &mut Context) -> Result<(), Error> {
        check_tuple1_each::<A, Context, _>(
            bytes,
            pos,
            context,
            |c: &mut Context, p: usize| A::check(alloc, bytes, p, c),
        )
    }
}

impl<A: Portable> ArchivedTuple1<A> {
    /// Returns the only field.
    pub fn first<'a>(this: Ref<'a, ArchivedTuple1<A>>) -> Ref<'a, A>
        requires { HasValue (tuple1 A.shape) A.knows this.bytes.now this.pos }
        ensures bytes { result.bytes ≡ this.entry.bytes }
        ensures pos { result.pos ≡ this.entry.pos }
        ensures value { AreFieldsAt (field A.shape A.knows ∷ []) A.knows this.entry.bytes.now
            this.entry.pos }
    {
        Ref::new(this.bytes, this.pos)
    }
}
