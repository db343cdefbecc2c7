//! Archived tuples of three fields.
ghost use Rattle.std.specs.Prelude.{◌≡◌, ℕ, ◌+◌, ◌-◌, ◌^◌, ◌<◌, ◌++◌, max, min};
ghost use Rattle.std.proofs.Common.{refl};
ghost use Rattle.archive_shape_layout.specs.Shape.{size_of};
ghost use Rattle.archive_shape_layout.specs.Shape.Shapes.{no_shapes, more_shapes};
ghost use Rattle.archive_shape_layout.proofs.Naming.{first_types, other_types};
ghost use Rattle.archive_shape_layout.proofs.PointerSizes.{pointer_aligns};
ghost use Rattle.archive_forms_values.specs.Tuples.{tuple3};
ghost use Rattle.archive_forms_laws.proofs.FieldSizes.{alone_aligned, before_aligned};
ghost use Rattle.archive_forms_values.specs.Fields.{second_position, third_position};
ghost use Rattle.archive_forms_values.specs.Calls.Tuples.{HasTuple3, AreFields3};

use crate::checking::{check_tuple3_each, field_end, greater, next_multiple};
use archive_shape::{ArchiveContext, CheckBytes, Error, Portable, Ref, Shape, Shapes};
use std::alloc::{AllocError, Global};
use std::marker::PhantomData;

/// An archived tuple of three fields: the first field, and each further one at the first multiple of its alignment
/// after the field before.
#[derive_where(Clone, Copy)]
pub struct ArchivedTuple3<A, B, C> {
    pub of: PhantomData<(A, B, C)>,
}

impl<A: Portable, B: Portable, C: Portable> Portable for ArchivedTuple3<A, B, C> {
    ghost SIZE = { min (size_of (tuple3 A.shape B.shape C.shape)) (2 ^ 64 - 1) };

    ghost ALIGN = { max A.ALIGN (max B.ALIGN C.ALIGN) };

    ghost shape = { tuple3 A.shape B.shape C.shape };

    ghost knows = { λ names. A.knows names × B.knows names × C.knows names };

    ghost named = { A.named ++ (B.named ++ C.named) };

    const SIZE: usize = next_multiple(
        field_end(
            field_end(field_end(0, A::SIZE, A::ALIGN), B::SIZE, B::ALIGN),
            C::SIZE,
            C::ALIGN,
        ),
        Self::ALIGN,
    );

    const ALIGN: usize = greater(A::ALIGN, greater(B::ALIGN, C::ALIGN));

    fn shape(alloc: Global) -> Result<Shape, AllocError> {
        let first = Box::new(alloc, A::shape(alloc)?)?;
        let second = Box::new(alloc, B::shape(alloc)?)?;
        let third = Box::new(alloc, C::shape(alloc)?)?;
        let end = Box::new(alloc, Shapes::Empty)?;
        let last = Box::new(alloc, Shapes::Another(third, end))?;
        let rest = Box::new(alloc, Shapes::Another(second, last))?;
        Ok(Shape::Tuple(Shapes::Another(first, rest)))
    }

    ghost sized = { refl };

    ghost aligned = { before_aligned A.shape (more_shapes B.shape (more_shapes C.shape no_shapes)) A.ALIGN (max B.ALIGN C.ALIGN) A.aligned (before_aligned B.shape (more_shapes C.shape no_shapes) B.ALIGN C.ALIGN B.aligned (alone_aligned C.shape C.ALIGN C.aligned C.aligns.0)) };

    ghost aligns = { pointer_aligns A.ALIGN (max B.ALIGN C.ALIGN) A.aligns (pointer_aligns B.ALIGN C.ALIGN B.aligns C.aligns) };

    ghost known = { λ names has. (
      A.known names (first_types names A.named (B.named ++ C.named) has),
      B.known names (first_types names B.named C.named (other_types names A.named (B.named ++ C.named) has)),
      C.known names (other_types names B.named C.named (other_types names A.named (B.named ++ C.named) has)),
    ) };
}

impl<
    Context: ArchiveContext,
    A: CheckBytes<Context>,
    B: CheckBytes<Context>,
    C: CheckBytes<Context>,
> CheckBytes<Context> for ArchivedTuple3<A, B, C> {
    fn check(alloc: Global, bytes: &[u8], pos: usize, context: &mut Context) -> Result<(), Error> {
        check_tuple3_each::<A, B, C, Context, _, _, _>(
            bytes,
            pos,
            context,
            |c: &mut Context, p: usize| A::check(alloc, bytes, p, c),
            |c: &mut Context, p: usize| B::check(alloc, bytes, p, c),
            |c: &mut Context, p: usize| C::check(alloc, bytes, p, c),
        )
    }
}

impl<A: Portable, B: Portable, C: Portable> ArchivedTuple3<A, B, C> {
    /// Returns the first field.
    pub fn first<'a>(this: Ref<'a, ArchivedTuple3<A, B, C>>) -> Ref<'a, A>
        requires { HasTuple3 A.shape B.shape C.shape A.knows B.knows C.knows this }
        ensures bytes { result.bytes ≡ this.entry.bytes }
        ensures pos { result.pos ≡ this.entry.pos }
        ensures value { AreFields3 A.shape B.shape C.shape A.knows B.knows C.knows this.entry }
    {
        Ref::new(this.bytes, this.pos)
    }

    /// Returns the second field.
    pub fn second<'a>(this: Ref<'a, ArchivedTuple3<A, B, C>>) -> Ref<'a, B>
        requires { HasTuple3 A.shape B.shape C.shape A.knows B.knows C.knows this }
        ensures bytes { result.bytes ≡ this.entry.bytes }
        ensures pos { result.pos ≡ second_position A.shape B.shape this.entry.pos }
        ensures value { AreFields3 A.shape B.shape C.shape A.knows B.knows C.knows this.entry }
    {
        let _len = this.bytes.len();
        let offset = next_multiple(A::SIZE, B::ALIGN);
        Ref::new(this.bytes, this.pos + offset)
    }

    /// Returns the third field.
    pub fn third<'a>(this: Ref<'a, ArchivedTuple3<A, B, C>>) -> Ref<'a, C>
        requires { HasTuple3 A.shape B.shape C.shape A.knows B.knows C.knows this }
        ensures bytes { result.bytes ≡ this.entry.bytes }
        ensures pos { result.pos ≡ third_position A.shape B.shape C.shape this.entry.pos }
        ensures value { AreFields3 A.shape B.shape C.shape A.knows B.knows C.knows this.entry }
    {
        let _len = this.bytes.len();
        let offset = next_multiple(field_end(A::SIZE, B::SIZE, B::ALIGN), C::ALIGN);
        Ref::new(this.bytes, this.pos + offset)
    }
}
