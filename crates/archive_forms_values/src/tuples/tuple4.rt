//! Archived tuples of four fields.
ghost use Rattle.std.specs.Prelude.{◌≡◌, ℕ, ◌+◌, ◌-◌, ◌^◌, ◌<◌, ◌++◌, max, min};
ghost use Rattle.std.proofs.Common.{refl};
ghost use Rattle.archive_shape_layout.specs.Shape.{size_of};
ghost use Rattle.archive_shape_layout.specs.Shape.Shapes.{no_shapes, more_shapes};
ghost use Rattle.archive_shape_layout.proofs.Naming.{first_types, other_types};
ghost use Rattle.archive_shape_layout.proofs.PointerSizes.{pointer_aligns};
ghost use Rattle.archive_forms_values.specs.Tuples.{tuple4};
ghost use Rattle.archive_forms_laws.proofs.FieldSizes.{alone_aligned, before_aligned};
ghost use Rattle.archive_forms_values.specs.Fields.{second_position, third_position, fourth_position};
ghost use Rattle.archive_forms_values.specs.Calls.Tuples.{HasTuple4, AreFields4};

use crate::checking::{check_tuple4_each, field_end, greater, next_multiple};
use archive_shape::{ArchiveContext, CheckBytes, Error, Portable, Ref, Shape, Shapes};
use std::alloc::{AllocError, Global};
use std::marker::PhantomData;

/// An archived tuple of four fields: the first field, and each further one at the first multiple of its alignment after
/// the field before.
#[derive_where(Clone, Copy)]
pub struct ArchivedTuple4<A, B, C, D> {
    pub of: PhantomData<(A, B, C, D)>,
}

impl<A: Portable, B: Portable, C: Portable, D: Portable> Portable for ArchivedTuple4<A, B, C, D> {
    ghost SIZE = { min (size_of (tuple4 A.shape B.shape C.shape D.shape)) (2 ^ 64 - 1) };

    ghost ALIGN = { max A.ALIGN (max B.ALIGN (max C.ALIGN D.ALIGN)) };

    ghost shape = { tuple4 A.shape B.shape C.shape D.shape };

    ghost knows = { λ names. A.knows names × B.knows names × C.knows names × D.knows names };

    ghost named = { A.named ++ (B.named ++ (C.named ++ D.named)) };

    const SIZE: usize = next_multiple(
        field_end(
            field_end(
                field_end(field_end(0, A::SIZE, A::ALIGN), B::SIZE, B::ALIGN),
                C::SIZE,
                C::ALIGN,
            ),
            D::SIZE,
            D::ALIGN,
        ),
        Self::ALIGN,
    );

    const ALIGN: usize = greater(A::ALIGN, greater(B::ALIGN, greater(C::ALIGN, D::ALIGN)));

    fn shape(alloc: Global) -> Result<Shape, AllocError> {
        let first = Box::new(alloc, A::shape(alloc)?)?;
        let second = Box::new(alloc, B::shape(alloc)?)?;
        let third = Box::new(alloc, C::shape(alloc)?)?;
        let fourth = Box::new(alloc, D::shape(alloc)?)?;
        let end = Box::new(alloc, Shapes::Empty)?;
        let last = Box::new(alloc, Shapes::Another(fourth, end))?;
        let others = Box::new(alloc, Shapes::Another(third, last))?;
        let rest = Box::new(alloc, Shapes::Another(second, others))?;
        Ok(Shape::Tuple(Shapes::Another(first, rest)))
    }

    ghost sized = { refl };

    ghost aligned = { before_aligned A.shape (more_shapes B.shape (more_shapes C.shape (more_shapes D.shape no_shapes))) A.ALIGN (max B.ALIGN (max C.ALIGN D.ALIGN)) A.aligned (before_aligned B.shape (more_shapes C.shape (more_shapes D.shape no_shapes)) B.ALIGN (max C.ALIGN D.ALIGN) B.aligned (before_aligned C.shape (more_shapes D.shape no_shapes) C.ALIGN D.ALIGN C.aligned (alone_aligned D.shape D.ALIGN D.aligned D.aligns.0))) };

    ghost aligns = { pointer_aligns A.ALIGN (max B.ALIGN (max C.ALIGN D.ALIGN)) A.aligns (pointer_aligns B.ALIGN (max C.ALIGN D.ALIGN) B.aligns (pointer_aligns C.ALIGN D.ALIGN C.aligns D.aligns)) };

    ghost known = { λ names has. (
      A.known names (first_types names A.named (B.named ++ (C.named ++ D.named)) has),
      B.known names (first_types names B.named (C.named ++ D.named) (other_types names A.named (B.named ++ (C.named ++ D.named)) has)),
      C.known names (first_types names C.named D.named (other_types names B.named (C.named ++ D.named) (other_types names A.named (B.named ++ (C.named ++ D.named)) has))),
      D.known names (other_types names C.named D.named (other_types names B.named (C.named ++ D.named) (other_types names A.named (B.named ++ (C.named ++ D.named)) has))),
    ) };
}

impl<
    Context: ArchiveContext,
    A: CheckBytes<Context>,
    B: CheckBytes<Context>,
    C: CheckBytes<Context>,
    D: CheckBytes<Context>,
> CheckBytes<Context> for ArchivedTuple4<A, B, C, D> {
    fn check(alloc: Global, bytes: &[u8], pos: usize, context: &mut Context) -> Result<(), Error> {
        check_tuple4_each::<A, B, C, D, Context, _, _, _, _>(
            bytes,
            pos,
            context,
            |c: &mut Context, p: usize| A::check(alloc, bytes, p, c),
            |c: &mut Context, p: usize| B::check(alloc, bytes, p, c),
            |c: &mut Context, p: usize| C::check(alloc, bytes, p, c),
            |c: &mut Context, p: usize| D::check(alloc, bytes, p, c),
        )
    }
}

impl<A: Portable, B: Portable, C: Portable, D: Portable> ArchivedTuple4<A, B, C, D> {
    /// Returns the first field.
    pub fn first<'a>(this: Ref<'a, ArchivedTuple4<A, B, C, D>>) -> Ref<'a, A>
        requires { HasTuple4 A.shape B.shape C.shape D.shape A.knows B.knows C.knows D.knows this }
        ensures bytes { result.bytes ≡ this.entry.bytes }
        ensures pos { result.pos ≡ this.entry.pos }
        ensures value { AreFields4 A.shape B.shape C.shape D.shape A.knows B.knows C.knows D.knows this.entry }
    {
        Ref::new(this.bytes, this.pos)
    }

    /// Returns the second field.
    pub fn second<'a>(this: Ref<'a, ArchivedTuple4<A, B, C, D>>) -> Ref<'a, B>
        requires { HasTuple4 A.shape B.shape C.shape D.shape A.knows B.knows C.knows D.knows this }
        ensures bytes { result.bytes ≡ this.entry.bytes }
        ensures pos { result.pos ≡ second_position A.shape B.shape this.entry.pos }
        ensures value { AreFields4 A.shape B.shape C.shape D.shape A.knows B.knows C.knows D.knows this.entry }
    {
        let _len = this.bytes.len();
        let offset = next_multiple(A::SIZE, B::ALIGN);
        Ref::new(this.bytes, this.pos + offset)
    }

    /// Returns the third field.
    pub fn third<'a>(this: Ref<'a, ArchivedTuple4<A, B, C, D>>) -> Ref<'a, C>
        requires { HasTuple4 A.shape B.shape C.shape D.shape A.knows B.knows C.knows D.knows this }
        ensures bytes { result.bytes ≡ this.entry.bytes }
        ensures pos { result.pos ≡ third_position A.shape B.shape C.shape this.entry.pos }
        ensures value { AreFields4 A.shape B.shape C.shape D.shape A.knows B.knows C.knows D.knows this.entry }
    {
        let _len = this.bytes.len();
        let offset = next_multiple(field_end(A::SIZE, B::SIZE, B::ALIGN), C::ALIGN);
        Ref::new(this.bytes, this.pos + offset)
    }

    /// Returns the fourth field.
    pub fn fourth<'a>(this: Ref<'a, ArchivedTuple4<A, B, C, D>>) -> Ref<'a, D>
        requires { HasTuple4 A.shape B.shape C.shape D.shape A.knows B.knows C.knows D.knows this }
        ensures bytes { result.bytes ≡ this.entry.bytes }
        ensures pos { result.pos ≡ fourth_position A.shape B.shape C.shape D.shape this.entry.pos }
        ensures value { AreFields4 A.shape B.shape C.shape D.shape A.knows B.knows C.knows D.knows this.entry }
    {
        let _len = this.bytes.len();
        let offset = next_multiple(
            field_end(field_end(A::SIZE, B::SIZE, B::ALIGN), C::SIZE, C::ALIGN),
            D::ALIGN,
        );
        Ref::new(this.bytes, this.pos + offset)
    }
}
