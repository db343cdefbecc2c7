//! Archived tuples of two fields.
ghost use Rattle.std.specs.Prelude.{◌≡◌, ℕ, ◌+◌, ◌-◌, ◌^◌, ◌<◌, ◌++◌, max, min};
ghost use Rattle.std.proofs.Common.{refl};
ghost use Rattle.archive_shape_layout.specs.Shape.{size_of};
ghost use Rattle.archive_shape_layout.specs.Shape.Shapes.{no_shapes, more_shapes};
ghost use Rattle.archive_shape_layout.proofs.Naming.{first_types, other_types};
ghost use Rattle.archive_shape_layout.proofs.PointerSizes.{pointer_aligns};
ghost use Rattle.archive_forms_values.specs.Tuples.{tuple2};
ghost use Rattle.archive_forms_laws.proofs.FieldSizes.{alone_aligned, before_aligned};
ghost use Rattle.archive_forms_values.specs.Fields.{second_position};
ghost use Rattle.archive_forms_values.specs.Calls.Tuples.{HasTuple2, AreFields2};

use crate::checking::{check_tuple2_each, field_end, greater, next_multiple};
use archive_shape::{ArchiveContext, CheckBytes, Error, Portable, Ref, Shape, Shapes};
use std::alloc::{AllocError, Global};
use std::marker::PhantomData;

/// An archived tuple of two fields: the first field, and then the second at the first multiple of its alignment after
/// the first.
#[derive_where(Clone, Copy)]
pub struct ArchivedTuple2<A, B> {
    pub of: PhantomData<(A, B)>,
}

impl<A: Portable, B: Portable> Portable for ArchivedTuple2<A, B> {
    ghost SIZE = { min (size_of (tuple2 A.shape B.shape)) (2 ^ 64 - 1) };

    ghost ALIGN = { max A.ALIGN B.ALIGN };

    ghost shape = { tuple2 A.shape B.shape };

    ghost knows = { λ names. A.knows names × B.knows names };

    ghost named = { A.named ++ B.named };

    const SIZE: usize = next_multiple(
        field_end(field_end(0, A::SIZE, A::ALIGN), B::SIZE, B::ALIGN),
        Self::ALIGN,
    );

    const ALIGN: usize = greater(A::ALIGN, B::ALIGN);

    fn shape(alloc: Global) -> Result<Shape, AllocError> {
        let first = Box::new(alloc, A::shape(alloc)?)?;
        let second = Box::new(alloc, B::shape(alloc)?)?;
        let end = Box::new(alloc, Shapes::Empty)?;
        let rest = Box::new(alloc, Shapes::Another(second, end))?;
        Ok(Shape::Tuple(Shapes::Another(first, rest)))
    }

    ghost sized = { refl };

    ghost aligned = { before_aligned A.shape (more_shapes B.shape no_shapes) A.ALIGN B.ALIGN A.aligned (alone_aligned B.shape B.ALIGN B.aligned B.aligns.0) };

    ghost aligns = { pointer_aligns A.ALIGN B.ALIGN A.aligns B.aligns };

    ghost known = { λ names has. (
      A.known names (first_types names A.named B.named has),
      B.known names (other_types names A.named B.named has),
    ) };
}

impl<Context: ArchiveContext, A: CheckBytes<Context>, B: CheckBytes<Context>> CheckBytes<Context>
    for ArchivedTuple2<A, B> {
    fn check(alloc: Global, bytes: &[u8], pos: usize, context: &mut Context) -> Result<(), Error> {
        check_tuple2_each::<A, B, Context, _, _>(
            bytes,
            pos,
            context,
            |c: &mut Context, p: usize| A::check(alloc, bytes, p, c),
            |c: &mut Context, p: usize| B::check(alloc, bytes, p, c),
        )
    }
}

impl<A: Portable, B: Portable> ArchivedTuple2<A, B> {
    /// Returns the first field.
    pub fn first<'a>(this: Ref<'a, ArchivedTuple2<A, B>>) -> Ref<'a, A>
        requires { HasTuple2 A.shape B.shape A.knows B.knows this }
        ensures bytes { result.bytes ≡ this.entry.bytes }
        ensures pos { result.pos ≡ this.entry.pos }
        ensures value { AreFields2 A.shape B.shape A.knows B.knows this.entry }
    {
        Ref::new(this.bytes, this.pos)
    }

    /// Returns the second field.
    pub fn second<'a>(this: Ref<'a, ArchivedTuple2<A, B>>) -> Ref<'a, B>
        requires { HasTuple2 A.shape B.shape A.knows B.knows this }
        ensures bytes { result.bytes ≡ this.entry.bytes }
        ensures pos { result.pos ≡ second_position A.shape B.shape this.entry.pos }
        ensures value { AreFields2 A.shape B.shape A.knows B.knows this.entry }
    {
        let _len = this.bytes.len();
        let offset = next_multiple(A::SIZE, B::ALIGN);
        Ref::new(this.bytes, this.pos + offset)
    }
}
