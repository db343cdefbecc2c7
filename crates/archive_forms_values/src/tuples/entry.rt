//! `Entry`, an archived pair of a key and a value.
ghost use Rattle.std.specs.Prelude.{◌≡◌, ℕ, ◌-◌, ◌^◌, ◌<◌, ◌++◌, max, min};
ghost use Rattle.std.proofs.Common.{refl};
ghost use Rattle.archive_shape_layout.specs.Shape.{size_of};
ghost use Rattle.archive_shape_layout.proofs.Naming.{first_types, other_types};
ghost use Rattle.archive_shape_layout.proofs.PointerSizes.{pointer_aligned, pointer_aligns};
ghost use Rattle.archive_forms_values.specs.Tuples.{tuple2};
ghost use Rattle.archive_forms_values.specs.Fields.{second_position};
ghost use Rattle.archive_forms_values.specs.Calls.Tuples.{HasTuple2, AreFields2};

use crate::tuples::ArchivedTuple2;
use archive_shape::{ArchiveContext, CheckBytes, Error, Portable, Ref, Shape};
use std::alloc::{AllocError, Global};
use std::marker::PhantomData;

/// An archived entry of a map: a key and a value, with the layout of a tuple of the two.
#[derive_where(Clone, Copy)]
pub struct Entry<K, V> {
    pub of: PhantomData<(K, V)>,
}

impl<K: Portable, V: Portable> Portable for Entry<K, V> {
    ghost SIZE = { min (size_of (tuple2 K.shape V.shape)) (2 ^ 64 - 1) };

    ghost ALIGN = { max K.ALIGN V.ALIGN };

    ghost shape = { tuple2 K.shape V.shape };

    ghost knows = { λ names. K.knows names × V.knows names };

    ghost named = { K.named ++ V.named };

    const SIZE: usize = ArchivedTuple2::<K, V>::SIZE;

    const ALIGN: usize = ArchivedTuple2::<K, V>::ALIGN;

    fn shape(alloc: Global) -> Result<Shape, AllocError> {
        ArchivedTuple2::<K, V>::shape(alloc)
    }

    ghost sized = { refl };

    ghost aligned = { pointer_aligned K.shape V.shape K.ALIGN V.ALIGN K.aligned V.aligned V.aligns.0 };

    ghost aligns = { pointer_aligns K.ALIGN V.ALIGN K.aligns V.aligns };

    ghost known = { λ names has. (
      K.known names (first_types names K.named V.named has),
      V.known names (other_types names K.named V.named has),
    ) };
}

impl<C: ArchiveContext, K: CheckBytes<C>, V: CheckBytes<C>> CheckBytes<C> for Entry<K, V> {
    fn check(alloc: Global, bytes: &[u8], pos: usize, context: &mut C) -> Result<(), Error> {
        ArchivedTuple2::<K, V>::check(alloc, bytes, pos, context)
    }
}

impl<K: Portable, V: Portable> Entry<K, V> {
    /// Returns the key.
    pub fn key<'a>(this: Ref<'a, Entry<K, V>>) -> Ref<'a, K>
        requires { HasTuple2 K.shape V.shape K.knows V.knows this }
        ensures bytes { result.bytes ≡ this.entry.bytes }
        ensures pos { result.pos ≡ this.entry.pos }
        ensures value { AreFields2 K.shape V.shape K.knows V.knows this.entry }
    {
        ArchivedTuple2::first(Ref::<ArchivedTuple2<K, V>>::new(this.bytes, this.pos))
    }

    /// Returns the value.
    pub fn value<'a>(this: Ref<'a, Entry<K, V>>) -> Ref<'a, V>
        requires { HasTuple2 K.shape V.shape K.knows V.knows this }
        ensures bytes { result.bytes ≡ this.entry.bytes }
        ensures pos { result.pos ≡ second_position K.shape V.shape this.entry.pos }
        ensures value { AreFields2 K.shape V.shape K.knows V.knows this.entry }
    {
        ArchivedTuple2::second(Ref::<ArchivedTuple2<K, V>>::new(this.bytes, this.pos))
    }
}
