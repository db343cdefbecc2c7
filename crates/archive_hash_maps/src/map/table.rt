//! The type of archived hash tables, its layout and its length.
ghost use Rattle.std.specs.Prelude.{◌≡◌, ◌+◌, ◌≤◌, ◌↔◌, [], length, IsTrue};
ghost use Rattle.std.proofs.Common.{refl, lit<, lit≤};
ghost use Rattle.archive_shape_layout.specs.Shape.Shape.{table};
ghost use Rattle.archive_shape.specs.Kept.{IsWithin};
ghost use Rattle.archive_shape.specs.Checks.{Moves};
ghost use Rattle.archive_hash_maps.specs.Tables.{IsTable, HasTable, Buckets, full_places};
ghost use Rattle.archive_hash_maps.specs.Calls.Checks.{ChecksTable};

use crate::checking::check_table_each;
use crate::walking::{buckets_at, number_at};
use archive_shape::{ArchiveContext, CheckBytes, Error, NoUndef, Portable, Ref, Shape};
use std::alloc::{AllocError, Global};
use std::marker::PhantomData;

/// An archived table of items: a four-byte offset that leads to the controls, four bytes with the number of items, and
/// four with the number of places. Without items the offset leads to nothing.
#[derive_where(Clone, Copy)]
pub struct ArchivedHashTable<T> {
    pub of: PhantomData<T>,
}

impl<T> NoUndef for ArchivedHashTable<T> {}

impl<T: Portable> Portable for ArchivedHashTable<T> {
    ghost SIZE = { 12 };

    ghost ALIGN = { 4 };

    ghost shape = { table T.shape };

    ghost knows = { T.knows };

    ghost named = { T.named };

    const SIZE: usize = 12;

    const ALIGN: usize = 4;

    fn shape(alloc: Global) -> Result<Shape, AllocError> {
        Ok(Shape::Table(Box::new(alloc, T::shape(alloc)?)?))
    }

    ghost sized = { refl };

    ghost aligned = { refl };

    ghost aligns = { (lit< tt, lit≤ tt) };

    ghost known = { λ names has. T.known names has };
}

impl<C: ArchiveContext, T: CheckBytes<C>> CheckBytes<C> for ArchivedHashTable<T> {
    fn check(alloc: Global, bytes: &[u8], pos: usize, context: &mut C) -> Result<(), Error> {
        let this: Ref<'_, ArchivedHashTable<T>> = Ref::new(bytes, pos);
        ArchivedHashTable::verify(this, alloc, context)
    }
}

impl<T> ArchivedHashTable<T> {
    /// Checks what the own bytes of the table lead to, of which any are legal: its buckets, controls and items. It is
    /// all of the table's check, with the errors of [`check_table_each`], where the step is the check of an item. If
    /// there are no items, nothing is checked.
    pub fn verify<C: ArchiveContext>(
        this: Ref<'_, ArchivedHashTable<T>>,
        alloc: Global,
        context: &mut C,
    ) -> Result<(), Error>
    where
        T: CheckBytes<C>,
        requires fits { this.pos + 12 ≤ length this.bytes.now }
        requires range { IsWithin (C.kept context.old) (length this.bytes.now) }
        ensures moves { Moves (C.kept context.old) result (C.kept context.new) }
        ensures exact { ChecksTable C.kept T.Portable this.entry context.old result context.new }
    {
        let bytes = this.bytes;
        check_table_each::<T, C, _>(
            bytes,
            this.pos,
            context,
            |c: &mut C, p: usize| T::check(alloc, bytes, p, c),
        )
    }
}

impl<T: Portable> ArchivedHashTable<T> {
    /// Returns the number of items.
    pub fn len(this: Ref<'_, ArchivedHashTable<T>>) -> usize
        requires { HasTable T.shape T.knows this }
        ensures { (b : Buckets) → IsTable T.shape this.entry b → result ≡ length (full_places b) }
    {
        number_at(this.bytes, this.pos + 4)
    }

    /// Returns whether the table has no items.
    pub fn is_empty(this: Ref<'_, ArchivedHashTable<T>>) -> bool
        requires { HasTable T.shape T.knows this }
        ensures { (b : Buckets) → IsTable T.shape this.entry b → IsTrue result ↔ (full_places b ≡ []) }
    {
        ArchivedHashTable::len(this) == 0
    }

    /// Returns the number of places, which is 0 for a table without items.
    pub fn capacity(this: Ref<'_, ArchivedHashTable<T>>) -> usize
        requires { HasTable T.shape T.knows this }
        ensures { (b : Buckets) → IsTable T.shape this.entry b → result ≡ b.cap }
    {
        match buckets_at::<T>(this.bytes, this.pos) {
            Some(buckets) => buckets.capacity,
            None => 0,
        }
    }
}
