//! The type of archived B-tree maps.
ghost use Rattle.std.specs.Prelude.{◌≡◌, ◌+◌, ◌≤◌, ◌++◌, ◌↔◌, [], length, IsTrue};
ghost use Rattle.std.proofs.Common.{refl, lit<, lit≤};
ghost use Rattle.archive_shape_layout.specs.Shape.Shape.{tree};
ghost use Rattle.archive_shape.specs.Kept.{IsWithin};
ghost use Rattle.archive_shape.specs.Checks.{Moves};
ghost use Rattle.archive_shape_layout.proofs.Naming.{first_types, other_types};
ghost use Rattle.archive_btree_layout.specs.Tree.{Tree, items};
ghost use Rattle.archive_btree_layout.specs.Reading.{Place};
ghost use Rattle.archive_forms_values.specs.Parts.{both};
ghost use Rattle.archive_btree_maps.specs.Maps.{IsMap, HasMap};
ghost use Rattle.archive_btree_maps.specs.Calls.Checking.{VerifiesMap};

use crate::nodes::check_btree_each;
use crate::walking::count_at;
use archive_shape::{ArchiveContext, CheckBytes, Error, NoUndef, Portable, Ref, Shape};
use std::alloc::{AllocError, Global};
use std::marker::PhantomData;

/// An archived map in a search tree with at most `E` entries per node. It has eight bytes: an offset of four bytes that
/// leads to the root, and four bytes with the number of entries. Without entries the offset leads to nothing.
#[derive_where(Clone, Copy)]
pub struct ArchivedBTreeMap<K, V, const E: usize> {
    pub of: PhantomData<(K, V)>,
}

impl<K, V, const E: usize> NoUndef for ArchivedBTreeMap<K, V, E> {}

impl<K: Portable, V: Portable, const E: usize> Portable for ArchivedBTreeMap<K, V, E> {
    ghost SIZE = { 8 };

    ghost ALIGN = { 4 };

    ghost shape = { tree E K.shape V.shape };

    ghost knows = { both K.knows V.knows };

    ghost named = { K.named ++ V.named };

    const SIZE: usize = 8;

    const ALIGN: usize = 4;

    fn shape(alloc: Global) -> Result<Shape, AllocError> {
        let key = Box::new(alloc, K::shape(alloc)?)?;
        let value = Box::new(alloc, V::shape(alloc)?)?;
        Ok(Shape::Tree {
            entries: E as u64,
            key,
            value,
        })
    }

    ghost sized = { refl };

    ghost aligned = { refl };

    ghost aligns = { (lit< tt, lit≤ tt) };

    ghost known = { λ names has. (
      K.known names (first_types names K.named V.named has),
      V.known names (other_types names K.named V.named has),
    ) };
}

impl<C: ArchiveContext, K: CheckBytes<C>, V: CheckBytes<C>, const E: usize> CheckBytes<C>
    for ArchivedBTreeMap<K, V, E> {
    fn check(alloc: Global, bytes: &[u8], pos: usize, context: &mut C) -> Result<(), Error> {
        let this: Ref<'_, ArchivedBTreeMap<K, V, E>> = Ref::new(bytes, pos);
        ArchivedBTreeMap::verify(this, alloc, context)
    }
}

impl<K, V, const E: usize> ArchivedBTreeMap<K, V, E> {
    /// Checks what the own bytes of the map lead to, of which any are legal: the nodes of its search tree, and the
    /// entries. It is all of the map's check, with the errors of [`check_btree_each`], where the steps are the checks of
    /// a key and of a value. If there are no entries, nothing is checked.
    pub fn verify<C: ArchiveContext>(
        this: Ref<'_, ArchivedBTreeMap<K, V, E>>,
        alloc: Global,
        context: &mut C,
    ) -> Result<(), Error>
    where
        K: CheckBytes<C>,
        V: CheckBytes<C>,
        requires fits { this.pos + 8 ≤ length this.bytes.now }
        requires range { IsWithin (C.kept context.old) (length this.bytes.now) }
        ensures moves { Moves (C.kept context.old) result (C.kept context.new) }
        ensures exact { VerifiesMap C.kept E K.Portable V.Portable this.entry context.old result context.new }
    {
        let bytes = this.bytes;
        check_btree_each::<K, V, C, _, _, E>(
            bytes,
            this.pos,
            context,
            |c: &mut C, p: usize| K::check(alloc, bytes, p, c),
            |c: &mut C, p: usize| V::check(alloc, bytes, p, c),
        )
    }
}

impl<K: Portable, V: Portable, const E: usize> ArchivedBTreeMap<K, V, E> {
    /// Returns the number of entries.
    pub fn len(this: Ref<'_, ArchivedBTreeMap<K, V, E>>) -> usize
        requires { HasMap E K.shape V.shape K.knows V.knows this }
        ensures { (t : Tree Place) → IsMap E K.shape V.shape this.entry t → result ≡ length (items t) }
    {
        count_at(this.bytes, this.pos)
    }

    /// Checks whether the map has no entries.
    pub fn is_empty(this: Ref<'_, ArchivedBTreeMap<K, V, E>>) -> bool
        requires { HasMap E K.shape V.shape K.knows V.knows this }
        ensures { (t : Tree Place) → IsMap E K.shape V.shape this.entry t
            → IsTrue result ↔ (items t ≡ []) }
    {
        ArchivedBTreeMap::len(this) == 0
    }
}
