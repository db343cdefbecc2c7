//! The type of archived B-tree sets.
ghost use Rattle.std.specs.Prelude.{◌≡◌, ◌++◌, ◌↔◌, [], length, IsTrue};
ghost use Rattle.std.proofs.Common.{refl, lit<, lit≤};
ghost use Rattle.archive_shape_layout.proofs.Naming.{first_types};
ghost use Rattle.archive_btree_layout.specs.Tree.{Tree, items};
ghost use Rattle.archive_btree_layout.specs.Reading.{Place};
ghost use Rattle.archive_btree_maps.specs.Refs.{ref_at};
ghost use Rattle.archive_btree_maps.specs.Sets.{IsSet, set_shape, set_knows, HasSet};

use crate::map::ArchivedBTreeMap;
use archive_shape::{ArchiveContext, CheckBytes, Error, NoUndef, Portable, Ref, Shape};
use std::alloc::{AllocError, Global};
use std::marker::PhantomData;

/// An archived set in a search tree with at most `E` keys per node. It has the eight bytes of a map of its keys to
/// `()`: an offset of four bytes that leads to the root, and four bytes with the number of keys.
#[derive_where(Clone, Copy)]
pub struct ArchivedBTreeSet<K, const E: usize> {
    pub of: PhantomData<K>,
}

impl<K, const E: usize> NoUndef for ArchivedBTreeSet<K, E> {}

impl<K: Portable, const E: usize> Portable for ArchivedBTreeSet<K, E> {
    ghost SIZE = { 8 };

    ghost ALIGN = { 4 };

    ghost shape = { set_shape E K.shape };

    ghost knows = { set_knows K.knows };

    ghost named = { K.named ++ [] };

    const SIZE: usize = 8;

    const ALIGN: usize = 4;

    fn shape(alloc: Global) -> Result<Shape, AllocError> {
        ArchivedBTreeMap::<K, (), E>::shape(alloc)
    }

    ghost sized = { refl };

    ghost aligned = { refl };

    ghost aligns = { (lit< tt, lit≤ tt) };

    ghost known = { λ names has. (K.known names (first_types names K.named [] has), tt) };
}

impl<C: ArchiveContext, K: CheckBytes<C>, const E: usize> CheckBytes<C> for ArchivedBTreeSet<K, E> {
    fn check(alloc: Global, bytes: &[u8], pos: usize, context: &mut C) -> Result<(), Error> {
        ArchivedBTreeMap::<K, (), E>::check(alloc, bytes, pos, context)
    }
}

/// Returns the map of the keys to `()` at the same position.
pub(crate) fn as_map<'a, K, const E: usize>(
    this: Ref<'a, ArchivedBTreeSet<K, E>>,
) -> Ref<'a, ArchivedBTreeMap<K, (), E>>
    ensures { result ≡ ref_at this.entry.bytes this.entry.pos }
{
    Ref::new(this.bytes, this.pos)
}

impl<K: Portable, const E: usize> ArchivedBTreeSet<K, E> {
    /// Returns the number of keys.
    pub fn len(this: Ref<'_, ArchivedBTreeSet<K, E>>) -> usize
        requires { HasSet E K.shape K.knows this.bytes.now this.pos }
        ensures { (t : Tree Place) → IsSet E K.shape this.entry t → result ≡ length (items t) }
    {
        ArchivedBTreeMap::len(as_map(this))
    }

    /// Checks whether the set has no keys.
    pub fn is_empty(this: Ref<'_, ArchivedBTreeSet<K, E>>) -> bool
        requires { HasSet E K.shape K.knows this.bytes.now this.pos }
        ensures { (t : Tree Place) → IsSet E K.shape this.entry t → IsTrue result ↔ (items t ≡ []) }
    {
        ArchivedBTreeMap::is_empty(as_map(this))
    }
}
