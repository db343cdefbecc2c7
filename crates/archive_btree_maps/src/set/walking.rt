//! Iteration over archived B-tree sets in the order of their keys.
ghost use Rattle.archive_btree_maps.specs.Sets.{HasSet, unit_shape};
ghost use Rattle.archive_btree_maps.specs.Calls.Visits.{IteratesKeys, MayVisitKeys, VisitsKeys};

use crate::map::{ArchivedBTreeMap, Keys};
use crate::set::ArchivedBTreeSet;
use crate::set::set::as_map;
use archive_shape::{Portable, Ref};
use std::ops::ControlFlow;

/// An iterator over the keys of a set in their order. Its model is the list of the keys that are left.
pub type Iter<'a, K> = Keys<'a, K, ()>;

impl<K: Portable, const E: usize> ArchivedBTreeSet<K, E> {
    /// Returns an iterator over the keys in their order.
    pub fn iter<'a>(this: Ref<'a, ArchivedBTreeSet<K, E>>) -> Iter<'a, K>
        requires has { HasSet E K.shape K.knows this.bytes.now this.pos }
        ensures { IteratesKeys E K.shape unit_shape this.entry result }
    {
        ArchivedBTreeMap::keys(as_map(this))
    }

    /// Calls `visit` with each key in order, up to the first that it breaks at. Returns the value that it breaks with,
    /// or `None` if it breaks at no key.
    pub fn visit<B, F: FnMut(Ref<'_, K>) -> ControlFlow<B>>(
        this: Ref<'_, ArchivedBTreeSet<K, E>>,
        visit: &mut F,
    ) -> Option<B>
        requires has { HasSet E K.shape K.knows this.bytes.now this.pos }
        requires callable { MayVisitKeys E K.shape unit_shape this F.pre }
        ensures { VisitsKeys E K.shape unit_shape this.entry F.step visit.old result visit.new }
    {
        let mut keys = ArchivedBTreeSet::iter(this);
        while let Some(key) = keys.next() {
            match visit(key) {
                ControlFlow::Continue(()) => {}
                ControlFlow::Break(answer) => return Some(answer),
            }
        }
        None
    }
}
