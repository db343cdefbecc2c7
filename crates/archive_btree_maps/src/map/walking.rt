//! Iteration over archived B-tree maps in the order of their keys.
ghost use Rattle.archive_btree_maps.specs.Maps.{HasMap};
ghost use Rattle.archive_btree_maps.specs.Calls.Visits.{IteratesEntries, IteratesKeys, IteratesValues, MayVisitEntries, VisitsEntries};

use crate::map::ArchivedBTreeMap;
use crate::walking::{Iter, Keys, Values, walk_at};
use archive_shape::{Portable, Ref};
use std::ops::ControlFlow;

impl<K: Portable, V: Portable, const E: usize> ArchivedBTreeMap<K, V, E> {
    /// Returns an iterator over the entries in the order of their keys.
    pub fn iter<'a>(this: Ref<'a, ArchivedBTreeMap<K, V, E>>) -> Iter<'a, K, V>
        requires has { HasMap E K.shape V.shape K.knows V.knows this }
        ensures { IteratesEntries E K.shape V.shape this.entry result }
    {
        Iter::new(this.bytes, walk_at::<K, V, E>(this.bytes, this.pos))
    }

    /// Returns an iterator over the keys in their order.
    pub fn keys<'a>(this: Ref<'a, ArchivedBTreeMap<K, V, E>>) -> Keys<'a, K, V>
        requires has { HasMap E K.shape V.shape K.knows V.knows this }
        ensures { IteratesKeys E K.shape V.shape this.entry result }
    {
        Keys::new(ArchivedBTreeMap::iter(this))
    }

    /// Returns an iterator over the values in the order of their keys.
    pub fn values<'a>(this: Ref<'a, ArchivedBTreeMap<K, V, E>>) -> Values<'a, K, V>
        requires has { HasMap E K.shape V.shape K.knows V.knows this }
        ensures { IteratesValues E K.shape V.shape this.entry result }
    {
        Values::new(ArchivedBTreeMap::iter(this))
    }

    /// Calls `visit` with each key and its value, in the order of the keys, up to the first entry that it breaks at.
    /// Returns the value that it breaks with, or `None` if it breaks at no entry.
    pub fn visit<B, F: FnMut(Ref<'_, K>, Ref<'_, V>) -> ControlFlow<B>>(
        this: Ref<'_, ArchivedBTreeMap<K, V, E>>,
        visit: &mut F,
    ) -> Option<B>
        requires has { HasMap E K.shape V.shape K.knows V.knows this }
        requires callable { MayVisitEntries E K.shape V.shape this F.pre }
        ensures { VisitsEntries E K.shape V.shape this.entry F.step visit.old result visit.new }
    {
        let mut walk = walk_at::<K, V, E>(this.bytes, this.pos);
        while let Some(entry) = walk.next() {
            let key = Ref::new(this.bytes, entry.key);
            let value = Ref::new(this.bytes, entry.value);
            match visit(key, value) {
                ControlFlow::Continue(()) => {}
                ControlFlow::Break(answer) => return Some(answer),
            }
        }
        None
    }
}
