//! Walks over the entries between two bounds.
ghost use Rattle.std.specs.Prelude.{◌≡◌, []};
ghost use Rattle.std.specs.Iterator.{YieldsFirstBy, item_count};
ghost use Rattle.archive_btree_layout.specs.Tree.{Tree, items};
ghost use Rattle.archive_btree_layout.specs.Reading.{Place};
ghost use Rattle.archive_btree_maps.specs.SearchingLayout.{IsTreeAt};
ghost use Rattle.archive_btree_maps.specs.SearchingNodes.{place_of};
ghost use Rattle.archive_btree_maps.specs.Ranges.{IsRun, before_key};
ghost use Rattle.archive_btree_maps.specs.Calls.Stacks.{Stands, items_left};
ghost use Rattle.archive_btree_maps.specs.Calls.Walks.{AreBetween, CanWalkBetween};

use crate::nodes::NodeLayout;
use crate::nodes::searching::walk::{Stack, pass_before};
use crate::nodes::searching::{EntryAt, EntryWalk};
use std::iter::FusedIterator;
use std::marker::Model;

/// A walk over the entries of a tree between two bounds, in their order. Its model is the list of the entries that are
/// left.
#[derive(Clone, Drop)]
pub struct Range<'a> {
    bytes: &'a [u8],
    layout: NodeLayout,
    stack: Stack,
    /// The position of the key of the first entry after the range, if there is one.
    end: Option<usize>,
}

impl<'a> Model for Range<'a> {
    ghost use Rattle.std.specs.Prelude.{List};
    ghost use Rattle.archive_btree_layout.specs.Reading.{Place};

    ghost Value = { List Place };

    ghost use Rattle.archive_btree_maps.specs.Walking.{stack_items, IsStack};
    ghost use Rattle.archive_btree_maps.specs.Ranges.{before_key};

    ghost view = { λ w. before_key w.end (stack_items w.bytes.now w.layout w.stack.nodes w.stack.nexts w.stack.depth) };

    ghost invariant = { λ w. IsStack w.bytes.now w.layout w.stack.nodes w.stack.nexts w.stack.depth };
}

impl<'a> Range<'a> {
    /// Returns a walk over the entries of the tree at a root that lie neither before nor after a range. `precedes`
    /// returns whether the key at a position lies before the range, and `follows` whether it lies after it. If the
    /// first entry that does not lie before the range lies after it, the walk has no entries. `next` calls neither of
    /// the two.
    pub fn new<F: Fn(usize) -> bool, G: Fn(usize) -> bool>(
        bytes: &'a [u8],
        root: usize,
        layout: NodeLayout,
        precedes: &F,
        follows: &G,
    ) -> Self
        requires tree { CanWalkBetween bytes.now layout root F.pre precedes.now G.pre follows.now }
        ensures within { (t : Tree Place) → IsTreeAt bytes.now layout 1 root t
            → IsRun result (items t) }
        ensures between { AreBetween bytes.now layout root F.post precedes.now G.post follows.now result }
    {
        EntryWalk::between(bytes, root, layout, precedes, follows).over(bytes)
    }

    /// Returns a walk over no entries.
    pub fn empty(bytes: &'a [u8], layout: NodeLayout) -> Self
        ensures { result ≡ [] }
    {
        EntryWalk::empty(layout).over(bytes)
    }

    /// Returns an iterator over the entries that a walk has left.
    pub(crate) fn from_walk(bytes: &'a [u8], walk: EntryWalk) -> Self
        requires { Stands bytes.now walk.layout walk.stack }
        ensures { result ≡ before_key walk.end (items_left bytes.entry.now walk.layout walk.stack) }
    {
        Range {
            bytes,
            layout: walk.layout,
            stack: walk.stack,
            end: walk.end,
        }
    }
}

impl<'a> Iterator for Range<'a> {
    type Item = EntryAt;

    ghost next_gives = { YieldsFirstBy place_of (λ xs. xs) };

    ghost remaining = { item_count (λ xs. xs) };

    fn next(&mut self) -> Option<EntryAt> {
        pass_before(&mut self.stack, self.end, self.bytes, self.layout)
    }
}

impl<'a> FusedIterator for Range<'a> {}
