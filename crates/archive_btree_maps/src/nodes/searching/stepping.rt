//! Walks that are given the bytes at each step.
ghost use Rattle.std.specs.Prelude.{ℕ, not, List, []};
ghost use Rattle.archive_btree_maps.specs.Stepping.{HasLeft};
ghost use Rattle.archive_btree_maps.specs.Calls.Searching.{HasTreeOn};
ghost use Rattle.archive_btree_maps.specs.Calls.Walks.{AreLeft, CanWalkBetween, HasAll, HasBetween, HasRun, IsWalk, StepsWalk};

use crate::nodes::NodeLayout;
use crate::nodes::searching::walk::{Stack, pass_before};
use crate::nodes::searching::{EntryAt, Range};

/// A walk over a tree's entries in their order that holds no bytes, so that the values at their positions may be
/// written between its steps.
#[derive(Clone, Copy)]
pub struct EntryWalk {
    pub(crate) layout: NodeLayout,
    pub(crate) stack: Stack,
    /// The position of the key of the first entry after the walk's entries, if the walk ends before the tree does.
    pub(crate) end: Option<usize>,
}

impl EntryWalk {
    /// Returns a walk over the tree at a root.
    pub fn new(bytes: &[u8], root: usize, layout: NodeLayout) -> Self
        requires tree { HasTreeOn bytes.now layout 1 root }
        ensures { HasAll bytes.now layout root result }
    {
        EntryWalk {
            layout,
            stack: Stack::at_root(bytes, root, layout),
            end: None,
        }
    }

    /// Returns a walk over no entries.
    pub fn empty(layout: NodeLayout) -> Self
        ensures { (bytes : List ℕ) (root : ℕ) → HasLeft bytes layout root result [] }
    {
        EntryWalk {
            layout,
            stack: Stack::new(),
            end: None,
        }
    }

    /// Returns a walk over the entries of the tree at a root that lie neither before nor after a range. `precedes`
    /// returns whether the key at a position lies before the range, and `follows` whether it lies after it. If the
    /// first entry that does not lie before the range lies after it, the walk has no entries.
    pub fn between<F: Fn(usize) -> bool, G: Fn(usize) -> bool>(
        bytes: &[u8],
        root: usize,
        layout: NodeLayout,
        precedes: &F,
        follows: &G,
    ) -> Self
        requires tree { CanWalkBetween bytes.now layout root F.pre precedes.now G.pre follows.now }
        ensures within { HasRun bytes.now layout root result }
        ensures between { HasBetween bytes.now layout root F.post precedes.now G.post follows.now result }
    {
        let stack = Stack::after_passing(bytes, root, layout, precedes);
        let Some(first) = stack.next_key(bytes, layout) else {
            return EntryWalk::empty(layout);
        };
        let is_behind = follows(first);
        if is_behind {
            return EntryWalk::empty(layout);
        }
        let is_before_end = |key: usize| -> bool
            requires { G.pre follows.now key }
            ensures { G.post follows.entry.now key (not result) }
        { !follows(key) };
        EntryWalk {
            layout,
            stack,
            end: Stack::after_passing(bytes, root, layout, &is_before_end).next_key(bytes, layout),
        }
    }

    /// Passes the next entry and returns it. The bytes may differ from those of the previous step, as long as the walk
    /// has the same entries left in them.
    pub fn step(&mut self, bytes: &[u8]) -> Option<EntryAt>
        requires { IsWalk bytes.now self.old }
        ensures { StepsWalk bytes.now self.old result self.new }
    {
        pass_before(&mut self.stack, self.end, bytes, self.layout)
    }

    /// Returns an iterator over the entries that are left, in bytes that do not change.
    pub fn over(self, bytes: &[u8]) -> Range<'_>
        requires { IsWalk bytes.now self }
        ensures { AreLeft bytes.entry.now self result }
    {
        Range::from_walk(bytes, self)
    }
}
