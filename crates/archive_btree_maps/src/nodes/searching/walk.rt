//! Walks over all entries of a tree in their order.
ghost use Rattle.std.specs.Prelude.{◌≡◌, ℕ, ◌+◌, ◌*◌, ◌^◌, ◌<◌, ◌≤◌, true, false, [], length, IfSome};
ghost use Rattle.std.specs.Iterator.{YieldsFirstBy, UpTo, item_count};
ghost use Rattle.std.specs.Iterator.SizeHint.{IsExactHint, IsWithinCount};
ghost use Rattle.archive_btree_layout.specs.Tree.{Tree, items};
ghost use Rattle.archive_btree_layout.specs.Reading.{Place};
ghost use Rattle.archive_btree_maps.specs.SearchingLayout.{IsTreeAt};
ghost use Rattle.archive_btree_maps.specs.SearchingNodes.{place_of};
ghost use Rattle.archive_btree_maps.specs.Ranges.{IfFirst, next_key};
ghost use Rattle.archive_btree_maps.specs.Calls.Searching.{CanSearch, HasTreeOn};
ghost use Rattle.archive_btree_maps.specs.Calls.Stacks.{AreReachedFrom, HasAllLeft, HasFailingLeft, HasLastLeft, PassesItem, PassesItemBefore, PushesItems, Stands, StayReached, StayReachedWith, items_left};

use crate::nodes::NodeLayout;
use crate::nodes::layout::MAX_LEVELS;
use crate::nodes::searching::EntryAt;
use crate::nodes::searching::node::{child_of, entry_count, entry_of};
use std::iter::FusedIterator;
use std::marker::Model;

/// The nodes from the root down to the node that a walk is in, each with the index of its next entry.
#[derive(Clone, Copy)]
pub(crate) struct Stack {
    nodes: [usize; MAX_LEVELS],
    nexts: [usize; MAX_LEVELS],
    depth: usize,
}

impl Stack {
    /// Returns a stack without nodes.
    pub(crate) const fn new() -> Self
        ensures nodes { length result.nodes ≡ 32 }
        ensures nexts { length result.nexts ≡ 32 }
        ensures depth { result.depth ≡ 0 }
    {
        Stack {
            nodes: [0; MAX_LEVELS],
            nexts: [0; MAX_LEVELS],
            depth: 0,
        }
    }

    /// Returns the stack of a walk over the tree at a root before its first entry.
    pub(crate) fn at_root(bytes: &[u8], root: usize, layout: NodeLayout) -> Self
        requires { HasTreeOn bytes.now layout 1 root }
        ensures stands { Stands bytes.now layout result }
        ensures reached { AreReachedFrom bytes.now layout root result }
        ensures items { HasAllLeft bytes.now layout root result }
    {
        let mut stack = Stack::new();
        push_first(&mut stack, bytes, layout, Some(root));
        stack
    }

    /// Returns the stack of a walk over the tree at a root that has passed the entries up to the first one that does
    /// not pass a test of the position of its key. If an entry that passes the test follows one that does not, the
    /// number of passed entries is not specified.
    pub(crate) fn after_passing<F: Fn(usize) -> bool>(
        bytes: &[u8],
        root: usize,
        layout: NodeLayout,
        passes: &F,
    ) -> Self
        requires tree { CanSearch bytes.now layout root F.pre passes.now }
        ensures stands { Stands bytes.now layout result }
        ensures reached { AreReachedFrom bytes.now layout root result }
        ensures left { HasLastLeft bytes.now layout root result }
        ensures first { IfFirst (λ e. F.post passes.now e.key false) (items_left bytes.now layout result) }
        ensures rest { HasFailingLeft bytes.now layout root F.post passes.now result }
    {
        let _len = bytes.len();
        let mut stack = Stack::new();
        let mut child = Some(root);
        while let Some(pos) = child {
            let count = entry_count(bytes, layout, pos);
            let next = count_passing(pos + layout.keys, layout.key_size, count, passes);
            stack.nodes[stack.depth] = pos;
            stack.nexts[stack.depth] = next;
            stack.depth += 1;
            child = child_of(bytes, layout, pos, next);
        }
        stack
    }

    /// Returns the position of the next entry's key, if there is one.
    pub(crate) fn next_key(self, bytes: &[u8], layout: NodeLayout) -> Option<usize>
        requires { Stands bytes.now layout self }
        ensures { result ≡ next_key (items_left bytes.now layout self) }
    {
        let mut rest = self;
        Some(pass_entry(&mut rest, bytes, layout)?.key)
    }
}

/// Returns how many of `count` keys that lie side by side pass a test of their position, before the first that does
/// not.
fn count_passing<F: Fn(usize) -> bool>(first: usize, size: usize, count: usize, passes: &F) -> usize
    requires callable { (i : ℕ) → i < count → F.pre passes.now (first + i * size) }
    requires room { first + count * size < 2 ^ 64 }
    ensures within { result ≤ count }
    ensures passed { (i : ℕ) → i < result → F.post passes.now (first + i * size) true }
    ensures ends { result < count → F.post passes.now (first + result * size) false }
{
    for i in 0..count {
        if !passes(first + i * size) {
            return i;
        }
    }
    count
}

/// Pushes a child, if there is one, then its first child and so on, down to the node that has the next entry.
fn push_first(stack: &mut Stack, bytes: &[u8], layout: NodeLayout, mut child: Option<usize>)
    requires stands { Stands bytes.now layout stack.old }
    requires leads { IfSome child (HasTreeOn bytes.now layout (stack.old.depth + 1)) }
    ensures stands { Stands bytes.now layout stack.new }
    ensures reached { StayReachedWith bytes.now layout child stack.old stack.new }
    ensures items { PushesItems bytes.now layout child stack.old stack.new }
{
    let _len = bytes.len();
    while let Some(pos) = child {
        stack.nodes[stack.depth] = pos;
        stack.nexts[stack.depth] = 0;
        stack.depth += 1;
        child = child_of(bytes, layout, pos, 0);
    }
}

/// Passes the next entry and returns it. It is inlined, since most entries of a walk are passed without another node.
#[inline(always)]
pub(crate) fn pass_entry(stack: &mut Stack, bytes: &[u8], layout: NodeLayout) -> Option<EntryAt>
    requires { Stands bytes.now layout stack.old }
    ensures stands { Stands bytes.now layout stack.new }
    ensures reached { StayReached bytes.now layout stack.old stack.new }
    ensures items { PassesItem bytes.now layout stack.old result stack.new }
{
    let _len = bytes.len();
    while stack.depth > 0 {
        let top = stack.depth - 1;
        let pos = stack.nodes[top];
        let next = stack.nexts[top];
        if next < entry_count(bytes, layout, pos) {
            stack.nexts[top] = next + 1;
            push_first(stack, bytes, layout, child_of(bytes, layout, pos, next + 1));
            return Some(entry_of(bytes, layout, pos, next));
        }
        stack.depth = top;
    }
    None
}

/// Passes the next entry and returns it, unless its key lies at `end`: then the walk ends.
pub(crate) fn pass_before(
    stack: &mut Stack,
    end: Option<usize>,
    bytes: &[u8],
    layout: NodeLayout,
) -> Option<EntryAt>
    requires { Stands bytes.now layout stack.old }
    ensures stands { Stands bytes.now layout stack.new }
    ensures reached { StayReached bytes.now layout stack.old stack.new }
    ensures items { PassesItemBefore bytes.now layout end stack.old result stack.new }
{
    let entry = pass_entry(stack, bytes, layout)?;
    if end == Some(entry.key) {
        *stack = Stack::new();
        return None;
    }
    Some(entry)
}

/// A walk over a tree's entries in their order. Its model is the list of the entries that are left.
#[derive(Clone, Drop)]
pub struct Walk<'a> {
    bytes: &'a [u8],
    layout: NodeLayout,
    stack: Stack,
    left: usize,
}

impl<'a> Model for Walk<'a> {
    ghost use Rattle.std.specs.Prelude.{◌≡◌, List, length};
    ghost use Rattle.archive_btree_layout.specs.Reading.{Place};

    ghost Value = { List Place };

    ghost use Rattle.archive_btree_maps.specs.Walking.{stack_items, IsStack};

    ghost view = { λ w. stack_items w.bytes.now w.layout w.stack.nodes w.stack.nexts w.stack.depth };

    ghost invariant = { λ w. IsStack w.bytes.now w.layout w.stack.nodes w.stack.nexts w.stack.depth
        × (w.left ≡ length (stack_items w.bytes.now w.layout w.stack.nodes w.stack.nexts w.stack.depth)) };
}

impl<'a> Walk<'a> {
    /// Returns a walk over the tree at a root, which has `len` items.
    pub fn new(bytes: &'a [u8], root: usize, layout: NodeLayout, len: usize) -> Self
        requires tree { (t : Tree Place) × IsTreeAt bytes.now layout 1 root t
            × (length (items t) ≡ len) }
        ensures { (t : Tree Place) → IsTreeAt bytes.now layout 1 root t → result ≡ items t }
    {
        Walk {
            bytes,
            layout,
            stack: Stack::at_root(bytes, root, layout),
            left: len,
        }
    }

    /// Returns a walk over no entries.
    pub fn empty(bytes: &'a [u8], layout: NodeLayout) -> Self
        ensures { result ≡ [] }
    {
        Walk {
            bytes,
            layout,
            stack: Stack::new(),
            left: 0,
        }
    }
}

impl<'a> Iterator for Walk<'a> {
    type Item = EntryAt;

    ghost next_gives = { YieldsFirstBy place_of (λ xs. xs) };

    ghost remaining = { item_count (λ xs. xs) };

    fn next(&mut self) -> Option<EntryAt> {
        let entry = pass_entry(&mut self.stack, self.bytes, self.layout)?;
        self.left -= 1;
        Some(entry)
    }

    fn size_hint(&self) -> (usize, Option<usize>)
        ensures lower { IsWithinCount result.0 (item_count (λ xs. xs) self.now) }
        ensures upper { IfSome result.1 (UpTo (item_count (λ xs. xs) self.now)) }
        ensures exact { IsExactHint result (length self.now) }
    {
        (self.left, Some(self.left))
    }
}

impl<'a> ExactSizeIterator for Walk<'a> {
    fn len(&self) -> usize {
        self.left
    }
}

impl<'a> FusedIterator for Walk<'a> {}
