//! Finds whether a head completes the tree that is read.
ghost use Rattle.std.specs.Prelude.{◌≡◌, suc, List};
ghost use Rattle.std.specs.Bool.{Decides};
ghost use Rattle.cabinet_text_grammar.specs.Tree.{Tree};
ghost use Rattle.cabinet_text_nodes.specs.View.{item_of};
ghost use Rattle.cabinet_text_grammar.specs.Completing.{LacksOne, AllLackOne, EndsAlone};
ghost use Rattle.cabinet_text_reading.specs.Calls.Stack.{TellsComplete};
ghost use Rattle.cabinet_text_reading.specs.View.{frame_of, stack_of};

use crate::stack::frame::Frame;
use cabinet_text_nodes::Head;

/// Returns whether one more is `count`.
fn is_one_less(len: u64, count: u64) -> bool
    ensures { Decides result (suc len ≡ count) }
{
    len < count && count - len == 1
}

/// Returns whether a container lacks exactly one node.
fn lacks_one(frame: &Frame<'_>) -> bool
    ensures { (table : List Tree) → Decides result (LacksOne (frame_of table frame.now)) }
{
    match frame {
        Frame::Maybe => true,
        Frame::List { count, nodes } => is_one_less(nodes.len() as u64, *count),
        Frame::Value { count, pairs } => is_one_less(pairs.len() as u64, *count),
    }
}

/// Returns whether a node without others in it completes the tree that is read: each open container lacks exactly one.
pub(crate) fn all_lack_one(stack: &[Frame<'_>]) -> bool
    ensures { (table : List Tree) → Decides result (AllLackOne (stack_of table stack.now)) }
{
    for frame in stack {
        if !lacks_one(frame) {
            return false;
        }
    }
    true
}

/// Returns whether a head is the only line of its node.
fn ends_alone(head: &Head) -> bool
    ensures { Decides result (EndsAlone (item_of head.now)) }
{
    match head {
        Head::Leaf(_) | Head::Shared(_) | Head::None | Head::Whole(_) => true,
        Head::Some => false,
        Head::List(count) | Head::Ordered(count) | Head::Hashed(count) | Head::Kept(count) => {
            *count == 0
        }
    }
}

/// Returns whether a head completes the tree that is read.
pub(crate) fn completes(head: &Head, stack: &[Frame<'_>]) -> bool
    ensures { TellsComplete head.now stack.now result }
{
    ends_alone(head) && all_lack_one(stack)
}
