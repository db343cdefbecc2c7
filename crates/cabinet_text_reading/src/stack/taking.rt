//! Takes heads and keys into the innermost container.
ghost use Rattle.std.specs.Prelude.{◌≡◌, ◌<◌, List, [], Some, IfOk, IfErr, OnErr, vec_len};
ghost use Rattle.cabinet_text_bytes.specs.Words.{IsEscaped};
ghost use Rattle.cabinet_text_grammar.specs.Item.{some_item, list_item, map_item};
ghost use Rattle.cabinet_text_grammar.specs.Memory.{TakesMemory};
ghost use Rattle.cabinet_text_grammar.specs.Tree.{Tree};
ghost use Rattle.cabinet_text_nodes.specs.View.{item_of};
ghost use Rattle.cabinet_text_reading.specs.Causes.{IsFaultAt};
ghost use Rattle.cabinet_text_reading.specs.Calls.Stack.{PutsIn, TakesUnder, TakesItem, TakesHead, TakesKey};
ghost use Rattle.cabinet_text_reading.specs.Told.{key_line};
ghost use Rattle.cabinet_text_reading.specs.View.{kind_of, entries_of, key_due};

use crate::stack::ascending::AscendingPairs;
use crate::stack::due::{Due, Next};
use crate::stack::frame::{Frame, OpenMap};
use crate::stack::kept::KeptPairs;
use crate::stack::pairs::Pairs;
use cabinet_text_grammar::Cause;
use cabinet_text_nodes::{Head, Leaf, Node};
use std::alloc::{AllocError, Global};

/// Puts a complete node into the innermost container. A list that stays open after it is changed in place by `put_in`.
/// Here each container is taken from the stack, and a container that is full is a complete node itself.
#[inline(always)]
fn close_with<'a>(
    alloc: Global,
    complete: Node,
    stack: &mut Vec<Frame<'a>>,
) -> Result<Next<'a>, AllocError>
    ensures { PutsIn complete stack.old result stack.new }
{
    let mut node = complete;
    while let Some(frame) = stack.pop() {
        match frame {
            Frame::Maybe => {
                node = Node::Maybe(Some(Box::new(alloc, node)?));
            }
            Frame::List { count, mut nodes } => {
                nodes.push(node)?;
                if nodes.len() as u64 == count {
                    node = Node::List(nodes);
                } else {
                    stack.push(Frame::List { count, nodes })?;
                    return Ok(Next::Due(Due::Head));
                }
            }
            Frame::Value { count, pairs } => {
                let pairs = pairs.with_node(node)?;
                if pairs.len() as u64 == count {
                    node = pairs.into_node(alloc)?;
                } else {
                    return Ok(Next::Due(Due::Key(OpenMap { count, pairs })));
                }
            }
        }
    }
    Ok(Next::Done(node))
}

/// Puts a complete node into the innermost container. A container that it fills is a complete node itself. Where none is
/// open no memory is taken.
#[inline(always)]
fn put_in<'a>(
    alloc: Global,
    complete: Node,
    stack: &mut Vec<Frame<'a>>,
) -> Result<Next<'a>, AllocError>
    ensures next { PutsIn complete stack.old result stack.new }
    ensures memory { OnErr result (0 < vec_len stack.old) }
{
    let Some(frame) = stack.last_mut() else {
        return Ok(Next::Done(complete));
    };
    match frame {
        Frame::List { count, nodes } if nodes.len() as u64 + 1 < *count => {
            nodes.push(complete)?;
            Ok(Next::Due(Due::Head))
        }
        _ => close_with(alloc, complete, stack),
    }
}

/// Takes a node's head into the innermost container.
#[inline(always)]
pub fn take_head<'a>(
    alloc: Global,
    head: Head,
    stack: &mut Vec<Frame<'a>>,
) -> Result<Next<'a>, AllocError>
    ensures next { TakesHead head stack.old result stack.new }
    ensures memory { OnErr result (TakesMemory (vec_len stack.old) (item_of head)) }
{
    match head {
        Head::Leaf(Leaf::Bool(value)) => put_in(alloc, Node::Bool(value), stack),
        Head::Leaf(Leaf::Int(number)) => put_in(alloc, Node::Int(number), stack),
        Head::Leaf(Leaf::Text(text)) => put_in(alloc, Node::Text(text), stack),
        Head::Shared(text) => put_in(alloc, Node::Shared(text), stack),
        Head::None => put_in(alloc, Node::Maybe(None), stack),
        Head::Some => open_option(stack),
        Head::List(count) => open_list(alloc, count, stack),
        Head::Ordered(count) => {
            let pairs = AscendingPairs::new(alloc, count);
            open_map(alloc, count, Pairs::Ordered(pairs), stack)
        }
        Head::Hashed(count) => {
            let pairs = AscendingPairs::new(alloc, count);
            open_map(alloc, count, Pairs::Hashed(pairs), stack)
        }
        Head::Kept(count) => open_map(alloc, count, Pairs::Kept(KeptPairs::new(alloc)), stack),
        Head::Whole(number) => put_in(alloc, Node::Whole(number), stack),
    }
}

/// Opens an option that has a node.
fn open_option<'a>(stack: &mut Vec<Frame<'a>>) -> Result<Next<'a>, AllocError>
    ensures { (table : List Tree) → TakesUnder table some_item stack.old result stack.new }
{
    stack.push(Frame::Maybe)?;
    Ok(Next::Due(Due::Head))
}

/// Opens a list of `count` elements.
fn open_list<'a>(
    alloc: Global,
    count: u64,
    stack: &mut Vec<Frame<'a>>,
) -> Result<Next<'a>, AllocError>
    ensures next { TakesItem (list_item count) stack.old result stack.new }
    ensures memory { OnErr result (TakesMemory (vec_len stack.old) (list_item count)) }
{
    let nodes = Vec::new(alloc);
    if count == 0 {
        return put_in(alloc, Node::List(nodes), stack);
    }
    stack.push(Frame::List { count, nodes })?;
    Ok(Next::Due(Due::Head))
}

/// Opens a map of `count` pairs.
fn open_map<'a>(
    alloc: Global,
    count: u64,
    pairs: Pairs<'a>,
    stack: &mut Vec<Frame<'a>>,
) -> Result<Next<'a>, AllocError>
    requires { entries_of pairs ≡ [] }
    ensures next { TakesItem (map_item (kind_of pairs.entry) count) stack.old result stack.new }
    ensures memory { OnErr result ((count ≡ 0) × (0 < vec_len stack.old)) }
{
    if count == 0 {
        put_in(alloc, pairs.into_node(alloc)?, stack)
    } else {
        Ok(Next::Due(Due::Key(OpenMap { count, pairs })))
    }
}

/// Takes a key into a map. `argument` is the key's escaped form. A node's head is expected next.
#[inline(always)]
pub fn take_key<'a>(
    alloc: Global,
    argument: &'a [u8],
    map: OpenMap<'a>,
    stack: &mut Vec<Frame<'a>>,
) -> Result<(), Cause>
    requires { IsEscaped argument.now }
    ensures taken { IfOk result (λ _. TakesKey map.entry argument.now stack.old stack.new) }
    ensures fault { IfErr result (IsFaultAt (key_due map.entry.pairs) (Some (key_line argument.now))) }
{
    let OpenMap { count, pairs } = map;
    let pairs = pairs.with_key(alloc, argument)?;
    let Ok(()) = stack.push(Frame::Value { count, pairs }) else {
        return Err(Cause::OutOfMemory);
    };
    Ok(())
}
