//! Tests of nodes that are roots of documents, and of nodes that are not.

use cabinet_text_nodes::{Document, DocumentRefusal, Node};
use std::alloc::{AllocError, Global};
use std::test::Fail;

/// Returns a node inside `count` options.
fn inside_options(alloc: Global, count: u32, inner: Node) -> Result<Node, AllocError> {
    let mut node = inner;
    for _ in 0..count {
        node = Node::Maybe(Some(Box::new(alloc, node)?));
    }
    Ok(node)
}

/// Returns the kept map with these keys in this order.
fn kept(alloc: Global, keys: &[&str]) -> Result<Node, AllocError> {
    let mut pairs = Vec::new(alloc);
    for key in keys {
        pairs.push((String::from_str(alloc, key)?, Node::Int(1)))?;
    }
    Ok(Node::Kept(pairs))
}

#[test]
fn containers(rt: HostRuntime) -> Result<(), Fail> {
    let alloc = rt.alloc();
    let leaf = inside_options(alloc, 64, Node::Int(1))?;
    assert!(rt; Document::new(leaf).is_ok());
    let deep = inside_options(alloc, 65, Node::Int(1))?;
    assert!(rt; Document::new(deep).err() == Some(DocumentRefusal::TooDeep));
    let empty = inside_options(alloc, 63, Node::List(Vec::new(alloc)))?;
    assert!(rt; Document::new(empty).is_ok());
    let deeper = inside_options(alloc, 64, Node::List(Vec::new(alloc)))?;
    assert!(rt; Document::new(deeper).err() == Some(DocumentRefusal::TooDeep));
    Ok(())
}

#[test]
fn keys(rt: HostRuntime) -> Result<(), Fail> {
    let alloc = rt.alloc();
    let distinct = kept(alloc, ["b", "a", "", "c"].as_slice())?;
    assert!(rt; Document::new(distinct).is_ok());
    let repeated = kept(alloc, ["b", "a", "c", "b"].as_slice())?;
    assert!(rt; Document::new(repeated).err() == Some(DocumentRefusal::RepeatedKey));
    let inner = inside_options(alloc, 3, kept(alloc, ["", ""].as_slice())?)?;
    assert!(rt; Document::new(inner).err() == Some(DocumentRefusal::RepeatedKey));
    Ok(())
}

#[test]
fn a_depth_is_told_first(rt: HostRuntime) -> Result<(), Fail> {
    let alloc = rt.alloc();
    let repeated = kept(alloc, ["a", "a"].as_slice())?;
    let deep = inside_options(alloc, 64, Node::Int(1))?;
    let both = Node::List(vec![in alloc; repeated, deep]?);
    assert!(rt; Document::new(both).err() == Some(DocumentRefusal::TooDeep));
    Ok(())
}

/// Returns the list of the wholes with these numbers.
fn list_of(alloc: Global, numbers: &[u64]) -> Result<Node, AllocError> {
    let mut nodes = Vec::new(alloc);
    for number in numbers {
        nodes.push(Node::Whole(*number))?;
    }
    Ok(Node::List(nodes))
}

/// Returns the nodes of wholes that are numbers.
fn ints(alloc: Global, values: &[i64]) -> Result<Vec<Node>, AllocError> {
    let mut wholes = Vec::new(alloc);
    for value in values {
        wholes.push(Node::Int(*value))?;
    }
    Ok(wholes)
}

/// Returns the nodes of `count` wholes: a number, and each further one has the one before it.
fn in_one_another(alloc: Global, count: u64) -> Result<Vec<Node>, AllocError> {
    let mut wholes = vec![in alloc; Node::Int(1)]?;
    for number in 1..count {
        wholes.push(Node::Whole(number - 1))?;
    }
    Ok(wholes)
}

#[test]
fn wholes_that_are_numbers(rt: HostRuntime) -> Result<(), Fail> {
    let alloc = rt.alloc();
    let rows = [
        ([5].as_slice(), [0, 0].as_slice(), None),
        (
            [5].as_slice(),
            [].as_slice(),
            Some(DocumentRefusal::WholeOrder),
        ),
        (
            [1, 2].as_slice(),
            [1, 0].as_slice(),
            Some(DocumentRefusal::WholeOrder),
        ),
        (
            [5, 5].as_slice(),
            [0, 1].as_slice(),
            Some(DocumentRefusal::RepeatedWhole),
        ),
        (
            [].as_slice(),
            [0].as_slice(),
            Some(DocumentRefusal::UnknownWhole),
        ),
        (
            [5].as_slice(),
            [0, 1].as_slice(),
            Some(DocumentRefusal::UnknownWhole),
        ),
    ];
    for (values, numbers, refusal) in rows {
        let document = Document::with_wholes(ints(alloc, values)?, list_of(alloc, numbers)?);
        assert!(rt; document.err() == refusal, "at {numbers:?}");
    }
    Ok(())
}

#[test]
fn wholes_in_one_another(rt: HostRuntime) -> Result<(), Fail> {
    let alloc = rt.alloc();
    for (count, refusal) in [(64, None), (65, Some(DocumentRefusal::TooDeep))] {
        let wholes = in_one_another(alloc, count)?;
        let document = Document::with_wholes(wholes, Node::Whole(count - 1));
        assert!(rt; document.err() == refusal, "at {count}");
    }
    let itself = vec![in alloc; Node::Whole(0)]?;
    let document = Document::with_wholes(itself, Node::Whole(0));
    assert!(rt; document.err() == Some(DocumentRefusal::UnknownWhole));
    Ok(())
}

#[test]
fn a_whole_inside_options(rt: HostRuntime) -> Result<(), Fail> {
    let alloc = rt.alloc();
    let deep = inside_options(alloc, 61, Node::Int(1))?;
    let inner = inside_options(alloc, 3, Node::Whole(0))?;
    let root = Node::List(vec![in alloc; Node::Whole(0), inner]?);
    let document = Document::with_wholes(vec![in alloc; deep]?, root);
    assert!(rt; document.err() == Some(DocumentRefusal::TooDeep));
    Ok(())
}
