//! Tests of documents that are loaded from archives.
use crate::archives::{SHARED_APART, WHOLES_APART};
use cabinet::{Document, EditAnswer, Leaf, Node, Step, open, to_bytes, write_text};
use cabinet_doubles::archives::{A_TO_WORLD, TWO_SHARED, TWO_WHOLES};
use std::rc::RcStr;
use std::test::Fail;

/// Returns whether a document is a list of two shared texts in the same memory.
fn has_one_text(document: &Document) -> bool {
    let Node::List(nodes) = document.root() else {
        return false;
    };
    match nodes.as_slice() {
        [Node::Shared(one), Node::Shared(other)] => RcStr::ptr_eq(one, other),
        _ => false,
    }
}

#[test]
fn equal_shared_texts_share_their_memory(rt: HostRuntime) -> Result<(), Fail> {
    for archive in [TWO_SHARED.as_slice(), SHARED_APART] {
        let mut bytes = Vec::from_slice(rt.alloc(), archive)?;
        let opened = open(rt.alloc(), bytes.as_mut_slice()).map_err(|_| "refused")?;
        assert!(rt; has_one_text(&opened.load(rt.alloc())?));
    }
    Ok(())
}

#[test]
fn equal_wholes_apart_are_loaded_as_one(rt: HostRuntime) -> Result<(), Fail> {
    let mut bytes = *WHOLES_APART;
    let opened = open(rt.alloc(), &mut bytes).map_err(|_| "refused")?;
    let document = opened.load(rt.alloc())?;
    let mut text = Vec::new(rt.alloc());
    write_text(&document, &mut text)?;
    assert!(rt; text.as_slice() == b"wholes 1\nint 5\nlist 2\nwhole 0\nwhole 0\n".as_slice());
    assert!(rt; to_bytes(rt.alloc(), &document)?.as_slice() == TWO_WHOLES.as_slice());
    Ok(())
}

#[test]
fn an_edit_is_loaded_and_leaves_what_was_loaded_before(rt: HostRuntime) -> Result<(), Fail> {
    let mut archive = *A_TO_WORLD;
    let mut opened = open(rt.alloc(), &mut archive).map_err(|_| "refused")?;
    let before = opened.load(rt.alloc())?;
    let path = [Step::Key(String::from_str(rt.alloc(), "a")?)];
    let leaf = Leaf::Text(String::from_str(rt.alloc(), "WORLD")?);
    assert!(rt; opened.set(&path, &leaf) == EditAnswer::Done);
    let mut text = Vec::new(rt.alloc());
    write_text(&before, &mut text)?;
    write_text(&opened.load(rt.alloc())?, &mut text)?;
    assert!(rt;
        text.as_slice() == b"hashed 1\n'a\ntext 'world\nhashed 1\n'a\ntext 'WORLD\n".as_slice()
    );
    Ok(())
}
