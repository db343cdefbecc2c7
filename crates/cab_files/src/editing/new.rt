//! Making an archive file whose document lines are carried out in.
ghost use Rattle.std.specs.Prelude.{◌≡◌, [], IfOk, IfErr};
ghost use Rattle.cabinet_text_nodes.specs.View.{node_tree};
ghost use Rattle.cabinet_documents.specs.Image.{Image};
ghost use Rattle.cabinet_archives.specs.Saving.{HasNoImageFor};
ghost use Rattle.cab_files.specs.Editing.{root_tree, EndsNew};

use crate::editing::command::NewRoot;
use crate::editing::session::edit_file;
use crate::replacing::is_free;
use cabinet::{Document, Fault, Node, SaveRefusal, to_bytes};
use std::alloc::Global;
use std::collections::BTreeMap;
use std::fs::File;
use std::io::IsTerminal;
use std::rt::Files;

/// Returns the node that a new root is.
fn node_of(alloc: Global, root: NewRoot) -> Node
    ensures { node_tree [] result ≡ root_tree root }
{
    match root {
        NewRoot::List => Node::List(Vec::new(alloc)),
        NewRoot::Ordered => Node::Ordered(BTreeMap::new(alloc)),
        NewRoot::Hashed => Node::Hashed(BTreeMap::new(alloc)),
        NewRoot::Kept => Node::Kept(Vec::new(alloc)),
        NewRoot::Nothing => Node::Maybe(None),
    }
}

/// Returns the archive of the document that a new root is.
fn archive_of_root(alloc: Global, root: NewRoot) -> Result<Vec<u8>, SaveRefusal>
    ensures image { IfOk result (λ archive. Image (root_tree root) archive.items) }
    ensures refused { IfErr result (HasNoImageFor (root_tree root)) }
{
    let document = Document::of_parts(None, node_of(alloc, root));
    to_bytes(alloc, &document)
}

/// Carries out the lines of the standard input in the document that a new root is, and writes its archive as a new file. Reads
/// no line if something is at the path.
pub fn new_archive_file<R: Files<File = File> + Input + Print + AllocGlobal>(
    rt: &R,
    path: String,
    root: NewRoot,
) -> Result<(), Fault>
where
    R::Reader: IsTerminal,
    ensures { EndsNew path root result }
{
    if !is_free(rt, path.as_str()) {
        return Err(Fault::CannotWrite(path));
    }
    match archive_of_root(rt.alloc(), root) {
        Ok(archive) => edit_file(rt, path, archive.as_slice(), None),
        Err(refusal) => Err(Fault::Save(refusal)),
    }
}
