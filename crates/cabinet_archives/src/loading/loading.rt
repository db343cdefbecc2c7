//! The document that bytes are the archive of.
ghost use Rattle.std.specs.Prelude.{◌≡◌, IfOk, OnErr};
ghost use Rattle.cabinet_text_grammar.specs.Memory.{TextTakesMemory};
ghost use Rattle.cabinet_text_grammar.specs.Tree.{Tree};
ghost use Rattle.cabinet_documents.specs.Accepted.{Accepted};

use crate::loading::nodes::load_node;
use crate::loading::texts::LoadedTexts;
use crate::loading::wholes::LoadedWholes;
use archive_core_validation::root_position;
use archive_shape::Ref;
use cabinet_archived::ArchivedNode;
use cabinet_text_nodes::Document;
use std::alloc::{AllocError, Global};

/// Returns the document that the bytes are the archive of. Equal shared texts of the document share their memory, and
/// equal wholes are one. The time and the memory are in proportion to the bytes, except for the comparisons of keys, of
/// shared texts and of wholes. An `Err` says that an allocation failed. Memory is taken only for a document whose text
/// takes some to be read.
pub fn load(alloc: Global, bytes: &[u8]) -> Result<Document, AllocError>
    requires { ∥ ((t : Tree) × Accepted bytes.now t) ∥₁ }
    ensures document { IfOk result (λ document. (t : Tree) → Accepted bytes.now t → document ≡ t) }
    ensures memory { OnErr result ((t : Tree) → Accepted bytes.now t → TextTakesMemory t) }
{
    let root = Ref::<ArchivedNode>::new(bytes, root_position::<ArchivedNode>(bytes.len()));
    let mut wholes = LoadedWholes::new(alloc);
    let root = load_node(alloc, root, 0, &mut LoadedTexts::new(alloc), &mut wholes)?;
    Ok(Document::of_parts(Some(wholes.into_nodes()), root))
}
