//! Bytes that are opened as the archive of a document, for questions and edits.
ghost use Rattle.std.specs.Prelude.{◌≡◌, ◌-◌, ◌^◌, ◌<◌, length, IfOk, IfErr, OnOk, OnErr};
ghost use Rattle.archive_shape_layout.specs.Holds.{root_position as position_of_root};
ghost use Rattle.archive_shape_layout.specs.Content.Part.{at};
ghost use Rattle.archive_forms_values.specs.Parts.{HasValue};
ghost use Rattle.cabinet_text_grammar.specs.Memory.{TextTakesMemory};
ghost use Rattle.cabinet_text_grammar.specs.Tree.{Tree};
ghost use Rattle.cabinet_text_grammar.specs.Line as line;
ghost use Rattle.cabinet_documents.specs.Node.{node_shape, KnowsNode};
ghost use Rattle.cabinet_documents.specs.Accepted.{Accepted};
ghost use Rattle.cabinet_documents.specs.Audit.{IsRefusedFor};
ghost use Rattle.cabinet_text_nodes.specs.Lines.{IsQuestion};
ghost use Rattle.cabinet_text_nodes.specs.View.{line_of};
ghost use Rattle.cabinet_archives.specs.Refused.{refusal_of};
ghost use Rattle.cabinet_archives.specs.Failing.{FailsByWriter};
ghost use Rattle.cabinet_archives.specs.Sound.{IsSoundPart};
ghost use Rattle.cabinet.specs.Laws.{IsLoaded};
ghost use Rattle.cabinet.specs.Calls.{WritesAnswer, TellsAnswer, FindsKind, CountsSteps, AnswersEdit, WritesEdit, ChangesArchive, ChangesImage};

use archive_core_validation::root_position;
use archive_hash_probing::{Group, Scan};
use archive_shape::{Ref, Steps};
use archive_shape_layout::{Error, Writer};
use cabinet_archives::{ArchivedNode, OpenRefusal, check_scanned};
use cabinet_text_nodes::{Asked, Document, EditAnswer, Kind, Leaf, Line, Step};
use std::alloc::{AllocError, Global};
use std::marker::PhantomData;

/// Bytes that are the archive of a document, whose hashed maps are searched by the scan `G`.
#[derive(Drop)]
pub struct Opened<'a, G = Group> {
    pub bytes: &'a mut [u8],
    pub scan: PhantomData<G>,
    ghost accepted: { ∥ ((t : Tree) × Accepted bytes.now t) ∥₁ },
}

/// Opens bytes that are the archive of a document, and no others. Refused bytes are unchanged: that is proved of
/// `check`, which this calls, and tested of `open`, since no clause can state what a lent slice holds after an `Err`.
pub fn open(alloc: Global, bytes: &mut [u8]) -> Result<Opened<'_>, OpenRefusal>
    ensures same { IfOk result (λ o. o.bytes.ghost_name ≡ bytes.entry.ghost_name) }
    ensures contents { IfOk result (λ o. o.bytes.now ≡ bytes.old) }
    ensures accepted { OnOk result ((t : Tree) × Accepted bytes.old t) }
    ensures refused { IfErr result (λ r. IsRefusedFor bytes.old (refusal_of r)) }
{
    open_scanned::<Group>(alloc, bytes)
}

/// Opens bytes as `open` does, with another scan for the look-ups in hashed maps, here and in each question and edit. All
/// scans find the same.
pub fn open_scanned<G: Scan>(alloc: Global, bytes: &mut [u8]) -> Result<Opened<'_, G>, OpenRefusal>
    ensures same { IfOk result (λ o. o.bytes.ghost_name ≡ bytes.entry.ghost_name) }
    ensures contents { IfOk result (λ o. o.bytes.now ≡ bytes.old) }
    ensures accepted { OnOk result ((t : Tree) × Accepted bytes.old t) }
    ensures refused { IfErr result (λ r. IsRefusedFor bytes.old (refusal_of r)) }
{
    match check_scanned::<G>(alloc, bytes) {
        Ok(()) => Ok(Opened::new(bytes)),
        Err(refusal) => Err(refusal),
    }
}

impl<'a, G: Scan> Opened<'a, G> {
    /// Opens bytes that `check` has accepted.
    pub fn new(bytes: &'a mut [u8]) -> Opened<'a, G>
        requires { ∥ ((t : Tree) × Accepted bytes.old t) ∥₁ }
        ensures same { result.bytes.ghost_name ≡ bytes.entry.ghost_name }
        ensures contents { result.bytes.now ≡ bytes.old }
    {
        Opened {
            bytes,
            scan: PhantomData,
        }
    }

    /// Returns the bytes as they are now.
    pub fn bytes(&self) -> &[u8]
        ensures { result.now ≡ self.now.bytes.now }
    {
        self.bytes
    }

    /// Returns the node at the root of the document.
    fn root(&self) -> Ref<'_, ArchivedNode>
        ensures bytes { result.bytes.now ≡ self.now.bytes.now }
        ensures position { result.pos ≡ position_of_root (length self.now.bytes.now) node_shape }
        ensures there { HasValue node_shape KnowsNode result.bytes.now result.pos }
        ensures sound { IsSoundPart result.bytes.now (at result.pos node_shape) }
    {
        Ref::new(self.bytes, root_position::<ArchivedNode>(self.bytes.len()))
    }

    /// Writes the line that answers a question. Reads only the nodes on the line's path and those that hold the keys
    /// that it asks for, and does not allocate.
    pub fn ask<W: Writer>(&self, line: &Line, writer: &mut W) -> Result<Asked, Error>
        requires question { IsQuestion (line_of line.now) }
        requires room { W.failures writer.old < 2 ^ 64 - 1 }
        ensures written { WritesAnswer W.Writer self.now.bytes.now line.now writer.old writer.new result }
        ensures asked { IfOk result (TellsAnswer self.now.bytes.now line.now) }
        ensures counted { FailsByWriter W.Writer writer.old writer.new result }
    {
        cabinet_archives::ask::<G, W>(self.root(), line, writer)
    }

    /// Returns the kind of the node that a path leads to, if it leads to one, and what the look-ups on the path took: the
    /// keys that were compared in ordered maps, at most 160 in each, and the strides of sixteen controls that were
    /// searched in hashed and kept maps, at most one for sixteen places in each. All scans take the same. Reads only the
    /// nodes on the path, and does not allocate.
    pub fn locate(&self, path: &[Step]) -> (Option<Kind>, Steps)
        ensures kind { FindsKind self.now.bytes.now path.now result.0 }
        ensures takes { CountsSteps self.now.bytes.now path.now result.1 }
    {
        cabinet_archives::locate::<G>(self.bytes, path)
    }

    /// Returns the document of the archive, in memory of its own. An `Err` says that an allocation failed. Memory is taken
    /// only for a document whose text takes some to be read.
    pub fn load(&self, alloc: Global) -> Result<Document, AllocError>
        ensures document { IfOk result (IsLoaded self.now.bytes.now) }
        ensures memory { OnErr result ((t : Tree) → Accepted self.now.bytes.now t → TextTakesMemory t) }
    {
        cabinet_archives::load(alloc, self.bytes)
    }

    /// Writes a leaf at a path, if the node there is a leaf of the same kind and, for a text, of the same length. What
    /// lies in a whole stays, since it may have other places too. Reads only the nodes on the path, and does not allocate.
    pub fn set(&mut self, path: &[Step], leaf: &Leaf) -> EditAnswer
        ensures same { self.new.bytes.ghost_name ≡ self.old.bytes.ghost_name }
        ensures answer { AnswersEdit self.old.bytes.now path.now leaf.now result }
        // No other bytes change.
        ensures bytes { WritesEdit self.old.bytes.now path.now leaf.now result self.new.bytes.now }
        ensures document { ChangesArchive self.old.bytes.now path.now leaf.now self.new.bytes.now }
        ensures image { ChangesImage self.old.bytes.now path.now leaf.now self.new.bytes.now }
    {
        cabinet_archives::set::<G>(self.bytes, path, leaf)
    }
}
