//! Saving a document as an archive, in memory and to a writer.
ghost use Rattle.std.specs.Prelude.{◌≡◌, ◌-◌, ◌^◌, ◌<◌, ℕ, List, IsTrue, IfOk, IfErr, OnOk, OnErr};
ghost use Rattle.archive_shape_layout.specs.Writing.{Cut};
ghost use Rattle.cabinet_documents.specs.Image.{Image};
ghost use Rattle.cabinet_archives.specs.Saving.{HasNoImageFor, IsWithinLimits, Saved, IsUnsavedFor};

use archive_core_serializing::Serializer;
use archive_shape_layout::{Error, Writer};
use cabinet_archived::{NodeIn, NodeShare, serialize_root};
use cabinet_text_nodes::Document;
use std::alloc::Global;
use thiserror::Error as Described;

/// Why a document was not saved.
#[derive(Clone, Copy, Debug, PartialEq, Eq, Described)]
pub enum SaveRefusal {
    /// A text, a count or a position exceeds what archives can hold.
    #[error("the document is past the limits of archives: {0}")]
    Limit(Error),
    /// The writer failed.
    #[error("the writer failed: {0}")]
    Writer(Error),
    /// An allocation failed, possibly in a writer that counts no failures.
    #[error("out of memory")]
    OutOfMemory,
}

/// Returns the image of a document, made in memory. Each shared text and each whole is written once.
pub fn to_bytes(alloc: Global, document: &Document) -> Result<Vec<u8>, SaveRefusal>
    ensures image { IfOk result (λ image. Image document.now image.items) }
    ensures within { OnOk result (IsWithinLimits document.now) }
    ensures refused { IfErr result (HasNoImageFor document.now) }
{
    let mut serializer = Serializer::new(Vec::new(alloc), alloc, NodeShare::new(alloc));
    let root = NodeIn {
        wholes: document.wholes(),
        node: document.root(),
    };
    match serialize_root(root, &mut serializer) {
        Ok(_) => Ok(serializer.into_writer()),
        Err(e) => match e {
            Error::OutOfMemory => Err(SaveRefusal::OutOfMemory),
            _ => Err(SaveRefusal::Limit(e)),
        },
    }
}

/// Writes the image of a document, which is first made in memory. The writer's position must be 0, so that positions in
/// the image are positions in the writer's bytes.
pub fn save<W: Writer>(
    alloc: Global,
    document: &Document,
    writer: &mut W,
) -> Result<(), SaveRefusal>
    requires start { W.pos writer.old ≡ 0 }
    requires room { W.failures writer.old < 2 ^ 64 - 1 }
    ensures saved { OnOk result (IsTrue W.OBSERVABLE
        → Saved document.now (W.contents writer.old) (W.contents writer.new)) }
    ensures within { OnOk result (IsWithinLimits document.now) }
    ensures quiet { OnOk result (W.failures writer.new ≡ W.failures writer.old) }
    ensures refused { IfErr result (IsUnsavedFor W.Writer document.now writer.old writer.new) }
    // The bytes that the writer took are a prefix of the image.
    ensures cut { OnErr result ((image : List ℕ) → Image document.now image → IsTrue W.OBSERVABLE
        → Cut (W.contents writer.old) (W.contents writer.new) image) }
{
    let image = match to_bytes(alloc, document) {
        Ok(image) => image,
        Err(refusal) => return Err(refusal),
    };
    match writer.write(image.as_slice()) {
        Ok(()) => Ok(()),
        Err(e) if W::counts() => Err(SaveRefusal::Writer(e)),
        Err(_) => Err(SaveRefusal::OutOfMemory),
    }
}
