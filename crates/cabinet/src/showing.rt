//! The text of the document that an archive holds.
ghost use Rattle.std.specs.Prelude.{◌-◌, ◌^◌, ◌<◌, IfOk, IfErr};
ghost use Rattle.cabinet_documents.specs.Accepted.{Accepted};
ghost use Rattle.cabinet_documents.specs.Audit.{IsRefusedFor};
ghost use Rattle.cabinet_archives.specs.Refused.{refusal_of};
ghost use Rattle.cabinet.specs.Calls.{WritesDocument};

use archive_shape_layout::{Error, Writer};
use cabinet_archives::{OpenRefusal, check, load};
use cabinet_text_nodes::{Document, write_text};
use std::alloc::Global;

/// Returns the document that the bytes are the archive of.
pub(crate) fn document_of(alloc: Global, archive: &[u8]) -> Result<Document, OpenRefusal>
    ensures document { IfOk result (λ document. Accepted archive.now document) }
    ensures refused { IfErr result (λ refusal. IsRefusedFor archive.now (refusal_of refusal)) }
{
    check(alloc, archive)?;
    match load(alloc, archive) {
        Ok(document) => Ok(document),
        Err(_) => Err(OpenRefusal::OutOfMemory),
    }
}

/// Writes the text of the document that the bytes are the archive of. Of bytes that are refused nothing is written.
pub fn write_document<W: Writer>(
    alloc: Global,
    archive: &[u8],
    writer: &mut W,
) -> Result<Result<(), Error>, OpenRefusal>
    requires { W.failures writer.old < 2 ^ 64 - 1 }
    ensures { WritesDocument W.Writer archive.now writer.old writer.new result }
{
    let document = document_of(alloc, archive)?;
    Ok(write_text(&document, writer))
}
