//! Editing the document of an archive, so that it may grow.
ghost use Rattle.std.specs.Prelude.{◌≡◌, ◌-◌, ◌^◌, ◌<◌, IsTrue, IfOk, IfErr, OnErr};
ghost use Rattle.cabinet_documents.specs.Audit.{IsRefusedFor};
ghost use Rattle.cabinet_archives.specs.Refused.{refusal_of};
ghost use Rattle.cabinet_text.specs.Calls.{ReaderEndsRun, WriterEndsRun};
ghost use Rattle.cabinet.specs.Calls.{EditsDocument, SavesEdits};

use crate::showing::document_of;
use archive_shape_layout::Writer;
use cabinet_archives::{OpenRefusal, SaveRefusal, to_bytes};
use cabinet_text::{Count, RunFault, Source, edit_document};
use std::alloc::Global;

/// The archive of a document after the lines of a session, and the outcome of the session.
#[derive(Drop)]
pub struct EditedArchive {
    pub archive: Result<Vec<u8>, SaveRefusal>,
    pub outcome: Result<Count, RunFault>,
}

/// Checks the bytes, carries out the lines of a source in the document that they are the archive of, and saves it. The answer
/// to each line is that of the document as edited so far. What is saved at the end is the document as edited, also after a
/// fault that ended the session. Of bytes that are refused nothing is read or written.
pub fn edit_in<R: Source, W: Writer>(
    alloc: Global,
    archive: &[u8],
    reader: &mut R,
    writer: &mut W,
) -> Result<EditedArchive, OpenRefusal>
    requires reader_counts { R.failures reader.old < 2 ^ 64 - 1 }
    requires writer_counts { W.failures writer.old < 2 ^ 64 - 1 }
    ensures works { IsTrue R.OBSERVABLE → IsTrue W.OBSERVABLE → IfOk result (λ e. EditsDocument W.COUNTS archive.now
        (R.left reader.old) (R.left reader.new) (W.contents writer.old) (W.contents writer.new) e) }
    // Regardless of whether reader and writer are observable.
    ensures edits { IfOk result (SavesEdits archive.now) }
    ensures reader_fails { IfOk result (λ e. ReaderEndsRun R.Source reader.old reader.new e.outcome) }
    ensures writer_fails { IfOk result (λ e. WriterEndsRun W.Writer writer.old writer.new e.outcome) }
    ensures refused { IfErr result (λ refusal. IsRefusedFor archive.now (refusal_of refusal)) }
    ensures unread { OnErr result (reader.new ≡ reader.old) }
    ensures unwritten { OnErr result (writer.new ≡ writer.old) }
{
    let mut document = match document_of(alloc, archive) {
        Ok(document) => document,
        Err(refusal) => return Err(refusal),
    };
    let outcome = edit_document(alloc, &mut document, reader, writer);
    Ok(EditedArchive {
        archive: to_bytes(alloc, &document),
        outcome,
    })
}
