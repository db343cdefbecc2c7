//! Working in the bytes of a saved document.
ghost use Rattle.std.specs.Prelude.{◌≡◌, ◌-◌, ◌^◌, ◌<◌, IsTrue, IfOk, IfErr, OnOk, OnErr};
ghost use Rattle.cabinet_text_grammar.specs.Tree.{Tree};
ghost use Rattle.cabinet_documents.specs.Accepted.{Accepted};
ghost use Rattle.cabinet_archives.specs.Saving.{HasNoImageFor, IsWithinLimits};
ghost use Rattle.cabinet_text.specs.Calls.{ReaderEndsRun, WriterEndsRun};
ghost use Rattle.cabinet.specs.Calls.{EditedByRun, EditsSaved, RunsAll, RunsToFault};
ghost use Rattle.cabinet.specs.Headline.{WorksInPlace};

use crate::opened::Opened;
use crate::session::run;
use archive_hash_probing::Group;
use archive_shape_layout::Writer;
use cabinet_archives::{SaveRefusal, to_bytes};
use cabinet_text::{Count, RunFault, Source};
use cabinet_text_nodes::Document;
use std::alloc::Global;

/// The bytes of a saved document after work in them, and the outcome of the work.
#[derive(Drop)]
pub struct Worked {
    pub bytes: Vec<u8>,
    pub outcome: Result<Count, RunFault>,
}

/// Carries out the lines of a source in bytes that `check` accepts. The bytes stay an archive, regardless of any
/// failure.
pub fn run_in<R: Source, W: Writer>(
    alloc: Global,
    bytes: &mut [u8],
    reader: &mut R,
    writer: &mut W,
) -> Result<Count, RunFault>
    requires accepted { ∥ ((t : Tree) × Accepted bytes.old t) ∥₁ }
    requires reader_counts { R.failures reader.old < 2 ^ 64 - 1 }
    requires writer_counts { W.failures writer.old < 2 ^ 64 - 1 }
    ensures kept { ∥ ((t : Tree) × Accepted bytes.new t) ∥₁ }
    // Regardless of whether reader and writer are observable.
    ensures edits { EditedByRun bytes.old bytes.new result }
    ensures all { RunsAll R.Source W.Writer reader.old bytes.old bytes.new writer.old writer.new result }
    ensures fault { RunsToFault R.Source W.Writer reader.old reader.new bytes.old bytes.new writer.old writer.new result }
    ensures reader_fails { ReaderEndsRun R.Source reader.old reader.new result }
    ensures writer_fails { WriterEndsRun W.Writer writer.old writer.new result }
{
    let mut opened = Opened::<Group>::new(bytes);
    run(alloc, &mut opened, reader, writer)
}

/// Saves a document in memory, and carries out the lines of a source in the bytes that were saved, which are an
/// archive. The answer to each line is that of the document, and the bytes are those that saving the document, as
/// edited so far, writes.
pub fn work<R: Source, W: Writer>(
    alloc: Global,
    document: &Document,
    reader: &mut R,
    writer: &mut W,
) -> Result<Worked, SaveRefusal>
    requires reader_counts { R.failures reader.old < 2 ^ 64 - 1 }
    requires writer_counts { W.failures writer.old < 2 ^ 64 - 1 }
    ensures works { IsTrue R.OBSERVABLE → IsTrue W.OBSERVABLE
        → IfOk result (λ w. WorksInPlace W.COUNTS document.now (R.left reader.old) (R.left reader.new)
        (W.contents writer.old) (W.contents writer.new) w.bytes.items w.outcome) }
    // Regardless of whether reader and writer are observable.
    ensures edits { IfOk result (λ w. EditsSaved document.now w.bytes.items w.outcome) }
    ensures within { OnOk result (IsWithinLimits document.now) }
    ensures reader_fails { IfOk result (λ w. ReaderEndsRun R.Source reader.old reader.new w.outcome) }
    ensures writer_fails { IfOk result (λ w. WriterEndsRun W.Writer writer.old writer.new w.outcome) }
    ensures refused { IfErr result (HasNoImageFor document.now) }
    ensures unread { OnErr result (reader.new ≡ reader.old) }
    ensures unwritten { OnErr result (writer.new ≡ writer.old) }
{
    let mut bytes = match to_bytes(alloc, document) {
        Ok(bytes) => bytes,
        Err(refusal) => return Err(refusal),
    };
    let outcome = run_in(alloc, bytes.as_mut_slice(), reader, writer);
    Ok(Worked { bytes, outcome })
}
