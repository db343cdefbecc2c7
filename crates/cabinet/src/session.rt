//! Sessions: the lines of a source, carried out in the bytes of an archive.
ghost use Rattle.std.specs.Prelude.{◌≡◌, ◌-◌, ◌^◌, ◌<◌};
ghost use Rattle.cabinet_text.specs.Calls.{ReaderEndsRun, WriterEndsRun};
ghost use Rattle.cabinet.specs.Calls.{EditedByRun, RunsAll, RunsToFault};

mod carrying;

use crate::opened::Opened;
use archive_hash_probing::Scan;
use archive_shape_layout::Writer;
use cabinet_text::{Count, LineReader, RunFault, Source};
use carrying::answer_line;
use std::alloc::Global;

/// Carries out the lines of a source, and writes the answer to each. Allocates for a line that does not lie whole in
/// the bytes of one read, and for the path and the text of a line.
pub fn run<G: Scan, R: Source, W: Writer>(
    alloc: Global,
    opened: &mut Opened<'_, G>,
    reader: &mut R,
    writer: &mut W,
) -> Result<Count, RunFault>
    requires reader_counts { R.failures reader.old < 2 ^ 64 - 1 }
    requires writer_counts { W.failures writer.old < 2 ^ 64 - 1 }
    ensures same { opened.new.bytes.ghost_name ≡ opened.old.bytes.ghost_name }
    // Regardless of whether reader and writer are observable.
    ensures edits { EditedByRun opened.old.bytes.now opened.new.bytes.now result }
    ensures all { RunsAll R.Source W.Writer reader.old opened.old.bytes.now opened.new.bytes.now writer.old writer.new result }
    ensures fault { RunsToFault R.Source W.Writer reader.old reader.new opened.old.bytes.now opened.new.bytes.now writer.old writer.new result }
    ensures reader_fails { ReaderEndsRun R.Source reader.old reader.new result }
    ensures writer_fails { WriterEndsRun W.Writer writer.old writer.new result }
{
    let mut lines = LineReader::new(alloc);
    let mut count = Count { lines: 0, edits: 0 };
    loop {
        match lines.advance(reader) {
            Ok(true) => {}
            Ok(false) => return Ok(count),
            Err(cause) => return Err(RunFault::after(count, cause)),
        }
        match answer_line(alloc, opened, lines.line(), &mut count, writer) {
            Ok(()) => {}
            Err(cause) => return Err(RunFault::after(count, cause)),
        }
    }
}
