//! Printing the text of an archive's document, or a map of the archive.
ghost use Rattle.std.specs.Prelude.{◌≡◌, ◌+◌, ◌-◌, ◌^◌, ◌<◌, IfOk, IfErr, OnOk, OnErr};
ghost use Rattle.cabinet_archives.specs.Refused.{refusal_of};
ghost use Rattle.cabinet_documents.specs.Audit.{IsRefusedFor};
ghost use Rattle.cab_files.specs.Ending.{IsArchive};
ghost use Rattle.cab_files.specs.Showing.{EndsPrinting, EndsShow, WritesView, failed_writes};

use crate::ending::standard_output;
use crate::mapping::write_checked_map;
use crate::output::OutputStream;
use crate::reading::read;
use archive_shape_layout::{Error, Writer};
use cabinet::{Fault, OpenRefusal, write_document};
use std::alloc::Global;
use std::fs::File;
use std::io;
use std::io::{BufWriter, Write};
use std::rt::Files;

/// The maximum number of bytes that wait to be written.
const BUFFER: usize = 65536;

/// What is shown of an archive.
#[derive(Clone, Copy, Debug)]
enum View {
    /// The text of its document.
    Text,
    /// The map of its regions, with at most so many lines, and at most so many characters of each path.
    Map {
        lines: Option<u64>,
        characters: Option<u64>,
    },
}

/// Writes a view of the bytes, which are an archive. Of bytes that are refused nothing is written.
fn write_view<W: Writer>(
    alloc: Global,
    archive: &[u8],
    view: View,
    writer: &mut W,
) -> Result<Result<(), Error>, OpenRefusal>
    requires { W.failures writer.old < 2 ^ 64 - 1 }
    ensures refused { IfErr result (λ refusal. IsRefusedFor archive.now (refusal_of refusal)) }
    ensures written { WritesView W.Writer archive.now view writer.old writer.new result }
{
    match view {
        View::Text => write_document(alloc, archive, writer),
        View::Map { lines, characters } => {
            write_checked_map(alloc, archive, lines, characters, writer)
        }
    }
}

/// Writes a view of the bytes, which are an archive, and what the stream still holds of it. Returns whether no write failed.
fn write_all<W: Write + Drop>(
    alloc: Global,
    archive: &[u8],
    view: View,
    output: &mut OutputStream<W>,
) -> Result<bool, OpenRefusal>
    requires { output.old.failures < 2 ^ 64 - 1 }
    ensures archive { OnOk result (IsArchive archive.now) }
    ensures refused { IfErr result (λ refusal. IsRefusedFor archive.now (refusal_of refusal)) }
    ensures counted { IfOk result (λ whole. output.new.failures ≡ output.old.failures + failed_writes whole) }
    ensures unwritten { OnErr result (output.new.failures ≡ output.old.failures) }
{
    match write_view(alloc, archive, view, output)? {
        Ok(()) => Ok(output.flush().is_ok()),
        Err(_) => Ok(false),
    }
}

/// Prints a view of the bytes of the file at a path to a stream.
fn print_view<W: Write + Drop>(
    alloc: Global,
    archive: &[u8],
    path: String,
    view: View,
    output: &mut OutputStream<W>,
) -> Result<(), Fault>
    requires { output.old.failures < 2 ^ 64 - 1 }
    ensures { EndsPrinting archive.now path output.old.failures output.new.failures result }
{
    match write_all(alloc, archive, view, output) {
        Ok(true) => Ok(()),
        Ok(false) => Err(Fault::CannotWrite(standard_output(path))),
        Err(refusal) => Err(Fault::Open(refusal)),
    }
}

/// Prints a view of an archive file.
fn show<R: Files<File = File> + Print + AllocGlobal>(
    rt: &R,
    path: String,
    view: View,
) -> Result<(), Fault>
    ensures { EndsShow path result }
{
    let Ok((archive, _)) = read(rt, path.as_str()) else {
        return Err(Fault::CannotRead(path));
    };
    let Ok(stream) = BufWriter::with_capacity(rt.alloc(), BUFFER, io::writer(rt)) else {
        return Err(Fault::CannotWrite(standard_output(path)));
    };
    let mut output = OutputStream::new(stream, false);
    print_view(rt.alloc(), archive.as_slice(), path, view, &mut output)
}

/// Prints the text of the document that an archive file holds.
pub fn show_archive<R: Files<File = File> + Print + AllocGlobal>(
    rt: &R,
    path: String,
) -> Result<(), Fault>
    ensures { EndsShow path result }
{
    show(rt, path, View::Text)
}

/// Prints the map of an archive file, with at most so many lines of regions, and in each at most so many characters of a
/// path.
pub fn map_archive<R: Files<File = File> + Print + AllocGlobal>(
    rt: &R,
    path: String,
    lines: Option<u64>,
    characters: Option<u64>,
) -> Result<(), Fault>
    ensures { EndsShow path result }
{
    show(rt, path, View::Map { lines, characters })
}
