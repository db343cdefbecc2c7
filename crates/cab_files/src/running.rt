//! `cab run`, which carries out the lines of the standard input in an archive file.
ghost use Rattle.std.specs.Prelude.{◌≡◌, ◌-◌, ◌^◌, ◌<◌, true, MatchResult};
ghost use Rattle.cabinet_text_grammar.specs.Tree.{Tree};
ghost use Rattle.cabinet_documents.specs.Accepted.{Accepted};
ghost use Rattle.cabinet.specs.Editing.{EditedByLines};
ghost use Rattle.cab_files.specs.Ending.{IsFlushed, IsFirstFault, EditsArchive, EndsRun};

use crate::input::InputStream;
use crate::output::OutputStream;
use crate::reading::read;
use crate::replacing::write_back;
use cabinet::{Count, Fault, RunCause, RunFault, check, run_in};
use std::alloc::Global;
use std::fs::{File, Metadata};
use std::io;
use std::io::{BufWriter, IsTerminal};
use std::rt::Files;

/// The maximum number of bytes of answers that wait to be written.
pub const BUFFER: usize = 65536;

/// Returns the outcome of a run, by whether its last answers were written.
pub fn flushed(outcome: Result<Count, RunFault>, is_written: bool) -> Result<Count, RunFault>
    ensures { IsFlushed outcome is_written result }
{
    match outcome {
        Ok(Count { lines, edits }) if !is_written => Err(RunFault {
            cause: RunCause::Write,
            lines,
            edits,
        }),
        outcome => outcome,
    }
}

/// Carries out the lines of the standard input in an accepted archive. Answers are written once `BUFFER` bytes of them
/// wait, and at the end; if the input is a terminal, each is written at once.
fn run_lines<R: Input + Print>(rt: &R, alloc: Global, archive: &mut [u8]) -> Result<Count, RunFault>
where
    R::Reader: IsTerminal,
    requires { ∥ ((t : Tree) × Accepted archive.old t) ∥₁ }
    ensures kept { ∥ ((t : Tree) × Accepted archive.new t) ∥₁ }
    ensures edited { MatchResult result (λ n. EditedByLines archive.old archive.new n.lines n.edits)
        (λ f. EditedByLines archive.old archive.new f.lines f.edits) }
    // Only bytes that were edited need to be written back.
    ensures unedited { MatchResult result (λ n. n.edits ≡ 0
        → archive.new ≡ archive.old) (λ f. f.edits ≡ 0 → archive.new ≡ archive.old) }
{
    let Ok(stream) = BufWriter::with_capacity(alloc, BUFFER, io::writer(rt)) else {
        return Err(RunFault {
            cause: RunCause::OutOfMemory,
            lines: 0,
            edits: 0,
        });
    };
    let reader = rt.reader();
    let mut answers = OutputStream::new(stream, reader.is_terminal());
    let mut lines = InputStream::new(reader);
    let outcome = run_in(alloc, archive, &mut lines, &mut answers);
    let is_written = answers.flush().is_ok();
    flushed(outcome, is_written)
}

/// Returns the number of edits that were done.
pub fn edits_of(outcome: &Result<Count, RunFault>) -> u64
    ensures { MatchResult outcome.now (λ count. result ≡ count.edits) (λ fault. result ≡ fault.edits) }
{
    match outcome {
        Ok(count) => count.edits,
        Err(fault) => fault.edits,
    }
}

/// Writes an archive back if it was edited, and returns whether all edits are in its file.
fn keep_edits<R: Files<File = File> + AllocGlobal>(
    rt: &R,
    path: &str,
    archive: &[u8],
    read: &Metadata,
    edits: u64,
) -> bool
    requires { ∥ ((t : Tree) × Accepted archive.now t) ∥₁ }
    ensures { edits ≡ 0 → result ≡ true }
{
    edits == 0 || write_back(rt, path, archive, read).is_ok()
}

/// Returns the first fault of a run, by whether its archive was written back.
fn first_fault(outcome: Result<Count, RunFault>, is_kept: bool, path: String) -> Result<(), Fault>
    ensures { IsFirstFault outcome is_kept path result }
{
    match outcome {
        Err(fault) => Err(Fault::Run(fault)),
        Ok(_) if is_kept => Ok(()),
        Ok(_) => Err(Fault::CannotWrite(path)),
    }
}

/// Carries out the lines of the standard input in the bytes of a file, if they are an archive.
fn edit_archive<R: Files<File = File> + Input + Print + AllocGlobal>(
    rt: &R,
    path: String,
    archive: &mut [u8],
    read: &Metadata,
) -> Result<(), Fault>
where
    R::Reader: IsTerminal,
    ensures { EditsArchive archive.old archive.new path result }
{
    if let Err(refusal) = check(rt.alloc(), archive) {
        return Err(Fault::Open(refusal));
    }
    let outcome = run_lines(rt, rt.alloc(), archive);
    let is_kept = keep_edits(rt, path.as_str(), archive, read, edits_of(&outcome));
    first_fault(outcome, is_kept, path)
}

/// Carries out the lines of the standard input in an archive file, and writes the file back if an edit was done.
pub fn run_archive<R: Files<File = File> + Input + Print + AllocGlobal>(
    rt: &R,
    path: String,
) -> Result<(), Fault>
where
    R::Reader: IsTerminal,
    ensures { EndsRun path result }
{
    match read(rt, path.as_str()) {
        Ok((mut archive, read)) => edit_archive(rt, path, archive.as_mut_slice(), &read),
        Err(_) => Err(Fault::CannotRead(path)),
    }
}
