//! Carrying out the lines of the standard input in the document of an archive, and keeping the new archive in a file.
ghost use Rattle.std.specs.Prelude.{◌≡◌, is_none, IfOk, IfErr};
ghost use Rattle.cabinet_documents.specs.Audit.{IsRefusedFor};
ghost use Rattle.cabinet_archives.specs.Refused.{refusal_of};
ghost use Rattle.cabinet.specs.Calls.{SavesEdits};
ghost use Rattle.cab_files.specs.Ending.{IsArchive};
ghost use Rattle.cab_files.specs.Editing.{edits_told, due, IsFirstEditFault, EditsFile};

use crate::input::InputStream;
use crate::output::OutputStream;
use crate::replacing::{write_back, write_new};
use crate::running::{BUFFER, edits_of, flushed};
use cabinet::{EditedArchive, Fault, OpenRefusal, RunCause, RunFault, SaveRefusal, check, edit_in};
use std::alloc::Global;
use std::fs::{File, Metadata};
use std::io;
use std::io::{BufWriter, IsTerminal};
use std::rt::Files;

/// Returns what is left of an archive where memory for the answers is refused, if the bytes are an archive: no line is
/// carried out, and nothing is saved.
fn unedited(alloc: Global, archive: &[u8]) -> Result<EditedArchive, OpenRefusal>
    ensures edits { IfOk result (SavesEdits archive.now) }
    ensures refused { IfErr result (λ refusal. IsRefusedFor archive.now (refusal_of refusal)) }
{
    match check(alloc, archive) {
        Ok(()) => Ok(EditedArchive {
            archive: Err(SaveRefusal::OutOfMemory),
            outcome: Err(RunFault {
                cause: RunCause::OutOfMemory,
                lines: 0,
                edits: 0,
            }),
        }),
        Err(refusal) => Err(refusal),
    }
}

/// Carries out the lines of the standard input in the document of an archive, and saves it. Answers are written as those of
/// a run in place are.
fn edit_lines<R: Input + Print>(
    rt: &R,
    alloc: Global,
    archive: &[u8],
) -> Result<EditedArchive, OpenRefusal>
where
    R::Reader: IsTerminal,
    ensures edits { IfOk result (SavesEdits archive.now) }
    ensures refused { IfErr result (λ refusal. IsRefusedFor archive.now (refusal_of refusal)) }
{
    let Ok(stream) = BufWriter::with_capacity(alloc, BUFFER, io::writer(rt)) else {
        return unedited(alloc, archive);
    };
    let reader = rt.reader();
    let mut answers = OutputStream::new(stream, reader.is_terminal());
    let mut lines = InputStream::new(reader);
    let edited = match edit_in(alloc, archive, &mut lines, &mut answers) {
        Ok(edited) => edited,
        Err(refusal) => return Err(refusal),
    };
    let is_written = answers.flush().is_ok();
    Ok(EditedArchive {
        archive: edited.archive,
        outcome: flushed(edited.outcome, is_written),
    })
}

/// Returns whether the archive after a session is to be written: one in a new file always is, and one that was read if an
/// edit was done.
fn is_due(edited: &EditedArchive, is_new: bool) -> bool
    ensures { result ≡ due is_new (edits_told edited.now.outcome) }
{
    is_new || edits_of(&edited.outcome) > 0
}

/// Writes an archive to the file at a path: over the one that was read, or as a new one where none was. Returns whether it
/// is in the file.
fn keep<R: Files<File = File> + AllocGlobal>(
    rt: &R,
    path: &str,
    archive: &[u8],
    read: Option<&Metadata>,
) -> bool
    requires { IsArchive archive.now }
{
    match read {
        Some(read) => write_back(rt, path, archive, read).is_ok(),
        None => write_new(rt, path, archive).is_ok(),
    }
}

/// Writes the archive after a session to the file at a path, if it was saved. Returns whether it is in the file.
fn keep_saved<R: Files<File = File> + AllocGlobal>(
    rt: &R,
    path: &str,
    edited: &EditedArchive,
    read: Option<&Metadata>,
) -> bool
    requires { IfOk edited.now.archive (λ archive. IsArchive archive.items) }
{
    match &edited.archive {
        Ok(archive) => keep(rt, path, archive.as_slice(), read),
        Err(_) => false,
    }
}

/// Returns the first fault of a session whose archive is to be written if `is_due`, by whether it was.
fn first_fault(
    edited: EditedArchive,
    is_due: bool,
    is_kept: bool,
    path: String,
) -> Result<(), Fault>
    ensures { IsFirstEditFault edited.outcome edited.archive is_due is_kept path result }
{
    if let Err(fault) = edited.outcome {
        return Err(Fault::Run(fault));
    }
    match edited.archive {
        _ if !is_due => Ok(()),
        Err(refusal) => Err(Fault::Save(refusal)),
        Ok(_) if is_kept => Ok(()),
        Ok(_) => Err(Fault::CannotWrite(path)),
    }
}

/// Carries out the lines of the standard input in the document of an archive, and writes its new archive to the file at a
/// path: over the file that was read, if an edit was done, or as a new file where none was read.
pub fn edit_file<R: Files<File = File> + Input + Print + AllocGlobal>(
    rt: &R,
    path: String,
    archive: &[u8],
    read: Option<&Metadata>,
) -> Result<(), Fault>
where
    R::Reader: IsTerminal,
    ensures { EditsFile archive.now (is_none read.entry) path result }
{
    let edited = match edit_lines(rt, rt.alloc(), archive) {
        Ok(edited) => edited,
        Err(refusal) => return Err(Fault::Open(refusal)),
    };
    let is_due = is_due(&edited, read.is_none());
    let is_kept = is_due && keep_saved(rt, path.as_str(), &edited, read);
    first_fault(edited, is_due, is_kept, path)
}
