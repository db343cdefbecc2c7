//! Calls that answer questions and carry out lines in an archive.

use crate::again::{copy_of, document_of, line_of};
use crate::plain::begins;
use crate::tally::Outcome;
use cabinet::{Count, Line, OpenRefusal, Opened, RunCause, RunFault, SaveRefusal, open, run, work};
use cabinet_doubles::{Row, SliceSource, count_lines, line_at};
use std::alloc::Global;

/// The number of bytes that a source gives at a time, so that a line does not lie whole in them.
const MOST: usize = 3;

/// Carries out a line in an opened archive, with memory that grows for its answer.
fn carries_out(alloc: Global, opened: &mut Opened<'_>, line: &Line, wanted: &[u8]) -> Outcome {
    let mut written = Vec::new(alloc);
    match line {
        Line::Set { path, leaf } => {
            let _ = opened.set(path, leaf);
            Outcome::Done
        }
        question => match opened.ask(question, &mut written) {
            Ok(_) => Outcome::succeeded(written.as_slice().strip_suffix(b"\n") == Some(wanted)),
            Err(_) => Outcome::refused(begins(written.as_slice(), wanted)),
        },
    }
}

/// Carries out each line in an opened archive, by a call of its own.
fn carries_out_each(alloc: Global, opened: &mut Opened<'_>, row: &Row<'_, '_>) -> Outcome {
    let mut outcome = Outcome::Done;
    for index in 0..count_lines(row.lines) {
        let Some(line) = line_of(alloc, line_at(row.lines, index)) else {
            return Outcome::Wrong;
        };
        let wanted = line_at(row.answers, index);
        outcome = outcome.and(carries_out(alloc, opened, &line, wanted));
    }
    outcome
}

/// Returns whether the bytes of an archive are those after the first lines.
fn is_after(alloc: Global, row: &Row<'_, '_>, count: usize, bytes: &[u8]) -> bool {
    let Ok(mut wanted) = copy_of(alloc, row.archive) else {
        return false;
    };
    row.change(wanted.as_mut_slice(), count);
    bytes == wanted.as_slice()
}

/// Returns the outcome of opening an archive that was refused.
fn refused_as(refusal: OpenRefusal, row: &Row<'_, '_>, bytes: &[u8]) -> Outcome {
    match refusal {
        OpenRefusal::OutOfMemory => Outcome::refused(bytes == row.archive),
        _ => Outcome::Wrong,
    }
}

/// Asks each question, and sets what each edit asks for, in an opened archive.
pub fn asks(alloc: Global, row: &Row<'_, '_>) -> Outcome {
    let Ok(mut bytes) = copy_of(alloc, row.archive) else {
        return Outcome::Wrong;
    };
    let outcome = match open(alloc, bytes.as_mut_slice()) {
        Ok(mut opened) => carries_out_each(alloc, &mut opened, row),
        Err(refusal) => return refused_as(refusal, row, bytes.as_slice()),
    };
    let stands = is_after(alloc, row, count_lines(row.lines), bytes.as_slice());
    outcome.and(Outcome::succeeded(stands))
}

/// Returns the outcome of a run by what it answered, and whether the bytes of the archive are those after its lines.
fn ran_as(
    alloc: Global,
    row: &Row<'_, '_>,
    ran: Result<Count, RunFault>,
    written: &[u8],
    bytes: &[u8],
) -> Outcome {
    let (lines, edits) = match ran {
        Ok(count) => (count.lines, count.edits),
        Err(fault) => (fault.lines, fault.edits),
    };
    let count = usize::try_from(lines).unwrap_or(usize::MAX);
    let stands = is_after(alloc, row, count, bytes) && row.edits(count) == edits;
    match ran {
        Ok(_) => Outcome::succeeded(
            stands && count == count_lines(row.lines) && row.has_answers(written, count, false),
        ),
        Err(fault) if fault.cause == RunCause::OutOfMemory => {
            Outcome::refused(stands && row.has_answers(written, count, false))
        }
        Err(fault) if fault.cause == RunCause::Write && count > 0 => {
            Outcome::refused(stands && row.has_answers(written, count - 1, true))
        }
        Err(_) => Outcome::Wrong,
    }
}

/// Carries out all lines in an archive.
pub fn runs(alloc: Global, row: &Row<'_, '_>) -> Outcome {
    let Ok(mut bytes) = copy_of(alloc, row.archive) else {
        return Outcome::Wrong;
    };
    let mut source = SliceSource::new(row.lines, usize::MAX, MOST);
    let mut written = Vec::new(alloc);
    let ran = match open(alloc, bytes.as_mut_slice()) {
        Ok(mut opened) => run(alloc, &mut opened, &mut source, &mut written),
        Err(refusal) => return refused_as(refusal, row, bytes.as_slice()),
    };
    ran_as(alloc, row, ran, written.as_slice(), bytes.as_slice())
}

/// Saves a document, and carries out all lines in the bytes that were saved.
pub fn works(alloc: Global, row: &Row<'_, '_>) -> Outcome {
    let Some(document) = document_of(alloc, row.text) else {
        return Outcome::Wrong;
    };
    let mut source = SliceSource::new(row.lines, usize::MAX, MOST);
    let mut written = Vec::new(alloc);
    match work(alloc, &document, &mut source, &mut written) {
        Ok(worked) => ran_as(
            alloc,
            row,
            worked.outcome,
            written.as_slice(),
            worked.bytes.as_slice(),
        ),
        Err(SaveRefusal::OutOfMemory) => Outcome::refused(written.as_slice().is_empty()),
        Err(_) => Outcome::Wrong,
    }
}
