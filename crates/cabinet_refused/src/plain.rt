//! Calls on documents as plain values: reading and writing their texts, lines, and answers.

use crate::again::{document_of, has_text, line_of};
use crate::tally::Outcome;
use cabinet::{Cause, Document, Line, LineRefusal, read_line, read_text, write_text};
use cabinet_doubles::{Row, count_lines, line_at};
use cabinet_text::answer;
use std::alloc::Global;

/// Reads the text of a document.
pub fn reads_text(alloc: Global, row: &Row<'_, '_>) -> Outcome {
    match read_text(alloc, row.text) {
        Ok(document) => Outcome::succeeded(has_text(&document, row.text)),
        Err(refusal) if refusal.cause == Cause::OutOfMemory => {
            Outcome::refused(refusal.line >= 1 && refusal.line <= count_lines(row.text) as u64)
        }
        Err(_) => Outcome::Wrong,
    }
}

/// Writes the text of a document into memory that grows.
pub fn writes_text(alloc: Global, row: &Row<'_, '_>) -> Outcome {
    let Some(document) = document_of(alloc, row.text) else {
        return Outcome::Wrong;
    };
    let mut text = Vec::new(alloc);
    match write_text(&document, &mut text) {
        Ok(()) => Outcome::succeeded(text.as_slice() == row.text),
        Err(_) => Outcome::refused(row.text.starts_with(text.as_slice())),
    }
}

/// Reads each line.
pub fn reads_lines(alloc: Global, row: &Row<'_, '_>) -> Outcome {
    let mut outcome = Outcome::Done;
    for index in 0..count_lines(row.lines) {
        let read = match read_line(alloc, line_at(row.lines, index)) {
            Ok(_) => Outcome::Done,
            Err(LineRefusal::OutOfMemory) => Outcome::Refused,
            Err(LineRefusal::Bad) => Outcome::Wrong,
        };
        outcome = outcome.and(read);
    }
    outcome
}

/// Returns whether bytes are the first ones of an answer and its newline.
pub fn begins(written: &[u8], answer: &[u8]) -> bool {
    answer.starts_with(written.strip_suffix(b"\n").unwrap_or(written))
}

/// Carries out a line in a document, with memory that grows for its answer.
fn carries_out(alloc: Global, document: &mut Document, line: &Line, wanted: &[u8]) -> Outcome {
    let mut written = Vec::new(alloc);
    match line {
        Line::Set { path, leaf } => {
            let _ = document.change(path, leaf);
            Outcome::Done
        }
        question => match answer(document, question, &mut written) {
            Ok(_) => Outcome::succeeded(written.as_slice().strip_suffix(b"\n") == Some(wanted)),
            Err(_) => Outcome::refused(begins(written.as_slice(), wanted)),
        },
    }
}

/// Answers each question about a document, and changes it as each edit asks.
pub fn answers(alloc: Global, row: &Row<'_, '_>) -> Outcome {
    let Some(mut document) = document_of(alloc, row.text) else {
        return Outcome::Wrong;
    };
    let mut outcome = Outcome::Done;
    for index in 0..count_lines(row.lines) {
        let Some(line) = line_of(alloc, line_at(row.lines, index)) else {
            return Outcome::Wrong;
        };
        let wanted = line_at(row.answers, index);
        outcome = outcome.and(carries_out(alloc, &mut document, &line, wanted));
    }
    outcome
}
