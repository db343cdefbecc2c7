//! Answers the lines of a section from its plain document, or writes its text again.
use crate::copying::{Fault, copy_text};
use crate::sections::{Section, first_line};
use archive_shape_layout::{Error, Writer, write_three_pieces};
use cabinet_text::{Cause, Document, Line, LineRefusal, TextRefusal, answer, read_line, read_text};
use cabinet_text_bytes::Decimal;
use cabinet_text_nodes::{write_bad, write_outcome};
use std::alloc::Global;

fn name_of(cause: Cause) -> &'static [u8] {
    match cause {
        Cause::NotUtf8 => b"NotUtf8",
        Cause::NoNewline => b"NoNewline",
        Cause::EndTooEarly => b"EndTooEarly",
        Cause::KeyExpected => b"KeyExpected",
        Cause::BadEscape => b"BadEscape",
        Cause::KeyOrder => b"KeyOrder",
        Cause::KeyRepeated => b"KeyRepeated",
        Cause::UnknownHead => b"UnknownHead",
        Cause::BadNumber => b"BadNumber",
        Cause::UnknownWhole => b"UnknownWhole",
        Cause::TooDeep => b"TooDeep",
        Cause::RepeatedWhole => b"RepeatedWhole",
        Cause::WholeOrder => b"WholeOrder",
        Cause::LineAfterEnd => b"LineAfterEnd",
        Cause::OutOfMemory => b"OutOfMemory",
    }
}

/// Writes the line and the cause for which a text was refused.
fn write_refusal(refusal: TextRefusal, answers: &mut Vec<u8>) -> Result<(), Error> {
    let line = Decimal::unsigned(refusal.line);
    write_three_pieces(answers, line.as_bytes(), b" ", name_of(refusal.cause))?;
    answers.write(b"\n")
}

/// Answers a question, or does an edit and writes its outcome.
fn carry_out(document: &mut Document, line: &Line, answers: &mut Vec<u8>) -> Result<(), Error> {
    if line.is_question() {
        answer(document, line, answers)?;
    } else if let Line::Set { path, leaf } = line {
        write_outcome(document.change(path.as_slice(), leaf), answers)?;
    }
    Ok(())
}

/// Reads bytes as a line, and writes the answer to it.
fn answer_line(
    alloc: Global,
    document: &mut Document,
    bytes: &[u8],
    answers: &mut Vec<u8>,
) -> Result<(), Error> {
    match read_line(alloc, bytes) {
        Ok(line) => carry_out(document, &line, answers),
        Err(LineRefusal::Bad) => write_bad(answers),
        Err(LineRefusal::OutOfMemory) => Err(Error::OutOfMemory),
    }
}

/// Writes the answers to lines about a document, or the fault for which its text was refused.
fn answer_lines(
    alloc: Global,
    text: &[u8],
    lines: &[u8],
    answers: &mut Vec<u8>,
) -> Result<(), Error> {
    let mut document = match read_text(alloc, text) {
        Ok(document) => document,
        Err(refusal) => return write_refusal(refusal, answers),
    };
    let mut rest = lines;
    while !rest.is_empty() {
        let (line, after) = first_line(rest);
        answer_line(alloc, &mut document, line, answers)?;
        rest = after;
    }
    Ok(())
}

/// Writes a text again, or the fault for which it was refused.
fn write_copy(alloc: Global, text: &[u8], answers: &mut Vec<u8>) -> Result<(), Error> {
    match copy_text(alloc, text, answers) {
        Ok(()) => Ok(()),
        Err(Fault::Text(refusal)) => write_refusal(refusal, answers),
        Err(Fault::Write(error)) => Err(error),
    }
}

/// Writes what a section asks for.
pub fn answer_section(
    alloc: Global,
    section: &Section<'_>,
    answers: &mut Vec<u8>,
) -> Result<(), Error> {
    match section {
        Section::Lines { text, lines } => answer_lines(alloc, text, lines, answers),
        Section::Copy(text) => write_copy(alloc, text, answers),
    }
}
