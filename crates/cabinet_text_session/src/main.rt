//! Reads the texts of documents, each with lines about it, and prints the answers of the plain documents. A text may also be
//! printed again.
#![tactic(auto)]

mod copying;
mod sections;
mod session;

use archive_shape_layout::Error;
use sections::{Section, first_section};
use session::answer_section;
use std::alloc::Global;
use std::io;
use std::io::{ErrorKind, Read, Write};
use std::process::ExitCode;

/// Returns the answers to all sections of an input.
fn answer_all(alloc: Global, input: &[u8]) -> Result<Vec<u8>, Error> {
    let mut answers = Vec::new(alloc);
    let mut rest = input;
    while let Some((section, after)) = first_section(rest) {
        answer_section(alloc, &section, &mut answers)?;
        rest = after;
    }
    Ok(answers)
}

/// Prints the answers to the standard input.
fn carry_out<R: Input + Print + AllocGlobal>(rt: &R) -> io::Result<()> {
    let mut input = Vec::new(rt.alloc());
    rt.reader().read_to_end(&mut input)?;
    match answer_all(rt.alloc(), input.as_slice()) {
        Ok(answers) => io::writer(rt).write_all(answers.as_slice()),
        Err(_) => Err(io::Error::from(ErrorKind::OutOfMemory)),
    }
}

fn main(rt: HostRuntime) -> ExitCode {
    match carry_out(&rt) {
        Ok(()) => ExitCode::from(0),
        Err(_) => ExitCode::from(1),
    }
}
