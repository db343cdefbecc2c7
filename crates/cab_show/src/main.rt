//! The program: `cab_show ARCHIVE` prints the text of the document that an archive file holds, and `cab_show --map ARCHIVE`
//! a map of the file.
#![tactic(auto)]

use cab_files::{
    Fault, OutputStream, ShowCommand, exit_code, map_archive, parse_show, report, show_archive,
    words,
};
use std::env::FillError;
use std::fs::File;
use std::process::ExitCode;
use std::rt::{Env, Files};

/// The places of the path of the archive among the words: it is the last one of each command.
const PATHS: [usize; 4] = [6, 4, 2, 1];

/// Returns the place of the path of the archive.
fn place_of_path<R: Env>(rt: &R) -> usize {
    for place in PATHS {
        match rt.arg(place, &mut []) {
            Err(FillError::NotPresent) => {}
            _ => return place,
        }
    }
    1
}

/// Carries out the command that the words spell.
fn carry_out<R: Env + Files<File = File> + Print + AllocGlobal>(rt: &R) -> Result<(), Fault> {
    match parse_show(words(rt, place_of_path(rt))?) {
        Some(ShowCommand::Text { archive }) => show_archive(rt, archive),
        Some(
            ShowCommand::Map {
                lines,
                characters,
                archive,
            },
        ) => map_archive(rt, archive, lines, characters),
        None => Err(Fault::Usage),
    }
}

fn main(rt: HostRuntime) -> ExitCode {
    let outcome = carry_out(&rt);
    if let Err(fault) = &outcome {
        // If the standard error takes no line, only the status reports the fault.
        let _ = report(fault, &mut OutputStream::new(rt.stderr(), false));
    }
    exit_code(&outcome)
}
