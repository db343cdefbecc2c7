//! The program: `cab_edit ARCHIVE` carries out the lines of the standard input in the document of an archive, so that it may
//! grow, and `cab_edit --new KIND ARCHIVE` makes the archive of one that they are carried out in.
#![tactic(auto)]

use cab_files::{
    EditCommand, Fault, OutputStream, edit_archive_file, exit_code, new_archive_file, parse_edit,
    report_edit, words,
};
use std::env::FillError;
use std::fs::File;
use std::io::IsTerminal;
use std::process::ExitCode;
use std::rt::{Env, Files};

/// The place of the path of the archive among the words where a new one is made.
const PATH_OF_NEW: usize = 3;

/// Returns the place of the path of the archive: it is the last word of both commands.
fn place_of_path<R: Env>(rt: &R) -> usize {
    match rt.arg(PATH_OF_NEW, &mut []) {
        Err(FillError::NotPresent) => 1,
        _ => PATH_OF_NEW,
    }
}

/// Carries out the command that the words spell.
fn carry_out<R: Env + Files<File = File> + Input + Print + AllocGlobal>(rt: &R) -> Result<(), Fault>
where
    R::Reader: IsTerminal,
{
    match parse_edit(words(rt, place_of_path(rt))?) {
        Some(EditCommand::Edit { archive }) => edit_archive_file(rt, archive),
        Some(EditCommand::New { root, archive }) => new_archive_file(rt, archive, root),
        None => Err(Fault::Usage),
    }
}

fn main(rt: HostRuntime) -> ExitCode {
    let outcome = carry_out(&rt);
    if let Err(fault) = &outcome {
        // If the standard error takes no line, only the status reports the fault.
        let _ = report_edit(fault, &mut OutputStream::new(rt.stderr(), false));
    }
    exit_code(&outcome)
}
