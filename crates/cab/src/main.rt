//! The program: `cab build TEXT ARCHIVE` saves the document that a text file holds as an archive, and
//! `cab run ARCHIVE` carries out the lines of the standard input in an archive.
#![tactic(auto)]

use cab_files::{Fault, OutputStream, carry_out, exit_code, fault_line, parse, words};
use std::fs::File;
use std::io::IsTerminal;
use std::process::ExitCode;
use std::rt::{Env, Files};

/// The place of the path of the file that is read, in both commands.
const PATH: usize = 2;

/// Carries out the command that the words spell.
fn carry_out_words<R: Env + Files<File = File> + Input + Print + AllocGlobal>(
    rt: &R,
) -> Result<(), Fault>
where
    R::Reader: IsTerminal,
{
    match parse(words(rt, PATH)?) {
        Some(command) => carry_out(rt, command),
        None => Err(Fault::Usage),
    }
}

fn main(rt: HostRuntime) -> ExitCode {
    let outcome = carry_out_words(&rt);
    if let Err(fault) = &outcome {
        // If the standard error takes no line, only the status reports the fault.
        let _ = fault_line(fault, &mut OutputStream::new(rt.stderr(), false));
    }
    exit_code(&outcome)
}
