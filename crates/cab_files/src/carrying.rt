//! Carrying out a command of `cab`.
ghost use Rattle.cab_files.specs.Carrying.{Ends};

use crate::building::build;
use crate::command::Command;
use crate::running::run_archive;
use cabinet::Fault;
use std::fs::File;
use std::io::IsTerminal;
use std::rt::Files;

/// Carries out a command.
pub fn carry_out<R: Files<File = File> + Input + Print + AllocGlobal>(
    rt: &R,
    command: Command,
) -> Result<(), Fault>
where
    R::Reader: IsTerminal,
    ensures { Ends command result }
{
    match command {
        Command::Build { text, archive } => build(rt, text, archive),
        Command::Run { archive } => run_archive(rt, archive),
    }
}
