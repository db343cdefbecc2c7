//! How a program ends: its exit code, and the name of its output in a fault.
ghost use Rattle.std.specs.Prelude.{◌≡◌, ◌<◌, MatchResult, codes, string_bytes, string_len};
ghost use Rattle.std.specs.Process.{exit_status};
ghost use Rattle.cabinet.specs.Reporting.{status_of};

use cabinet::Fault;
use std::process::ExitCode;

/// Returns the exit code of a program for an outcome.
pub fn exit_code(outcome: &Result<(), Fault>) -> ExitCode
    ensures { MatchResult outcome.now (λ _. exit_status result ≡ 0)
        (λ fault. exit_status result ≡ status_of fault) }
{
    match outcome {
        Ok(()) => ExitCode::from(0),
        Err(fault) => ExitCode::from(fault.status()),
    }
}

/// Returns the path `-`, which represents the standard output, in the memory of another path.
pub fn standard_output(mut path: String) -> String
    ensures { 0 < string_len path → string_bytes result ≡ codes "-" }
{
    path.clear();
    let _ = path.push('-');
    path
}
