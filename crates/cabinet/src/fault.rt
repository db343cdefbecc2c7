//! The faults of the program, and the lines that report them.
ghost use Rattle.std.specs.Prelude.{◌≡◌, ◌-◌, ◌^◌, ◌<◌};
ghost use Rattle.archive_shape_layout.specs.Writing.{Writes};
ghost use Rattle.cabinet.specs.Reporting.{cause_name, save_refusal_name, open_refusal_name, run_cause_name, spelled_fault, status_of};

use archive_shape_layout::{Error, Writer, write_all_pieces, write_three_pieces};
use cabinet_archives::{OpenRefusal, SaveRefusal};
use cabinet_text::{RunCause, RunFault};
use cabinet_text_bytes::Decimal;
use cabinet_text_grammar::Cause;
use cabinet_text_reading::TextRefusal;

/// A fault that ends the program, with an exit status and a line that reports it.
#[derive(Debug, Drop)]
pub enum Fault {
    /// The words after the program's name are not those of a command.
    Usage,
    /// The file at this path was not read.
    CannotRead(String),
    /// The file at this path was not written; `-` is the standard output.
    CannotWrite(String),
    /// A text was not read as a document.
    Text(TextRefusal),
    /// A document was not saved.
    Save(SaveRefusal),
    /// Bytes were not opened as an archive.
    Open(OpenRefusal),
    /// A run ended before the end of its input.
    Run(RunFault),
}

impl Fault {
    /// Returns the exit status of a program that ends with the fault.
    pub fn status(&self) -> u8
        ensures { result ≡ status_of self.now }
    {
        match self {
            Fault::Usage => 2,
            _ => 1,
        }
    }
}

fn name_of_cause(cause: Cause) -> &'static [u8]
    ensures { result.now ≡ cause_name cause }
{
    match cause {
        Cause::NotUtf8 => b"NotUtf8",
        Cause::NoNewline => b"NoNewline",
        Cause::EndTooEarly => b"EndTooEarly",
        Cause::KeyExpected => b"KeyExpected",
        Cause::BadEscape => b"BadEscape",
        Cause::KeyOrder => b"KeyOrder",
        Cause::KeyRepeated => b"KeyRepeated",
        Cause::UnknownHead => b"UnknownHead",
        Cause::BadNumber => b"BadNumber",
        Cause::UnknownWhole => b"UnknownWhole",
        Cause::TooDeep => b"TooDeep",
        Cause::RepeatedWhole => b"RepeatedWhole",
        Cause::WholeOrder => b"WholeOrder",
        Cause::LineAfterEnd => b"LineAfterEnd",
        Cause::OutOfMemory => b"OutOfMemory",
    }
}

fn name_of_save_refusal(refusal: &SaveRefusal) -> &'static [u8]
    ensures { result.now ≡ save_refusal_name refusal.now }
{
    match refusal {
        SaveRefusal::Limit(_) => b"Limit",
        SaveRefusal::Writer(_) => b"Writer",
        SaveRefusal::OutOfMemory => b"OutOfMemory",
    }
}

fn name_of_open_refusal(refusal: &OpenRefusal) -> &'static [u8]
    ensures { result.now ≡ open_refusal_name refusal.now }
{
    match refusal {
        OpenRefusal::Access(_) => b"Access",
        OpenRefusal::TooDeep => b"TooDeep",
        OpenRefusal::KeysNotAscending => b"KeysNotAscending",
        OpenRefusal::WrongTag => b"WrongTag",
        OpenRefusal::NotFound => b"NotFound",
        OpenRefusal::OutOfMemory => b"OutOfMemory",
    }
}

fn name_of_run_cause(cause: RunCause) -> &'static [u8]
    ensures { result.now ≡ run_cause_name cause }
{
    match cause {
        RunCause::Read => b"Read",
        RunCause::Write => b"Write",
        RunCause::OutOfMemory => b"OutOfMemory",
        RunCause::LineTooLong => b"LineTooLong",
        RunCause::InputTooLong => b"InputTooLong",
    }
}

/// Writes the line that reports a fault. Does not allocate.
pub fn fault_line<W: Writer>(fault: &Fault, writer: &mut W) -> Result<(), Error>
    requires { W.failures writer.old < 2 ^ 64 - 1 }
    ensures { Writes W.Writer writer.old writer.new (spelled_fault fault.now) result }
{
    match fault {
        Fault::Usage => { writer.write(b"cab: usage: cab build TEXT ARCHIVE | cab run ARCHIVE\n") }
        Fault::CannotRead(path) => {
            write_three_pieces(writer, b"cab: cannot read ", path.as_bytes(), b"\n")
        }
        Fault::CannotWrite(path) => {
            write_three_pieces(writer, b"cab: cannot write ", path.as_bytes(), b"\n")
        }
        Fault::Text(refusal) => {
            let line = Decimal::unsigned(refusal.line);
            let cause = name_of_cause(refusal.cause);
            write_all_pieces(
                writer,
                &[
                    b"cab: text line ".as_slice(),
                    line.as_bytes(),
                    b": ".as_slice(),
                    cause,
                    b"\n".as_slice(),
                ],
            )
        }
        Fault::Save(refusal) => {
            write_three_pieces(writer, b"cab: save: ", name_of_save_refusal(refusal), b"\n")
        }
        Fault::Open(refusal) => {
            write_three_pieces(writer, b"cab: open: ", name_of_open_refusal(refusal), b"\n")
        }
        Fault::Run(fault) => {
            let lines = Decimal::unsigned(fault.lines);
            let cause = name_of_run_cause(fault.cause);
            write_all_pieces(
                writer,
                &[
                    b"cab: run: ".as_slice(),
                    cause,
                    b" after ".as_slice(),
                    lines.as_bytes(),
                    b" lines\n".as_slice(),
                ],
            )
        }
    }
}
