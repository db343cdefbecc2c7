//! The line that reports a fault of a program beside `cab`.
ghost use Rattle.std.specs.Prelude.{◌-◌, ◌^◌, ◌<◌};
ghost use Rattle.archive_shape_layout.specs.Writing.{Writes};
ghost use Rattle.cab_files.specs.Showing.{reported_with, spelled_report};

use archive_shape_layout::{Error, Writer};
use cabinet::{Fault, fault_line};

/// Writes the line that reports a fault: that of `cab`, except for the usage, which is given.
pub(crate) fn report_with<W: Writer>(
    fault: &Fault,
    usage: &[u8],
    writer: &mut W,
) -> Result<(), Error>
    requires { W.failures writer.old < 2 ^ 64 - 1 }
    ensures { Writes W.Writer writer.old writer.new (reported_with usage.now fault.now) result }
{
    match fault {
        Fault::Usage => writer.write(usage),
        fault => fault_line(fault, writer),
    }
}

/// Writes the line that reports a fault of `cab_show`.
pub fn report<W: Writer>(fault: &Fault, writer: &mut W) -> Result<(), Error>
    requires { W.failures writer.old < 2 ^ 64 - 1 }
    ensures { Writes W.Writer writer.old writer.new (spelled_report fault.now) result }
{
    report_with(
        fault,
        b"cab_show: usage: cab_show ARCHIVE | cab_show --map [--lines N] [--path N] ARCHIVE\n",
        writer,
    )
}
