//! The line that reports a fault of `cab_edit`.
ghost use Rattle.std.specs.Prelude.{◌-◌, ◌^◌, ◌<◌};
ghost use Rattle.archive_shape_layout.specs.Writing.{Writes};
ghost use Rattle.cab_files.specs.Editing.{spelled_edit_report};

use crate::showing::report_with;
use archive_shape_layout::{Error, Writer};
use cabinet::Fault;

/// Writes the line that reports a fault: that of `cab`, except for the usage.
pub fn report_edit<W: Writer>(fault: &Fault, writer: &mut W) -> Result<(), Error>
    requires { W.failures writer.old < 2 ^ 64 - 1 }
    ensures { Writes W.Writer writer.old writer.new (spelled_edit_report fault.now) result }
{
    report_with(
        fault,
        b"cab_edit: usage: cab_edit ARCHIVE | cab_edit --new KIND ARCHIVE\n",
        writer,
    )
}
