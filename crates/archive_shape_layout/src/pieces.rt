//! Functions that write several pieces of bytes one after the other, with the contract of one write.
ghost use Rattle.std.specs.Prelude.{◌<◌, ◌-◌, ◌^◌, ◌++◌, flat_map};
ghost use Rattle.archive_shape_layout.specs.Writing.{Writes};

use crate::{Error, Writer};

/// Writes two pieces, one after the other. Returns the error of the first write that fails.
pub fn write_two_pieces<W: Writer>(writer: &mut W, first: &[u8], second: &[u8]) -> Result<(), Error>
    requires { W.failures writer.old < 2 ^ 64 - 1 }
    ensures { Writes W.Writer writer.old writer.new (first.now ++ second.now) result }
{
    writer.write(first)?;
    writer.write(second)
}

/// Writes three pieces, one after the other. Returns the error of the first write that fails.
pub fn write_three_pieces<W: Writer>(
    writer: &mut W,
    first: &[u8],
    second: &[u8],
    third: &[u8],
) -> Result<(), Error>
    requires { W.failures writer.old < 2 ^ 64 - 1 }
    ensures { Writes W.Writer writer.old writer.new (first.now ++ (second.now ++ third.now)) result }
{
    writer.write(first)?;
    write_two_pieces(writer, second, third)
}

/// Writes each piece, one after the other. Returns the error of the first write that fails.
pub fn write_all_pieces<W: Writer>(writer: &mut W, pieces: &[&[u8]]) -> Result<(), Error>
    requires { W.failures writer.old < 2 ^ 64 - 1 }
    ensures { Writes W.Writer writer.old writer.new (flat_map (λ piece. piece.now) pieces.now) result }
{
    for piece in pieces {
        writer.write(piece)?;
    }
    Ok(())
}
