//! The summary of a map: the number of nodes by their kinds, and of bytes by what they are.
ghost use Rattle.std.specs.Prelude.{◌-◌, ◌^◌, ◌<◌, ◌++◌, map};
ghost use Rattle.archive_shape_layout.specs.Writing.{Writes};
ghost use Rattle.cabinet_archives.specs.MapLines.{spelled_count, spelled_counts, spelled_summary};

use crate::mapping::lines::write_number;
use crate::mapping::tally::Tally;
use archive_shape_layout::{Error, Writer, write_three_pieces};

/// The kinds of nodes, by their tags.
const KINDS: [&str; 10] = [
    "bool", "int", "text", "shared", "option", "list", "ordered", "hashed", "kept", "whole",
];

/// What bytes are, by the places at which they are counted.
const PARTS: [&str; 11] = [
    "root",
    "nodes",
    "wholes",
    "elements",
    "trees",
    "tables",
    "entries",
    "texts",
    "keys",
    "shared texts",
    "unused",
];

/// The number of characters of the column of numbers, which ends where that of the sizes of regions does.
const WIDTH: usize = 21;

/// Writes the line of a number, unless it is 0.
fn write_count<W: Writer>(count: u64, word: &str, writer: &mut W) -> Result<(), Error>
    requires { W.failures writer.old < 2 ^ 64 - 1 }
    ensures { Writes W.Writer writer.old writer.new (spelled_count count word.now) result }
{
    if count == 0 {
        return Ok(());
    }
    write_number(count, WIDTH, writer)?;
    write_three_pieces(writer, b" ", word.as_bytes(), b"\n")
}

/// Writes a heading, the line of each number that is not 0, and that of their sum.
fn write_counts<W: Writer>(
    heading: &[u8],
    counts: &[u64],
    words: &[&str],
    writer: &mut W,
) -> Result<(), Error>
    requires { W.failures writer.old < 2 ^ 64 - 1 }
    ensures { Writes W.Writer writer.old writer.new (heading.now ++ spelled_counts counts.now 0 0 (map (λ w. w.now) words.now)) result }
{
    writer.write(heading)?;
    let mut sum: u64 = 0;
    for (place, word) in words.iter().enumerate() {
        let count = counts.get(place).copied().unwrap_or(0);
        write_count(count, *word, writer)?;
        sum = sum.saturating_add(count);
    }
    write_count(sum, "in all", writer)
}

/// Writes the summary of a map.
pub(crate) fn write_summary<W: Writer>(tally: &Tally, writer: &mut W) -> Result<(), Error>
    requires { W.failures writer.old < 2 ^ 64 - 1 }
    ensures { Writes W.Writer writer.old writer.new (spelled_summary tally.now) result }
{
    write_counts(b"nodes\n", tally.nodes.as_slice(), KINDS.as_slice(), writer)?;
    write_counts(b"bytes\n", tally.bytes.as_slice(), PARTS.as_slice(), writer)
}
