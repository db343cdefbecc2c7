//! The lines of a map.
ghost use Rattle.std.specs.Prelude.{◌≡◌, ◌+◌, ◌-◌, ◌^◌, ◌<◌, ◌≤◌, length, replicate, IfOk};
ghost use Rattle.std.specs.Fmt.{decimal};
ghost use Rattle.archive_shape_layout.specs.Writing.{Writes};
ghost use Rattle.cabinet_archives.specs.MapPaths.{path_of};
ghost use Rattle.cabinet_archives.specs.Mapping.{listed_region};
ghost use Rattle.cabinet_archives.specs.MapLines.{right, spelled_column, spelled_row, shown, written_gap, past_gap, written, tallied, spelled_more};

use crate::mapping::cut::write_cut;
use crate::mapping::path::{Path, write_path};
use crate::mapping::region::RegionKind;
use crate::mapping::tally::Tally;
use archive_shape_layout::{Error, Writer, write_three_pieces};
use cabinet_text_bytes::Decimal;

/// As many spaces as the widest column has characters.
const SPACES: &[u8] = b"                     ";

/// The number of characters of the columns of positions and of sizes.
const NUMBER_WIDTH: usize = 10;

/// The number of characters of the column of what regions are.
const WORD_WIDTH: usize = 8;

/// The place at which the bytes are counted that no region claims.
const UNUSED: usize = 10;

/// Writes the spaces that fill a text of `len` characters up to `width`.
fn write_filler<W: Writer>(len: usize, width: usize, writer: &mut W) -> Result<(), Error>
    requires low { width ≤ 21 }
    requires room { W.failures writer.old < 2 ^ 64 - 1 }
    ensures { Writes W.Writer writer.old writer.new (replicate (width - len) 32) result }
{
    writer.write(&SPACES[..width.saturating_sub(len)])
}

/// Writes a number at the right of a column.
pub(crate) fn write_number<W: Writer>(
    number: u64,
    width: usize,
    writer: &mut W,
) -> Result<(), Error>
    requires low { width ≤ 21 }
    requires room { W.failures writer.old < 2 ^ 64 - 1 }
    ensures { Writes W.Writer writer.old writer.new (right width (decimal number)) result }
{
    let digits = Decimal::unsigned(number);
    write_filler(digits.as_bytes().len(), width, writer)?;
    writer.write(digits.as_bytes())
}

/// Writes the path to a region, after the column of what it is, if the path has steps.
fn write_path_column<W: Writer>(
    word: &str,
    path: &Path<'_>,
    characters: Option<u64>,
    writer: &mut W,
) -> Result<(), Error>
    requires room { W.failures writer.old < 2 ^ 64 - 1 }
    ensures { Writes W.Writer writer.old writer.new (spelled_column characters word.now (path_of path.now)) result }
{
    if matches!(path, Path::Root) {
        return Ok(());
    }
    write_filler(word.len(), WORD_WIDTH, writer)?;
    match characters {
        Some(most) => {
            // The space before the first step is not counted.
            write_cut(path, most.saturating_add(1), writer)?;
            Ok(())
        }
        None => write_path(path, writer),
    }
}

/// Writes a line: a position, a number of bytes, what they are and a path.
fn write_line<W: Writer>(
    start: usize,
    size: usize,
    word: &str,
    path: &Path<'_>,
    characters: Option<u64>,
    writer: &mut W,
) -> Result<(), Error>
    requires room { W.failures writer.old < 2 ^ 64 - 1 }
    ensures { Writes W.Writer writer.old writer.new (spelled_row characters start size word.now (path_of path.now)) result }
{
    write_number(start as u64, NUMBER_WIDTH, writer)?;
    writer.write(b" ")?;
    write_number(size as u64, NUMBER_WIDTH, writer)?;
    writer.write(b" ")?;
    writer.write(word.as_bytes())?;
    write_path_column(word, path, characters, writer)?;
    writer.write(b"\n")
}

/// Writes a line, unless there are as many before it as a map has at most.
fn write_shown<W: Writer>(
    start: usize,
    size: usize,
    word: &str,
    path: &Path<'_>,
    tally: &Tally,
    writer: &mut W,
) -> Result<(), Error>
    requires room { W.failures writer.old < 2 ^ 64 - 1 }
    ensures { Writes W.Writer writer.old writer.new (shown tally.now start size word.now (path_of path.now)) result }
{
    if let Some(most) = tally.lines {
        if most <= tally.rows {
            return Ok(());
        }
    }
    write_line(start, size, word, path, tally.characters, writer)
}

/// Writes the line of the bytes between the end of the last region and `start`, if there are any, and counts them.
pub(crate) fn write_gap<W: Writer>(
    start: usize,
    tally: &mut Tally,
    writer: &mut W,
) -> Result<(), Error>
    requires room { W.failures writer.old < 2 ^ 64 - 1 }
    ensures written { Writes W.Writer writer.old writer.new (written_gap tally.old start) result }
    ensures tally { IfOk result (λ _. tally.new ≡ past_gap tally.old start) }
{
    let end = tally.end;
    if end < start {
        write_shown(end, start - end, "unused", &Path::Root, tally, writer)?;
        tally.count_row(start, UNUSED, start - end);
    }
    Ok(())
}

/// Writes the line of a region and that of the bytes before it that no region claims, and counts both. A region of no
/// bytes has no line.
pub(crate) fn write_region<W: Writer>(
    start: usize,
    size: usize,
    kind: RegionKind,
    path: &Path<'_>,
    tally: &mut Tally,
    writer: &mut W,
) -> Result<(), Error>
    requires fits { start + size < 2 ^ 64 }
    requires room { W.failures writer.old < 2 ^ 64 - 1 }
    ensures written { Writes W.Writer writer.old writer.new (written tally.old (listed_region start size (record { kind = kind; path = path_of path.now }))) result }
    ensures tally { IfOk result (λ _. tally.new ≡ tallied tally.old (listed_region start size (record { kind = kind; path = path_of path.now }))) }
{
    if size == 0 {
        return Ok(());
    }
    write_gap(start, tally, writer)?;
    write_shown(start, size, kind.word(), path, tally, writer)?;
    tally.count_row(start + size, kind.place(), size);
    Ok(())
}

/// Writes the number of the lines that are not shown, if there are any.
pub(crate) fn write_more<W: Writer>(tally: &Tally, writer: &mut W) -> Result<(), Error>
    requires room { W.failures writer.old < 2 ^ 64 - 1 }
    ensures { Writes W.Writer writer.old writer.new (spelled_more tally.now.lines tally.now.rows) result }
{
    let Some(most) = tally.lines else {
        return Ok(());
    };
    if tally.rows <= most {
        return Ok(());
    }
    write_three_pieces(
        writer,
        b".. and ",
        Decimal::unsigned(tally.rows - most).as_bytes(),
        b" more\n",
    )
}
