//! Paths of which a line of a map has the first characters alone.
ghost use Rattle.std.specs.Prelude.{◌≡◌, ◌++◌, ◌-◌, ◌^◌, ◌<◌, IfOk};
ghost use Rattle.archive_shape_layout.specs.Writing.{Writes};
ghost use Rattle.cabinet_text_grammar.specs.Line.{spelled_path};
ghost use Rattle.cabinet_text_grammar.specs.Spelling.{escaped};
ghost use Rattle.cabinet_archives.specs.MapLines.{begins, cut, left_after};
ghost use Rattle.cabinet_archives.specs.MapPaths.{path_of};

use crate::mapping::path::Path;
use archive_shape_layout::{Error, Writer};
use cabinet_text_bytes::Decimal;

/// Returns whether a byte of a text begins a character.
fn begins_character(byte: u8) -> bool
    ensures { result ≡ begins byte }
{
    byte < 0x80 || 0xc0 <= byte
}

/// Writes the first `left` characters of a piece of text. Returns how many more may be written, or `None` if the piece
/// has more characters: then two dots follow.
fn write_piece<W: Writer>(piece: &[u8], left: u64, writer: &mut W) -> Result<Option<u64>, Error>
    requires room { W.failures writer.old < 2 ^ 64 - 1 }
    ensures written { Writes W.Writer writer.old writer.new (cut left piece.now) result }
    ensures left { IfOk result (λ more. more ≡ left_after left piece.now) }
{
    let mut more = left;
    for (end, byte) in piece.iter().enumerate() {
        if begins_character(*byte) {
            if more == 0 {
                writer.write(&piece[..end])?;
                writer.write(b"..")?;
                return Ok(None);
            }
            more -= 1;
        }
    }
    writer.write(piece)?;
    Ok(Some(more))
}

/// Writes the first `left` characters of the escaped form of a key, as [`write_piece`] does.
fn write_key<W: Writer>(key: &[u8], left: u64, writer: &mut W) -> Result<Option<u64>, Error>
    requires room { W.failures writer.old < 2 ^ 64 - 1 }
    ensures written { Writes W.Writer writer.old writer.new (cut left (escaped key.now)) result }
    ensures left { IfOk result (λ more. more ≡ left_after left (escaped key.now)) }
{
    let mut more = left;
    for (at, byte) in key.iter().enumerate() {
        let piece: &[u8] = match *byte {
            b'\\' => b"\\\\",
            b'\n' => b"\\n",
            b' ' => b"\\s",
            _ => &key[at..at + 1],
        };
        match write_piece(piece, more, writer)? {
            Some(rest) => more = rest,
            None => return Ok(None),
        }
    }
    Ok(Some(more))
}

/// Writes the first `most` characters of a path and of the sign of the step after it, as [`write_piece`] does.
#[cycle(cut)]
fn write_sign<W: Writer>(
    path: &Path<'_>,
    sign: &[u8],
    most: u64,
    writer: &mut W,
) -> Result<Option<u64>, Error>
    requires room { W.failures writer.old < 2 ^ 64 - 1 }
    ensures written { Writes W.Writer writer.old writer.new (cut most (spelled_path (path_of path.now) ++ sign.now)) result }
    ensures left { IfOk result (λ more. more ≡ left_after most (spelled_path (path_of path.now) ++ sign.now)) }
{
    match write_cut(path, most, writer)? {
        Some(left) => write_piece(sign, left, writer),
        None => Ok(None),
    }
}

/// Writes the first `most` characters of a path, as [`write_piece`] does, each step after a space.
#[cycle(cut)]
pub(crate) fn write_cut<W: Writer>(
    path: &Path<'_>,
    most: u64,
    writer: &mut W,
) -> Result<Option<u64>, Error>
    requires room { W.failures writer.old < 2 ^ 64 - 1 }
    ensures written { Writes W.Writer writer.old writer.new (cut most (spelled_path (path_of path.now))) result }
    ensures left { IfOk result (λ more. more ≡ left_after most (spelled_path (path_of path.now))) }
{
    match path {
        Path::Root => Ok(Some(most)),
        Path::Key(outer, key) => match write_sign(outer, b" '", most, writer)? {
            Some(left) => write_key(key.as_bytes(), left, writer),
            None => Ok(None),
        },
        Path::Place(outer, place) => match write_sign(outer, b" #", most, writer)? {
            Some(left) => write_piece(Decimal::unsigned(*place).as_bytes(), left, writer),
            None => Ok(None),
        },
        Path::Inside(outer) => write_sign(outer, b" ?", most, writer),
    }
}
