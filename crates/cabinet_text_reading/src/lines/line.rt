//! Reads bytes as a question or an edit.
ghost use Rattle.std.specs.Prelude.{◌++◌, Some, codes, IfOk, IfErr};
ghost use Rattle.cabinet_text_grammar.specs.Line.{Says};
ghost use Rattle.cabinet_text_nodes.specs.View.{line_of};
ghost use Rattle.cabinet_text_reading.specs.Reading.{RefusesLine};

use crate::lines::leaf::{read_argument, read_leaf, split_head};
use crate::lines::path::{is_path, next_key, read_path};
use cabinet_text_bytes::{after_prefix, is_escaped};
use cabinet_text_nodes::{Line, LineRefusal};
use std::alloc::Global;

/// Reads the question about a range from the bytes after `range`, which are its bounds and its path.
fn read_range(alloc: Global, bytes: &[u8]) -> Result<Line, LineRefusal>
    ensures said { IfOk result (λ line. Says (codes "range" ++ bytes.now) (Some (line_of line))) }
    ensures refused { IfErr result (RefusesLine (codes "range" ++ bytes.now)) }
{
    let Some((low, after_low)) = next_key(bytes) else {
        return Err(LineRefusal::Bad);
    };
    let Some((high, after_high)) = next_key(after_low) else {
        return Err(LineRefusal::Bad);
    };
    let lo = match read_argument(alloc, low) {
        Ok(lo) => lo,
        Err(LineRefusal::Bad) => return Err(LineRefusal::Bad),
        Err(LineRefusal::OutOfMemory) => {
            if is_escaped(high) && is_path(after_high) {
                return Err(LineRefusal::OutOfMemory);
            }
            return Err(LineRefusal::Bad);
        }
    };
    let hi = match read_argument(alloc, high) {
        Ok(hi) => hi,
        Err(LineRefusal::Bad) => return Err(LineRefusal::Bad),
        Err(LineRefusal::OutOfMemory) => {
            if is_path(after_high) {
                return Err(LineRefusal::OutOfMemory);
            }
            return Err(LineRefusal::Bad);
        }
    };
    match read_path(alloc, after_high) {
        Ok(path) => Ok(Line::Range { lo, hi, path }),
        Err(refusal) => Err(refusal),
    }
}

/// Reads an edit from the bytes after `set `, which are its leaf and its path.
fn read_edit(alloc: Global, bytes: &[u8]) -> Result<Line, LineRefusal>
    ensures said { IfOk result (λ line. Says (codes "set " ++ bytes.now) (Some (line_of line))) }
    ensures refused { IfErr result (RefusesLine (codes "set " ++ bytes.now)) }
{
    let (spelled, path) = split_head(bytes);
    let leaf = match read_leaf(alloc, spelled) {
        Ok(leaf) => leaf,
        Err(LineRefusal::Bad) => return Err(LineRefusal::Bad),
        Err(LineRefusal::OutOfMemory) => {
            if is_path(path) {
                return Err(LineRefusal::OutOfMemory);
            }
            return Err(LineRefusal::Bad);
        }
    };
    match read_path(alloc, path) {
        Ok(path) => Ok(Line::Set { path, leaf }),
        Err(refusal) => Err(refusal),
    }
}

/// Reads bytes as a line. Memory is allocated only for its steps and texts. Where it is refused, what is left of the line
/// is checked, so that bytes which are no line are `Bad`.
pub fn read_line(alloc: Global, bytes: &[u8]) -> Result<Line, LineRefusal>
    ensures said { IfOk result (λ line. Says bytes.now (Some (line_of line))) }
    ensures refused { IfErr result (RefusesLine bytes.now) }
{
    if let Some(path) = after_prefix(bytes, b"get".as_slice()) {
        return match read_path(alloc, path) {
            Ok(path) => Ok(Line::Get(path)),
            Err(refusal) => Err(refusal),
        };
    }
    if let Some(path) = after_prefix(bytes, b"keys".as_slice()) {
        return match read_path(alloc, path) {
            Ok(path) => Ok(Line::Keys(path)),
            Err(refusal) => Err(refusal),
        };
    }
    if let Some(bounds) = after_prefix(bytes, b"range".as_slice()) {
        return read_range(alloc, bounds);
    }
    let Some(edit) = after_prefix(bytes, b"set ".as_slice()) else {
        return Err(LineRefusal::Bad);
    };
    read_edit(alloc, edit)
}
