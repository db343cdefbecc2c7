//! Reads leaves in lines: where the head of a node ends, and the leaf that bytes represent.
ghost use Rattle.std.specs.Prelude.{◌≡◌, ◌++◌, IsUtf8, IfOk, IfErr, string_bytes};
ghost use Rattle.cabinet_text_grammar.specs.Tree.{IsLeaf};
ghost use Rattle.cabinet_text_grammar.specs.Spelling.{escaped, spelled_leaf};
ghost use Rattle.cabinet_text_nodes.specs.View.{leaf_of};
ghost use Rattle.cabinet_text_reading.specs.Parts.{IsCutAfterHead, RefusesLeaf, RefusesText};

use cabinet_text_bytes::{after_prefix, read_number, read_truth, split_word, try_unescape};
use cabinet_text_nodes::{Leaf, LineRefusal};
use std::alloc::Global;

/// Reads the text that bytes are the escaped form of.
pub(crate) fn read_argument(alloc: Global, argument: &[u8]) -> Result<String, LineRefusal>
    ensures text { IfOk result (λ t. IsUtf8 (string_bytes t)) }
    ensures escaped { IfOk result (λ t. argument.now ≡ escaped (string_bytes t)) }
    ensures refused { IfErr result (RefusesText argument.now) }
{
    match std::str::from_utf8(argument) {
        Ok(_) => {}
        Err(_) => return Err(LineRefusal::Bad),
    }
    match try_unescape(alloc, argument) {
        Ok(Some(text)) => Ok(text),
        Ok(None) => Err(LineRefusal::Bad),
        Err(_) => Err(LineRefusal::OutOfMemory),
    }
}

/// Reads bytes as a leaf. Only a text allocates memory.
pub(crate) fn read_leaf(alloc: Global, bytes: &[u8]) -> Result<Leaf, LineRefusal>
    ensures leaf { IfOk result (λ l. IsLeaf (leaf_of l)) }
    ensures spelled { IfOk result (λ l. bytes.now ≡ spelled_leaf (leaf_of l)) }
    ensures refused { IfErr result (RefusesLeaf bytes.now) }
{
    if let Some(argument) = after_prefix(bytes, b"text '".as_slice()) {
        let text = match read_argument(alloc, argument) {
            Ok(text) => text,
            Err(refusal) => return Err(refusal),
        };
        return Ok(Leaf::Text(text));
    }
    if let Some(digits) = after_prefix(bytes, b"int ".as_slice()) {
        let Some(number) = read_number(digits) else {
            return Err(LineRefusal::Bad);
        };
        return Ok(Leaf::Int(number));
    }
    let Some(value) = read_truth(bytes) else {
        return Err(LineRefusal::Bad);
    };
    Ok(Leaf::Bool(value))
}

/// Splits the bytes after `set `, `put ` or `insert ` where the head of their node ends: after `none`, or after a word, a
/// space and another word.
pub(crate) fn split_head(bytes: &[u8]) -> (&[u8], &[u8])
    ensures whole { bytes.now ≡ result.0.now ++ result.1.now }
    ensures cut { IsCutAfterHead bytes.now result.0.now result.1.now }
{
    let (word, spaced) = split_word(bytes);
    if word == b"none".as_slice() {
        return (word, spaced);
    }
    let Some(argument) = after_prefix(spaced, b" ".as_slice()) else {
        return (bytes, &[]);
    };
    let (_, path) = split_word(argument);
    bytes.split_at(bytes.len() - path.len())
}
