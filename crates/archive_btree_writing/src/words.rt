//! The words after the values of a node: the length of a leaf, or the pointers of an inner node.
ghost use Rattle.std.specs.Prelude.{◌≡◌, ◌+◌, ◌*◌, ◌^◌, ◌<◌, ◌≤◌, length, MatchResult};
ghost use Rattle.archive_shape.specs.Bytes.{HasBytes, zeros, overwrite};
ghost use Rattle.std.specs.Int.{w32, to_le_bytes};
ghost use Rattle.archive_btree_writing.specs.Nodes.{children_of, roots_of, words_behind, words_size};
ghost use Rattle.archive_forms_laws.specs.Links.{link_bytes, LinkFits, LinkRefused};
ghost use Rattle.archive_btree_spelling.specs.Written.{links, LinksFit, LinksRefused};

use crate::children::Children;
use archive_forms_values::emplace_link;
use archive_shape::{Error, Place};

/// The size of a pointer in bytes.
const LINK: usize = 4;

/// Writes a pointer at `start` of a buffer, which will lie at position `pos` of the archive.
fn store_link(to: Option<usize>, start: usize, pos: usize, buffer: &mut [u8]) -> Result<(), Error>
    requires room { start + 4 ≤ length buffer.old }
    ensures { MatchResult result
        (λ _. LinkFits to pos × (buffer.new ≡ overwrite buffer.old start (link_bytes to pos)))
        (LinkRefused to pos) }
{
    emplace_link(to, Place::within(buffer, start, pos))
}

/// Writes pointers side by side from `start` of a buffer on, which will lie at position `pos` of the archive and is
/// zero there.
fn store_links(
    children: &[Option<usize>],
    start: usize,
    pos: usize,
    buffer: &mut [u8],
) -> Result<(), Error>
    requires room { start + length children.now * 4 ≤ length buffer.old }
    requires stands { pos + length children.now * 4 < 2 ^ 64 }
    requires blank { HasBytes buffer.old start (zeros (length children.now * 4)) }
    ensures { MatchResult result
        (λ _. LinksFit children.now pos × (buffer.new ≡ overwrite buffer.old start (links children.now pos)))
        (LinksRefused children.now pos) }
{
    let _len = buffer.len();
    let mut offset = 0;
    for (i, child) in children.iter().enumerate() {
        store_link(*child, start + offset, pos + offset, buffer)?;
        offset += LINK;
    }
    Ok(())
}

/// Writes the pointers of an inner node, the greater one after the lesser ones, as `store_links` does.
fn store_children(
    children: Children<'_>,
    start: usize,
    pos: usize,
    buffer: &mut [u8],
) -> Result<(), Error>
    requires room { start + (length children.lesser.now * 4 + 4) ≤ length buffer.old }
    requires stands { pos + (length children.lesser.now * 4 + 4) < 2 ^ 64 }
    requires blank { HasBytes buffer.old start (zeros (length children.lesser.now * 4 + 4)) }
    ensures { MatchResult result
        (λ _. LinksFit (children_of children.entry) pos × (buffer.new ≡ overwrite buffer.old start (links (children_of children.entry) pos)))
        (LinksRefused (children_of children.entry) pos) }
{
    let _len = buffer.len();
    let lesser = children.lesser.len() * LINK;
    store_links(children.lesser, start, pos, buffer)?;
    store_link(children.greater, start + lesser, pos + lesser, buffer)
}

/// Writes the length of a leaf at `start` of a buffer.
fn store_length(len: u32, start: usize, buffer: &mut [u8])
    requires room { start + 4 ≤ length buffer.old }
    ensures { buffer.new ≡ overwrite buffer.old start (to_le_bytes w32 len) }
{
    let end = start + 4;
    buffer[start..end].copy_from_slice(&len.to_le_bytes());
}

/// Writes the length of a leaf, or the pointers of an inner node, at `start` of a buffer, which will lie at position
/// `pos` of the archive and is zero there.
pub(crate) fn store_words(
    len: u32,
    children: Option<Children<'_>>,
    start: usize,
    pos: usize,
    buffer: &mut [u8],
) -> Result<(), Error>
    requires room { start + words_size children ≤ length buffer.old }
    requires stands { pos + words_size children < 2 ^ 64 }
    requires blank { HasBytes buffer.old start (zeros (words_size children)) }
    ensures { MatchResult result
        (λ _. LinksFit (roots_of children.entry) pos × (buffer.new ≡ overwrite buffer.old start (words_behind children.entry len pos)))
        (LinksRefused (roots_of children.entry) pos) }
{
    match children {
        None => {
            store_length(len, start, buffer);
            Ok(())
        }
        Some(children) => store_children(children, start, pos, buffer),
    }
}
