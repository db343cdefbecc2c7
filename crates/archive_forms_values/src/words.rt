//! Words of four bytes, and the positions that they lead to as offsets.
ghost use Rattle.std.specs.Prelude.{◌≡◌, ◌+◌, ◌≤◌, length};
ghost use Rattle.archive_shape_layout.specs.Bytes.{word_at, target_from};

use archive_shape::{RawRelPtrI32, Ref};

/// Reads the word at `pos`.
pub fn read_word(bytes: &[u8], pos: usize) -> u32
    requires { pos + 4 ≤ length bytes.now }
    ensures { result ≡ word_at bytes.now pos }
{
    u32::from_le_bytes([bytes[pos], bytes[pos + 1], bytes[pos + 2], bytes[pos + 3]])
}

/// Returns the position that the offset at `pos` leads to, if there is one.
pub fn read_target(bytes: &[u8], pos: usize) -> Option<usize>
    requires { pos + 4 ≤ length bytes.now }
    ensures { result ≡ target_from pos (word_at bytes.now pos) }
{
    let _len = bytes.len();
    RawRelPtrI32::target(Ref::new(bytes, pos))
}
