//! Eight controls as one word, the first as its lowest byte.
ghost use Rattle.std.specs.Prelude.{◌≡◌, ◌+◌, ◌<◌, ◌≤◌, length, take, drop, replicate};
ghost use Rattle.std.specs.Simd.Lanes.{number_l};
ghost use Rattle.archive_hash_probing.specs.Calls.{MarksBytes, GathersMarks};

use crate::scanning::bitmask::Word;

/// Returns the eight controls from index `at` on.
pub(crate) fn word_at(controls: &[u8], at: usize) -> Word
    requires { at + 8 ≤ length controls.now }
    ensures { result ≡ number_l 256 (take 8 (drop at controls.now)) }
{
    Word::from_le_bytes([
        controls[at],
        controls[at + 1],
        controls[at + 2],
        controls[at + 3],
        controls[at + 4],
        controls[at + 5],
        controls[at + 6],
        controls[at + 7],
    ])
}

/// Returns a word with `byte` in every lane.
pub(crate) fn repeated(byte: u8) -> Word
    ensures { result ≡ number_l 256 (replicate 8 byte) }
{
    byte as Word * 0x0101_0101_0101_0101
}

/// Returns the high bit of each byte that is 0, and of each byte of 1 directly above a marked one.
pub(crate) fn marked(word: Word) -> Word
    ensures { MarksBytes word result }
{
    word.wrapping_sub(0x0101_0101_0101_0101) & !word & 0x8080_8080_8080_8080
}

/// Returns the high bits of the bytes as adjacent bits, that of byte i as bit i.
pub(crate) fn gathered(word: Word) -> Word
    ensures { GathersMarks word result }
{
    (word >> 7).wrapping_mul(0x0102_0408_1020_4080) >> 56
}
