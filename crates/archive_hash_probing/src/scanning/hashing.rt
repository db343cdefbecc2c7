//! The hash of a key, which is a fold over its words of eight bytes, and its tag.
ghost use Rattle.std.specs.Prelude.{◌≡◌, ◌+◌, ◌<◌, ◌≤◌, drop, length};
ghost use Rattle.std.specs.List.{fold};
ghost use Rattle.std.specs.Int.{w64, from_le_bytes};
ghost use Rattle.archive_shape_canonical.specs.Hash.{hash_word, hash_words, text_hash, words_of};
ghost use Rattle.archive_shape_canonical.specs.FirstFit.{hash_tag};

use std::hash::{Hash, Hasher};

const MULTIPLIER: u64 = 0x517c_c1b7_2722_0a95;

/// The hasher of archived tables. It reads bytes as words of eight, and the remaining bytes as one word padded with
/// zeros.
#[derive(Clone, Copy)]
pub struct FxHasher64 {
    state: u64,
}

impl Default for FxHasher64 {
    ghost is_default = { λ h. h.state ≡ 0 };

    fn default() -> FxHasher64 {
        FxHasher64 { state: 0 }
    }
}

/// Returns the hash after one more word.
#[tactic(auto, unfolding(archive_shape_canonical::specs::Hash::hash_word))]
fn with_word(state: u64, word: u64) -> u64
    ensures { result ≡ hash_word state word }
{
    (state.rotate_left(5) ^ word).wrapping_mul(MULTIPLIER)
}

/// Returns the word from index `at` on, little endian.
fn whole_word(bytes: &[u8], at: usize) -> u64
    requires { at + 8 ≤ length bytes.now }
    ensures { result ≡ from_le_bytes w64 (drop at bytes.now) }
{
    u64::from_le_bytes([
        bytes[at],
        bytes[at + 1],
        bytes[at + 2],
        bytes[at + 3],
        bytes[at + 4],
        bytes[at + 5],
        bytes[at + 6],
        bytes[at + 7],
    ])
}

/// Returns the word from index `at` on, little endian and padded with zeros.
fn last_word(bytes: &[u8], at: usize) -> u64
    requires few { length bytes.now ≤ at + 8 }
    requires within { at ≤ length bytes.now }
    ensures { result ≡ from_le_bytes w64 (drop at bytes.now) }
{
    let mut word = 0;
    let mut end = bytes.len();
    while at < end {
        end -= 1;
        word = word << 8 | bytes[end] as u64;
    }
    word
}

/// Returns the hash after all words of some more bytes.
fn with_bytes(state: u64, bytes: &[u8]) -> u64
    ensures { result ≡ hash_words state (words_of bytes.now) }
{
    let mut hash = state;
    let mut at = 0;
    while at + 8 <= bytes.len() {
        hash = with_word(hash, whole_word(bytes, at));
        at += 8;
    }
    if at < bytes.len() {
        hash = with_word(hash, last_word(bytes, at));
    }
    hash
}

impl Hasher for FxHasher64 {
    ghost write = { λ h bytes. record { state = hash_words h.state (words_of bytes) } };

    ghost finish = { λ h. h.state };

    fn finish(&self) -> u64 {
        self.state
    }

    fn write(&mut self, bytes: &[u8]) {
        self.state = with_bytes(self.state, bytes);
    }
}

/// Returns the hash of a value, by a hasher that starts as its default.
pub fn hash_value<Q: Hash, H: Hasher + Default + Drop>(value: &Q) -> u64
    ensures { (first : H) × H.is_default first × (result ≡ H.finish (fold H.write first (Q.hash_input value.now))) }
{
    let mut state = H::default();
    value.hash(&mut state);
    state.finish()
}

/// Returns the hash of a text, by the hasher of archived tables.
pub fn hash_text(text: &str) -> u64
    ensures { result ≡ text_hash text.now }
{
    hash_value::<&str, FxHasher64>(&text)
}

/// Returns the tag of a hash, its top seven bits.
#[tactic(auto, unfolding(archive_shape_canonical::specs::FirstFit::hash_tag))]
pub fn tag_of(hash: u64) -> u8
    ensures value { result ≡ hash_tag hash }
    ensures bound { result < 128 }
{
    (hash >> 57) as u8
}
