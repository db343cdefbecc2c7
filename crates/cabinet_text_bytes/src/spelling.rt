//! Reads what texts and lines have in common: newlines, prefixes, words and truth values.
ghost use Rattle.std.specs.Prelude.{◌≡◌, ◌≢◌, ◌<◌, ◌≤◌, ◌==◌, ◌++◌, ℕ, length, position, slice_index};
ghost use Rattle.cabinet_text_bytes.specs.Calls.{CutsPrefix, ReadsTruth};
ghost use Rattle.cabinet_text_bytes.specs.Words.{HasNoSpace, IsAtSpace};

/// Returns the index of the first newline.
pub fn newline_in(bytes: &[u8]) -> Option<usize>
    ensures { result ≡ position (λ b. b == 10) bytes.now }
{
    bytes.iter().position(|byte| *byte == b'\n')
}

/// Returns the bytes after a prefix, or `None` if they do not begin with it.
pub fn after_prefix<'a>(bytes: &'a [u8], prefix: &[u8]) -> Option<&'a [u8]>
    ensures { CutsPrefix prefix.now bytes.now result }
{
    bytes.strip_prefix(prefix)
}

/// Returns the number of bytes before the first space.
fn word_len(bytes: &[u8]) -> usize
    ensures within { result ≤ length bytes.now }
    ensures before { (k : ℕ) → k < result → slice_index bytes.now k ≢ 32 }
    ensures space { result < length bytes.now → slice_index bytes.now result ≡ 32 }
{
    match bytes.iter().position(|byte| *byte == b' ') {
        Some(len) => len,
        None => bytes.len(),
    }
}

/// Splits bytes at the first space, and returns the bytes before it and the others.
pub fn split_word(bytes: &[u8]) -> (&[u8], &[u8])
    ensures whole { bytes.now ≡ result.0.now ++ result.1.now }
    ensures word { HasNoSpace result.0.now }
    ensures rest { IsAtSpace result.1.now }
{
    bytes.split_at(word_len(bytes))
}

/// Reads the line of a truth value, `bool true` or `bool false`.
pub fn read_truth(bytes: &[u8]) -> Option<bool>
    ensures { ReadsTruth bytes.now result }
{
    if bytes == b"bool true".as_slice() {
        return Some(true);
    }
    if bytes == b"bool false".as_slice() {
        return Some(false);
    }
    None
}
