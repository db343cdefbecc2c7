//! Compares keys by their escaped forms.
ghost use Rattle.std.specs.Prelude.{◌≡◌, ℕ, List};
ghost use Rattle.std.specs.Bool.{OnTrue};
ghost use Rattle.std.specs.Ordering.{nat_cmp};
ghost use Rattle.std.specs.Cmp.Lexicographic.{slice_cmp};
ghost use Rattle.cabinet_text_grammar.specs.Spelling.{escaped};

use cabinet_text_bytes::{first_byte, unescaped_len};
use std::cmp::Ordering;

/// Returns whether bytes are the escaped form of themselves: they are as long as the text that they represent.
fn is_own_text(argument: &[u8]) -> bool
    ensures { OnTrue result ((t : List ℕ) → argument.now ≡ escaped t → argument.now ≡ t) }
{
    match unescaped_len(argument) {
        Some(len) => len == argument.len(),
        None => false,
    }
}

/// Compares the text that escaped bytes represent to a key. Only a text with escapes is compared byte by byte.
pub fn cmp_escaped(argument: &[u8], key: &[u8]) -> Ordering
    requires { (t : List ℕ) × (argument.now ≡ escaped t) }
    ensures { (t : List ℕ) → argument.now ≡ escaped t → result ≡ slice_cmp nat_cmp t key.now }
{
    if is_own_text(argument) {
        return argument.cmp(key);
    }
    let mut rest = argument;
    let mut left = key;
    while let Some((byte, after)) = first_byte(rest) {
        let Some((first, others)) = left.split_first() else {
            return Ordering::Greater;
        };
        match byte.cmp(first) {
            Ordering::Less => return Ordering::Less,
            Ordering::Greater => return Ordering::Greater,
            Ordering::Equal => {
                rest = after;
                left = others;
            }
        }
    }
    if left.is_empty() {
        Ordering::Equal
    } else {
        Ordering::Less
    }
}
