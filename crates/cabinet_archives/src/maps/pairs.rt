//! The pairs of a key and a node that hashed and kept maps have.
ghost use Rattle.std.specs.Prelude.{◌≡◌, ◌==◌, false, MatchOption};
ghost use Rattle.archive_forms_laws.specs.Text.{IsText};
ghost use Rattle.archive_forms_values.specs.Parts.{HasValue};
ghost use Rattle.cabinet_documents.specs.Node.{pair_shape};
ghost use Rattle.cabinet_archives.specs.Keyed.{SaysKey, knows_pairs};

use archive_forms_values::{ArchivedString, Entry};
use archive_shape::Ref;
use cabinet_archived::ArchivedNode;

/// A key and its node.
pub(crate) type Pair = Entry<ArchivedString, ArchivedNode>;

/// Returns the text of a pair's key.
pub(crate) fn key_of<'a>(pair: Ref<'a, Pair>) -> &'a str
    requires { HasValue pair_shape knows_pairs pair.bytes.now pair.pos }
    ensures { IsText pair.entry.bytes.now pair.entry.pos result.now }
{
    ArchivedString::as_str(Entry::key(pair))
}

/// Returns whether the key of the pair at a position is this one.
pub(crate) fn has_key(bytes: &[u8], at: usize, key: &str) -> bool
    requires { HasValue pair_shape knows_pairs bytes.now at }
    ensures { SaysKey bytes.now key.now at result }
{
    key_of(Ref::new(bytes, at)) == key
}

/// Returns whether the key of the pair at a position is this one, which the pair at `own` has. That pair is not read.
pub(crate) fn has_key_of(bytes: &[u8], at: usize, own: usize, key: &str) -> bool
    requires has { HasValue pair_shape knows_pairs bytes.now at }
    requires own { IsText bytes.now own key.now }
    ensures { SaysKey bytes.now key.now at result }
{
    if at == own {
        return true;
    }
    has_key(bytes, at, key)
}

/// Returns whether a look-up found this position or number.
pub(crate) fn is_found_at(found: Option<usize>, expected: usize) -> bool
    ensures { MatchOption found (result ≡ false) (λ at. result ≡ (at == expected)) }
{
    match found {
        Some(at) => at == expected,
        None => false,
    }
}
