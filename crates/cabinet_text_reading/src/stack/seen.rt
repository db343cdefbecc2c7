//! The escaped keys of a kept map, among which another is searched for.
ghost use Rattle.std.specs.Prelude.{◌≡◌, [], false, IfOk, OnErr};
ghost use Rattle.std.specs.Bool.{OnTrue};
ghost use Rattle.cabinet_text_reading.specs.Seen.{AddsKey, AreInOrder, KeysAscend, IsAbove, has_key, seen_keys};

use std::alloc::{AllocError, Global};
use std::collections::BTreeSet;

/// The escaped keys of a map: a list while they ascend, and a set from the first that does not.
#[derive(Drop)]
pub(crate) enum SeenKeys<'a> {
    Ascending(Vec<&'a [u8]>),
    Any(BTreeSet<&'a [u8]>),
}

/// Returns whether a key is above the last of ascending ones.
fn is_above(keys: &[&[u8]], key: &[u8]) -> bool
    ensures { OnTrue result (IsAbove keys.now key.now) }
{
    match keys.last() {
        Some(last) => (*last).cmp(key).is_lt(),
        None => true,
    }
}

/// Adds a key to a set, unless the set has it.
fn with_any<'a>(
    mut keys: BTreeSet<&'a [u8]>,
    key: &'a [u8],
) -> Result<Option<SeenKeys<'a>>, AllocError>
    ensures seen { IfOk result (AddsKey keys.entry.keys key.now) }
    ensures memory { OnErr result (has_key key.now keys.entry.keys ≡ false) }
{
    if keys.insert(key)? {
        Ok(Some(SeenKeys::Any(keys)))
    } else {
        Ok(None)
    }
}

/// Adds a key to ascending ones, unless it is one of them.
fn with_ascending<'a>(
    alloc: Global,
    mut keys: Vec<&'a [u8]>,
    key: &'a [u8],
) -> Result<Option<SeenKeys<'a>>, AllocError>
    requires { KeysAscend keys.items }
    ensures seen { IfOk result (AddsKey keys.entry.items key.now) }
    ensures memory { OnErr result (has_key key.now keys.entry.items ≡ false) }
{
    if is_above(&keys, key) {
        keys.push(key)?;
        return Ok(Some(SeenKeys::Ascending(keys)));
    }
    if keys.contains(&key) {
        return Ok(None);
    }
    with_any(BTreeSet::from_iter(alloc, keys)?, key)
}

impl<'a> SeenKeys<'a> {
    /// Creates a list without keys. It does not allocate.
    pub(crate) fn new(alloc: Global) -> Self
        ensures keys { seen_keys result ≡ [] }
        ensures order { AreInOrder result }
    {
        SeenKeys::Ascending(Vec::new(alloc))
    }

    /// Adds a key, unless it is one of the others.
    pub(crate) fn with_key(
        self,
        alloc: Global,
        key: &'a [u8],
    ) -> Result<Option<SeenKeys<'a>>, AllocError>
        requires { AreInOrder self }
        ensures seen { IfOk result (AddsKey (seen_keys self.entry) key.now) }
        ensures memory { OnErr result (has_key key.now (seen_keys self.entry) ≡ false) }
    {
        match self {
            SeenKeys::Ascending(keys) => with_ascending(alloc, keys, key),
            SeenKeys::Any(keys) => with_any(keys, key),
        }
    }
}
