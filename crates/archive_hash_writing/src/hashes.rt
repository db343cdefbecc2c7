//! Computes the hashes of items.
ghost use Rattle.archive_forms_writing.specs.Steps.{IsElement};
ghost use Rattle.archive_hash_writing.specs.Calls.{HashesItems};

use archive_shape::Error;
use std::alloc::Global;

/// Returns the hash of each item.
pub fn hash_items<T, H: Fn(&T) -> u64>(
    alloc: Global,
    items: &[T],
    hash: H,
) -> Result<Vec<u64>, Error>
    requires { (x : _) → IsElement items.now x.now → H.pre hash x }
    ensures { HashesItems H.Fn hash items.now result }
{
    let Ok(mut hashes) = Vec::with_capacity(alloc, items.len()) else {
        return Err(Error::OutOfMemory);
    };
    for item in items {
        if hashes.push(hash(item)).is_err() {
            return Err(Error::OutOfMemory);
        }
    }
    Ok(hashes)
}
