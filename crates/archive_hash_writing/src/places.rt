//! Arranges the items of a table by their places.
ghost use Rattle.std.specs.Prelude.{◌≡◌, ◌<◌, All, length};
ghost use Rattle.archive_hash_writing.specs.Calls.{PlacesItems};

use archive_shape::Error;
use std::alloc::Global;

/// Returns the item at each of the places of a table, or `None` where there is no item. Item `i` has the place
/// `places[i]`. If two items had the same place, the first of them would be there.
pub(crate) fn place_items<'a, T>(
    alloc: Global,
    capacity: usize,
    items: &'a [T],
    places: &[u32],
) -> Result<Vec<Option<&'a T>>, Error>
    requires even { length places.now ≡ length items.now }
    requires within { All (λ place. place < capacity) places.now }
    ensures { PlacesItems capacity places.now items.now result }
{
    let Ok(mut table) = vec![in alloc; None; capacity] else {
        return Err(Error::OutOfMemory);
    };
    for i in (0..items.len()).rev() {
        table[places[i] as usize] = Some(&items[i]);
    }
    Ok(table)
}
