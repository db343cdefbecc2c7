//! Laws of look-ups and strides. Each function below has no body: its contract is the law.
ghost use Rattle.std.specs.Prelude.{◌≡◌, ◌^◌, ◌<◌, ◌≤◌, ◌==◌, true, [], length, Some, None};
ghost use Rattle.std.specs.List.{list_any};
ghost use Rattle.archive_shape_canonical.specs.FirstFit.{fitted_from, written_controls};
ghost use Rattle.archive_shape_canonical.specs.Strides.{places_for, sixteens, strides};
ghost use Rattle.archive_hash_probing.specs.Controls.{AreControls};
ghost use Rattle.archive_hash_probing.specs.Search.{IsLookup};
ghost use Rattle.archive_hash_probing.specs.Calls.{strides_to, AtFullPlaces, IsDecided, AreDecided, AcceptsOnly, AcceptsNone, FindsFirst};

use crate::places::search::Found;

/// A hash has at most one stride for each sixteen places, rounded up.
pub fn few_strides(hash: u64, capacity: usize)
    requires { 0 < capacity }
    ensures { length (strides hash capacity) ≤ sixteens capacity }
{}

/// The strides of every hash show every place.
pub fn every_place_is_shown(hash: u64, capacity: usize, place: usize)
    requires { place < capacity }
    ensures { list_any (λ p. place == p) (places_for hash capacity) ≡ true }
{}

/// In a table that was written, a look-up returns the item that was passed first among those that are accepted, and
/// none if none is accepted. This requires that only items of the hash that is looked up are accepted.
pub fn find_in_written<F: Fn(usize) -> bool>(
    controls: &[u8],
    capacity: usize,
    hashes: &[u64],
    places: &[u32],
    hash: u64,
    accepts: &F,
    found: Found,
)
    requires room { length hashes.now < capacity }
    requires fitted { places.now ≡ fitted_from capacity [] hashes.now }
    requires written { controls.now ≡ written_controls capacity hashes.now places.now }
    requires answer { IsLookup (F.post accepts.now) controls.now capacity hash found.place found.strides }
    requires never { AreDecided (F.post accepts.now) places.now (length hashes.now) }
    requires alike { AcceptsOnly (F.post accepts.now) places.now hashes.now hash }
    ensures first { FindsFirst (F.post accepts.now) places.now (length hashes.now) found.place }
    ensures absent { AcceptsNone (F.post accepts.now) places.now (length hashes.now) → found.place ≡ None }
{}

/// There is one result, with one number of strides: scans of every width return the same.
pub fn one_answer<F: Fn(usize) -> bool>(
    controls: &[u8],
    capacity: usize,
    hash: u64,
    accepts: &F,
    one: Found,
    other: Found,
)
    requires some { 0 < capacity }
    requires controls { AreControls controls.now capacity }
    requires never { AtFullPlaces controls.now capacity (IsDecided (F.post accepts.now)) }
    requires one { IsLookup (F.post accepts.now) controls.now capacity hash one.place one.strides }
    requires other { IsLookup (F.post accepts.now) controls.now capacity hash other.place other.strides }
    ensures { one ≡ other }
{}

/// An item is found in the first stride that shows its place. The number of strides is counted up to that stride.
pub fn counts_to_the_place<F: Fn(usize) -> bool>(
    controls: &[u8],
    capacity: usize,
    hash: u64,
    accepts: &F,
    place: usize,
    count: usize,
)
    requires some { 0 < capacity }
    requires controls { AreControls controls.now capacity }
    requires found { IsLookup (F.post accepts.now) controls.now capacity hash (Some place) count }
    requires never { IsDecided (F.post accepts.now) place }
    ensures { count ≡ strides_to controls.now hash capacity place }
{}
