//! First fit: the places where the items of a table are inserted.
ghost use Rattle.std.specs.Prelude.{◌≡◌, ℕ, ◌+◌, ◌*◌, ◌^◌, ◌<◌, ◌≤◌, [], length, replicate, slice_index, IfSome, IfNone};
ghost use Rattle.std.specs.List.{find};
ghost use Rattle.archive_shape_canonical.specs.FirstFit.{fitted_from, written_controls};
ghost use Rattle.archive_shape_canonical.specs.Strides.{places_for, places_shown};
ghost use Rattle.archive_shape_layout.specs.Content.{control_count};
ghost use Rattle.archive_shape_canonical.specs.Reach.{is_empty};
ghost use Rattle.archive_hash_probing.specs.Controls.{AreControls};
ghost use Rattle.archive_hash_probing.specs.Calls.{CountsPlaces, WritesTag, AreDistinct, AreReached, AreTagged};

use crate::places::search::place_of;
use crate::places::strides::Strides;
use crate::scanning::{Scan, stride_empties, tag_of};
use archive_shape_layout::Error;

/// Returns the number of places of a table of `len` items, in which at most `load_factor.0` of `load_factor.1` places
/// may be full. It is greater than `len`, or 0 if `len` is 0.
///
/// # Errors
///
/// Returns `InvalidLoadFactor` if none or more than all of the places may be full, and `LengthTooLarge` if there would
/// be 2^32 places or more.
pub fn capacity_for_len(len: usize, load_factor: (usize, usize)) -> Result<usize, Error>
    ensures { CountsPlaces len load_factor result }
{
    let (most, places) = load_factor;
    if most == 0 || most > places {
        return Err(Error::InvalidLoadFactor);
    }
    if len == 0 {
        return Ok(0);
    }
    let loaded = len as u128 * places as u128 / most as u128;
    let capacity = loaded.max(len as u128 + 1);
    if capacity > u32::MAX as u128 {
        return Err(Error::LengthTooLarge);
    }
    Ok(capacity as usize)
}

/// Returns the first empty place that a stride shows.
fn empty_in_stride<S: Scan>(controls: &[u8], capacity: usize, position: usize) -> Option<usize>
    requires small { capacity < 2 ^ 32 }
    requires within { position + 16 ≤ length controls.now }
    requires controls { AreControls controls.now capacity }
    ensures { result ≡ find (λ p. is_empty (slice_index controls.now p)) (places_shown capacity position) }
{
    let lane = stride_empties::<S>(controls, position).lowest_set_bit()?;
    let control = position + lane;
    if control < 2 * capacity {
        Some(place_of(control, capacity))
    } else {
        None
    }
}

/// Returns the first empty place that the strides of a hash show. There is one in every table that has an empty place.
pub fn first_empty<S: Scan>(controls: &[u8], capacity: usize, hash: u64) -> Option<usize>
    requires some { 0 < capacity }
    requires small { capacity < 2 ^ 32 }
    requires controls { AreControls controls.now capacity }
    ensures first { result ≡ find (λ p. is_empty (slice_index controls.now p)) (places_for hash capacity) }
    ensures bound { IfSome result (λ place. place < capacity) }
    ensures full { IfNone result ((place : ℕ) → place < capacity → slice_index controls.now place < 128) }
{
    let mut strides = Strides::new(hash, capacity);
    while let Some(position) = strides.next() {
        let place = empty_in_stride::<S>(controls, capacity, position);
        if place.is_some() {
            return place;
        }
    }
    None
}

/// Inserts an item of a hash into a table: writes its tag at the first empty place, and again a capacity further on.
/// Returns the place, or `None` if the table is full.
pub fn insert<S: Scan>(controls: &mut [u8], capacity: usize, hash: u64) -> Option<usize>
    requires some { 0 < capacity }
    requires small { capacity < 2 ^ 32 }
    requires controls { AreControls controls.old capacity }
    ensures first { result ≡ find (λ p. is_empty (slice_index controls.old p)) (places_for hash capacity) }
    ensures bound { IfSome result (λ place. place < capacity) }
    ensures full { IfNone result ((place : ℕ) → place < capacity → slice_index controls.old place < 128) }
    ensures written { WritesTag controls.old capacity hash result controls.new }
    ensures kept { IfNone result (controls.new ≡ controls.old) }
    ensures controls { AreControls controls.new capacity }
{
    let place = first_empty::<S>(controls, capacity, hash)?;
    let tag = tag_of(hash);
    controls[place] = tag;
    if place + capacity < controls.len() {
        controls[place + capacity] = tag;
    }
    Some(place)
}

/// Sets every control to empty.
fn clear(controls: &mut [u8])
    ensures { controls.new ≡ replicate (length controls.old) 255 }
{
    for control in controls.iter_mut() {
        *control = 255;
    }
}

/// Writes the controls of a table whose items have these hashes, each inserted where it first fits, and their places.
pub fn write_controls<S: Scan>(
    controls: &mut [u8],
    capacity: usize,
    hashes: &[u64],
    places: &mut [u32],
)
    requires small { capacity < 2 ^ 32 }
    requires controls { length controls.old ≡ control_count capacity }
    requires room { length hashes.now < capacity }
    requires places { length places.old ≡ length hashes.now }
    ensures fitted { places.new ≡ fitted_from capacity [] hashes.now }
    ensures written { controls.new ≡ written_controls capacity hashes.now places.new }
    ensures controls { AreControls controls.new capacity }
    ensures bound { (j : ℕ) → j < length hashes.now → slice_index places.new j < capacity }
    ensures distinct { AreDistinct places.new (length hashes.now) }
    ensures reached { AreReached controls.new capacity hashes.now places.new }
    ensures tags { AreTagged controls.new hashes.now places.new }
{
    clear(controls);
    for i in 0..hashes.len() {
        let place = insert::<S>(controls, capacity, hashes[i]);
        places[i] = place.unwrap_or(0) as u32;
    }
}
