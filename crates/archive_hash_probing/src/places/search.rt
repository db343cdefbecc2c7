//! A look-up along the strides of a hash.
ghost use Rattle.std.specs.Prelude.{◌≡◌, ◌+◌, ◌*◌, ◌%◌, ◌^◌, ◌<◌, ◌≤◌, length, IfSome};
ghost use Rattle.std.specs.List.{list_any};
ghost use Rattle.archive_shape_canonical.specs.Strides.{sixteens};
ghost use Rattle.archive_shape_canonical.specs.Reach.{is_empty, shown};
ghost use Rattle.archive_hash_probing.specs.Controls.{AreControls};
ghost use Rattle.archive_hash_probing.specs.Search.{IsLookup};
ghost use Rattle.archive_hash_probing.specs.Calls.{AtFullPlaces, HasAccepted, FindsInStride, FindsReached};

use crate::places::strides::Strides;
use crate::scanning::{Scan, stride_empties, stride_matches, tag_of};

/// The result of a look-up, and the number of strides that it searched.
#[derive(Clone, Copy, Debug, PartialEq, Eq)]
pub struct Found {
    /// The place of the item, or `None` if no item is found.
    pub place: Option<usize>,
    /// The number of strides up to the one that shows the item. If none is found, it is the number up to the first
    /// stride that shows an empty control.
    pub strides: usize,
}

/// Returns the place of a control whose index is below twice the capacity.
#[tactic(auto, using(crate::proofs::PlaceLemmas::wrapped_low, crate::proofs::PlaceLemmas::wrapped_high))]
pub(crate) fn place_of(control: usize, capacity: usize) -> usize
    requires small { capacity < 2 ^ 32 }
    requires below { control < 2 * capacity }
    ensures value { result ≡ control % capacity }
    ensures bound { result < capacity }
{
    if control < capacity {
        control
    } else {
        control - capacity
    }
}

/// Returns `true` if a stride shows an empty control.
fn shows_empty<S: Scan>(controls: &[u8], position: usize) -> bool
    requires { position + 16 ≤ length controls.now }
    ensures { result ≡ list_any is_empty (shown controls.now position) }
{
    stride_empties::<S>(controls, position).any_bit_set()
}

/// Returns the first accepted item of a stride among those that have the tag. A scan may mark another control above one
/// that is the tag, so each marked control is compared with the tag.
fn find_in_stride<S: Scan, F: Fn(usize) -> bool>(
    controls: &[u8],
    capacity: usize,
    position: usize,
    tag: u8,
    accepts: &F,
) -> Option<usize>
    requires tag { tag < 128 }
    requires small { capacity < 2 ^ 32 }
    requires within { position + 16 ≤ length controls.now }
    requires controls { AreControls controls.now capacity }
    requires callable { AtFullPlaces controls.now capacity (F.pre accepts.now) }
    ensures { FindsInStride (F.post accepts.now) controls.now capacity tag position result }
{
    let mut marks = stride_matches::<S>(controls, position, tag);
    while let Some(lane) = marks.lowest_set_bit() {
        if controls[position + lane] == tag {
            let place = place_of(position + lane, capacity);
            if accepts(place) {
                return Some(place);
            }
        }
        marks = marks.remove_lowest_bit();
    }
    None
}

/// Looks up an item of a hash in the controls of a table. `accepts` returns whether the item at a place is the one to
/// be found. It is called for the items under the hash's tag alone, until it returns `true`.
pub fn find<S: Scan, F: Fn(usize) -> bool>(
    controls: &[u8],
    capacity: usize,
    hash: u64,
    accepts: &F,
) -> Found
    requires some { 0 < capacity }
    requires small { capacity < 2 ^ 32 }
    requires controls { AreControls controls.now capacity }
    requires callable { AtFullPlaces controls.now capacity (F.pre accepts.now) }
    ensures answer { IsLookup (F.post accepts.now) controls.now capacity hash result.place result.strides }
    ensures item { IfSome result.place (HasAccepted (F.post accepts.now) controls.now capacity) }
    ensures few { result.strides ≤ sixteens capacity }
    ensures findable { FindsReached (F.post accepts.now) controls.now capacity hash result.place }
{
    let tag = tag_of(hash);
    let mut strides = Strides::new(hash, capacity);
    let mut searched = 0;
    while let Some(position) = strides.next() {
        searched += 1;
        if let Some(place) = find_in_stride::<S, F>(controls, capacity, position, tag, accepts) {
            return Found {
                place: Some(place),
                strides: searched,
            };
        }
        if shows_empty::<S>(controls, position) {
            return Found {
                place: None,
                strides: searched,
            };
        }
    }
    Found {
        place: None,
        strides: searched,
    }
}
