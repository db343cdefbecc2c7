//! Steps over the items of a table that may be written over.
ghost use Rattle.std.specs.Prelude.{◌+◌, ◌≤◌, length, IfSome};
ghost use Rattle.archive_shape_layout.specs.Shape.Shape.{table};
ghost use Rattle.archive_forms_values.specs.Parts.{HasValue};
ghost use Rattle.archive_hash_maps.specs.Calls.Entries.{IsEntryIn};
ghost use Rattle.archive_hash_maps.specs.Calls.Walks.{BeginsWalk, IsItemWalk, WalksItem, IsEntryWalk, WalksEntry};

use crate::checking::controls_at;
use crate::walking::buckets::{buckets_at, number_at};
use crate::walking::lookup::position_of;
use crate::walking::places::pass_place;
use archive_forms_values::{Entry, next_multiple};
use archive_shape::Portable;

/// The full places of a table that a cursor has left. The controls are read again at each step.
#[derive(Clone, Copy)]
pub(crate) struct PlacesLeft {
    target: usize,
    capacity: usize,
    next: usize,
    pub left: usize,
}

/// The positions of an entry's key and value.
#[derive(Clone, Copy, Debug, PartialEq, Eq)]
pub struct EntryAt {
    pub key: usize,
    pub value: usize,
}

/// Returns all full places of the table at `pos`.
pub(crate) fn places_left<T: Portable>(bytes: &[u8], pos: usize) -> PlacesLeft
    requires { HasValue (table T.shape) T.knows bytes.now pos }
    ensures { BeginsWalk T.Portable bytes.now pos result bytes.now }
{
    match buckets_at::<T>(bytes, pos) {
        Some(buckets) => PlacesLeft {
            target: buckets.target,
            capacity: buckets.capacity,
            next: 0,
            left: number_at(bytes, pos + 4),
        },
        None => PlacesLeft {
            target: 0,
            capacity: 0,
            next: 0,
            left: 0,
        },
    }
}

/// Returns the position of the next item, and passes the item.
pub(crate) fn pass_item<T: Portable>(walk: &mut PlacesLeft, bytes: &[u8]) -> Option<usize>
    requires { IsItemWalk T.Portable walk.old bytes.now }
    ensures there { IfSome result (λ at. at + T.SIZE ≤ length bytes.now) }
    ensures steps { WalksItem T.Portable walk.old bytes.now result walk.new }
{
    if walk.left == 0 {
        return None;
    }
    let controls = controls_at(bytes, walk.target, walk.capacity);
    let Some(place) = pass_place(controls, walk.capacity, &mut walk.next) else {
        return None;
    };
    walk.left -= 1;
    Some(position_of::<T>(walk.target, place))
}

/// Returns the positions of the next entry's key and value, and passes the entry.
pub(crate) fn pass_entry<K: Portable, V: Portable>(
    walk: &mut PlacesLeft,
    bytes: &[u8],
) -> Option<EntryAt>
    requires { IsEntryWalk K.Portable V.Portable walk.old bytes.now }
    ensures there { IfSome result (IsEntryIn K.Portable V.Portable bytes.now) }
    ensures steps { WalksEntry K.Portable V.Portable walk.old bytes.now result walk.new }
{
    let _len = bytes.len();
    let Some(key) = pass_item::<Entry<K, V>>(walk, bytes) else {
        return None;
    };
    Some(EntryAt {
        key,
        value: key + next_multiple(K::SIZE, V::ALIGN),
    })
}
