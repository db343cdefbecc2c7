//! Look-ups of items that return positions.
ghost use Rattle.std.specs.Prelude.{◌≡◌, ◌+◌, ◌*◌, ◌^◌, ◌<◌, ◌≤◌};
ghost use Rattle.archive_shape_layout.specs.Shape.{size_of};
ghost use Rattle.archive_shape_layout.specs.Shape.Shape.{table};
ghost use Rattle.archive_shape_canonical.specs.Strides.{sixteens};
ghost use Rattle.archive_forms_values.specs.Parts.{HasValue};
ghost use Rattle.archive_hash_maps.specs.Tables.{Buckets, IsTableAt, item_position};
ghost use Rattle.archive_hash_maps.specs.Calls.Tables.{MayCallAtItems, LooksUpAt, FindsAcceptedAt, FindsTheOnlyAt};

use crate::walking::buckets::buckets_at;
use archive_hash_probing::{Scan, find};
use archive_shape::Portable;

/// Returns the position of the item of a place.
pub fn position_of<T: Portable>(target: usize, place: usize) -> usize
    requires small { place < 2 ^ 32 }
    requires room { (place + 1) * size_of T.shape ≤ target }
    ensures { result ≡ item_position T.shape target place }
{
    target - (place + 1) * T::SIZE
}

/// Returns the position of an item that has the hash `hash` in the table at `pos`, and the number of strides that were
/// searched for it. `accepts` returns whether the item at a position is the one searched for.
pub fn search_table<T: Portable, S: Scan, F: Fn(usize) -> bool>(
    bytes: &[u8],
    pos: usize,
    hash: u64,
    accepts: &F,
) -> (Option<usize>, usize)
    requires has { HasValue (table T.shape) T.knows bytes.now pos }
    requires callable { MayCallAtItems T.shape bytes.now pos (F.pre accepts.now) }
    ensures answers { LooksUpAt T.shape bytes.entry.now pos (F.post accepts.now) hash result.0 result.1 }
    ensures accepted { FindsAcceptedAt T.shape bytes.entry.now pos (F.post accepts.now) result.0 }
    ensures findable { FindsTheOnlyAt T.shape bytes.entry.now pos (F.post accepts.now) hash result.0 }
    ensures few { (b : Buckets) → IsTableAt bytes.entry.now T.shape pos b → result.1 ≤ sixteens b.cap }
{
    let Some(buckets) = buckets_at::<T>(bytes, pos) else {
        return (None, 0);
    };
    let target = buckets.target;
    let accepts_place = |place: usize| -> bool
        requires small { place < 2 ^ 32 }
        requires room { (place + 1) * size_of T.shape ≤ target }
        requires item { F.pre accepts.now (item_position T.shape target place) }
        ensures { F.post accepts.entry.now (item_position T.shape target place) result }
    { accepts(position_of::<T>(target, place)) };
    let found = find::<S, _>(buckets.controls, buckets.capacity, hash, &accepts_place);
    match found.place {
        Some(place) => (Some(position_of::<T>(target, place)), found.strides),
        None => (None, found.strides),
    }
}
