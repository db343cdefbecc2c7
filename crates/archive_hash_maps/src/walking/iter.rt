//! Iterators over the items of a table by ascending place.
ghost use Rattle.std.specs.Prelude.{◌≡◌, ℕ, ◌+◌, ◌*◌, ◌^◌, ◌<◌, ◌≤◌, [], IfSome, All, length, map};
ghost use Rattle.std.specs.Iterator.{YieldsFirst, UpTo, item_count};
ghost use Rattle.std.specs.Iterator.SizeHint.{IsExactHint, IsWithinCount};
ghost use Rattle.archive_shape_layout.specs.Shape.Shape.{table};
ghost use Rattle.archive_forms_values.specs.Parts.{HasValue};
ghost use Rattle.archive_hash_maps.specs.Tables.{Buckets, IsTableAt, item_positions};
ghost use Rattle.archive_hash_maps.specs.Places.{full_place};
ghost use Rattle.archive_hash_maps.specs.Calls.Lists.{ListsFullPlaces};

use crate::walking::buckets::{buckets_at, number_at};
use crate::walking::places::PlaceWalk;
use archive_shape::{Portable, Ref};
use std::iter::FusedIterator;
use std::marker::{Model, PhantomData};

/// An iterator over the full places of a table in ascending order. Each element is a place, its control, which is a
/// tag, and its item. Its view is the list of the elements that are left.
#[derive(Drop)]
pub struct FullPlaces<'a, T> {
    bytes: &'a [u8],
    controls: &'a [u8],
    walk: PlaceWalk<'a>,
    target: usize,
    size: usize,
    of: PhantomData<T>,
}

impl<'a, T> Model for FullPlaces<'a, T> {
    ghost use Rattle.std.specs.Prelude.{◌≡◌, ℕ, ◌+◌, ◌-◌, ◌*◌, ◌^◌, ◌<◌, ◌≤◌, List, map, All, length};
    ghost use Rattle.archive_shape.specs.declared.references.refs.Ref.{Ref};
    ghost use Rattle.archive_hash_maps.specs.Places.{full_place};

    ghost Value = { List (ℕ × ℕ × Ref T) };

    ghost view = { λ it. map (full_place it.bytes it.controls.now it.target it.size) it.walk };

    ghost invariant = { λ it. All (λ p. (p < 2 ^ 32) × (p < length it.controls.now) × ((p + 1) * it.size ≤ it.target)) it.walk };
}

impl<'a, T> FullPlaces<'a, T> {
    /// Creates an iterator without elements.
    pub(crate) fn empty(bytes: &'a [u8]) -> Self
        ensures { result ≡ [] }
    {
        FullPlaces {
            bytes,
            controls: &[],
            walk: PlaceWalk::empty(),
            target: 0,
            size: 0,
            of: PhantomData,
        }
    }
}

impl<'a, T> Iterator for FullPlaces<'a, T> {
    type Item = (usize, u8, Ref<'a, T>);

    ghost next_gives = { YieldsFirst (λ xs. xs) };

    ghost remaining = { item_count (λ xs. xs) };

    fn next(&mut self) -> Option<(usize, u8, Ref<'a, T>)> {
        let place = self.walk.next()?;
        let at = self.target - (place + 1) * self.size;
        Some((place, self.controls[place], Ref::new(self.bytes, at)))
    }

    fn size_hint(&self) -> (usize, Option<usize>)
        ensures lower { IsWithinCount result.0 (item_count (λ xs. xs) self.now) }
        ensures upper { IfSome result.1 (UpTo (item_count (λ xs. xs) self.now)) }
        ensures exact { IsExactHint result (length self.now) }
    {
        self.walk.size_hint()
    }
}

impl<'a, T> ExactSizeIterator for FullPlaces<'a, T> {
    fn len(&self) -> usize {
        self.walk.len()
    }
}

impl<'a, T> FusedIterator for FullPlaces<'a, T> {}

/// An iterator over the positions of the items of a table, by ascending place. Its view is the list of the positions
/// that are left.
#[derive(Drop)]
pub struct RawIter<'a, T> {
    places: FullPlaces<'a, T>,
}

impl<'a, T> Model for RawIter<'a, T> {
    ghost use Rattle.std.specs.Prelude.{ℕ, List, map};

    ghost Value = { List ℕ };

    ghost view = { λ it. map (λ e. e.2.pos) it.places };
}

impl<'a, T> RawIter<'a, T> {
    /// Creates an iterator without elements.
    pub fn empty() -> Self
        ensures { result ≡ [] }
    {
        RawIter {
            places: FullPlaces::empty(&[]),
        }
    }
}

impl<'a, T> Iterator for RawIter<'a, T> {
    type Item = usize;

    ghost next_gives = { YieldsFirst (λ xs. xs) };

    ghost remaining = { item_count (λ xs. xs) };

    fn next(&mut self) -> Option<usize> {
        let (_, _, item) = self.places.next()?;
        Some(item.pos)
    }

    fn size_hint(&self) -> (usize, Option<usize>)
        ensures lower { IsWithinCount result.0 (item_count (λ xs. xs) self.now) }
        ensures upper { IfSome result.1 (UpTo (item_count (λ xs. xs) self.now)) }
        ensures exact { IsExactHint result (length self.now) }
    {
        self.places.size_hint()
    }
}

impl<'a, T> ExactSizeIterator for RawIter<'a, T> {
    fn len(&self) -> usize {
        self.places.len()
    }
}

impl<'a, T> FusedIterator for RawIter<'a, T> {}

/// Returns the full places of the table at `pos` in ascending order, each with its tag and its item.
pub fn full_places_at<T: Portable>(bytes: &[u8], pos: usize) -> FullPlaces<'_, T>
    requires { HasValue (table T.shape) T.knows bytes.now pos }
    ensures there { All (λ e. HasValue T.shape T.knows e.2.bytes.now e.2.pos) result }
    ensures places { ListsFullPlaces T.shape bytes.entry pos result }
{
    let Some(buckets) = buckets_at::<T>(bytes, pos) else {
        return FullPlaces::empty(bytes);
    };
    FullPlaces {
        bytes,
        controls: buckets.controls,
        walk: PlaceWalk::new(buckets, number_at(bytes, pos + 4)),
        target: buckets.target,
        size: T::SIZE,
        of: PhantomData,
    }
}

/// Returns the positions of the items of the table at `pos`, by ascending place.
pub fn raw_iter_at<T: Portable>(bytes: &[u8], pos: usize) -> RawIter<'_, T>
    requires { HasValue (table T.shape) T.knows bytes.now pos }
    ensures { (b : Buckets) → IsTableAt bytes.entry.now T.shape pos b
        → result ≡ item_positions T.shape b }
{
    RawIter {
        places: full_places_at(bytes, pos),
    }
}
