//! Iterates over the full places of a table in ascending order.
ghost use Rattle.std.specs.Prelude.{◌≡◌, ◌<◌, ◌≤◌, [], length, slice_index, IfSome};
ghost use Rattle.std.specs.Iterator.{YieldsFirst, UpTo, item_count};
ghost use Rattle.std.specs.Iterator.SizeHint.{IsExactHint, IsWithinCount};
ghost use Rattle.archive_hash_maps.specs.Places.{places_from};
ghost use Rattle.archive_hash_maps.specs.Calls.Walks.{PassesPlace};

use crate::walking::buckets::BucketsAt;
use std::iter::FusedIterator;
use std::marker::Model;

/// Advances `next` past the first place whose control is a tag, and returns that place.
pub(crate) fn pass_place(controls: &[u8], capacity: usize, next: &mut usize) -> Option<usize>
    requires next { next.old ≤ capacity }
    requires within { capacity ≤ length controls.now }
    ensures next { next.new ≤ capacity }
    ensures gives { PassesPlace controls.now capacity next.old result next.new }
    ensures full { IfSome result (λ p. (p < capacity) × (slice_index controls.now p < 128)) }
{
    while *next < capacity {
        let place = *next;
        *next += 1;
        if controls[place] < 128 {
            return Some(place);
        }
    }
    None
}

/// An iterator over the full places of a table that are left, in ascending order.
#[derive(Drop)]
pub(crate) struct PlaceWalk<'a> {
    controls: &'a [u8],
    capacity: usize,
    next: usize,
    left: usize,
}

impl<'a> Model for PlaceWalk<'a> {
    ghost use Rattle.std.specs.Prelude.{◌≡◌, ◌≤◌, ℕ, List, length};
    ghost use Rattle.archive_hash_maps.specs.Places.{places_from};

    ghost Value = { List ℕ };

    ghost view = { λ w. places_from w.controls.now w.capacity w.next };

    ghost invariant = { λ w. (w.next ≤ w.capacity) × (w.capacity ≤ length w.controls.now)
        × (w.left ≡ length (places_from w.controls.now w.capacity w.next)) };
}

impl<'a> PlaceWalk<'a> {
    /// Creates an iterator over the places of a table, of which `len` are full.
    pub(crate) fn new(buckets: BucketsAt<'a>, len: usize) -> Self
        requires within { buckets.capacity ≤ length buckets.controls.now }
        requires len { len ≡ length (places_from buckets.controls.now buckets.capacity 0) }
        ensures { result ≡ places_from buckets.entry.controls.now buckets.entry.capacity 0 }
    {
        PlaceWalk {
            controls: buckets.controls,
            capacity: buckets.capacity,
            next: 0,
            left: len,
        }
    }

    /// Creates an iterator without places.
    pub(crate) fn empty() -> Self
        ensures { result ≡ [] }
    {
        PlaceWalk {
            controls: &[],
            capacity: 0,
            next: 0,
            left: 0,
        }
    }
}

impl<'a> Iterator for PlaceWalk<'a> {
    type Item = usize;

    ghost next_gives = { YieldsFirst (λ xs. xs) };

    ghost remaining = { item_count (λ xs. xs) };

    fn next(&mut self) -> Option<usize> {
        let place = pass_place(self.controls, self.capacity, &mut self.next)?;
        self.left -= 1;
        Some(place)
    }

    fn size_hint(&self) -> (usize, Option<usize>)
        ensures lower { IsWithinCount result.0 (item_count (λ xs. xs) self.now) }
        ensures upper { IfSome result.1 (UpTo (item_count (λ xs. xs) self.now)) }
        ensures exact { IsExactHint result (length self.now) }
    {
        (self.left, Some(self.left))
    }
}

impl<'a> ExactSizeIterator for PlaceWalk<'a> {
    fn len(&self) -> usize {
        self.left
    }
}

impl<'a> FusedIterator for PlaceWalk<'a> {}
