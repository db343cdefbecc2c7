//! Cursors over the items of a table that lend one item at a time.
ghost use Rattle.std.specs.Prelude.{◌≡◌, ◌+◌, ◌≤◌, length, IfSome};
ghost use Rattle.archive_shape_layout.specs.Shape.Shape.{table};
ghost use Rattle.archive_forms_values.specs.Parts.{HasValue};
ghost use Rattle.archive_hash_maps.specs.Calls.Cursors.{BeginsTable, IsOverItems, CountsItems, PassesItem, LendsItem, MayVisitItem, VisitsItem};

use crate::walking::passing::{PlacesLeft, pass_item, places_left};
use archive_forms_values::{lend_own, visit_own};
use archive_shape::{OwnSeal, Portable};
use std::marker::PhantomData;

/// A cursor over the items by ascending place. Between its steps the archive may be written, as long as it differs from
/// the archive that the cursor began with at most in the own bytes of the items.
#[derive(Drop)]
pub struct RawIterSeal<'a, T> {
    /// The whole archive.
    pub bytes: &'a mut [u8],
    walk: PlacesLeft,
    of: PhantomData<T>,
}

impl<'a, T: Portable> RawIterSeal<'a, T> {
    /// Creates a cursor over the items of the table at `pos`.
    pub fn new(bytes: &'a mut [u8], pos: usize) -> Self
        requires has { HasValue (table T.shape) T.knows bytes.old pos }
        ensures same_reference { result.bytes.ghost_name ≡ bytes.entry.ghost_name }
        ensures bytes { result.bytes.now ≡ bytes.old }
        ensures items { BeginsTable T.Portable bytes.old pos result }
    {
        let walk = places_left::<T>(bytes, pos);
        RawIterSeal {
            bytes,
            walk,
            of: PhantomData,
        }
    }

    /// Returns the position of the next item, and passes the item.
    pub fn advance(&mut self) -> Option<usize>
        requires { IsOverItems T.Portable self.old }
        ensures same_reference { self.new.bytes.ghost_name ≡ self.old.bytes.ghost_name }
        ensures bytes { self.new.bytes.now ≡ self.old.bytes.now }
        ensures there { IfSome result (λ at. at + T.SIZE ≤ length self.old.bytes.now) }
        ensures steps { PassesItem T.Portable self.old result self.new }
    {
        let bytes = std::mem::take(&mut self.bytes);
        let passed = pass_item::<T>(&mut self.walk, bytes);
        self.bytes = bytes;
        passed
    }

    /// Returns the next item with only its own bytes, and passes the item. The contract does not state the archive's
    /// bytes after the loan: a caller that needs them calls `advance`, and creates the seal from those bytes.
    pub fn next(&mut self) -> Option<OwnSeal<'_, T>>
        requires { IsOverItems T.Portable self.old }
        ensures there { IfSome result (λ r. length r.own.now ≡ T.SIZE) }
        ensures lends { LendsItem T.Portable self.old result }
    {
        let Some(at) = self.advance() else {
            return None;
        };
        Some(lend_own(self.bytes, at))
    }

    /// Calls `visit` with the next item, which has only its own bytes, and passes the item. Returns the result of the
    /// call, or `None` if no item is left.
    pub fn visit_next<R, F: FnMut(&mut OwnSeal<'_, T>) -> R>(&mut self, visit: &mut F) -> Option<R>
        requires has { IsOverItems T.Portable self.old }
        requires callable { MayVisitItem T.Portable self.old (F.pre visit.old) }
        ensures same_reference { self.new.bytes.ghost_name ≡ self.old.bytes.ghost_name }
        ensures visits { VisitsItem T.Portable F.step self.old self.new visit.old visit.new result }
    {
        let Some(at) = self.advance() else {
            return None;
        };
        Some(visit_own::<T, _, _>(self.bytes, at, visit))
    }

    /// Returns the number of items that are left.
    pub fn len(&self) -> usize
        ensures { CountsItems T.Portable self.now result }
    {
        self.walk.left
    }
}
