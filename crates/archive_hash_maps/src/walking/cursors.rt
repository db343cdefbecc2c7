//! Cursors over the entries of a map that lend one value at a time.
ghost use Rattle.std.specs.Prelude.{◌≡◌, ◌+◌, ◌≤◌, length, IfSome};
ghost use Rattle.archive_hash_maps.specs.Calls.Cursors.{BeginsMap, IsOverEntries, CountsEntries, PassesEntry, LendsEntry, MayVisitEntry, VisitsEntry, PassesValue, LendsValue, MayVisitValue, VisitsValue};
ghost use Rattle.archive_hash_maps.specs.Calls.Entries.{HasMapAt, IsEntryIn, IsLentEntry};

use crate::walking::passing::{EntryAt, PlacesLeft, pass_entry, places_left};
use archive_forms_values::{Entry, lend_entry, visit_entry, visit_own};
use archive_shape::{OwnSeal, Portable, Ref};
use std::marker::PhantomData;

/// A cursor over the entries by ascending place. Between its steps the archive may be written, as long as it differs
/// from the archive that the cursor began with at most in the own bytes of the values.
#[derive(Drop)]
pub struct IterMut<'a, K, V> {
    /// The whole archive.
    pub bytes: &'a mut [u8],
    walk: PlacesLeft,
    of: PhantomData<(K, V)>,
}

impl<'a, K: Portable, V: Portable> IterMut<'a, K, V> {
    /// Creates a cursor over the entries of the map at `pos`.
    pub fn new(bytes: &'a mut [u8], pos: usize) -> Self
        requires has { HasMapAt K.shape V.shape K.knows V.knows bytes.old pos }
        ensures same_reference { result.bytes.ghost_name ≡ bytes.entry.ghost_name }
        ensures bytes { result.bytes.now ≡ bytes.old }
        ensures entries { BeginsMap K.Portable V.Portable bytes.old pos result }
    {
        let walk = places_left::<Entry<K, V>>(bytes, pos);
        IterMut {
            bytes,
            walk,
            of: PhantomData,
        }
    }

    /// Returns the positions of the next entry's key and value, and passes the entry.
    pub fn advance(&mut self) -> Option<EntryAt>
        requires { IsOverEntries K.Portable V.Portable self.old }
        ensures same_reference { self.new.bytes.ghost_name ≡ self.old.bytes.ghost_name }
        ensures bytes { self.new.bytes.now ≡ self.old.bytes.now }
        ensures there { IfSome result (IsEntryIn K.Portable V.Portable self.old.bytes.now) }
        ensures steps { PassesEntry K.Portable V.Portable self.old result self.new }
    {
        let bytes = std::mem::take(&mut self.bytes);
        let passed = pass_entry::<K, V>(&mut self.walk, bytes);
        self.bytes = bytes;
        passed
    }

    /// Returns the next entry's key, and its value with only the value's own bytes, and passes the entry. The contract
    /// does not state the archive's bytes after the loan: a caller that needs them calls `advance`, and creates the
    /// seal from those bytes.
    pub fn next(&mut self) -> Option<(Ref<'_, K>, OwnSeal<'_, V>)>
        requires { IsOverEntries K.Portable V.Portable self.old }
        ensures there { IfSome result (IsLentEntry K.Portable V.Portable) }
        ensures lends { LendsEntry K.Portable V.Portable self.old result }
    {
        let Some(entry) = self.advance() else {
            return None;
        };
        Some(lend_entry(self.bytes, entry.key, entry.value))
    }

    /// Calls `visit` with the next entry's key and its value, which has only its own bytes, and passes the entry. The
    /// key is read from the bytes before the value. Returns the result of the call, or `None` if no entry is left.
    pub fn visit_next<R, F: FnMut(Ref<'_, K>, &mut OwnSeal<'_, V>) -> R>(
        &mut self,
        visit: &mut F,
    ) -> Option<R>
        requires has { IsOverEntries K.Portable V.Portable self.old }
        requires callable { MayVisitEntry K.Portable V.Portable self.old (F.pre visit.old) }
        ensures same_reference { self.new.bytes.ghost_name ≡ self.old.bytes.ghost_name }
        ensures visits { VisitsEntry K.Portable V.Portable F.step self.old self.new visit.old visit.new result }
    {
        let Some(entry) = self.advance() else {
            return None;
        };
        Some(visit_entry::<K, V, _, _>(self.bytes, entry.key, entry.value, visit))
    }

    /// Returns the number of entries that are left.
    pub fn len(&self) -> usize
        ensures { CountsEntries K.Portable V.Portable self.now result }
    {
        self.walk.left
    }
}

/// A cursor over the values by ascending place. It wraps an `IterMut`, the cursor over the entries.
#[derive(Drop)]
pub struct ValuesMut<'a, K, V> {
    /// The cursor over the entries that the values belong to.
    pub entries: IterMut<'a, K, V>,
}

impl<'a, K: Portable, V: Portable> ValuesMut<'a, K, V> {
    /// Returns the position of the next value, and passes the value.
    pub fn advance(&mut self) -> Option<usize>
        requires { IsOverEntries K.Portable V.Portable self.old.entries }
        ensures same_reference { self.new.entries.bytes.ghost_name ≡ self.old.entries.bytes.ghost_name }
        ensures bytes { self.new.entries.bytes.now ≡ self.old.entries.bytes.now }
        ensures there { IfSome result (λ at. at + V.SIZE ≤ length self.old.entries.bytes.now) }
        ensures steps { PassesValue K.Portable V.Portable self.old result self.new }
    {
        match self.entries.advance() {
            Some(entry) => Some(entry.value),
            None => None,
        }
    }

    /// Returns the next value with only its own bytes, and passes the value. The contract does not state the archive's
    /// bytes after the loan: a caller that needs them calls `advance`, and creates the seal from those bytes.
    pub fn next(&mut self) -> Option<OwnSeal<'_, V>>
        requires { IsOverEntries K.Portable V.Portable self.old.entries }
        ensures there { IfSome result (λ r. length r.own.now ≡ V.SIZE) }
        ensures lends { LendsValue K.Portable V.Portable self.old result }
    {
        match self.entries.next() {
            Some((_key, value)) => Some(value),
            None => None,
        }
    }

    /// Calls `visit` with the next value, which has only its own bytes, and passes the value. Returns the result of the
    /// call, or `None` if no value is left.
    pub fn visit_next<R, F: FnMut(&mut OwnSeal<'_, V>) -> R>(&mut self, visit: &mut F) -> Option<R>
        requires has { IsOverEntries K.Portable V.Portable self.old.entries }
        requires callable { MayVisitValue K.Portable V.Portable self.old (F.pre visit.old) }
        ensures same_reference { self.new.entries.bytes.ghost_name ≡ self.old.entries.bytes.ghost_name }
        ensures visits { VisitsValue K.Portable V.Portable F.step self.old self.new visit.old visit.new result }
    {
        let Some(at) = self.advance() else {
            return None;
        };
        Some(visit_own::<V, _, _>(self.entries.bytes, at, visit))
    }

    /// Returns the number of values that are left.
    pub fn len(&self) -> usize
        ensures { CountsEntries K.Portable V.Portable self.now.entries result }
    {
        self.entries.len()
    }
}
