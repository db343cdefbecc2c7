//! Cursors over the entries of an archived B-tree map that lend one value at a time.
ghost use Rattle.std.specs.Prelude.{◌≡◌, ◌+◌, ◌≤◌, length, IfSome};
ghost use Rattle.archive_btree_maps.specs.Calls.Cursors.{AreValuesOver, CanLend, CountsLeft, IsIterOver, IsLoan, IterBegins, IterLends, IterMayVisit, IterPasses, IterVisits, ValuesLend, ValuesMayVisit, ValuesPass, ValuesVisit};

use crate::nodes::{EntryAt, EntryWalk};
use crate::walking::sealing::passing::pass_entry;
use archive_forms_values::{lend_entry, visit_entry, visit_own};
use archive_shape::{OwnSeal, Portable, Ref};
use std::marker::PhantomData;

/// A cursor over the entries of a map in the order of their keys. Between its steps the archive's bytes may be written,
/// as long as they differ from those that it began with at most in the values of the map.
#[derive(Drop)]
pub struct IterSeal<'a, K, V> {
    /// The whole archive.
    pub bytes: &'a mut [u8],
    walk: EntryWalk,
    left: usize,
    of: PhantomData<(K, V)>,
}

impl<'a, K: Portable, V: Portable> IterSeal<'a, K, V> {
    /// Returns a cursor over the `left` entries that a walk over the bytes has left.
    pub fn new(bytes: &'a mut [u8], walk: EntryWalk, left: usize) -> Self
        ensures same_reference { result.bytes.ghost_name ≡ bytes.entry.ghost_name }
        ensures bytes { result.bytes.now ≡ bytes.old }
        ensures entries { IterBegins K.Portable V.Portable walk left result }
    {
        IterSeal {
            bytes,
            walk,
            left,
            of: PhantomData,
        }
    }

    /// Passes the next entry, and returns the positions of its key and its value.
    pub fn advance(&mut self) -> Option<EntryAt>
        requires { IsIterOver K.Portable V.Portable self.old }
        ensures same_reference { self.new.bytes.ghost_name ≡ self.old.bytes.ghost_name }
        ensures bytes { self.new.bytes.now ≡ self.old.bytes.now }
        ensures there { IfSome result (CanLend K.Portable V.Portable self.old.bytes.now) }
        ensures steps { IterPasses K.Portable V.Portable self.old result self.new }
    {
        let bytes = std::mem::take(&mut self.bytes);
        let passed = pass_entry::<K, V>(&mut self.walk, bytes);
        self.bytes = bytes;
        let Some(entry) = passed else {
            return None;
        };
        self.left -= 1;
        Some(entry)
    }

    /// Passes the next entry, and returns its key, and its value with only the value's own bytes. The contract does not
    /// specify the archive's bytes after the loan: a caller that needs them calls `advance`, and makes the seal of
    /// those bytes.
    pub fn next(&mut self) -> Option<(Ref<'_, K>, OwnSeal<'_, V>)>
        requires { IsIterOver K.Portable V.Portable self.old }
        ensures there { IfSome result (IsLoan K.Portable V.Portable) }
        ensures lends { IterLends K.Portable V.Portable self.old result }
    {
        let Some(entry) = self.advance() else {
            return None;
        };
        Some(lend_entry(self.bytes, entry.key, entry.value))
    }

    /// Calls `visit` with the next entry's key and its value, which has only its own bytes, and passes the entry. The
    /// key is read from the bytes before the value. Returns the result of the call, or `None` if no entry is left.
    pub fn visit_next<R, F: FnMut(Ref<'_, K>, &mut OwnSeal<'_, V>) -> R>(
        &mut self,
        visit: &mut F,
    ) -> Option<R>
        requires has { IsIterOver K.Portable V.Portable self.old }
        requires callable { IterMayVisit K.Portable V.Portable F.pre self.old visit.old }
        ensures same_reference { self.new.bytes.ghost_name ≡ self.old.bytes.ghost_name }
        ensures visits { IterVisits K.Portable V.Portable F.step self.old visit.old result self.new visit.new }
    {
        let Some(entry) = self.advance() else {
            return None;
        };
        Some(visit_entry::<K, V, _, _>(self.bytes, entry.key, entry.value, visit))
    }

    /// Returns the number of entries that are left.
    pub fn len(&self) -> usize
        ensures { CountsLeft K.Portable V.Portable self.now result }
    {
        self.left
    }
}

/// A cursor over the values of a map in the order of their keys. It is to values what `IterSeal` is to entries.
#[derive(Drop)]
pub struct ValuesSeal<'a, K, V> {
    pub entries: IterSeal<'a, K, V>,
}

impl<'a, K: Portable, V: Portable> ValuesSeal<'a, K, V> {
    /// Passes the next value, and returns its position.
    pub fn advance(&mut self) -> Option<usize>
        requires { AreValuesOver K.Portable V.Portable self.old }
        ensures same_reference { self.new.entries.bytes.ghost_name ≡ self.old.entries.bytes.ghost_name }
        ensures bytes { self.new.entries.bytes.now ≡ self.old.entries.bytes.now }
        ensures there { IfSome result (λ at. at + V.SIZE ≤ length self.old.entries.bytes.now) }
        ensures steps { ValuesPass K.Portable V.Portable self.old result self.new }
    {
        match self.entries.advance() {
            Some(entry) => Some(entry.value),
            None => None,
        }
    }

    /// Passes the next value, and returns it with only its own bytes. The contract does not specify the archive's bytes
    /// after the loan: a caller that needs them calls `advance`, and makes the seal of those bytes.
    pub fn next(&mut self) -> Option<OwnSeal<'_, V>>
        requires { AreValuesOver K.Portable V.Portable self.old }
        ensures there { IfSome result (λ r. length r.own.now ≡ V.SIZE) }
        ensures lends { ValuesLend K.Portable V.Portable self.old result }
    {
        match self.entries.next() {
            Some((_key, value)) => Some(value),
            None => None,
        }
    }

    /// Calls `visit` with the next value, which has only its own bytes, and passes the value. Returns the result of the
    /// call, or `None` if no value is left.
    pub fn visit_next<R, F: FnMut(&mut OwnSeal<'_, V>) -> R>(&mut self, visit: &mut F) -> Option<R>
        requires has { AreValuesOver K.Portable V.Portable self.old }
        requires callable { ValuesMayVisit K.Portable V.Portable F.pre self.old visit.old }
        ensures same_reference { self.new.entries.bytes.ghost_name ≡ self.old.entries.bytes.ghost_name }
        ensures visits { ValuesVisit K.Portable V.Portable F.step self.old visit.old result self.new visit.new }
    {
        let Some(at) = self.advance() else {
            return None;
        };
        Some(visit_own::<V, _, _>(self.entries.bytes, at, visit))
    }

    /// Returns the number of values that are left.
    pub fn len(&self) -> usize
        ensures { CountsLeft K.Portable V.Portable self.now.entries result }
    {
        self.entries.len()
    }
}
