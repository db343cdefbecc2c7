//! Cursors over the entries of an archived B-tree map between two bounds that lend one value at a time.
ghost use Rattle.std.specs.Prelude.{◌≡◌, IfSome};
ghost use Rattle.archive_btree_maps.specs.Calls.Cursors.{CanLend, IsLoan, IsRangeOver, RangeBegins, RangeLends, RangeMayVisit, RangePasses, RangeVisits};

use crate::nodes::{EntryAt, EntryWalk};
use crate::walking::sealing::passing::pass_entry;
use archive_forms_values::{lend_entry, visit_entry};
use archive_shape::{OwnSeal, Portable, Ref};
use std::marker::PhantomData;

/// A cursor over the entries of a map between two bounds in the order of their keys. Between its steps the archive's
/// bytes may be written, as long as they differ from those that it began with at most in the values of the map.
#[derive(Drop)]
pub struct RangeSeal<'a, K, V> {
    /// The whole archive.
    pub bytes: &'a mut [u8],
    walk: EntryWalk,
    of: PhantomData<(K, V)>,
}

impl<'a, K: Portable, V: Portable> RangeSeal<'a, K, V> {
    /// Returns a cursor over the entries that a walk over the bytes has left.
    pub fn new(bytes: &'a mut [u8], walk: EntryWalk) -> Self
        ensures same_reference { result.bytes.ghost_name ≡ bytes.entry.ghost_name }
        ensures bytes { result.bytes.now ≡ bytes.old }
        ensures entries { RangeBegins K.Portable V.Portable walk result }
    {
        RangeSeal {
            bytes,
            walk,
            of: PhantomData,
        }
    }

    /// Passes the next entry, and returns the positions of its key and its value.
    pub fn advance(&mut self) -> Option<EntryAt>
        requires { IsRangeOver K.Portable V.Portable self.old }
        ensures same_reference { self.new.bytes.ghost_name ≡ self.old.bytes.ghost_name }
        ensures bytes { self.new.bytes.now ≡ self.old.bytes.now }
        ensures there { IfSome result (CanLend K.Portable V.Portable self.old.bytes.now) }
        ensures steps { RangePasses K.Portable V.Portable self.old result self.new }
    {
        let bytes = std::mem::take(&mut self.bytes);
        let passed = pass_entry::<K, V>(&mut self.walk, bytes);
        self.bytes = bytes;
        passed
    }

    /// Passes the next entry, and returns its key, and its value with only the value's own bytes. The contract does not
    /// specify the archive's bytes after the loan: a caller that needs them calls `advance`, and makes the seal of
    /// those bytes.
    pub fn next(&mut self) -> Option<(Ref<'_, K>, OwnSeal<'_, V>)>
        requires { IsRangeOver K.Portable V.Portable self.old }
        ensures there { IfSome result (IsLoan K.Portable V.Portable) }
        ensures lends { RangeLends K.Portable V.Portable self.old result }
    {
        let Some(entry) = self.advance() else {
            return None;
        };
        Some(lend_entry(self.bytes, entry.key, entry.value))
    }

    /// Calls `visit` with the next entry's key and its value, which has only its own bytes, and passes the entry. The
    /// key is read from the bytes before the value. Returns the result of the call, or `None` if no entry is left.
    pub fn visit_next<R, F: FnMut(Ref<'_, K>, &mut OwnSeal<'_, V>) -> R>(
        &mut self,
        visit: &mut F,
    ) -> Option<R>
        requires has { IsRangeOver K.Portable V.Portable self.old }
        requires callable { RangeMayVisit K.Portable V.Portable F.pre self.old visit.old }
        ensures same_reference { self.new.bytes.ghost_name ≡ self.old.bytes.ghost_name }
        ensures visits { RangeVisits K.Portable V.Portable F.step self.old visit.old result self.new visit.new }
    {
        let Some(entry) = self.advance() else {
            return None;
        };
        Some(visit_entry::<K, V, _, _>(self.bytes, entry.key, entry.value, visit))
    }
}
