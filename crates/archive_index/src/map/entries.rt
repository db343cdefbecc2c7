//! The entries of an archived index map, which are adjacent, in the map's order.
ghost use Rattle.std.specs.Prelude.{◌≡◌, IfSome};
ghost use Rattle.archive_index.specs.Maps.{HasMapAt, HasMap};
ghost use Rattle.archive_hash_maps.specs.Maps.{IsThere};
ghost use Rattle.archive_index.specs.Calls.Entries.{HasEntries, LeadsToEntries, HoldsEntries, ReturnsEntries, ReturnsHeldEntries, GetsEntryAt};

use crate::map::ArchivedIndexMap;
use archive_forms_values::{Entry, SliceRef, target_of};
use archive_hash::number_at;
use archive_shape::{Portable, Ref};
use std::marker::PhantomData;

/// Returns the position of the first entry of the map at `pos`, and the number of entries.
pub(crate) fn entries_at<K: Portable, V: Portable>(bytes: &[u8], pos: usize) -> (usize, usize)
    requires { HasMapAt K.shape V.shape K.knows V.knows bytes.now pos }
    ensures map { LeadsToEntries K.shape V.shape bytes.entry.now pos result.0 result.1 }
    ensures there { HasEntries K.shape V.shape K.knows V.knows bytes.entry.now result.0 result.1 }
    ensures elements { HoldsEntries K.shape V.shape K.knows V.knows bytes.entry.now pos result.0 result.1 }
{
    let len = number_at(bytes, pos + 4);
    if len == 0 {
        return (0, 0);
    }
    (target_of(bytes, pos + 12), len)
}

/// Returns the entries of a map, in its order.
pub(crate) fn entries<'a, K: Portable, V: Portable, H>(
    this: Ref<'a, ArchivedIndexMap<K, V, H>>,
) -> SliceRef<'a, Entry<K, V>>
    requires { HasMap K.shape V.shape K.knows V.knows this }
    ensures bytes { result.bytes ≡ this.entry.bytes }
    ensures map { ReturnsEntries K.shape V.shape this.entry result }
    ensures there { HasEntries K.shape V.shape K.knows V.knows result.bytes.now result.pos result.len }
    ensures elements { ReturnsHeldEntries K.shape V.shape K.knows V.knows this.entry result }
{
    let (pos, len) = entries_at::<K, V>(this.bytes, this.pos);
    SliceRef {
        bytes: this.bytes,
        pos,
        len,
        of: PhantomData,
    }
}

impl<K: Portable, V: Portable, H> ArchivedIndexMap<K, V, H> {
    /// Returns the key and the value of the entry with a number, if there is one.
    pub fn get_index<'a>(
        this: Ref<'a, ArchivedIndexMap<K, V, H>>,
        index: usize,
    ) -> Option<(Ref<'a, K>, Ref<'a, V>)>
        requires { HasMap K.shape V.shape K.knows V.knows this }
        ensures there { IfSome result (IsThere K.shape V.shape K.knows V.knows) }
        ensures answers { GetsEntryAt K.shape V.shape this.entry index result }
    {
        match entries(this).get(index) {
            Some(entry) => Some((Entry::key(entry), Entry::value(entry))),
            None => None,
        }
    }
}
