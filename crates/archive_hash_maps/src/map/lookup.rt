//! Look-ups of items in archived hash tables.
ghost use Rattle.std.specs.Prelude.{◌≡◌, IfSome};
ghost use Rattle.archive_forms_values.specs.Parts.{HasValue};
ghost use Rattle.archive_hash_maps.specs.Tables.{HasTable};
ghost use Rattle.archive_hash_maps.specs.Places.{item_at};
ghost use Rattle.archive_hash_maps.specs.Calls.Tables.{MayCall, FindsItem, GetsItem};

use crate::map::ArchivedHashTable;
use crate::walking::search_table;
use archive_hash_probing::{Group, Scan};
use archive_shape::{Portable, Ref, Steps};

impl<T: Portable> ArchivedHashTable<T> {
    /// Returns the item that has the hash `hash` and that `accepts` accepts, and the number of strides of sixteen
    /// controls that were searched for it. `accepts` is called for the items that have the hash's tag, and for a few
    /// others, until it returns `true`. The count of comparisons in search trees is 0.
    pub fn get_counted<'a, S: Scan, F: Fn(Ref<'_, T>) -> bool>(
        this: Ref<'a, ArchivedHashTable<T>>,
        hash: u64,
        accepts: &F,
    ) -> (Option<Ref<'a, T>>, Steps)
        requires has { HasTable T.shape T.knows this }
        requires callable { MayCall T.shape T.knows this.bytes (F.pre accepts.now) }
        ensures answers { FindsItem T.shape (F.post accepts.now) this.entry hash result.0 result.1.strides }
        ensures there { IfSome result.0 (λ r. HasValue T.shape T.knows r.bytes.now r.pos) }
        ensures compares { result.1.comparisons ≡ 0 }
    {
        let bytes = this.bytes;
        let accepts_at = |at: usize| -> bool
            requires { F.pre accepts.now (item_at bytes at) }
            ensures { F.post accepts.entry.now (item_at bytes.entry at) result }
        { accepts(Ref::new(bytes, at)) };
        let (found, strides) = search_table::<T, S, _>(bytes, this.pos, hash, &accepts_at);
        let steps = Steps {
            comparisons: 0,
            strides,
        };
        match found {
            Some(at) => (Some(Ref::new(bytes, at)), steps),
            None => (None, steps),
        }
    }

    /// Returns the same item as [`ArchivedHashTable::get_counted`], without the count. The caller chooses the scan `S`.
    pub fn get_with_scan<'a, S: Scan, F: Fn(Ref<'_, T>) -> bool>(
        this: Ref<'a, ArchivedHashTable<T>>,
        hash: u64,
        accepts: &F,
    ) -> Option<Ref<'a, T>>
        requires has { HasTable T.shape T.knows this }
        requires callable { MayCall T.shape T.knows this.bytes (F.pre accepts.now) }
        ensures answers { GetsItem T.shape (F.post accepts.now) this.entry hash result }
        ensures there { IfSome result (λ r. HasValue T.shape T.knows r.bytes.now r.pos) }
    {
        ArchivedHashTable::get_counted::<S, F>(this, hash, accepts).0
    }

    /// Returns the item that has the hash `hash` and that `accepts` accepts.
    pub fn get_with<'a, F: Fn(Ref<'_, T>) -> bool>(
        this: Ref<'a, ArchivedHashTable<T>>,
        hash: u64,
        accepts: &F,
    ) -> Option<Ref<'a, T>>
        requires has { HasTable T.shape T.knows this }
        requires callable { MayCall T.shape T.knows this.bytes (F.pre accepts.now) }
        ensures answers { GetsItem T.shape (F.post accepts.now) this.entry hash result }
        ensures there { IfSome result (λ r. HasValue T.shape T.knows r.bytes.now r.pos) }
    {
        ArchivedHashTable::get_with_scan::<Group, F>(this, hash, accepts)
    }
}
