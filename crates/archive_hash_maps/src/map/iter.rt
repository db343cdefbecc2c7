//! Iterators over the items of an archived hash table by ascending place.
ghost use Rattle.std.specs.Prelude.{◌≡◌, All};
ghost use Rattle.archive_shape_layout.specs.Shape.Shape.{table};
ghost use Rattle.archive_forms_values.specs.Parts.{HasValue};
ghost use Rattle.archive_hash_maps.specs.Tables.{IsTable, HasTable, Buckets, item_positions};
ghost use Rattle.archive_hash_maps.specs.Calls.Lists.{ListsFullPlaces};

use crate::map::ArchivedHashTable;
use crate::walking::{FullPlaces, RawIter, full_places_at, raw_iter_at};
use archive_shape::{Portable, Ref};

impl<T: Portable> ArchivedHashTable<T> {
    /// Returns the full places in ascending order, each with its tag and its item.
    pub fn full_places<'a>(this: Ref<'a, ArchivedHashTable<T>>) -> FullPlaces<'a, T>
        requires { HasTable T.shape T.knows this }
        ensures there { All (λ e. HasValue T.shape T.knows e.2.bytes.now e.2.pos) result }
        ensures places { ListsFullPlaces T.shape this.entry.bytes this.entry.pos result }
    {
        full_places_at(this.bytes, this.pos)
    }

    /// Returns the positions of the items, by ascending place.
    pub fn raw_iter<'a>(this: Ref<'a, ArchivedHashTable<T>>) -> RawIter<'a, T>
        requires { HasTable T.shape T.knows this }
        ensures { (b : Buckets) → IsTable T.shape this.entry b → result ≡ item_positions T.shape b }
    {
        raw_iter_at(this.bytes, this.pos)
    }
}
