//! Look-ups of keys in archived B-tree maps.
ghost use Rattle.std.specs.Prelude.{◌≡◌, ◌≤◌, ◌*◌, Some, IfSome};
ghost use Rattle.archive_forms_values.specs.Parts.{HasValue};
ghost use Rattle.archive_btree_maps.specs.Maps.{HasMap};
ghost use Rattle.archive_btree_maps.specs.Refs.{IsThere, ref_at};
ghost use Rattle.archive_btree_maps.specs.Lookups.{HasKey};
ghost use Rattle.archive_btree_maps.specs.Calls.Lookups.{AnswersEntry, AnswersEntryBy, AnswersValue, AnswersValueCounted, AnswersWhether, FindsEntry, FindsEntryBy, FindsValue, FindsWhether, LooksUpEntry, LooksUpValue, LooksUpWhether, MayCompareKeys};

use crate::map::ArchivedBTreeMap;
use crate::walking::{search_key, search_map};
use archive_shape::{ArchivedKey, Portable, Ref, Steps};
use std::cmp::Ordering;

impl<K, V: Portable, const E: usize> ArchivedBTreeMap<K, V, E> {
    /// Returns the value of a key, if the map has the key, and the number of keys that the search compared, which stops
    /// at `usize::MAX`. The count of strides in hash tables is 0.
    pub fn get_counted<'a, Q>(
        this: Ref<'a, ArchivedBTreeMap<K, V, E>>,
        query: &Q,
    ) -> (Option<Ref<'a, V>>, Steps)
    where
        K: ArchivedKey<Q>,
        requires has { HasMap E K.shape V.shape K.knows V.knows this }
        ensures there { IfSome result.0 (λ r. HasValue V.shape V.knows r.bytes.now r.pos) }
        ensures found { FindsValue E K.shape V.shape K.key_of K.order this.entry query.now result.0 }
        ensures looks_up { LooksUpValue E K.shape V.shape K.key_of K.order this.entry query.now result.0 }
        ensures answers { AnswersValueCounted E K.shape V.shape K.key_of K.order this.entry query.now result }
        ensures few { result.1.comparisons ≤ 32 * E }
        ensures searches { result.1.strides ≡ 0 }
    {
        let (found, comparisons) = search_key::<Q, K, V, E>(this.bytes, this.pos, query);
        let steps = Steps {
            comparisons,
            strides: 0,
        };
        match found {
            Some(entry) => (Some(Ref::new(this.bytes, entry.value)), steps),
            None => (None, steps),
        }
    }

    /// Returns the value of a key, if the map has the key.
    pub fn get<'a, Q>(this: Ref<'a, ArchivedBTreeMap<K, V, E>>, query: &Q) -> Option<Ref<'a, V>>
    where
        K: ArchivedKey<Q>,
        requires has { HasMap E K.shape V.shape K.knows V.knows this }
        ensures there { IfSome result (λ r. HasValue V.shape V.knows r.bytes.now r.pos) }
        ensures found { FindsValue E K.shape V.shape K.key_of K.order this.entry query.now result }
        ensures looks_up { LooksUpValue E K.shape V.shape K.key_of K.order this.entry query.now result }
        ensures answers { AnswersValue E K.shape V.shape K.key_of K.order this.entry query.now result }
    {
        ArchivedBTreeMap::get_counted(this, query).0
    }

    /// Returns a key and its value, if the map has the key.
    pub fn get_key_value<'a, Q>(
        this: Ref<'a, ArchivedBTreeMap<K, V, E>>,
        query: &Q,
    ) -> Option<(Ref<'a, K>, Ref<'a, V>)>
    where
        K: ArchivedKey<Q>,
        requires has { HasMap E K.shape V.shape K.knows V.knows this }
        ensures there { IfSome result (IsThere K.shape V.shape K.knows V.knows) }
        ensures found { FindsEntry E K.shape V.shape K.key_of K.order this.entry query.now result }
        ensures looks_up { LooksUpEntry E K.shape V.shape K.key_of K.order this.entry query.now result }
        ensures answers { AnswersEntry E K.shape V.shape K.key_of K.order this.entry query.now result }
    {
        match search_key::<Q, K, V, E>(this.bytes, this.pos, query).0 {
            Some(entry) => Some((
                Ref::new(this.bytes, entry.key),
                Ref::new(this.bytes, entry.value),
            )),
            None => None,
        }
    }

    /// Checks whether the map has a key.
    pub fn contains_key<Q>(this: Ref<'_, ArchivedBTreeMap<K, V, E>>, query: &Q) -> bool
    where
        K: ArchivedKey<Q>,
        requires has { HasMap E K.shape V.shape K.knows V.knows this }
        ensures found { FindsWhether E K.shape V.shape K.key_of K.order this.entry query.now result }
        ensures looks_up { LooksUpWhether E K.shape V.shape K.key_of K.order this.entry query.now result }
        ensures answers { AnswersWhether E K.shape V.shape K.key_of K.order this.entry query.now result }
    {
        search_key::<Q, K, V, E>(this.bytes, this.pos, query)
            .0
            .is_some()
    }

    /// Returns the value of a key that the map has.
    pub fn index<'a, Q>(this: Ref<'a, ArchivedBTreeMap<K, V, E>>, query: &Q) -> Ref<'a, V>
    where
        K: ArchivedKey<Q>,
        requires has { HasMap E K.shape V.shape K.knows V.knows this }
        requires present { HasKey K.key_of K.order this.bytes.now E K.shape V.shape this.pos query.now }
        ensures there { HasValue V.shape V.knows result.bytes.now result.pos }
        ensures found { FindsValue E K.shape V.shape K.key_of K.order this.entry query.now (Some result) }
        ensures looks_up { LooksUpValue E K.shape V.shape K.key_of K.order this.entry query.now (Some result) }
        ensures answers { AnswersValue E K.shape V.shape K.key_of K.order this.entry query.now (Some result) }
    {
        ArchivedBTreeMap::get(this, query).unwrap()
    }
}

impl<K: Portable, V: Portable, const E: usize> ArchivedBTreeMap<K, V, E> {
    /// Returns the entry that the caller's comparison finds. `compare` returns how the query compares with a key: if it
    /// does not agree with the order of the keys, an entry may not be found.
    pub fn get_key_value_with<'a, Q, F: Fn(&Q, Ref<'_, K>) -> Ordering>(
        this: Ref<'a, ArchivedBTreeMap<K, V, E>>,
        query: &Q,
        compare: &F,
    ) -> Option<(Ref<'a, K>, Ref<'a, V>)>
        requires has { HasMap E K.shape V.shape K.knows V.knows this }
        requires callable { MayCompareKeys E K.Portable V.shape F.pre compare.now this query }
        ensures there { IfSome result (IsThere K.shape V.shape K.knows V.knows) }
        ensures found { FindsEntryBy E K.shape V.shape F.post compare.now this.entry query.entry result }
        ensures answers { AnswersEntryBy E K.shape V.shape F.post compare.now this.entry query.entry result }
    {
        let bytes = this.bytes;
        let compare_at = |at: usize| -> Ordering
            requires { F.pre compare.now query (ref_at bytes at) }
            ensures { F.post compare.entry.now query.entry (ref_at bytes.entry at) result }
        { compare(query, Ref::new(bytes, at)) };
        match search_map::<K, V, _, E>(bytes, this.pos, &compare_at).0 {
            Some(entry) => Some((Ref::new(bytes, entry.key), Ref::new(bytes, entry.value))),
            None => None,
        }
    }
}
