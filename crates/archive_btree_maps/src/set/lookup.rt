//! Look-ups of keys in archived B-tree sets.
ghost use Rattle.std.specs.Prelude.{IfSome};
ghost use Rattle.archive_forms_values.specs.Parts.{HasValue};
ghost use Rattle.archive_btree_maps.specs.Sets.{HasSet, unit_shape};
ghost use Rattle.archive_btree_maps.specs.Calls.Lookups.{AnswersKey, AnswersWhether, FindsKey, FindsWhether, LooksUpKey, LooksUpWhether};

use crate::map::ArchivedBTreeMap;
use crate::set::ArchivedBTreeSet;
use crate::set::set::as_map;
use archive_shape::{ArchivedKey, Ref};

impl<K, const E: usize> ArchivedBTreeSet<K, E> {
    /// Checks whether the set has a key.
    pub fn contains_key<Q>(this: Ref<'_, ArchivedBTreeSet<K, E>>, query: &Q) -> bool
    where
        K: ArchivedKey<Q>,
        requires has { HasSet E K.shape K.knows this.bytes.now this.pos }
        ensures found { FindsWhether E K.shape unit_shape K.key_of K.order this.entry query.now result }
        ensures looks_up { LooksUpWhether E K.shape unit_shape K.key_of K.order this.entry query.now result }
        ensures answers { AnswersWhether E K.shape unit_shape K.key_of K.order this.entry query.now result }
    {
        ArchivedBTreeMap::contains_key(as_map(this), query)
    }

    /// Returns the archived key that is equal to the query, if the set has one.
    pub fn get<'a, Q>(this: Ref<'a, ArchivedBTreeSet<K, E>>, query: &Q) -> Option<Ref<'a, K>>
    where
        K: ArchivedKey<Q>,
        requires has { HasSet E K.shape K.knows this.bytes.now this.pos }
        ensures there { IfSome result (λ r. HasValue K.shape K.knows r.bytes.now r.pos) }
        ensures found { FindsKey E K.shape unit_shape K.key_of K.order this.entry query.now result }
        ensures looks_up { LooksUpKey E K.shape unit_shape K.key_of K.order this.entry query.now result }
        ensures answers { AnswersKey E K.shape unit_shape K.key_of K.order this.entry query.now result }
    {
        match ArchivedBTreeMap::get_key_value(as_map(this), query) {
            Some((key, _)) => Some(key),
            None => None,
        }
    }
}
