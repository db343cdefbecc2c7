//! Values of archived B-tree maps that may be edited.
ghost use Rattle.std.specs.Prelude.{IfSome};
ghost use Rattle.archive_shape_layout.specs.Shape.Shape.{tree};
ghost use Rattle.archive_forms_values.specs.Parts.{HasValue, both};
ghost use Rattle.archive_btree_maps.specs.Calls.Cursors.{IsLoan};
ghost use Rattle.archive_btree_maps.specs.Calls.Lending.{AnswersLoan, AnswersLoanBy, AnswersSeal, FindsLoan, FindsLoanBy, MayCompareLent};
ghost use Rattle.archive_btree_maps.specs.Refs.{ref_at};

use crate::map::ArchivedBTreeMap;
use crate::walking::{search_key, search_map};
use archive_forms_values::lend_entry;
use archive_shape::{ArchivedKey, OwnSeal, Portable, Ref, Seal};
use std::cmp::Ordering;

impl<K, V: Portable, const E: usize> ArchivedBTreeMap<K, V, E> {
    /// Returns the value of a key, if the map has the key. The contract does not specify the buffer after the loan.
    pub fn get_seal<'a, Q>(
        this: Seal<'a, ArchivedBTreeMap<K, V, E>>,
        query: &Q,
    ) -> Option<Seal<'a, V>>
    where
        K: ArchivedKey<Q>,
        requires has { HasValue (tree E K.shape V.shape) (both K.knows V.knows)
            this.bytes.now this.pos }
        ensures there { IfSome result (λ r. HasValue V.shape V.knows r.bytes.now r.pos) }
        ensures answers { AnswersSeal E K.shape V.Portable K.key_of K.order this.entry query.now result }
    {
        let Seal { bytes, pos, .. } = this;
        match search_key::<Q, K, V, E>(bytes, pos, query).0 {
            Some(entry) => Some(Seal::new(bytes, entry.value)),
            None => None,
        }
    }

    /// Returns a key, and its value with only the value's own bytes, if the map has the key. The key is read from the
    /// bytes before the value's own, where all that it leads to lies. The contract does not specify the buffer after
    /// the loan.
    pub fn get_key_value_seal<'a, Q>(
        this: Seal<'a, ArchivedBTreeMap<K, V, E>>,
        query: &Q,
    ) -> Option<(Ref<'a, K>, OwnSeal<'a, V>)>
    where
        K: ArchivedKey<Q>,
        requires has { HasValue (tree E K.shape V.shape) (both K.knows V.knows)
            this.bytes.now this.pos }
        ensures there { IfSome result (IsLoan K.Portable V.Portable) }
        ensures found { FindsLoan E K.shape V.Portable K.key_of K.order this.entry query.now result }
        ensures answers { AnswersLoan E K.shape V.Portable K.key_of K.order this.entry query.now result }
    {
        let Seal { bytes, pos, .. } = this;
        match search_key::<Q, K, V, E>(bytes, pos, query).0 {
            Some(entry) => Some(lend_entry::<K, V>(bytes, entry.key, entry.value)),
            None => None,
        }
    }
}

impl<K: Portable, V: Portable, const E: usize> ArchivedBTreeMap<K, V, E> {
    /// Returns the entry that the caller's comparison finds: its key, and its value with only the value's own bytes.
    /// `compare` returns how the query compares with a key: if it does not agree with the order of the keys, an entry
    /// may not be found. The contract does not specify the buffer after the loan.
    pub fn get_key_value_seal_with<'a, Q, F: Fn(&Q, Ref<'_, K>) -> Ordering>(
        this: Seal<'a, ArchivedBTreeMap<K, V, E>>,
        query: &Q,
        compare: &F,
    ) -> Option<(Ref<'a, K>, OwnSeal<'a, V>)>
        requires has { HasValue (tree E K.shape V.shape) (both K.knows V.knows)
            this.bytes.now this.pos }
        requires callable { MayCompareLent E K.Portable V.shape F.pre compare.now this query }
        ensures there { IfSome result (IsLoan K.Portable V.Portable) }
        ensures found { FindsLoanBy E K.shape V.Portable F.post compare.now this.entry query.entry result }
        ensures answers { AnswersLoanBy E K.shape V.Portable F.post compare.now this.entry query.entry result }
    {
        let Seal { bytes, pos, .. } = this;
        let shared: &[u8] = bytes;
        let compare_at = |at: usize| -> Ordering
            requires { F.pre compare.now query (ref_at shared at) }
            ensures { F.post compare.entry.now query.entry (ref_at shared.entry at) result }
        { compare(query, Ref::new(shared, at)) };
        match search_map::<K, V, _, E>(shared, pos, &compare_at).0 {
            Some(entry) => Some(lend_entry::<K, V>(bytes, entry.key, entry.value)),
            None => None,
        }
    }
}
