//! Pairs whose keys ascend, in a tree where they are few and in a list where they are many.
ghost use Rattle.std.specs.Prelude.{◌≡◌, ◌≢◌, [], ◌∷◌, ◌++◌, length, map, IfOk, OnErr};
ghost use Rattle.cabinet_text_nodes.specs.Order.{WalksNodes};
ghost use Rattle.cabinet_text_reading.specs.Ascending.{Ascends, AscendsTo, stored_pairs};
ghost use Rattle.cabinet_text_reading.specs.Calls.Ascending.{FindsLastKey, HasPairs};

use cabinet_text_nodes::{Node, walk_pairs, walk_values};
use std::alloc::{AllocError, Global};
use std::collections::BTreeMap;

/// The largest number of pairs of a map that are put into a tree one by one, which for so few takes less memory.
const MAX_FEW: u64 = 11;

/// The pairs of a map whose keys ascend. Of a list the tree is made once, when the map is complete, so that no key is
/// searched for in a tree.
#[derive(Drop)]
pub(crate) enum PairStore {
    Few(BTreeMap<String, Node>),
    Many(Vec<(String, Node)>),
}

impl PairStore {
    /// Creates a store for the pairs of a map of `count` pairs. It does not allocate.
    pub(crate) fn new(alloc: Global, count: u64) -> Self
        ensures { stored_pairs result ≡ [] }
    {
        if count <= MAX_FEW {
            PairStore::Few(BTreeMap::new(alloc))
        } else {
            PairStore::Many(Vec::new(alloc))
        }
    }

    /// Returns the number of pairs.
    pub(crate) fn len(&self) -> usize
        ensures { result ≡ length (stored_pairs self.now) }
    {
        match self {
            PairStore::Few(pairs) => pairs.len(),
            PairStore::Many(pairs) => pairs.len(),
        }
    }

    /// Returns the last key, if there are pairs.
    pub(crate) fn last_key(&self) -> Option<&String>
        ensures { FindsLastKey (stored_pairs self.now) result }
    {
        match self {
            PairStore::Few(pairs) => {
                let (key, _) = pairs.last_key_value()?;
                Some(key)
            }
            PairStore::Many(pairs) => {
                let (key, _) = pairs.last()?;
                Some(key)
            }
        }
    }

    /// Adds a pair after the others. Its key is above theirs.
    pub(crate) fn with_pair(self, key: String, node: Node) -> Result<Self, AllocError>
        requires { AscendsTo (stored_pairs self) key }
        ensures { IfOk result (λ store. stored_pairs store ≡ stored_pairs self ++ (key, node) ∷ []) }
    {
        match self {
            PairStore::Few(mut pairs) => {
                pairs.insert(key, node)?;
                Ok(PairStore::Few(pairs))
            }
            PairStore::Many(mut pairs) => {
                pairs.push((key, node))?;
                Ok(PairStore::Many(pairs))
            }
        }
    }

    /// Returns the map of the pairs. No pairs take no memory.
    pub(crate) fn into_map(self, alloc: Global) -> Result<BTreeMap<String, Node>, AllocError>
        requires { Ascends (stored_pairs self) }
        ensures pairs { IfOk result (HasPairs (stored_pairs self)) }
        ensures memory { OnErr result (stored_pairs self ≢ []) }
    {
        match self {
            PairStore::Few(pairs) => Ok(pairs),
            PairStore::Many(pairs) if pairs.is_empty() => Ok(BTreeMap::new(alloc)),
            PairStore::Many(pairs) => Ok(BTreeMap::from_iter(alloc, pairs)?),
        }
    }

    /// Walks the nodes of the pairs, in the order of their keys.
    pub(crate) fn walk(&self, wholes: &[Node], next: u64) -> Option<u64>
        ensures { WalksNodes wholes.now (map (λ p. p.1) (stored_pairs self.now)) next result }
    {
        match self {
            PairStore::Few(pairs) => walk_values(pairs, wholes, next),
            PairStore::Many(pairs) => walk_pairs(pairs, wholes, next),
        }
    }
}
