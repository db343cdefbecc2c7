//! The pairs of a map whose keys ascend. Each key is checked before memory is allocated for it.
ghost use Rattle.std.specs.Prelude.{◌≡◌, ◌≢◌, [], ◌∷◌, ◌++◌, List, length, map, IfOk, IfErr, OnErr, String, string_bytes};
ghost use Rattle.std.specs.declared.alloc.Global.{Global};
ghost use Rattle.std.specs.Coded.{codes};
ghost use Rattle.cabinet_text_bytes.specs.Words.{IsEscaped};
ghost use Rattle.cabinet_text_grammar.specs.Keys.{ordered};
ghost use Rattle.cabinet_text_grammar.specs.Spelling.{escaped};
ghost use Rattle.cabinet_text_grammar.specs.declared.cause.Cause.TheVariants.{KeyOrder};
ghost use Rattle.cabinet_text_nodes.specs.Order.{WalksNodes};
ghost use Rattle.cabinet_text_nodes.specs.declared.node.Node.{Node};
ghost use Rattle.cabinet_text_nodes.specs.contracts.node.Node as node;
ghost use Rattle.cabinet_text_reading.specs.Ascending.{Ascends, AscendsTo, stored_pairs};
ghost use Rattle.cabinet_text_reading.specs.Calls.Ascending.{FindsOrderFault, HasPairs};
ghost use Rattle.cabinet_text_reading.specs.Told.{IsKeyAfter, RefusesKey};

use crate::stack::key::cmp_escaped;
use crate::stack::store::PairStore;
use cabinet_text_bytes::unescape_text;
use cabinet_text_grammar::Cause;
use cabinet_text_nodes::Node;
use std::alloc::{AllocError, Global};
use std::collections::BTreeMap;
use std::marker::Model;

/// The pairs of a map whose keys ascend.
#[derive(Drop)]
pub struct AscendingPairs {
    pairs: PairStore,
}

impl Model for AscendingPairs {
    ghost Value = { List (String Global × Node) };

    ghost coded = { Prim.hlevel (codes, node.the_row.coded) };

    ghost view = { λ a. stored_pairs a.pairs };

    ghost invariant = { λ a. Ascends (stored_pairs a.pairs) };
}

/// The pairs of a map whose keys ascend, and the key of the next pair.
#[derive(Drop)]
pub struct AscendingKeyed {
    pairs: PairStore,
    key: String,
}

impl Model for AscendingKeyed {
    ghost Value = { List (String Global × Node) × String Global };

    ghost coded = { Prim.hlevel (codes, node.the_row.coded) };

    ghost view = { λ a. (stored_pairs a.pairs, a.key) };

    ghost invariant = { λ a. AscendsTo (stored_pairs a.pairs) a.key };
}

/// Returns the fault of a key after the ascending keys of a map. `argument` is the key's escaped form.
fn order_fault(pairs: &PairStore, argument: &[u8]) -> Option<Cause>
    requires { IsEscaped argument.now }
    ensures { FindsOrderFault (stored_pairs pairs.now) argument.now result }
{
    let last = pairs.last_key()?;
    if cmp_escaped(argument, last.as_bytes()).is_gt() {
        None
    } else {
        Some(Cause::KeyOrder)
    }
}

/// Reads a key that is allowed after the ascending keys of a map. `argument` is the key's escaped form.
fn key_behind(alloc: Global, pairs: &PairStore, argument: &[u8]) -> Result<String, Cause>
    requires { IsEscaped argument.now }
    ensures key { IfOk result (λ key. argument.now ≡ escaped (string_bytes key)) }
    ensures after { IfOk result (λ key. IsKeyAfter ordered (stored_pairs pairs.now) argument.now) }
    ensures fault { IfErr result (RefusesKey ordered KeyOrder (stored_pairs pairs.now) argument.now) }
{
    if let Some(cause) = order_fault(pairs, argument) {
        return Err(cause);
    }
    match unescape_text(alloc, argument) {
        Ok(key) => Ok(key),
        Err(_) => Err(Cause::OutOfMemory),
    }
}

impl AscendingPairs {
    /// Creates a map without pairs, which will have `count` of them. It does not allocate.
    pub fn new(alloc: Global, count: u64) -> Self
        ensures { result ≡ [] }
    {
        AscendingPairs {
            pairs: PairStore::new(alloc, count),
        }
    }

    /// Returns the number of pairs.
    pub fn len(&self) -> usize
        ensures { result ≡ length self.now }
    {
        self.pairs.len()
    }

    /// Adds the key of the next pair, if it is above the others. `argument` is the key's escaped form.
    pub fn with_key(self, alloc: Global, argument: &[u8]) -> Result<AscendingKeyed, Cause>
        requires { IsEscaped argument.now }
        ensures pairs { IfOk result (λ keyed. keyed.0 ≡ self) }
        ensures key { IfOk result (λ keyed. argument.now ≡ escaped (string_bytes keyed.1)) }
        ensures after { IfOk result (λ keyed. IsKeyAfter ordered self argument.now) }
        ensures fault { IfErr result (RefusesKey ordered KeyOrder self argument.now) }
    {
        let AscendingPairs { pairs } = self;
        match key_behind(alloc, &pairs, argument) {
            Ok(key) => Ok(AscendingKeyed { pairs, key }),
            Err(cause) => Err(cause),
        }
    }

    /// Returns the map of the pairs. No pairs take no memory.
    pub fn into_map(self, alloc: Global) -> Result<BTreeMap<String, Node>, AllocError>
        ensures pairs { IfOk result (HasPairs self) }
        ensures memory { OnErr result (self ≢ []) }
    {
        let AscendingPairs { pairs } = self;
        pairs.into_map(alloc)
    }
}

impl AscendingKeyed {
    /// Returns the number of pairs before the last key.
    pub fn len(&self) -> usize
        ensures { result ≡ length self.now.0 }
    {
        self.pairs.len()
    }

    /// Walks the nodes of the pairs before the last key.
    pub fn walk(&self, wholes: &[Node], next: u64) -> Option<u64>
        ensures { WalksNodes wholes.now (map (λ p. p.1) self.now.0) next result }
    {
        self.pairs.walk(wholes, next)
    }

    /// Adds the node of the last key, which completes the next pair.
    pub fn with_node(self, node: Node) -> Result<AscendingPairs, AllocError>
        ensures { IfOk result (λ pairs. pairs ≡ self.0 ++ (self.1, node) ∷ []) }
    {
        let AscendingKeyed { pairs, key } = self;
        let pairs = pairs.with_pair(key, node)?;
        Ok(AscendingPairs { pairs })
    }
}
