//! The pairs of a kept map, among which a key is found by its escaped form.
ghost use Rattle.std.specs.Prelude.{◌≡◌, ℕ, ◌||◌, List, [], ◌∷◌, ◌++◌, length, IfOk, IfErr, String, string_bytes};
ghost use Rattle.std.specs.declared.alloc.Global.{Global};
ghost use Rattle.std.specs.Str.{bytes_eq};
ghost use Rattle.cabinet_text_bytes.specs.Words.{IsEscaped};
ghost use Rattle.cabinet_text_grammar.specs.Keys.{kept};
ghost use Rattle.cabinet_text_grammar.specs.Spelling.{escaped};
ghost use Rattle.cabinet_text_grammar.specs.declared.cause.Cause.TheVariants.{KeyRepeated};
ghost use Rattle.cabinet_text_nodes.specs.declared.node.Node.{Node};
ghost use Rattle.cabinet_text_nodes.specs.contracts.node.Node as node;
ghost use Rattle.std.specs.Coded.{codes};
ghost use Rattle.cabinet_text_reading.specs.Kept.{has_escaped};
ghost use Rattle.cabinet_text_reading.specs.Seen.{AreInOrder, has_key, seen_keys};
ghost use Rattle.cabinet_text_reading.specs.Told.{IsKeyAfter, RefusesKey};

use crate::stack::seen::SeenKeys;
use cabinet_text_bytes::unescape_text;
use cabinet_text_grammar::Cause;
use cabinet_text_nodes::Node;
use std::alloc::{AllocError, Global};
use std::marker::Model;

/// The pairs of a kept map, in the order in which they were added.
#[derive(Drop)]
pub struct KeptPairs<'a> {
    pairs: Vec<(String, Node)>,
    seen: SeenKeys<'a>,
}

impl<'a> Model for KeptPairs<'a> {
    ghost Value = { List (String Global × Node) };

    ghost coded = { Prim.hlevel (codes, node.the_row.coded) };

    ghost view = { λ a. a.pairs.items };

    ghost invariant = { λ a. AreInOrder a.seen × ((bytes : List ℕ) → has_key bytes (seen_keys a.seen) ≡ has_escaped bytes a.pairs.items) };
}

/// The pairs of a kept map, and the key of the next pair.
#[derive(Drop)]
pub struct KeptKeyed<'a> {
    pairs: Vec<(String, Node)>,
    seen: SeenKeys<'a>,
    key: String,
}

impl<'a> Model for KeptKeyed<'a> {
    ghost Value = { List (String Global × Node) × String Global };

    ghost coded = { Prim.hlevel (codes, node.the_row.coded) };

    ghost view = { λ a. (a.pairs.items, a.key) };

    ghost invariant = { λ a. AreInOrder a.seen × ((bytes : List ℕ) → has_key bytes (seen_keys a.seen) ≡ (bytes_eq bytes (escaped (string_bytes a.key)) || has_escaped bytes a.pairs.items)) };
}

impl<'a> KeptPairs<'a> {
    /// Creates a map without pairs.
    pub fn new(alloc: Global) -> Self
        ensures { result ≡ [] }
    {
        KeptPairs {
            pairs: Vec::new(alloc),
            seen: SeenKeys::new(alloc),
        }
    }

    /// Returns the number of pairs.
    pub fn len(&self) -> usize
        ensures { result ≡ length self.now }
    {
        self.pairs.len()
    }

    /// Adds the key of the next pair, if none of the pairs has it. `argument` is the key's escaped form.
    pub fn with_key(self, alloc: Global, argument: &'a [u8]) -> Result<KeptKeyed<'a>, Cause>
        requires { IsEscaped argument.now }
        ensures pairs { IfOk result (λ keyed. keyed.0 ≡ self.entry) }
        ensures key { IfOk result (λ keyed. argument.now ≡ escaped (string_bytes keyed.1)) }
        ensures after { IfOk result (λ keyed. IsKeyAfter kept self.entry argument.now) }
        ensures fault { IfErr result (RefusesKey kept KeyRepeated self.entry argument.now) }
    {
        let KeptPairs { pairs, seen } = self;
        let seen = match seen.with_key(alloc, argument) {
            Ok(Some(seen)) => seen,
            Ok(None) => return Err(Cause::KeyRepeated),
            Err(_) => return Err(Cause::OutOfMemory),
        };
        match unescape_text(alloc, argument) {
            Ok(key) => Ok(KeptKeyed { pairs, seen, key }),
            Err(_) => Err(Cause::OutOfMemory),
        }
    }

    /// Returns the pairs in their order.
    pub fn into_pairs(self) -> Vec<(String, Node)>
        ensures { result.items ≡ self.entry }
    {
        let KeptPairs { pairs, seen: _ } = self;
        pairs
    }
}

impl<'a> KeptKeyed<'a> {
    /// Returns the number of pairs before the last key.
    pub fn len(&self) -> usize
        ensures { result ≡ length self.now.0 }
    {
        self.pairs.len()
    }

    /// Returns the pairs before the last key, in their order.
    pub fn pairs(&self) -> &[(String, Node)]
        ensures { result.now ≡ self.now.0 }
    {
        self.pairs.as_slice()
    }

    /// Adds the node of the last key, which completes the next pair.
    pub fn with_node(self, node: Node) -> Result<KeptPairs<'a>, AllocError>
        ensures { IfOk result (λ pairs. pairs ≡ self.entry.0 ++ (self.entry.1, node) ∷ []) }
    {
        let KeptKeyed {
            mut pairs,
            seen,
            key,
        } = self;
        pairs.push((key, node))?;
        Ok(KeptPairs { pairs, seen })
    }
}
