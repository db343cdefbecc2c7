//! The pairs of a map up to now.
ghost use Rattle.std.specs.Prelude.{◌≡◌, ◌≢◌, [], Some, length, IfOk, IfErr, OnErr, string_bytes};
ghost use Rattle.cabinet_text_bytes.specs.Words.{IsEscaped};
ghost use Rattle.cabinet_text_grammar.specs.Spelling.{escaped};
ghost use Rattle.cabinet_text_reading.specs.Causes.{IsFaultAt};
ghost use Rattle.cabinet_text_reading.specs.Calls.Stack.{AllowsKey, IsMapOf};
ghost use Rattle.cabinet_text_reading.specs.Told.{key_line};
ghost use Rattle.cabinet_text_reading.specs.View.{kind_of, entries_of, key_due, keyed_kind, keyed_entries, key_of};

use crate::stack::ascending::AscendingPairs;
use crate::stack::kept::KeptPairs;
use crate::stack::keyed::Keyed;
use cabinet_text_grammar::Cause;
use cabinet_text_nodes::Node;
use std::alloc::{AllocError, Global};

/// The pairs of a map that expects a key.
#[derive(Drop)]
pub enum Pairs<'a> {
    Ordered(AscendingPairs),
    Hashed(AscendingPairs),
    Kept(KeptPairs<'a>),
}

impl<'a> Pairs<'a> {
    /// Returns the number of pairs.
    pub fn len(&self) -> usize
        ensures { result ≡ length (entries_of self.now) }
    {
        match self {
            Pairs::Ordered(pairs) => pairs.len(),
            Pairs::Hashed(pairs) => pairs.len(),
            Pairs::Kept(pairs) => pairs.len(),
        }
    }

    /// Adds the key of the next pair, if it is allowed after the others. `argument` is the key's escaped form.
    #[inline(always)]
    pub fn with_key(self, alloc: Global, argument: &'a [u8]) -> Result<Keyed<'a>, Cause>
        requires { IsEscaped argument.now }
        ensures kind { IfOk result (λ keyed. keyed_kind keyed ≡ kind_of self.entry) }
        ensures pairs { IfOk result (λ keyed. keyed_entries keyed ≡ entries_of self.entry) }
        ensures key { IfOk result (λ keyed. argument.now ≡ escaped (string_bytes (key_of keyed))) }
        ensures admitted { IfOk result (AllowsKey self.entry) }
        ensures fault { IfErr result (IsFaultAt (key_due self.entry) (Some (key_line argument.now))) }
    {
        match self {
            Pairs::Ordered(pairs) => Ok(Keyed::Ordered(pairs.with_key(alloc, argument)?)),
            Pairs::Hashed(pairs) => Ok(Keyed::Hashed(pairs.with_key(alloc, argument)?)),
            Pairs::Kept(pairs) => Ok(Keyed::Kept(pairs.with_key(alloc, argument)?)),
        }
    }

    /// Returns the map that has exactly these pairs. No pairs take no memory.
    pub fn into_node(self, alloc: Global) -> Result<Node, AllocError>
        ensures node { IfOk result (IsMapOf self.entry) }
        ensures memory { OnErr result (entries_of self.entry ≢ []) }
    {
        match self {
            Pairs::Ordered(pairs) => Ok(Node::Ordered(pairs.into_map(alloc)?)),
            Pairs::Hashed(pairs) => Ok(Node::Hashed(pairs.into_map(alloc)?)),
            Pairs::Kept(pairs) => Ok(Node::Kept(pairs.into_pairs())),
        }
    }
}
