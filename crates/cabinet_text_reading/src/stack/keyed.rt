//! The pairs of a map up to now, and the key of the next pair.
ghost use Rattle.std.specs.Prelude.{length, ◌≡◌, IfOk};
ghost use Rattle.cabinet_text_reading.specs.Calls.Stack.{AddsPair};
ghost use Rattle.cabinet_text_reading.specs.View.{kind_of, keyed_kind, keyed_entries};

use crate::stack::ascending::AscendingKeyed;
use crate::stack::kept::KeptKeyed;
use crate::stack::pairs::Pairs;
use cabinet_text_nodes::Node;
use std::alloc::AllocError;

/// The pairs of a map, and a key that expects its node.
#[derive(Drop)]
pub enum Keyed<'a> {
    Ordered(AscendingKeyed),
    Hashed(AscendingKeyed),
    Kept(KeptKeyed<'a>),
}

impl<'a> Keyed<'a> {
    /// Returns the number of pairs before the key.
    pub fn len(&self) -> usize
        ensures { result ≡ length (keyed_entries self.now) }
    {
        match self {
            Keyed::Ordered(keyed) => keyed.len(),
            Keyed::Hashed(keyed) => keyed.len(),
            Keyed::Kept(keyed) => keyed.len(),
        }
    }

    /// Adds the node of the key, which completes the next pair.
    #[inline(always)]
    pub fn with_node(self, node: Node) -> Result<Pairs<'a>, AllocError>
        ensures kind { IfOk result (λ pairs. kind_of pairs ≡ keyed_kind self.entry) }
        ensures pairs { AddsPair self.entry node result }
    {
        match self {
            Keyed::Ordered(keyed) => Ok(Pairs::Ordered(keyed.with_node(node)?)),
            Keyed::Hashed(keyed) => Ok(Pairs::Hashed(keyed.with_node(node)?)),
            Keyed::Kept(keyed) => Ok(Pairs::Kept(keyed.with_node(node)?)),
        }
    }
}
