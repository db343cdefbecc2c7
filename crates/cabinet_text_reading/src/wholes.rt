//! The wholes of a text of which some lines were read.
ghost use Rattle.std.specs.Prelude.{◌≡◌, ◌<◌, [], IfOk};
ghost use Rattle.cabinet_text_grammar.specs.Reading.{around};
ghost use Rattle.cabinet_text_nodes.specs.View.{entries_of};
ghost use Rattle.cabinet_text_reading.specs.Calls.Wholes.{TellsNew, AddsWhole, KnowsAdded};
ghost use Rattle.cabinet_text_reading.specs.Wholes.{reading_of, AreKnown};

use cabinet_text_nodes::{Node, depth_of};
use std::alloc::{AllocError, Global};
use std::collections::BTreeSet;

/// The wholes of a text of which some lines were read. The tree that is read is that of the next whole, and where no
/// whole lacks the root.
#[derive(Drop)]
pub(crate) struct Wholes<'a> {
    /// The number of wholes that are not complete.
    pub(crate) lacking: u64,
    /// The nodes of those that are, by their numbers.
    pub(crate) entries: Vec<Node>,
    /// The depths of their trees.
    pub(crate) depths: Vec<usize>,
    /// The lines of each of them.
    pub(crate) texts: BTreeSet<&'a [u8]>,
}

impl<'a> Wholes<'a> {
    /// Creates the wholes of a text that has `lacking` of them. It does not allocate.
    pub(crate) fn new(alloc: Global, lacking: u64) -> Self
        ensures reading { reading_of result [] ≡ record { lacking = lacking; table = []; stack = [] } }
        ensures known { AreKnown result }
    {
        Wholes {
            lacking,
            entries: Vec::new(alloc),
            depths: Vec::new(alloc),
            texts: BTreeSet::new(alloc),
        }
    }

    /// Returns the number of containers around the tree that is read: a whole is one.
    pub(crate) fn around(&self) -> usize
        ensures { result ≡ around self.now.lacking }
    {
        match self.lacking {
            0 => 0,
            _ => 1,
        }
    }

    /// Returns whether no whole that is complete has the tree of these lines.
    pub(crate) fn is_new(&self, lines: &[u8]) -> bool
        ensures { TellsNew self.now lines.now result }
    {
        !self.texts.contains(lines)
    }

    /// Adds the tree of the next whole. `lines` are its lines.
    pub(crate) fn add(&mut self, tree: Node, lines: &'a [u8]) -> Result<(), AllocError>
        requires { 0 < self.old.lacking }
        ensures reading { IfOk result (λ _. AddsWhole self.old tree self.new) }
        ensures known { KnowsAdded self.old tree lines.now result self.new }
    {
        let depth = depth_of(&tree, self.depths.as_slice());
        self.entries.push(tree)?;
        self.depths.push(depth)?;
        self.texts.insert(lines)?;
        self.lacking -= 1;
        Ok(())
    }
}

/// Returns the nodes of wholes, or `None` if there are none.
pub(crate) fn some_nodes(nodes: Vec<Node>) -> Option<Vec<Node>>
    ensures { entries_of result ≡ nodes.items }
{
    if nodes.is_empty() { None } else { Some(nodes) }
}
