//! The wholes of an archive that is loaded.
ghost use Rattle.std.specs.Prelude.{◌≡◌, ◌<◌, ℕ, List, [], IfOk, Some};
ghost use Rattle.cabinet_documents.specs.Node.{node_shape, KnowsNode};
ghost use Rattle.cabinet_text_grammar.specs.Tree.{IsLegal, depth};
ghost use Rattle.cabinet_text_grammar.specs.Wholes.{numbered, with_tree};
ghost use Rattle.cabinet_text_nodes.specs.View.{node_tree, table_of};
ghost use Rattle.cabinet_archives.specs.Found.{OfDocument};
ghost use Rattle.cabinet_archives.specs.Loading.{AreWholesOf, loaded_table, read_at};

use archive_shape::Ref;
use cabinet_archived::ArchivedNode;
use cabinet_text_nodes::{Node, NodeText};
use std::alloc::{AllocError, Global};
use std::collections::BTreeMap;

/// The wholes that were loaded: their nodes, by their numbers, and these numbers by the texts of the nodes and by the
/// positions at which nodes were read. So a node to which many pointers lead is read once, and equal wholes at different
/// positions become one. The texts have no copy of a shared text, to which one archive may have a pointer in each whole.
#[derive(Drop)]
pub(crate) struct LoadedWholes {
    read: BTreeMap<usize, u64>,
    numbers: BTreeMap<NodeText, u64>,
    nodes: Vec<Node>,
}

impl LoadedWholes {
    /// Creates a table without wholes. It does not allocate.
    pub(crate) fn new(alloc: Global) -> Self
        ensures empty { loaded_table result ≡ [] }
        ensures knows { (bytes : List ℕ) → AreWholesOf bytes result }
    {
        LoadedWholes {
            read: BTreeMap::new(alloc),
            numbers: BTreeMap::new(alloc),
            nodes: Vec::new(alloc),
        }
    }

    /// Returns the number of the whole that was read from a node, if it was read.
    pub(crate) fn number_of(&self, node: Ref<'_, ArchivedNode>) -> Option<u64>
        ensures { result ≡ read_at self.now node.entry.pos }
    {
        self.read.get(&node.pos()).copied()
    }

    /// Keeps the number of the whole that was read from a node.
    pub(crate) fn keep(
        &mut self,
        node: Ref<'_, ArchivedNode>,
        number: u64,
    ) -> Result<(), AllocError>
        requires known { AreWholesOf node.bytes.now self.old }
        requires read { OfDocument node.bytes.now node.pos (λ t. numbered (loaded_table self.old) number ≡ Some t) }
        ensures table { loaded_table self.new ≡ loaded_table self.old }
        ensures kept { IfOk result (λ _. read_at self.new node.entry.pos ≡ Some number) }
        ensures knows { IfOk result (λ _. AreWholesOf node.entry.bytes.now self.new) }
    {
        self.read.insert(node.pos(), number)?;
        Ok(())
    }

    /// Returns the number of the whole with the tree of a node, which is added unless a whole has an equal one. Equal trees
    /// have equal texts: the time grows with the sizes of the node and of its shared texts, and with the logarithm of the
    /// number of wholes. The memory is in proportion to the node, however long its shared texts are.
    pub(crate) fn share(&mut self, alloc: Global, node: Node) -> Result<u64, AllocError>
        requires legal { IsLegal (node_tree (loaded_table self.old) node) }
        requires low { depth (node_tree (loaded_table self.old) node) < 64 }
        ensures number { (bytes : List ℕ) → AreWholesOf bytes self.old → IfOk result (λ n. numbered (loaded_table self.new) n ≡ Some (node_tree (loaded_table self.old) node)) }
        ensures table { (bytes : List ℕ) → AreWholesOf bytes self.old → IfOk result (λ _. loaded_table self.new ≡ with_tree (loaded_table self.old) (node_tree (loaded_table self.old) node)) }
        ensures knows { (bytes : List ℕ) → AreWholesOf bytes self.old → IfOk result (λ _. AreWholesOf bytes self.new) }
    {
        let Ok(text) = NodeText::new(alloc, &node) else {
            return Err(AllocError);
        };
        if let Some(number) = self.numbers.get(&text) {
            return Ok(*number);
        }
        let number = self.nodes.len() as u64;
        self.numbers.insert(text, number)?;
        self.nodes.push(node)?;
        Ok(number)
    }

    /// Returns the nodes of the wholes, by their numbers.
    pub(crate) fn into_nodes(self) -> Vec<Node>
        ensures { table_of result.items ≡ loaded_table self }
    {
        self.nodes
    }
}
