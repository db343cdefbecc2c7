//! Documents: a root and the trees of its wholes, and changes of its leaves.
ghost use Rattle.std.specs.Prelude.{◌≡◌, [], IfOk, IfErr};
ghost use Rattle.cabinet_text_grammar.specs.Wholes.{wholes_of, IsDocument};
ghost use Rattle.cabinet_text_grammar.specs.Answering.{answer, change};
ghost use Rattle.cabinet_text_grammar.specs.Line.{set};
ghost use Rattle.cabinet_text_grammar.specs.Restructuring.{put, insert, remove};
ghost use Rattle.cabinet_text_nodes.specs.Calls.{FindsNode, HasWholes};
ghost use Rattle.cabinet_text_nodes.specs.Faults.{IsRefusedFor, IsRefusedTable};
ghost use Rattle.cabinet_text_nodes.specs.Outcomes.{outcome_of};
ghost use Rattle.cabinet_text_nodes.specs.Restructures.{Becomes, BecomesOrStays, IsRootAlone};
ghost use Rattle.cabinet_text_nodes.specs.View.{node_tree, table_of, entries_of, leaf_of, path_of};

use crate::answer::EditAnswer;
use crate::change::change_at;
use crate::fault::fault_of;
use crate::leaf::Leaf;
use crate::line::Step;
use crate::node::Node;
use crate::refusal::DocumentRefusal;
use crate::restructuring::{Edit, edit_at, replace_root};
use crate::table::refusal_of;
use crate::walk::node_at;
use cabinet_text_grammar::MAX_DEPTH;
use std::alloc::{AllocError, Global};
use std::marker::Model;

/// A document: a root of at most 64 containers in one another, whose kept maps have distinct keys, and the trees of its
/// wholes, each once, by their numbers. Its view is the root's tree.
#[derive(Debug, Drop)]
pub struct Document {
    // None: there are none, and no memory is taken for them
    wholes: Option<Vec<Node>>,
    root: Node,
}

impl Model for Document {
    ghost use Rattle.std.specs.Prelude.{◌≡◌};
    ghost use Rattle.cabinet_text_grammar.specs.Tree.{Tree};
    ghost use Rattle.cabinet_text_grammar.specs.Wholes.{wholes_of, IsDocument};
    ghost use Rattle.cabinet_text_nodes.specs.Code.{tree_code};
    ghost use Rattle.cabinet_text_nodes.specs.View.{node_tree, table_of, entries_of};

    ghost Value = { Tree };

    ghost coded = { tree_code };

    ghost view = { λ d. node_tree (table_of (entries_of d.wholes)) d.root };

    ghost invariant = { λ d. IsDocument (node_tree (table_of (entries_of d.wholes)) d.root)
        × (wholes_of (node_tree (table_of (entries_of d.wholes)) d.root) ≡ table_of (entries_of d.wholes)) };
}

/// Returns the trees of the wholes.
fn entries(wholes: &Option<Vec<Node>>) -> &[Node]
    ensures { result.now ≡ entries_of wholes.now }
{
    match wholes {
        Some(wholes) => wholes.as_slice(),
        None => Default::default(),
    }
}

impl Document {
    /// Creates the document of a node without wholes. `UnknownWhole` is returned before `TooDeep`, and that before
    /// `RepeatedKey`, regardless of where in the node they occur. If a set of the keys of a map can be allocated, the
    /// keys are looked up in it; otherwise each two keys are compared, so that the check never fails when an allocation
    /// does.
    pub fn new(root: Node) -> Result<Document, DocumentRefusal>
        ensures document { IfOk result (λ document. document ≡ node_tree [] root) }
        ensures refusal { IfErr result (IsRefusedFor 64 root) }
        ensures none { IfErr result (λ _. IsDocument (node_tree [] root) → ⊥) }
    {
        match fault_of(&root, <&[usize]>::default(), MAX_DEPTH) {
            Some(refusal) => Err(refusal),
            None => Ok(Document { wholes: None, root }),
        }
    }

    /// Creates the document of a root and the nodes of its wholes, by their numbers. Each of those may have wholes with
    /// lower numbers. A refusal is returned before those that follow it in `DocumentRefusal`, regardless of where in the
    /// nodes it occurs, except that `OutOfMemory` is returned as soon as an allocation is refused. If there are no wholes,
    /// nothing is allocated but sets of keys, as in `new`.
    pub fn with_wholes(wholes: Vec<Node>, root: Node) -> Result<Document, DocumentRefusal>
        ensures document { IfOk result (λ document. document ≡ node_tree (table_of wholes.items) root) }
        ensures wholes { IfOk result (λ document. wholes_of document ≡ table_of wholes.items) }
        ensures refusal { IfErr result (IsRefusedTable wholes.items root) }
    {
        match refusal_of(&wholes, &root) {
            Some(refusal) => Err(refusal),
            None if wholes.is_empty() => Ok(Document { wholes: None, root }),
            None => Ok(Document {
                wholes: Some(wholes),
                root,
            }),
        }
    }

    /// Creates the document of a root and the trees of its wholes, which are known to be one: at most 64 containers lie
    /// in one another, the keys of each kept map are distinct, and the wholes are those of the root, each once and in
    /// the order in which a walk first completes them.
    pub fn of_parts(wholes: Option<Vec<Node>>, root: Node) -> Document
        requires document { IsDocument (node_tree (table_of (entries_of wholes)) root) }
        requires wholes { HasWholes (entries_of wholes) root }
        ensures { result ≡ node_tree (table_of (entries_of wholes)) root }
    {
        Document { wholes, root }
    }

    /// Returns the trees of the wholes, by their numbers.
    pub fn wholes(&self) -> &[Node]
        ensures { table_of result.now ≡ wholes_of self.now }
    {
        entries(&self.wholes)
    }

    /// Returns the root of the document.
    pub fn root(&self) -> &Node
        ensures tree { node_tree (wholes_of self.now) result.now ≡ self.now }
        ensures document { IsDocument self.now }
    {
        &self.root
    }

    /// Returns the node that a path leads to, if it leads to one. It allocates no memory. A step by the key of an
    /// ordered or a hashed map takes time in proportion to the logarithm of the map's length.
    pub fn node_at(&self, path: &[Step]) -> Option<&Node>
        ensures { FindsNode (wholes_of self.now) self.now (path_of path.now) result }
    {
        node_at(self.wholes(), &self.root, path)
    }

    /// Puts a leaf at a path, in the place of a leaf that it fits. It allocates no memory.
    pub fn change(&mut self, path: &[Step], leaf: &Leaf) -> EditAnswer
        ensures answer { outcome_of result ≡ answer self.old
            (set (path_of path.now) (leaf_of leaf.now)) }
        ensures document { self.new ≡ change self.old (path_of path.now) (leaf_of leaf.now) }
    {
        change_at(&mut self.root, path, leaf.as_ref(), entries(&self.wholes))
    }

    /// Returns the root of a document without wholes.
    fn into_root(self) -> Node
        requires { wholes_of self ≡ [] }
        ensures { IsRootAlone self result }
    {
        self.root
    }

    /// Puts the root of a document without wholes at a path: in the place of the node there, in which no whole may lie, under
    /// a new key, after the last element of a list, or in an empty option. A new key of an ordered or a hashed map is placed
    /// in the order of the keys, and one of a kept map last. An `Err` says that an allocation failed, and that nothing changed.
    pub fn put(
        &mut self,
        alloc: Global,
        path: &[Step],
        new: Document,
    ) -> Result<EditAnswer, AllocError>
        requires { wholes_of new ≡ [] }
        ensures { BecomesOrStays (put self.old (path_of path.now) new) result self.old self.new }
    {
        let root = new.into_root();
        let wholes = entries(&self.wholes);
        match path.split_first() {
            Some((step, rest)) => edit_at(
                &mut self.root,
                step,
                rest,
                0,
                Edit::Put(alloc, root),
                wholes,
            ),
            None => Ok(replace_root(&mut self.root, root, wholes)),
        }
    }

    /// Inserts the root of a document without wholes before the element at a place of a list, or after the last. An `Err` says
    /// that an allocation failed, and that nothing changed.
    pub fn insert(&mut self, path: &[Step], new: Document) -> Result<EditAnswer, AllocError>
        requires { wholes_of new ≡ [] }
        ensures { BecomesOrStays (insert self.old (path_of path.now) new) result self.old self.new }
    {
        let root = new.into_root();
        let Some((step, rest)) = path.split_first() else {
            return Ok(EditAnswer::Missing);
        };
        edit_at(
            &mut self.root,
            step,
            rest,
            0,
            Edit::Insert(root),
            entries(&self.wholes),
        )
    }

    /// Takes the node that a path leads to out of its map, list or option. No whole may lie in it. It allocates no memory.
    pub fn remove(&mut self, path: &[Step]) -> EditAnswer
        ensures { Becomes (remove self.old (path_of path.now)) result self.old self.new }
    {
        let Some((step, rest)) = path.split_first() else {
            return EditAnswer::Refused;
        };
        let answer = edit_at(
            &mut self.root,
            step,
            rest,
            0,
            Edit::Remove,
            entries(&self.wholes),
        );
        // a removal takes no memory, so that there is an answer
        answer.unwrap_or(EditAnswer::Missing)
    }
}
