//! Archives nodes, each by its kind and beside the table of its document.
ghost use Rattle.std.specs.Prelude.{◌≡◌, ◌-◌, ◌^◌, ◌<◌, ◌≤◌, length, refl, IfSome};
ghost use Rattle.archive_forms_laws.specs.Serializing.{CanResolve, HasState, Resolves, Serializes, SerializesBy};
ghost use Rattle.archive_forms_laws.specs.Pointers.{box_spelling};
ghost use Rattle.archive_forms_laws.specs.Shared.{shared_value_spelling};
ghost use Rattle.archive_forms_laws.specs.Forms.{seen_as};
ghost use Rattle.archive_forms_laws.proofs.Views.{kept_spells, kept_spells_at, seen_spells};
ghost use Rattle.cabinet_text_grammar.specs.Tree.{depth};
ghost use Rattle.cabinet_text_grammar.specs.Wholes.{numbered, IsNumbered, AreNumbered, ArePairsNumbered, IsTable};
ghost use Rattle.cabinet_documents.specs.Node.{node_shape, KnowsNode};
ghost use Rattle.cabinet_documents.specs.Resolver as resolvers;
ghost use Rattle.cabinet_documents.specs.SharedKeys.{key_of_whole};
ghost use Rattle.archive_forms_writing.specs.Owned.{string_spelling};
ghost use Rattle.cabinet_documents.specs.Spelling.{node_spelling, maybe_spelling, list_spelling, ordered_spelling, hashed_spelling, kept_spelling};
ghost use Rattle.cabinet_documents.proofs.Levels.{node_spells_law};
ghost use Rattle.cabinet_archived.specs.Archived.{node_resolver, resolver_in, archived_as, archived_in, table_in, tree_within, trees_within, most_within, pairs_within, most_in_pairs, tree_numbered};
ghost use Rattle.cabinet_text_nodes.specs.View.{node_tree, node_trees, node_pairs, table_of};

use crate::resolving::resolve_node;
use crate::{ArchivedNode, NodeIn, NodeResolver, NodeSharing, NodesIn};
use archive_btree_maps::BTreeMapResolver;
use archive_forms_rc::RcResolver;
use archive_forms_values::{ArchivedString, BoxResolver, StringResolver, VecResolver};
use archive_forms_writing::{
    Archive, ArchiveWith, Serialize, serialize_element, serialize_one_each,
    serialize_slice_with_each,
};
use archive_hash_maps::HashTableResolver;
use archive_index::IndexMapResolver;
use archive_shape::{Error, Place, SharingState};
use cabinet_text_nodes::Node;
use std::collections::BTreeMap;
use std::marker::PhantomData;

impl<'a> Archive for NodeIn<'a> {
    type Archived = ArchivedNode;

    type Resolver = NodeResolver;

    ghost spelling = { archived_in };

    /// Writes the node's own bytes.
    fn resolve(&self, resolver: NodeResolver, out: Place<'_, ArchivedNode>) -> Result<(), Error>
        requires { CanResolve archived_in node_shape self.now resolver out.out.now out.start out.pos }
        ensures { Resolves archived_in node_shape self.now resolver out.entry.pos out.entry.start
            out.entry.out.now out.exit.0.now result }
    {
        let Place {
            out,
            start,
            pos,
            ..
        } = out;
        resolve_node(*self, resolver, Place::within(out, start, pos))
    }

    ghost spells = { λ fit x.
        let one = kept_spells_at fit node_shape KnowsNode node_resolver resolver_in
        (elim [
          | resolvers.leaf ↦ refl
          | resolvers.text r ↦ refl
          | resolvers.shared r ↦ refl
          | resolvers.maybe r ↦ refl
          | resolvers.list r ↦ refl
          | resolvers.ordered r ↦ refl
          | resolvers.hashed r ↦ refl
          | resolvers.kept r ↦ refl
          | resolvers.whole r ↦ refl
        ])
        (node_spelling (table_in x)) (node_tree (table_in x) x.node.now)
        (node_spells_law (table_in x) fit (node_tree (table_in x) x.node.now)) in
        record {
          sized = one.sized;
          canonical = one.canonical;
          consistent = one.consistent;
          keyed = one.keyed;
          piece_bytes = one.piece_bytes;
          own_bytes = one.own_bytes;
          piece_exact = one.piece_exact;
          own_exact = one.own_exact;
          unshared = one.unshared;
        } };
}

impl<'a> ArchiveWith<Node> for NodesIn<'a> {
    type Archived = ArchivedNode;

    type Resolver = NodeResolver;

    ghost spelling = { λ with. archived_as (table_of with.wholes.now) };

    /// Writes a node's own bytes.
    fn resolve_with(
        &self,
        value: &Node,
        resolver: NodeResolver,
        out: Place<'_, ArchivedNode>,
    ) -> Result<(), Error>
        requires { CanResolve (archived_as (table_of self.now.wholes.now)) node_shape value.now resolver
            out.out.now out.start out.pos }
        ensures { Resolves (archived_as (table_of self.now.wholes.now)) node_shape value.now resolver
            out.entry.pos out.entry.start out.entry.out.now out.exit.0.now result }
    {
        let Place {
            out,
            start,
            pos,
            ..
        } = out;
        let node = NodeIn {
            wholes: self.wholes,
            node: value,
        };
        resolve_node(node, resolver, Place::within(out, start, pos))
    }

    ghost spells = { λ with fit. kept_spells fit node_shape KnowsNode node_resolver resolver_in
        (elim [
          | resolvers.leaf ↦ refl
          | resolvers.text r ↦ refl
          | resolvers.shared r ↦ refl
          | resolvers.maybe r ↦ refl
          | resolvers.list r ↦ refl
          | resolvers.ordered r ↦ refl
          | resolvers.hashed r ↦ refl
          | resolvers.kept r ↦ refl
          | resolvers.whole r ↦ refl
        ])
        (seen_as (node_tree (table_of with.wholes.now)) (node_spelling (table_of with.wholes.now)))
        (seen_spells fit node_shape KnowsNode (node_tree (table_of with.wholes.now))
        (node_spelling (table_of with.wholes.now)) (node_spells_law (table_of with.wholes.now) fit)) };
}

/// Writes the data of the node in an option.
#[cycle(serialize)]
fn serialize_maybe<S: NodeSharing>(
    wholes: &[Node],
    content: &Option<Box<Node>>,
    serializer: &mut S,
) -> Result<Option<BoxResolver>, Error>
    requires table { IsTable (table_of wholes.now) }
    requires numbered { IfSome (tree_within (table_of wholes.now) content.now) (IsNumbered (table_of wholes.now)) }
    requires room { S.failures serializer.old < 2 ^ 64 - 1 }
    requires state { HasState S.pos S.known serializer.old }
    ensures { Serializes (maybe_spelling (node_spelling (table_of wholes.now))) S.Writer
        (tree_within (table_of wholes.now) content.now)
        serializer.old serializer.new result }
{
    let Some(inner) = content else {
        return Ok(None);
    };
    let pos = serialize_one_each::<NodeIn<'_>, S, _>(
        &NodeIn {
            wholes,
            node: inner,
        },
        serializer,
        |item: &NodeIn<'_>, s: &mut S| -> Result<(NodeResolver, PhantomData<ArchivedNode>), Error>
            requires same { node_tree (table_in item.now) item.now.node.now ≡ node_tree (table_of wholes.now) inner.now.value }
            requires table { IsTable (table_in item.now) }
            requires numbered { IsNumbered (table_in item.now) (node_tree (table_in item.now) item.now.node.now) }
            requires room { S.failures s.old < 2 ^ 64 - 1 }
            requires state { HasState S.pos S.known s.old }
            ensures { SerializesBy (λ q. q.0) archived_in S.Writer item.now s.old s.new result }
        {
            let _ = &wholes;
            let _ = &inner;
            let resolver = serialize_node(*item, s)?;
            Ok((resolver, PhantomData))
        },
    )?;
    Ok(Some(BoxResolver { pos }))
}

/// Writes the elements of a list after their data.
#[cycle(serialize)]
fn serialize_list<S: NodeSharing>(
    wholes: &[Node],
    nodes: &Vec<Node>,
    serializer: &mut S,
) -> Result<VecResolver, Error>
    requires table { IsTable (table_of wholes.now) }
    requires numbered { AreNumbered (table_of wholes.now) (node_trees (table_of wholes.now) nodes.now.items) }
    requires room { S.failures serializer.old < 2 ^ 64 - 1 }
    requires state { HasState S.pos S.known serializer.old }
    ensures { Serializes (list_spelling (node_spelling (table_of wholes.now))) S.Writer
        (trees_within (table_of wholes.now) nodes.now.items)
        serializer.old serializer.new result }
{
    let pos = serialize_slice_with_each::<Node, NodesIn<'_>, S, _>(
        &NodesIn { wholes },
        nodes.as_slice(),
        serializer,
        |item: &Node, s: &mut S| -> Result<(NodeResolver, PhantomData<ArchivedNode>), Error>
            requires table { IsTable (table_of wholes.now) }
            requires numbered { IsNumbered (table_of wholes.now) (node_tree (table_of wholes.now) item.now) }
            requires below { depth (node_tree (table_of wholes.now) item.now) ≤ most_within (table_of wholes.now) nodes.now.items }
            requires room { S.failures s.old < 2 ^ 64 - 1 }
            requires state { HasState S.pos S.known s.old }
            ensures { SerializesBy (λ q. q.0) (archived_as (table_of wholes.entry.now)) S.Writer item.now s.old s.new result }
        {
            let _ = &nodes;
            let resolver = serialize_node(NodeIn { wholes, node: item }, s)?;
            Ok((resolver, PhantomData))
        },
    )?;
    Ok(VecResolver { pos })
}

/// Writes the search tree of the pairs of an ordered map, each node of it after the data of its pairs.
#[cycle(serialize)]
fn serialize_ordered<S: NodeSharing>(
    wholes: &[Node],
    map: &BTreeMap<String, Node>,
    serializer: &mut S,
) -> Result<BTreeMapResolver, Error>
    requires table { IsTable (table_of wholes.now) }
    requires numbered { ArePairsNumbered (table_of wholes.now) (node_pairs (table_of wholes.now) map.now.entries) }
    requires room { S.failures serializer.old < 2 ^ 64 - 1 }
    requires state { HasState S.pos S.known serializer.old }
    ensures { Serializes (ordered_spelling (node_spelling (table_of wholes.now))) S.Writer
        (pairs_within (table_of wholes.now) map.now.entries)
        serializer.old serializer.new result }
{
    archive_btree::serialize_entries_with_each::<String, Node, NodesIn<'_>, S, _, _, 5>(
        &NodesIn { wholes },
        map,
        serializer,
        |key: &String, s: &mut S| -> Result<(StringResolver, PhantomData<ArchivedString>), Error>
            requires room { S.failures s.old < 2 ^ 64 - 1 }
            requires state { HasState S.pos S.known s.old }
            ensures { SerializesBy (λ q. q.0) string_spelling S.Writer key.now s.old s.new result }
        { serialize_element(key, s) },
        |item: &Node, s: &mut S| -> Result<(NodeResolver, PhantomData<ArchivedNode>), Error>
            requires table { IsTable (table_of wholes.now) }
            requires numbered { IsNumbered (table_of wholes.now) (node_tree (table_of wholes.now) item.now) }
            requires below { depth (node_tree (table_of wholes.now) item.now) ≤ most_in_pairs (table_of wholes.now) map.now.entries }
            requires room { S.failures s.old < 2 ^ 64 - 1 }
            requires state { HasState S.pos S.known s.old }
            ensures { SerializesBy (λ q. q.0) (archived_as (table_of wholes.entry.now)) S.Writer item.now s.old s.new result }
        {
            let _ = &map;
            let resolver = serialize_node(NodeIn { wholes, node: item }, s)?;
            Ok((resolver, PhantomData))
        },
    )
}

/// Writes the table of the pairs of a hashed map after the data of its pairs.
#[cycle(serialize)]
fn serialize_hashed<S: NodeSharing>(
    wholes: &[Node],
    map: &BTreeMap<String, Node>,
    serializer: &mut S,
) -> Result<HashTableResolver, Error>
    requires table { IsTable (table_of wholes.now) }
    requires numbered { ArePairsNumbered (table_of wholes.now) (node_pairs (table_of wholes.now) map.now.entries) }
    requires room { S.failures serializer.old < 2 ^ 64 - 1 }
    requires state { HasState S.pos S.known serializer.old }
    ensures { Serializes (hashed_spelling (node_spelling (table_of wholes.now))) S.Writer
        (pairs_within (table_of wholes.now) map.now.entries)
        serializer.old serializer.new result }
{
    archive_hash::serialize_entries_with_each::<String, Node, NodesIn<'_>, S, _, _>(
        &NodesIn { wholes },
        map,
        serializer,
        |key: &String, s: &mut S| -> Result<(StringResolver, PhantomData<ArchivedString>), Error>
            requires room { S.failures s.old < 2 ^ 64 - 1 }
            requires state { HasState S.pos S.known s.old }
            ensures { SerializesBy (λ q. q.0) string_spelling S.Writer key.now s.old s.new result }
        { serialize_element(key, s) },
        |item: &Node, s: &mut S| -> Result<(NodeResolver, PhantomData<ArchivedNode>), Error>
            requires table { IsTable (table_of wholes.now) }
            requires numbered { IsNumbered (table_of wholes.now) (node_tree (table_of wholes.now) item.now) }
            requires below { depth (node_tree (table_of wholes.now) item.now) ≤ most_in_pairs (table_of wholes.now) map.now.entries }
            requires room { S.failures s.old < 2 ^ 64 - 1 }
            requires state { HasState S.pos S.known s.old }
            ensures { SerializesBy (λ q. q.0) (archived_as (table_of wholes.entry.now)) S.Writer item.now s.old s.new result }
        {
            let _ = &map;
            let resolver = serialize_node(NodeIn { wholes, node: item }, s)?;
            Ok((resolver, PhantomData))
        },
    )
}

/// Writes the table and the entries of a map that keeps its order, the entries after the data of its pairs.
#[cycle(serialize)]
fn serialize_kept<S: NodeSharing>(
    wholes: &[Node],
    pairs: &Vec<(String, Node)>,
    serializer: &mut S,
) -> Result<IndexMapResolver, Error>
    requires table { IsTable (table_of wholes.now) }
    requires numbered { ArePairsNumbered (table_of wholes.now) (node_pairs (table_of wholes.now) pairs.now.items) }
    requires room { S.failures serializer.old < 2 ^ 64 - 1 }
    requires state { HasState S.pos S.known serializer.old }
    ensures { Serializes (kept_spelling (node_spelling (table_of wholes.now))) S.Writer
        (pairs_within (table_of wholes.now) pairs.now.items)
        serializer.old serializer.new result }
{
    archive_index::serialize_entries_with_each::<String, Node, NodesIn<'_>, S, _, _>(
        &NodesIn { wholes },
        pairs.as_slice(),
        serializer,
        |key: &String, s: &mut S| -> Result<(StringResolver, PhantomData<ArchivedString>), Error>
            requires room { S.failures s.old < 2 ^ 64 - 1 }
            requires state { HasState S.pos S.known s.old }
            ensures { SerializesBy (λ q. q.0) string_spelling S.Writer key.now s.old s.new result }
        { serialize_element(key, s) },
        |item: &Node, s: &mut S| -> Result<(NodeResolver, PhantomData<ArchivedNode>), Error>
            requires table { IsTable (table_of wholes.now) }
            requires numbered { IsNumbered (table_of wholes.now) (node_tree (table_of wholes.now) item.now) }
            requires below { depth (node_tree (table_of wholes.now) item.now) ≤ most_in_pairs (table_of wholes.now) pairs.now.items }
            requires room { S.failures s.old < 2 ^ 64 - 1 }
            requires state { HasState S.pos S.known s.old }
            ensures { SerializesBy (λ q. q.0) (archived_as (table_of wholes.entry.now)) S.Writer item.now s.old s.new result }
        {
            let _ = &pairs;
            let resolver = serialize_node(NodeIn { wholes, node: item }, s)?;
            Ok((resolver, PhantomData))
        },
    )
}

/// Returns the position of the node in the whole with a number. Writes the node if it was not written before.
#[cycle(serialize)]
fn serialize_whole<S: NodeSharing>(
    wholes: &[Node],
    number: u64,
    serializer: &mut S,
) -> Result<usize, Error>
    requires table { IsTable (table_of wholes.now) }
    requires within { number < length wholes.now }
    requires room { S.failures serializer.old < 2 ^ 64 - 1 }
    requires state { HasState S.pos S.known serializer.old }
    ensures { Serializes (shared_value_spelling node_shape (key_of_whole (table_of wholes.now)) (node_spelling (table_of wholes.now)))
        S.Writer (tree_numbered (numbered (table_of wholes.now) number)) serializer.old serializer.new result }
{
    match serializer.start_whole(number)? {
        SharingState::Started => {}
        SharingState::Pending => return Err(Error::CyclicSharedPointer),
        SharingState::Finished(pos) => return Ok(pos),
    }
    let inner = &wholes[number as usize];
    let pos = serialize_one_each::<NodeIn<'_>, S, _>(
        &NodeIn {
            wholes,
            node: inner,
        },
        serializer,
        |item: &NodeIn<'_>, s: &mut S| -> Result<(NodeResolver, PhantomData<ArchivedNode>), Error>
            requires same { node_tree (table_in item.now) item.now.node.now ≡ node_tree (table_of wholes.now) inner.now }
            requires table { IsTable (table_in item.now) }
            requires numbered { IsNumbered (table_in item.now) (node_tree (table_in item.now) item.now.node.now) }
            requires room { S.failures s.old < 2 ^ 64 - 1 }
            requires state { HasState S.pos S.known s.old }
            ensures { SerializesBy (λ q. q.0) archived_in S.Writer item.now s.old s.new result }
        {
            let _ = &wholes;
            let _ = &inner;
            let resolver = serialize_node(*item, s)?;
            Ok((resolver, PhantomData))
        },
    )?;
    serializer.finish_whole(number, pos)?;
    Ok(pos)
}

/// Writes the data of a node, and each whole once. The depth of its recursion is at most the depth at which nodes lie in
/// one another.
#[cycle(serialize)]
fn serialize_node<S: NodeSharing>(
    node: NodeIn<'_>,
    serializer: &mut S,
) -> Result<NodeResolver, Error>
    requires table { IsTable (table_in node) }
    requires numbered { IsNumbered (table_in node) (node_tree (table_in node) node.node.now) }
    requires room { S.failures serializer.old < 2 ^ 64 - 1 }
    requires state { HasState S.pos S.known serializer.old }
    ensures { Serializes archived_in S.Writer node.entry serializer.old serializer.new result }
{
    match node.node {
        Node::Bool(_) => Ok(NodeResolver::Leaf),
        Node::Int(_) => Ok(NodeResolver::Leaf),
        Node::Text(text) => Ok(NodeResolver::Text(text.serialize(serializer)?)),
        Node::Shared(text) => {
            let pos = serializer.serialize_text(text.as_str())?;
            Ok(NodeResolver::Shared(RcResolver { pos }))
        }
        Node::Maybe(content) => {
            let kept = serialize_maybe(node.wholes, content, serializer)?;
            Ok(NodeResolver::Maybe(kept))
        }
        Node::List(nodes) => {
            let kept = serialize_list(node.wholes, nodes, serializer)?;
            Ok(NodeResolver::List(kept))
        }
        Node::Ordered(map) => {
            let kept = serialize_ordered(node.wholes, map, serializer)?;
            Ok(NodeResolver::Ordered(kept))
        }
        Node::Hashed(map) => {
            let kept = serialize_hashed(node.wholes, map, serializer)?;
            Ok(NodeResolver::Hashed(kept))
        }
        Node::Kept(pairs) => {
            let kept = serialize_kept(node.wholes, pairs, serializer)?;
            Ok(NodeResolver::Kept(kept))
        }
        Node::Whole(number) => {
            let pos = serialize_whole(node.wholes, *number, serializer)?;
            Ok(NodeResolver::Whole(RcResolver { pos }))
        }
    }
}

/// Writes the data of a document's root and then its own bytes. Returns the position of these.
pub fn serialize_root<S: NodeSharing>(root: NodeIn<'_>, serializer: &mut S) -> Result<usize, Error>
    requires table { IsTable (table_in root) }
    requires numbered { IsNumbered (table_in root) (node_tree (table_in root) root.node.now) }
    requires room { S.failures serializer.old < 2 ^ 64 - 1 }
    requires state { HasState S.pos S.known serializer.old }
    ensures { Serializes (box_spelling node_shape archived_in) S.Writer root.entry serializer.old serializer.new result }
{
    serialize_one_each::<NodeIn<'_>, S, _>(
        &root,
        serializer,
        |item: &NodeIn<'_>, s: &mut S| -> Result<(NodeResolver, PhantomData<ArchivedNode>), Error>
            requires table { IsTable (table_in item.now) }
            requires numbered { IsNumbered (table_in item.now) (node_tree (table_in item.now) item.now.node.now) }
            requires room { S.failures s.old < 2 ^ 64 - 1 }
            requires state { HasState S.pos S.known s.old }
            ensures { SerializesBy (λ q. q.0) archived_in S.Writer item.now s.old s.new result }
        {
            let resolver = serialize_node(*item, s)?;
            Ok((resolver, PhantomData))
        },
    )
}
