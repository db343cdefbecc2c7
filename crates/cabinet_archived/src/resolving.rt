//! Writes the own bytes of nodes, each by its kind.
ghost use Rattle.std.specs.Prelude.{◌≡◌, false, List, ◌+◌, ◌-◌, ◌^◌, ◌<◌, ◌≤◌, length};
ghost use Rattle.std.specs.Rc.{rc_str_bytes};
ghost use Rattle.archive_shape_layout.specs.Shape.Shape.{option, vector, shared, text, tree, table, index_map};
ghost use Rattle.archive_shape_layout.specs.Shape.Pointee.{str};
ghost use Rattle.archive_shape.specs.Bytes.{HasBytes, zeros};
ghost use Rattle.archive_forms_laws.specs.Serializing.{CanResolve, Resolves};
ghost use Rattle.cabinet_documents.specs.Node.{node_shape, pair_shape, whole_shape};
ghost use Rattle.cabinet_documents.specs.Spelling.{boxed_shape, node_spelling, shared_string_spelling, maybe_spelling, list_spelling, ordered_spelling, hashed_spelling, kept_spelling, whole_spelling, text_in, shared_in, maybe_in, list_in, ordered_in, hashed_in, kept_in, whole_in};
ghost use Rattle.cabinet_archived.specs.Archived.{resolver_in, archived_as, table_in, tree_within, trees_within, pairs_within};
ghost use Rattle.cabinet_text_grammar.specs.Tree.{Tree};

use crate::{ArchivedNode, NodeIn, NodeResolver, tag};
use archive_btree_maps::{ArchivedBTreeMap, BTreeMapResolver};
use archive_forms_rc::{ArchivedRc, ArchivedRcStr, RcFlavor, RcResolver};
use archive_forms_values::{
    ArchivedBox, ArchivedOption, ArchivedString, ArchivedVec, BoxResolver, SOME_TAG,
    StringResolver, VecResolver,
};
use archive_forms_writing::Archive;
use archive_hash::LOAD_FACTOR;
use archive_hash_maps::{ArchivedHashMap, HashMapResolver, HashTableResolver};
use archive_hash_probing::FxHasher64;
use archive_index::{ArchivedIndexMap, IndexMapResolver};
use archive_shape::{Error, Place};
use cabinet_text_nodes::Node;
use std::collections::BTreeMap;
use std::rc::RcStr;

/// Returns the position of the bytes of a text.
fn text_kept(resolver: NodeResolver) -> StringResolver
    ensures { result ≡ text_in (resolver_in resolver) }
{
    match resolver {
        NodeResolver::Text(kept) => kept,
        _ => StringResolver { pos: 0 },
    }
}

/// Returns the position of a shared text.
fn shared_kept(resolver: NodeResolver) -> RcResolver
    ensures { result ≡ shared_in (resolver_in resolver) }
{
    match resolver {
        NodeResolver::Shared(kept) => kept,
        _ => RcResolver { pos: 0 },
    }
}

/// Returns the position of the node in an option, if there is one.
fn maybe_kept(resolver: NodeResolver) -> Option<BoxResolver>
    ensures { result ≡ maybe_in (resolver_in resolver) }
{
    match resolver {
        NodeResolver::Maybe(kept) => kept,
        _ => None,
    }
}

/// Returns the position of the elements of a list.
fn list_kept(resolver: NodeResolver) -> VecResolver
    ensures { result ≡ list_in (resolver_in resolver) }
{
    match resolver {
        NodeResolver::List(kept) => kept,
        _ => VecResolver { pos: 0 },
    }
}

/// Returns the position of the root of an ordered map's search tree, if the map has pairs.
fn ordered_kept(resolver: NodeResolver) -> BTreeMapResolver
    ensures { result ≡ ordered_in (resolver_in resolver) }
{
    match resolver {
        NodeResolver::Ordered(kept) => kept,
        _ => BTreeMapResolver { pos: None },
    }
}

/// Returns the position of the controls of a hashed map's table, if the map has pairs.
fn hashed_kept(resolver: NodeResolver) -> HashTableResolver
    ensures { result ≡ hashed_in (resolver_in resolver) }
{
    match resolver {
        NodeResolver::Hashed(kept) => kept,
        _ => HashTableResolver { pos: None },
    }
}

/// Returns the positions of the controls and of the entries of a kept map, if the map has pairs.
fn index_kept(resolver: NodeResolver) -> IndexMapResolver
    ensures { result ≡ kept_in (resolver_in resolver) }
{
    match resolver {
        NodeResolver::Kept(kept) => kept,
        _ => IndexMapResolver {
            table: HashTableResolver { pos: None },
            entries: None,
        },
    }
}

/// Returns the position of the node in a whole.
fn whole_kept(resolver: NodeResolver) -> RcResolver
    ensures { result ≡ whole_in (resolver_in resolver) }
{
    match resolver {
        NodeResolver::Whole(kept) => kept,
        _ => RcResolver { pos: 0 },
    }
}

/// Writes the pointer to a shared text.
fn resolve_shared(
    text: &RcStr,
    resolver: RcResolver,
    out: Place<'_, ArchivedRcStr<RcFlavor>>,
) -> Result<(), Error>
    requires { out.start + 8 ≤ length out.out.now }
    ensures { Resolves shared_string_spelling (shared false str) (rc_str_bytes text.now) resolver
        out.entry.pos out.entry.start out.entry.out.now out.exit.0.now result }
{
    let Place {
        out,
        start,
        pos,
        ..
    } = out;
    let place = Place::within(out, start, pos);
    ArchivedRcStr::<RcFlavor>::resolve_from_raw_parts(resolver, text.len(), place)
}

/// Writes the own bytes of an option, where the buffer is zero.
fn resolve_maybe(
    content: &Option<Box<Node>>,
    resolver: Option<BoxResolver>,
    out: Place<'_, ArchivedOption<ArchivedBox<ArchivedNode>>>,
) -> Result<(), Error>
    requires room { out.start + 8 ≤ length out.out.now }
    requires stands { out.pos + 8 < 2 ^ 64 }
    requires blank { HasBytes out.out.now out.start (zeros 8) }
    ensures { (wholes : List Tree) → Resolves (maybe_spelling (node_spelling wholes)) (option boxed_shape) (tree_within wholes content.now)
        resolver out.entry.pos out.entry.start out.entry.out.now out.exit.0.now result }
{
    let Place {
        out,
        start,
        pos,
        ..
    } = out;
    let Some(_) = content else {
        return Ok(());
    };
    let Some(kept) = resolver else {
        return Ok(());
    };
    out[start] = SOME_TAG;
    let place = Place::within(out, start + 4, pos + 4);
    ArchivedBox::<ArchivedNode>::resolve_from_raw_parts(kept, place)
}

/// Writes the own bytes of a list.
fn resolve_list(
    nodes: &Vec<Node>,
    resolver: VecResolver,
    out: Place<'_, ArchivedVec<ArchivedNode>>,
) -> Result<(), Error>
    requires { out.start + 8 ≤ length out.out.now }
    ensures { (wholes : List Tree) → Resolves (list_spelling (node_spelling wholes)) (vector node_shape) (trees_within wholes nodes.now.items)
        resolver out.entry.pos out.entry.start out.entry.out.now out.exit.0.now result }
{
    let Place {
        out,
        start,
        pos,
        ..
    } = out;
    let place = Place::within(out, start, pos);
    ArchivedVec::<ArchivedNode>::resolve_from_len(nodes.len(), resolver, place)
}

/// Writes the own bytes of an ordered map.
fn resolve_ordered(
    map: &BTreeMap<String, Node>,
    resolver: BTreeMapResolver,
    out: Place<'_, ArchivedBTreeMap<ArchivedString, ArchivedNode, 5>>,
) -> Result<(), Error>
    requires { out.start + 8 ≤ length out.out.now }
    ensures { (wholes : List Tree) → Resolves (ordered_spelling (node_spelling wholes)) (tree 5 text node_shape) (pairs_within wholes map.now.entries)
        resolver out.entry.pos out.entry.start out.entry.out.now out.exit.0.now result }
{
    let Place {
        out,
        start,
        pos,
        ..
    } = out;
    let place = Place::within(out, start, pos);
    ArchivedBTreeMap::<ArchivedString, ArchivedNode, 5>::resolve_from_len(
        map.len(),
        resolver,
        place,
    )
}

/// Writes the own bytes of a hashed map.
fn resolve_hashed(
    map: &BTreeMap<String, Node>,
    resolver: HashTableResolver,
    out: Place<'_, ArchivedHashMap<ArchivedString, ArchivedNode, FxHasher64>>,
) -> Result<(), Error>
    requires { out.start + 12 ≤ length out.out.now }
    ensures { (wholes : List Tree) → Resolves (hashed_spelling (node_spelling wholes)) (table pair_shape) (pairs_within wholes map.now.entries)
        resolver out.entry.pos out.entry.start out.entry.out.now out.exit.0.now result }
{
    let Place {
        out,
        start,
        pos,
        ..
    } = out;
    let len = map.len();
    let table = HashMapResolver { table: resolver };
    let place = Place::within(out, start, pos);
    ArchivedHashMap::<ArchivedString, ArchivedNode, FxHasher64>::resolve_from_len(
        len,
        LOAD_FACTOR,
        table,
        place,
    )
}

/// Writes the own bytes of a map that keeps its order.
fn resolve_kept(
    pairs: &Vec<(String, Node)>,
    resolver: IndexMapResolver,
    out: Place<'_, ArchivedIndexMap<ArchivedString, ArchivedNode, FxHasher64>>,
) -> Result<(), Error>
    requires room { out.start + 16 ≤ length out.out.now }
    requires stands { out.pos + 16 < 2 ^ 64 }
    ensures { (wholes : List Tree) → Resolves (kept_spelling (node_spelling wholes)) (index_map text node_shape) (pairs_within wholes pairs.now.items)
        resolver out.entry.pos out.entry.start out.entry.out.now out.exit.0.now result }
{
    let Place {
        out,
        start,
        pos,
        ..
    } = out;
    let place = Place::within(out, start, pos);
    ArchivedIndexMap::<ArchivedString, ArchivedNode, FxHasher64>::resolve_from_len(
        pairs.len(),
        LOAD_FACTOR,
        resolver,
        place,
    )
}

/// Writes the pointer to the node in a whole.
fn resolve_whole(
    resolver: RcResolver,
    out: Place<'_, ArchivedRc<ArchivedNode, RcFlavor>>,
) -> Result<(), Error>
    requires { out.start + 4 ≤ length out.out.now }
    ensures { (wholes : List Tree) (tree : Tree) → Resolves (whole_spelling wholes (node_spelling wholes)) whole_shape tree
        resolver out.entry.pos out.entry.start out.entry.out.now out.exit.0.now result }
{
    let Place {
        out,
        start,
        pos,
        ..
    } = out;
    let place = Place::within(out, start, pos);
    ArchivedRc::<ArchivedNode, RcFlavor>::resolve_from_raw_parts(resolver, place)
}

/// Writes a node's own bytes.
pub(crate) fn resolve_node(
    node: NodeIn<'_>,
    resolver: NodeResolver,
    out: Place<'_, ArchivedNode>,
) -> Result<(), Error>
    requires { CanResolve (archived_as (table_in node)) node_shape node.node.now resolver out.out.now
        out.start out.pos }
    ensures { Resolves (archived_as (table_in node.entry)) node_shape node.entry.node.now resolver
        out.entry.pos out.entry.start out.entry.out.now out.exit.0.now result }
{
    let Place {
        out,
        start,
        pos,
        ..
    } = out;
    match node.node {
        Node::Bool(value) => {
            out[start] = tag::BOOL;
            return value.resolve(
                (),
                Place::within(out, start + tag::BOOL_OFFSET, pos + tag::BOOL_OFFSET),
            );
        }
        Node::Int(number) => {
            out[start] = tag::INT;
            return number.resolve(
                (),
                Place::within(out, start + tag::INT_OFFSET, pos + tag::INT_OFFSET),
            );
        }
        Node::Text(text) => {
            out[start] = tag::TEXT;
            let place = Place::within(out, start + tag::OFFSET, pos + tag::OFFSET);
            return text.resolve(text_kept(resolver), place);
        }
        Node::Shared(text) => {
            out[start] = tag::SHARED;
            let place = Place::within(out, start + tag::OFFSET, pos + tag::OFFSET);
            return resolve_shared(text, shared_kept(resolver), place);
        }
        Node::Maybe(content) => {
            out[start] = tag::MAYBE;
            let place = Place::within(out, start + tag::OFFSET, pos + tag::OFFSET);
            return resolve_maybe(content, maybe_kept(resolver), place);
        }
        Node::List(nodes) => {
            out[start] = tag::LIST;
            let place = Place::within(out, start + tag::OFFSET, pos + tag::OFFSET);
            return resolve_list(nodes, list_kept(resolver), place);
        }
        Node::Ordered(map) => {
            out[start] = tag::ORDERED;
            let place = Place::within(out, start + tag::OFFSET, pos + tag::OFFSET);
            return resolve_ordered(map, ordered_kept(resolver), place);
        }
        Node::Hashed(map) => {
            out[start] = tag::HASHED;
            let place = Place::within(out, start + tag::OFFSET, pos + tag::OFFSET);
            return resolve_hashed(map, hashed_kept(resolver), place);
        }
        Node::Kept(pairs) => {
            out[start] = tag::KEPT;
            let place = Place::within(out, start + tag::OFFSET, pos + tag::OFFSET);
            return resolve_kept(pairs, index_kept(resolver), place);
        }
        Node::Whole(_) => {
            out[start] = tag::WHOLE;
            let place = Place::within(out, start + tag::OFFSET, pos + tag::OFFSET);
            return resolve_whole(whole_kept(resolver), place);
        }
    }
}
