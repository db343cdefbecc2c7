//! Ordered maps of archived nodes: whether their keys ascend and their values are leaves, and the node of a key.
ghost use Rattle.std.specs.Prelude.{◌≡◌, ℕ, true, List, IfSome, MatchOption};
ghost use Rattle.std.specs.Option.{option_map};
ghost use Rattle.archive_shape_layout.specs.Value.{Value};
ghost use Rattle.archive_shape_layout.specs.Content.{members};
ghost use Rattle.archive_shape_layout.specs.Content.Part.{at};
ghost use Rattle.archive_forms_values.specs.Parts.{HasValue};
ghost use Rattle.cabinet_documents.specs.Node.{node_names, node_shape};
ghost use Rattle.cabinet_documents.specs.Order.{is_below};
ghost use Rattle.cabinet_documents.specs.Walk.{Stop, Walks};
ghost use Rattle.cabinet_archives.specs.Cost.{Compares};
ghost use Rattle.cabinet_archives.specs.Keyed.{KeyLeads, KeyLeadsNowhere, OfMap, knows_pairs};
ghost use Rattle.cabinet_archives.specs.Ordered.{AreEntries, HasEntry, map_shape};
ghost use Rattle.cabinet_archives.specs.Sound.{IsSoundPart};

use crate::leaf::is_leaf;
use archive_btree_maps::ArchivedBTreeMap;
use archive_forms_values::ArchivedString;
use archive_shape::{Ref, Steps};
use cabinet_archived::ArchivedNode;

/// The search tree of nodes under texts.
pub(crate) type OrderedMap = ArchivedBTreeMap<ArchivedString, ArchivedNode, 5>;

/// Returns whether a key is above the one before it, if there is one.
fn is_above(key: &str, last: Option<&str>) -> bool
    ensures { MatchOption (option_map (λ k. k.now) last.entry) (result ≡ true) (λ k. result ≡ is_below k key.now) }
{
    match last {
        Some(before) => before < key,
        None => true,
    }
}

/// What one walk over the entries of an ordered map finds.
#[derive(Clone, Copy)]
pub(crate) enum OrderedEntries {
    /// A key is not above the one before it.
    NotAscending,
    /// The keys ascend, and no value is a container.
    Leaves,
    /// The keys ascend, and some value is a container.
    Containers,
}

/// Returns whether the keys of an ordered map ascend in the order of their bytes, and if so whether all values are leaves.
pub(crate) fn classify_entries(map: Ref<'_, OrderedMap>) -> OrderedEntries
    requires { HasValue map_shape knows_pairs map.bytes.now map.pos }
    ensures { (depth : ℕ) (v : Value) (walk : List Stop)
        → Walks node_names map.entry.bytes.now depth (at map.entry.pos map_shape) v walk
        → AreEntries result (members v) }
{
    let mut last: Option<&str> = None;
    let mut leaves = true;
    for (key, node) in OrderedMap::iter(map) {
        let text = ArchivedString::as_str(key);
        if !is_above(text, last) {
            return OrderedEntries::NotAscending;
        }
        last = Some(text);
        leaves &= is_leaf(node);
    }
    if leaves {
        OrderedEntries::Leaves
    } else {
        OrderedEntries::Containers
    }
}

/// Returns the node of a key, if the map has the key, and how many keys were compared for it. Reads only the tree's nodes
/// on the way to the key.
pub(crate) fn get_counted<'a>(
    map: Ref<'a, OrderedMap>,
    key: &str,
) -> (Option<Ref<'a, ArchivedNode>>, Steps)
    requires has { HasValue map_shape knows_pairs map.bytes.now map.pos }
    requires sound { IsSoundPart map.bytes.now (at map.pos map_shape) }
    ensures leads { OfMap map_shape map.entry.bytes.now map.entry.pos (λ v. MatchOption result.0
        (KeyLeadsNowhere v key.now)
        (λ node. (node.bytes ≡ map.entry.bytes) × KeyLeads map.entry.bytes.now v key.now node.pos)) }
    ensures way { IfSome result.0 (λ node. HasEntry map.entry.bytes.now map.entry.pos key.now node.pos) }
    ensures sound { IfSome result.0 (λ node. IsSoundPart map.entry.bytes.now (at node.pos node_shape)) }
    ensures compares { Compares map.entry.bytes.now map.entry.pos key.now result.1.comparisons }
    ensures searches { result.1.strides ≡ 0 }
{
    OrderedMap::get_counted(map, &key)
}
