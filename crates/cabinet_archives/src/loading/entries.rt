//! The entries of a map that is loaded, in the order in which the map of a document has them.
ghost use Rattle.std.specs.Prelude.{◌≡◌, ◌≢◌, ℕ, List, [], IfOk, OnErr, string_bytes};
ghost use Rattle.cabinet_documents.specs.Denotes.{tagged_value};
ghost use Rattle.cabinet_text_grammar.specs.Keys as keys;
ghost use Rattle.cabinet_text_grammar.specs.Memory.{TextTakesMemory};
ghost use Rattle.cabinet_text_grammar.specs.Tree.{Tree, no_pairs};
ghost use Rattle.cabinet_text_nodes.specs.View.{node_tree, node_pairs};
ghost use Rattle.cabinet_archives.specs.Hashed.{table_shape};
ghost use Rattle.cabinet_archives.specs.Keyed.{knows_pairs};
ghost use Rattle.cabinet_archives.specs.Kept.{index_shape};
ghost use Rattle.cabinet_archives.specs.Loading.{AreEntriesOf, HasTree, OfTree, added, all_added};
ghost use Rattle.cabinet_archives.specs.Ordered.{map_shape};

use crate::maps::{HashedMap, KeptMap, OrderedMap};
use archive_forms_values::ArchivedString;
use archive_shape::Ref;
use cabinet_text_nodes::Node;
use std::alloc::{AllocError, Global};
use std::collections::BTreeMap;

/// The positions of an entry's key and of its node.
pub(crate) type Entry = (usize, usize);

/// Returns the entries of an ordered map.
pub(crate) fn ordered_entries(
    alloc: Global,
    map: Ref<'_, OrderedMap>,
) -> Result<Vec<Entry>, AllocError>
    requires { (outer : ℕ) × HasTree (tagged_value 6) map_shape knows_pairs map.bytes.now map.pos outer }
    ensures entries { IfOk result (λ entries. AreEntriesOf keys.ordered (tagged_value 6) map_shape map.entry.bytes.now map.entry.pos entries.items) }
    ensures memory { OnErr result (OfTree (tagged_value 6) map_shape knows_pairs
        map.entry.bytes.now map.entry.pos TextTakesMemory) }
{
    let mut entries = Vec::new(alloc);
    for (key, node) in OrderedMap::iter(map) {
        entries.push((key.pos(), node.pos()))?;
    }
    Ok(entries)
}

/// Returns the entries of a kept map.
pub(crate) fn kept_entries(alloc: Global, map: Ref<'_, KeptMap>) -> Result<Vec<Entry>, AllocError>
    requires { (outer : ℕ) × HasTree (tagged_value 8) index_shape knows_pairs map.bytes.now map.pos outer }
    ensures entries { IfOk result (λ entries. AreEntriesOf keys.kept (tagged_value 8) index_shape map.entry.bytes.now map.entry.pos entries.items) }
    ensures memory { OnErr result (OfTree (tagged_value 8) index_shape knows_pairs
        map.entry.bytes.now map.entry.pos TextTakesMemory) }
{
    let mut entries = Vec::new(alloc);
    for (key, node) in KeptMap::iter(map) {
        entries.push((key.pos(), node.pos()))?;
    }
    Ok(entries)
}

/// Returns the entries of a hashed map, in the order of their keys. An archive has them in another order.
pub(crate) fn hashed_entries(
    alloc: Global,
    map: Ref<'_, HashedMap>,
) -> Result<Vec<Entry>, AllocError>
    requires { (outer : ℕ) × HasTree (tagged_value 7) table_shape knows_pairs map.bytes.now map.pos outer }
    ensures entries { IfOk result (λ entries. AreEntriesOf keys.hashed (tagged_value 7) table_shape map.entry.bytes.now map.entry.pos entries.items) }
    ensures memory { OnErr result (OfTree (tagged_value 7) table_shape knows_pairs
        map.entry.bytes.now map.entry.pos TextTakesMemory) }
{
    let mut sorted = BTreeMap::new(alloc);
    for (key, node) in HashedMap::iter(map) {
        sorted.insert(ArchivedString::as_str(key), (key.pos(), node.pos()))?;
    }
    let mut entries = Vec::new(alloc);
    for entry in sorted.values() {
        entries.push(*entry)?;
    }
    Ok(entries)
}

/// Adds a pair to a map.
fn add_pair(map: &mut BTreeMap<String, Node>, key: String, node: Node) -> Result<(), AllocError>
    ensures { IfOk result (λ _. (table : List Tree) → node_pairs table map.new.entries
        ≡ added (string_bytes key) (node_tree table node) (node_pairs table map.old.entries)) }
{
    map.insert(key, node)?;
    Ok(())
}

/// Returns a map with the pairs.
pub(crate) fn into_map(
    alloc: Global,
    pairs: Vec<(String, Node)>,
) -> Result<BTreeMap<String, Node>, AllocError>
    ensures added { IfOk result (λ map. (table : List Tree)
        → node_pairs table map.entries ≡ all_added (node_pairs table pairs.items) no_pairs) }
    ensures memory { OnErr result (pairs.items ≢ []) }
{
    let mut map = BTreeMap::new(alloc);
    for (key, node) in pairs {
        add_pair(&mut map, key, node)?;
    }
    Ok(map)
}
