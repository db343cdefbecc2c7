//! The nodes of archives as nodes of documents.
ghost use Rattle.std.specs.Prelude.{◌≢◌, ◌≤◌, [], IfOk, OnErr, All};
ghost use Rattle.archive_shape_layout.specs.Shape.Shape.{option, box, vector};
ghost use Rattle.archive_shape_layout.specs.Shape.Pointee.{sized};
ghost use Rattle.cabinet_documents.specs.Denotes.{tagged_value};
ghost use Rattle.cabinet_documents.specs.Node.{node_shape, whole_shape, KnowsNode};
ghost use Rattle.cabinet_text_grammar.specs.Memory.{TextTakesMemory};
ghost use Rattle.cabinet_text_grammar.specs.Tree.{Pairs};
ghost use Rattle.cabinet_archives.specs.Found.{OfDocument};
ghost use Rattle.cabinet_archives.specs.Hashed.{table_shape};
ghost use Rattle.cabinet_archives.specs.Keyed.{knows_pairs};
ghost use Rattle.cabinet_archives.specs.Kept.{index_shape};
ghost use Rattle.cabinet_archives.specs.Loading.{AreReadOf, AreWholesOf, HasTree, OfTree, IsLoaded, ArePairsLoaded, IsEntry, LeadTo};
ghost use Rattle.cabinet_archives.specs.Ordered.{map_shape};

use crate::loading::entries::{Entry, hashed_entries, into_map, kept_entries, ordered_entries};
use crate::loading::texts::{LoadedTexts, copy_of};
use crate::loading::wholes::LoadedWholes;
use crate::maps::{HashedMap, KeptMap, OrderedMap};
use archive_forms_rc::{ArchivedRc, RcFlavor};
use archive_forms_values::{ArchivedBox, ArchivedOption, ArchivedString, ArchivedVec, native_of};
use archive_shape::Ref;
use cabinet_archived::{ArchivedKind, ArchivedNode};
use cabinet_text_nodes::Node;
use std::alloc::{AllocError, Global};

/// Loads an option inside `outer` containers.
#[cycle(loads)]
fn load_option(
    alloc: Global,
    maybe: Ref<'_, ArchivedOption<ArchivedBox<ArchivedNode>>>,
    outer: usize,
    texts: &mut LoadedTexts,
    wholes: &mut LoadedWholes,
) -> Result<Node, AllocError>
    requires there { HasTree (tagged_value 4) (option (box (sized node_shape))) KnowsNode maybe.bytes.now maybe.pos outer }
    requires kept { AreReadOf maybe.bytes.now texts.old }
    requires known { AreWholesOf maybe.bytes.now wholes.old }
    ensures tree { IfOk result (λ node. OfTree (tagged_value 4) (option (box (sized node_shape))) KnowsNode
        maybe.entry.bytes.now maybe.entry.pos (IsLoaded wholes.old wholes.new node)) }
    ensures memory { OnErr result (OfTree (tagged_value 4) (option (box (sized node_shape))) KnowsNode
        maybe.entry.bytes.now maybe.entry.pos TextTakesMemory) }
    ensures keeps { IfOk result (λ _. AreReadOf maybe.entry.bytes.now texts.new) }
    ensures knows { IfOk result (λ _. AreWholesOf maybe.entry.bytes.now wholes.new) }
{
    match ArchivedOption::as_ref(maybe) {
        Some(boxed) => {
            let node = load_node(alloc, ArchivedBox::get(boxed), outer + 1, texts, wholes)?;
            Ok(Node::Maybe(Some(Box::new(alloc, node)?)))
        }
        None => Ok(Node::Maybe(None)),
    }
}

/// Loads a list inside `outer` containers.
#[cycle(loads)]
fn load_list(
    alloc: Global,
    list: Ref<'_, ArchivedVec<ArchivedNode>>,
    outer: usize,
    texts: &mut LoadedTexts,
    wholes: &mut LoadedWholes,
) -> Result<Node, AllocError>
    requires there { HasTree (tagged_value 5) (vector node_shape) KnowsNode list.bytes.now list.pos outer }
    requires kept { AreReadOf list.bytes.now texts.old }
    requires known { AreWholesOf list.bytes.now wholes.old }
    ensures tree { IfOk result (λ node. OfTree (tagged_value 5) (vector node_shape) KnowsNode
        list.entry.bytes.now list.entry.pos (IsLoaded wholes.old wholes.new node)) }
    ensures memory { OnErr result (OfTree (tagged_value 5) (vector node_shape) KnowsNode
        list.entry.bytes.now list.entry.pos TextTakesMemory) }
    ensures keeps { IfOk result (λ _. AreReadOf list.entry.bytes.now texts.new) }
    ensures knows { IfOk result (λ _. AreWholesOf list.entry.bytes.now wholes.new) }
{
    let elements = ArchivedVec::as_slice(list);
    // The elements lie in the bytes, so their number is no larger than the archive.
    let mut nodes = Vec::with_capacity(alloc, elements.len())?;
    for index in 0..elements.len() {
        let element = elements.get(index).unwrap();
        nodes.push(load_node(alloc, element, outer + 1, texts, wholes)?)?;
    }
    Ok(Node::List(nodes))
}

/// Loads the pairs of a map, from entries whose nodes lie inside `outer` containers.
#[cycle(loads)]
fn load_entries(
    alloc: Global,
    bytes: &[u8],
    entries: &[Entry],
    outer: usize,
    texts: &mut LoadedTexts,
    wholes: &mut LoadedWholes,
) -> Result<Vec<(String, Node)>, AllocError>
    requires there { All (IsEntry bytes.now outer) entries.now }
    requires low { outer ≤ 64 }
    requires kept { AreReadOf bytes.now texts.old }
    requires known { AreWholesOf bytes.now wholes.old }
    ensures pairs { IfOk result (λ pairs. (ps : Pairs) → LeadTo bytes.now entries.now ps
        → ArePairsLoaded wholes.old wholes.new pairs.items ps) }
    ensures memory { OnErr result (entries.now ≢ []) }
    ensures keeps { IfOk result (λ _. AreReadOf bytes.now texts.new) }
    ensures knows { IfOk result (λ _. AreWholesOf bytes.now wholes.new) }
{
    // The entries lie in the bytes, so their number is no larger than the archive.
    let mut pairs = Vec::with_capacity(alloc, entries.len())?;
    for entry in entries {
        let (key, node) = *entry;
        let node = load_node(alloc, Ref::new(bytes, node), outer, texts, wholes)?;
        let key = String::from_str(alloc, ArchivedString::as_str(Ref::new(bytes, key)))?;
        pairs.push((key, node))?;
    }
    Ok(pairs)
}

/// Loads an ordered map inside `outer` containers.
#[cycle(loads)]
fn load_ordered(
    alloc: Global,
    map: Ref<'_, OrderedMap>,
    outer: usize,
    texts: &mut LoadedTexts,
    wholes: &mut LoadedWholes,
) -> Result<Node, AllocError>
    requires there { HasTree (tagged_value 6) map_shape knows_pairs map.bytes.now map.pos outer }
    requires kept { AreReadOf map.bytes.now texts.old }
    requires known { AreWholesOf map.bytes.now wholes.old }
    ensures tree { IfOk result (λ node. OfTree (tagged_value 6) map_shape knows_pairs
        map.entry.bytes.now map.entry.pos (IsLoaded wholes.old wholes.new node)) }
    ensures memory { OnErr result (OfTree (tagged_value 6) map_shape knows_pairs
        map.entry.bytes.now map.entry.pos TextTakesMemory) }
    ensures keeps { IfOk result (λ _. AreReadOf map.entry.bytes.now texts.new) }
    ensures knows { IfOk result (λ _. AreWholesOf map.entry.bytes.now wholes.new) }
{
    let entries = ordered_entries(alloc, map)?;
    let pairs = load_entries(
        alloc,
        map.bytes(),
        entries.as_slice(),
        outer + 1,
        texts,
        wholes,
    )?;
    Ok(Node::Ordered(into_map(alloc, pairs)?))
}

/// Loads a hashed map inside `outer` containers.
#[cycle(loads)]
fn load_hashed(
    alloc: Global,
    map: Ref<'_, HashedMap>,
    outer: usize,
    texts: &mut LoadedTexts,
    wholes: &mut LoadedWholes,
) -> Result<Node, AllocError>
    requires there { HasTree (tagged_value 7) table_shape knows_pairs map.bytes.now map.pos outer }
    requires kept { AreReadOf map.bytes.now texts.old }
    requires known { AreWholesOf map.bytes.now wholes.old }
    ensures tree { IfOk result (λ node. OfTree (tagged_value 7) table_shape knows_pairs
        map.entry.bytes.now map.entry.pos (IsLoaded wholes.old wholes.new node)) }
    ensures memory { OnErr result (OfTree (tagged_value 7) table_shape knows_pairs
        map.entry.bytes.now map.entry.pos TextTakesMemory) }
    ensures keeps { IfOk result (λ _. AreReadOf map.entry.bytes.now texts.new) }
    ensures knows { IfOk result (λ _. AreWholesOf map.entry.bytes.now wholes.new) }
{
    let entries = hashed_entries(alloc, map)?;
    let pairs = load_entries(
        alloc,
        map.bytes(),
        entries.as_slice(),
        outer + 1,
        texts,
        wholes,
    )?;
    Ok(Node::Hashed(into_map(alloc, pairs)?))
}

/// Loads a kept map inside `outer` containers.
#[cycle(loads)]
fn load_kept(
    alloc: Global,
    map: Ref<'_, KeptMap>,
    outer: usize,
    texts: &mut LoadedTexts,
    wholes: &mut LoadedWholes,
) -> Result<Node, AllocError>
    requires there { HasTree (tagged_value 8) index_shape knows_pairs map.bytes.now map.pos outer }
    requires kept { AreReadOf map.bytes.now texts.old }
    requires known { AreWholesOf map.bytes.now wholes.old }
    ensures tree { IfOk result (λ node. OfTree (tagged_value 8) index_shape knows_pairs
        map.entry.bytes.now map.entry.pos (IsLoaded wholes.old wholes.new node)) }
    ensures memory { OnErr result (OfTree (tagged_value 8) index_shape knows_pairs
        map.entry.bytes.now map.entry.pos TextTakesMemory) }
    ensures keeps { IfOk result (λ _. AreReadOf map.entry.bytes.now texts.new) }
    ensures knows { IfOk result (λ _. AreWholesOf map.entry.bytes.now wholes.new) }
{
    let entries = kept_entries(alloc, map)?;
    let pairs = load_entries(
        alloc,
        map.bytes(),
        entries.as_slice(),
        outer + 1,
        texts,
        wholes,
    )?;
    Ok(Node::Kept(pairs))
}

/// Loads a whole inside `outer` containers. Its node is loaded at the first visit of its position.
#[cycle(loads)]
fn load_whole(
    alloc: Global,
    whole: Ref<'_, ArchivedRc<ArchivedNode, RcFlavor>>,
    outer: usize,
    texts: &mut LoadedTexts,
    wholes: &mut LoadedWholes,
) -> Result<Node, AllocError>
    requires there { HasTree (tagged_value 9) whole_shape KnowsNode whole.bytes.now whole.pos outer }
    requires kept { AreReadOf whole.bytes.now texts.old }
    requires known { AreWholesOf whole.bytes.now wholes.old }
    ensures tree { IfOk result (λ node. OfTree (tagged_value 9) whole_shape KnowsNode
        whole.entry.bytes.now whole.entry.pos (IsLoaded wholes.old wholes.new node)) }
    ensures memory { OnErr result (OfTree (tagged_value 9) whole_shape KnowsNode
        whole.entry.bytes.now whole.entry.pos TextTakesMemory) }
    ensures keeps { IfOk result (λ _. AreReadOf whole.entry.bytes.now texts.new) }
    ensures knows { IfOk result (λ _. AreWholesOf whole.entry.bytes.now wholes.new) }
{
    let node = ArchivedRc::get(whole);
    if let Some(number) = wholes.number_of(node) {
        return Ok(Node::Whole(number));
    }
    let inner = load_node(alloc, node, outer + 1, texts, wholes)?;
    let number = wholes.share(alloc, inner)?;
    wholes.keep(node, number)?;
    Ok(Node::Whole(number))
}

/// Loads a node inside `outer` containers. It recurses as deep as containers lie in one another, which are at most 64.
#[cycle(loads)]
pub(crate) fn load_node(
    alloc: Global,
    node: Ref<'_, ArchivedNode>,
    outer: usize,
    texts: &mut LoadedTexts,
    wholes: &mut LoadedWholes,
) -> Result<Node, AllocError>
    requires there { HasTree (λ v. v) node_shape KnowsNode node.bytes.now node.pos outer }
    requires kept { AreReadOf node.bytes.now texts.old }
    requires known { AreWholesOf node.bytes.now wholes.old }
    ensures tree { IfOk result (λ loaded. OfDocument node.entry.bytes.now node.entry.pos (IsLoaded wholes.old wholes.new loaded)) }
    ensures memory { OnErr result (OfDocument node.entry.bytes.now node.entry.pos TextTakesMemory) }
    ensures keeps { IfOk result (λ _. AreReadOf node.entry.bytes.now texts.new) }
    ensures knows { IfOk result (λ _. AreWholesOf node.entry.bytes.now wholes.new) }
{
    match ArchivedNode::kind(node) {
        ArchivedKind::Bool(value) => Ok(Node::Bool(native_of(value))),
        ArchivedKind::Int(number) => Ok(Node::Int(native_of(number))),
        ArchivedKind::Text(text) => {
            let text = copy_of(alloc, ArchivedString::as_str(text))?;
            Ok(Node::Text(text))
        }
        ArchivedKind::Shared(pointer) => Ok(Node::Shared(texts.read(alloc, pointer)?)),
        ArchivedKind::Maybe(maybe) => load_option(alloc, maybe, outer, texts, wholes),
        ArchivedKind::List(list) => load_list(alloc, list, outer, texts, wholes),
        ArchivedKind::Ordered(map) => load_ordered(alloc, map, outer, texts, wholes),
        ArchivedKind::Hashed(map) => load_hashed(alloc, map, outer, texts, wholes),
        ArchivedKind::Kept(map) => load_kept(alloc, map, outer, texts, wholes),
        ArchivedKind::Whole(whole) => load_whole(alloc, whole, outer, texts, wholes),
    }
}
