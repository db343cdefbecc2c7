//! The audit of an archived node: its first fault, where a node comes before the nodes in it, or its height.
ghost use Rattle.std.specs.Prelude.{◌≡◌, ◌<◌, ◌≤◌, ◌+◌, IfOk, MatchResult};
ghost use Rattle.archive_shape_layout.specs.Shape.Shape.{option, box, vector};
ghost use Rattle.archive_shape_layout.specs.Shape.Pointee.{sized};
ghost use Rattle.archive_shape_layout.specs.Content.Part.{at};
ghost use Rattle.archive_forms_values.specs.Parts.{HasValue};
ghost use Rattle.cabinet_documents.specs.Node.{node_shape, whole_shape, KnowsNode};
ghost use Rattle.cabinet_archives.specs.Keyed.{knows_pairs};
ghost use Rattle.cabinet_archives.specs.Hashed.{table_shape};
ghost use Rattle.cabinet_archives.specs.Kept.{index_shape};
ghost use Rattle.cabinet_archives.specs.Ordered.{map_shape};
ghost use Rattle.cabinet_archives.specs.Sound.{AreHeights, AuditsTo};
ghost use Rattle.cabinet_archives.specs.declared.opening.refusal.OpenRefusal.TheVariants as refusal;

use crate::leaf::is_leaf;
use crate::maps::{
    HashedMap, KeptMap, OrderedEntries, OrderedMap, classify_entries, hashed_sound, kept_sound,
};
use crate::opening::refusal::OpenRefusal;
use archive_forms_rc::{ArchivedRc, RcFlavor};
use archive_forms_values::{ArchivedBox, ArchivedOption, ArchivedVec};
use archive_hash_probing::Scan;
use archive_shape::Ref;
use cabinet_archived::{ArchivedKind, ArchivedNode};
use cabinet_text_grammar::MAX_DEPTH;
use std::collections::BTreeMap;

/// Returns the number of containers around the nodes of a container that lies inside `depth` containers.
fn depth_inside(depth: usize) -> Result<usize, OpenRefusal>
    ensures { MatchResult result
        (λ inner. (inner ≡ depth + 1) × (inner ≤ 64))
        (λ r. (64 ≤ depth) × (r ≡ refusal.TooDeep)) }
{
    if depth < MAX_DEPTH {
        Ok(depth + 1)
    } else {
        Err(OpenRefusal::TooDeep)
    }
}

/// The heights of the nodes in wholes that were audited, by their positions: how many containers lie in one another in each.
pub(crate) type Heights = BTreeMap<usize, usize>;

/// Audits an option inside `depth` containers.
#[cycle(audits)]
fn audit_option<G: Scan>(
    maybe: Ref<'_, ArchivedOption<ArchivedBox<ArchivedNode>>>,
    depth: usize,
    heights: &mut Heights,
) -> Result<usize, OpenRefusal>
    requires has { HasValue (option (box (sized node_shape))) KnowsNode maybe.bytes.now maybe.pos }
    requires low { depth ≤ 64 }
    requires kept { AreHeights maybe.bytes.now heights.old }
    ensures height { AuditsTo maybe.entry.bytes.now depth (at maybe.entry.pos (option (box (sized node_shape)))) result }
    ensures keeps { IfOk result (λ _. AreHeights maybe.entry.bytes.now heights.new) }
{
    let inner = depth_inside(depth)?;
    match ArchivedOption::as_ref(maybe) {
        Some(boxed) => Ok(audit::<G>(ArchivedBox::get(boxed), inner, heights)? + 1),
        None => Ok(1),
    }
}

/// Audits a list inside `depth` containers.
#[cycle(audits)]
fn audit_list<G: Scan>(
    list: Ref<'_, ArchivedVec<ArchivedNode>>,
    depth: usize,
    heights: &mut Heights,
) -> Result<usize, OpenRefusal>
    requires has { HasValue (vector node_shape) KnowsNode list.bytes.now list.pos }
    requires low { depth ≤ 64 }
    requires kept { AreHeights list.bytes.now heights.old }
    ensures height { AuditsTo list.entry.bytes.now depth (at list.entry.pos (vector node_shape)) result }
    ensures keeps { IfOk result (λ _. AreHeights list.entry.bytes.now heights.new) }
{
    let inner = depth_inside(depth)?;
    let nodes = ArchivedVec::as_slice(list);
    let mut height = 0;
    for index in 0..nodes.len() {
        let node = nodes.get(index).unwrap();
        if !is_leaf(node) {
            height = height.max(audit::<G>(node, inner, heights)?);
        }
    }
    Ok(height + 1)
}

/// Audits an ordered map inside `depth` containers.
#[cycle(audits)]
fn audit_ordered<G: Scan>(
    map: Ref<'_, OrderedMap>,
    depth: usize,
    heights: &mut Heights,
) -> Result<usize, OpenRefusal>
    requires has { HasValue map_shape knows_pairs map.bytes.now map.pos }
    requires low { depth ≤ 64 }
    requires kept { AreHeights map.bytes.now heights.old }
    ensures height { AuditsTo map.entry.bytes.now depth (at map.entry.pos map_shape) result }
    ensures keeps { IfOk result (λ _. AreHeights map.entry.bytes.now heights.new) }
{
    let inner = depth_inside(depth)?;
    match classify_entries(map) {
        OrderedEntries::NotAscending => return Err(OpenRefusal::KeysNotAscending),
        OrderedEntries::Leaves => return Ok(1),
        OrderedEntries::Containers => {}
    }
    let mut height = 0;
    for node in OrderedMap::values(map) {
        if !is_leaf(node) {
            height = height.max(audit::<G>(node, inner, heights)?);
        }
    }
    Ok(height + 1)
}

/// Audits a hashed map inside `depth` containers.
#[cycle(audits)]
fn audit_hashed<G: Scan>(
    map: Ref<'_, HashedMap>,
    depth: usize,
    heights: &mut Heights,
) -> Result<usize, OpenRefusal>
    requires has { HasValue table_shape knows_pairs map.bytes.now map.pos }
    requires low { depth ≤ 64 }
    requires kept { AreHeights map.bytes.now heights.old }
    ensures height { AuditsTo map.entry.bytes.now depth (at map.entry.pos table_shape) result }
    ensures keeps { IfOk result (λ _. AreHeights map.entry.bytes.now heights.new) }
{
    let inner = depth_inside(depth)?;
    hashed_sound::<G>(map)?;
    let mut height = 0;
    for node in HashedMap::values(map) {
        if !is_leaf(node) {
            height = height.max(audit::<G>(node, inner, heights)?);
        }
    }
    Ok(height + 1)
}

/// Audits a kept map inside `depth` containers.
#[cycle(audits)]
fn audit_kept<G: Scan>(
    map: Ref<'_, KeptMap>,
    depth: usize,
    heights: &mut Heights,
) -> Result<usize, OpenRefusal>
    requires has { HasValue index_shape knows_pairs map.bytes.now map.pos }
    requires low { depth ≤ 64 }
    requires kept { AreHeights map.bytes.now heights.old }
    ensures height { AuditsTo map.entry.bytes.now depth (at map.entry.pos index_shape) result }
    ensures keeps { IfOk result (λ _. AreHeights map.entry.bytes.now heights.new) }
{
    let inner = depth_inside(depth)?;
    kept_sound::<G>(map)?;
    let mut height = 0;
    for node in KeptMap::values(map) {
        if !is_leaf(node) {
            height = height.max(audit::<G>(node, inner, heights)?);
        }
    }
    Ok(height + 1)
}

/// Returns the height of a whole inside `depth` containers that has a node of this height.
fn height_around(height: usize, depth: usize) -> Result<usize, OpenRefusal>
    requires low { height ≤ 64 }
    requires deep { depth ≤ 64 }
    ensures { MatchResult result
        (λ around. (around ≡ height + 1) × (depth + around ≤ 64))
        (λ r. (64 < depth + (height + 1)) × (r ≡ refusal.TooDeep)) }
{
    if depth + height < MAX_DEPTH {
        Ok(height + 1)
    } else {
        Err(OpenRefusal::TooDeep)
    }
}

/// Audits a whole inside `depth` containers. Its node is audited at the first visit; a later one is too deep just where as
/// many containers lie around it and in it as exceed the limit. Returns `OutOfMemory` when an allocation fails.
#[cycle(audits)]
fn audit_whole<G: Scan>(
    whole: Ref<'_, ArchivedRc<ArchivedNode, RcFlavor>>,
    depth: usize,
    heights: &mut Heights,
) -> Result<usize, OpenRefusal>
    requires has { HasValue whole_shape KnowsNode whole.bytes.now whole.pos }
    requires low { depth ≤ 64 }
    requires kept { AreHeights whole.bytes.now heights.old }
    ensures height { AuditsTo whole.entry.bytes.now depth (at whole.entry.pos whole_shape) result }
    ensures keeps { IfOk result (λ _. AreHeights whole.entry.bytes.now heights.new) }
{
    let node = ArchivedRc::get(whole);
    if let Some(height) = heights.get(&node.pos()) {
        return height_around(*height, depth);
    }
    let inner = depth_inside(depth)?;
    let height = audit::<G>(node, inner, heights)?;
    match heights.insert(node.pos(), height) {
        Ok(_) => Ok(height + 1),
        Err(_) => Err(OpenRefusal::OutOfMemory),
    }
}

/// Audits a node inside `depth` containers, and returns its height. Keeps the heights of wholes, so that each is audited
/// once, and otherwise allocates nothing. Recurses at most as deep as 64 containers lie in one another.
#[cycle(audits)]
pub(crate) fn audit<G: Scan>(
    node: Ref<'_, ArchivedNode>,
    depth: usize,
    heights: &mut Heights,
) -> Result<usize, OpenRefusal>
    requires has { HasValue node_shape KnowsNode node.bytes.now node.pos }
    requires low { depth ≤ 64 }
    requires kept { AreHeights node.bytes.now heights.old }
    ensures height { AuditsTo node.entry.bytes.now depth (at node.entry.pos node_shape) result }
    ensures keeps { IfOk result (λ _. AreHeights node.entry.bytes.now heights.new) }
{
    match ArchivedNode::kind(node) {
        ArchivedKind::Bool(_) => Ok(0),
        ArchivedKind::Int(_) => Ok(0),
        ArchivedKind::Text(_) => Ok(0),
        ArchivedKind::Shared(_) => Ok(0),
        ArchivedKind::Maybe(maybe) => audit_option::<G>(maybe, depth, heights),
        ArchivedKind::List(list) => audit_list::<G>(list, depth, heights),
        ArchivedKind::Ordered(map) => audit_ordered::<G>(map, depth, heights),
        ArchivedKind::Hashed(map) => audit_hashed::<G>(map, depth, heights),
        ArchivedKind::Kept(map) => audit_kept::<G>(map, depth, heights),
        ArchivedKind::Whole(whole) => audit_whole::<G>(whole, depth, heights),
    }
}
