//! The check of nodes, which may lead to other nodes.
ghost use Rattle.std.specs.Prelude.{◌≡◌, ℕ, false, ◌+◌, ◌-◌, ◌^◌, ◌<◌, ◌≤◌, length};
ghost use Rattle.archive_shape_layout.specs.Content.{Names};
ghost use Rattle.archive_shape_layout.specs.Content.Part.{at};
ghost use Rattle.archive_shape_layout.specs.Shape.Shape.{text, shared, option, box, vector, tree, table, index_map};
ghost use Rattle.archive_shape_layout.specs.Shape.Pointee.{sized, str};
ghost use Rattle.archive_shape.specs.Kept.{IsWithin};
ghost use Rattle.archive_shape.specs.Checks.{Checks, Moves};
ghost use Rattle.cabinet_documents.specs.Node.{node_shape, pair_shape, whole_shape, KnowsNode};

use crate::{ArchivedNode, tag};
use archive_btree_maps::nodes::check_btree_each;
use archive_forms_rc::{ArchivedRcStr, RcFlavor, check_rc_each};
use archive_forms_values::{
    ArchivedBox, ArchivedString, Entry, check_box_each, check_option_each, check_tuple2_each,
    check_vec_each,
};
use archive_hash_maps::checking::check_table_each;
use archive_index::check_index_map_each;
use archive_shape::{ArchivedI64, CheckBytes, Error, SharedContext};
use std::alloc::Global;

/// Checks the text at `pos`. A call, so that the stack that it needs is not part of each level of `check_node`.
#[inline(never)]
fn check_text<C: SharedContext>(
    alloc: Global,
    bytes: &[u8],
    pos: usize,
    context: &mut C,
) -> Result<(), Error>
    requires fits { pos + 8 ≤ length bytes.now }
    requires range { IsWithin (C.kept context.old) (length bytes.now) }
    ensures moves { Moves (C.kept context.old) result (C.kept context.new) }
    ensures exact { (names : Names)
        → Checks names bytes.now (at pos text) (C.kept context.old) result (C.kept context.new) }
{
    <ArchivedString as CheckBytes<C>>::check(alloc, bytes, pos, context)
}

/// Checks the pointer to a shared text at `pos`. A call, as `check_text` is.
#[inline(never)]
fn check_shared<C: SharedContext>(
    alloc: Global,
    bytes: &[u8],
    pos: usize,
    context: &mut C,
) -> Result<(), Error>
    requires fits { pos + 8 ≤ length bytes.now }
    requires range { IsWithin (C.kept context.old) (length bytes.now) }
    ensures moves { Moves (C.kept context.old) result (C.kept context.new) }
    ensures exact { (names : Names)
        → Checks names bytes.now (at pos (shared false str)) (C.kept context.old) result (C.kept context.new) }
{
    <ArchivedRcStr<RcFlavor> as CheckBytes<C>>::check(alloc, bytes, pos, context)
}

/// Checks the node at `pos`. The regions that it claims end at `room` or before.
///
/// Returns `InvalidTag` for a tag above 9, and otherwise the error of the payload's check.
#[cycle(node)]
#[inline(always)]
pub(crate) fn check_node<C: SharedContext>(
    alloc: Global,
    bytes: &[u8],
    pos: usize,
    context: &mut C,
    room: usize,
) -> Result<(), Error>
    requires fits { pos + 24 ≤ length bytes.now }
    requires range { IsWithin (C.kept context.old) (length bytes.now) }
    requires within { (C.kept context.old).end ≤ room }
    ensures moves { Moves (C.kept context.old) result (C.kept context.new) }
    ensures exact { (names : Names) → KnowsNode names
        → Checks names bytes.now (at pos node_shape) (C.kept context.old) result (C.kept context.new) }
{
    let _len = bytes.len();
    match bytes[pos] {
        tag::BOOL => <bool as CheckBytes<C>>::check(alloc, bytes, pos + tag::BOOL_OFFSET, context),
        tag::INT => <ArchivedI64 as CheckBytes<C>>::check(
            alloc,
            bytes,
            pos + tag::INT_OFFSET,
            context,
        ),
        tag::TEXT => check_text(alloc, bytes, pos + tag::OFFSET, context),
        tag::SHARED => check_shared(alloc, bytes, pos + tag::OFFSET, context),
        tag::MAYBE => check_maybe(alloc, bytes, pos + tag::OFFSET, context, room),
        tag::LIST => check_list(alloc, bytes, pos + tag::OFFSET, context, room),
        tag::ORDERED => check_ordered(alloc, bytes, pos + tag::OFFSET, context, room),
        tag::HASHED => check_hashed(alloc, bytes, pos + tag::OFFSET, context, room),
        tag::KEPT => check_kept(alloc, bytes, pos + tag::OFFSET, context, room),
        tag::WHOLE => check_whole(alloc, bytes, pos + tag::OFFSET, context, room),
        _ => Err(Error::InvalidTag),
    }
}

/// Checks the option of a box of a node at `pos`. The regions that it claims end at `room` or before.
#[cycle(node)]
#[inline(never)]
fn check_maybe<C: SharedContext>(
    alloc: Global,
    bytes: &[u8],
    pos: usize,
    context: &mut C,
    room: usize,
) -> Result<(), Error>
    requires fits { pos + 8 ≤ length bytes.now }
    requires range { IsWithin (C.kept context.old) (length bytes.now) }
    requires within { (C.kept context.old).end ≤ room }
    ensures moves { Moves (C.kept context.old) result (C.kept context.new) }
    ensures exact { (names : Names) → KnowsNode names
        → Checks names bytes.now (at pos (option (box (sized node_shape)))) (C.kept context.old) result (C.kept context.new) }
{
    check_option_each::<ArchivedBox<ArchivedNode>, C, _>(
        bytes,
        pos,
        context,
        |c: &mut C, p: usize| -> Result<(), Error>
            requires fits { p + 4 ≤ length bytes.now }
            requires range { IsWithin (C.kept c.old) (length bytes.now) }
            requires within { (C.kept c.old).end ≤ room }
            ensures moves { Moves (C.kept c.old) result (C.kept c.new) }
            ensures exact { (names : Names) → KnowsNode names
                → Checks names bytes.entry.now (at p (box (sized node_shape))) (C.kept c.old) result (C.kept c.new) }
        { check_boxed(alloc, bytes, p, c, room) },
    )
}

/// Checks the box of a node at `pos`. The regions that it claims end at `room` or before.
#[cycle(node)]
fn check_boxed<C: SharedContext>(
    alloc: Global,
    bytes: &[u8],
    pos: usize,
    context: &mut C,
    room: usize,
) -> Result<(), Error>
    requires fits { pos + 4 ≤ length bytes.now }
    requires range { IsWithin (C.kept context.old) (length bytes.now) }
    requires within { (C.kept context.old).end ≤ room }
    ensures moves { Moves (C.kept context.old) result (C.kept context.new) }
    ensures exact { (names : Names) → KnowsNode names
        → Checks names bytes.now (at pos (box (sized node_shape))) (C.kept context.old) result (C.kept context.new) }
{
    check_box_each::<ArchivedNode, C, _>(
        bytes,
        pos,
        context,
        |c: &mut C, p: usize| -> Result<(), Error>
            requires fits { p + 24 ≤ length bytes.now }
            requires range { IsWithin (C.kept c.old) (length bytes.now) }
            requires within { (C.kept c.old).end + 24 ≤ room }
            ensures moves { Moves (C.kept c.old) result (C.kept c.new) }
            ensures exact { (names : Names) → KnowsNode names
                → Checks names bytes.entry.now (at p node_shape) (C.kept c.old) result (C.kept c.new) }
        { check_node(alloc, bytes, p, c, room - 24) },
    )
}

/// Checks the vector of nodes at `pos`. The regions that it claims end at `room` or before.
#[cycle(node)]
#[inline(never)]
fn check_list<C: SharedContext>(
    alloc: Global,
    bytes: &[u8],
    pos: usize,
    context: &mut C,
    room: usize,
) -> Result<(), Error>
    requires fits { pos + 8 ≤ length bytes.now }
    requires range { IsWithin (C.kept context.old) (length bytes.now) }
    requires within { (C.kept context.old).end ≤ room }
    ensures moves { Moves (C.kept context.old) result (C.kept context.new) }
    ensures exact { (names : Names) → KnowsNode names
        → Checks names bytes.now (at pos (vector node_shape)) (C.kept context.old) result (C.kept context.new) }
{
    check_vec_each::<ArchivedNode, C, _>(
        bytes,
        pos,
        context,
        |c: &mut C, p: usize| -> Result<(), Error>
            requires fits { p + 24 ≤ length bytes.now }
            requires range { IsWithin (C.kept c.old) (length bytes.now) }
            requires within { (C.kept c.old).end + 24 ≤ room }
            ensures moves { Moves (C.kept c.old) result (C.kept c.new) }
            ensures exact { (names : Names) → KnowsNode names
                → Checks names bytes.entry.now (at p node_shape) (C.kept c.old) result (C.kept c.new) }
        { check_node(alloc, bytes, p, c, room - 24) },
    )
}

/// Checks the search tree of nodes with texts as keys at `pos`. The regions that it claims end at `room` or before.
#[cycle(node)]
#[inline(never)]
fn check_ordered<C: SharedContext>(
    alloc: Global,
    bytes: &[u8],
    pos: usize,
    context: &mut C,
    room: usize,
) -> Result<(), Error>
    requires fits { pos + 8 ≤ length bytes.now }
    requires range { IsWithin (C.kept context.old) (length bytes.now) }
    requires within { (C.kept context.old).end ≤ room }
    ensures moves { Moves (C.kept context.old) result (C.kept context.new) }
    ensures exact { (names : Names) → KnowsNode names
        → Checks names bytes.now (at pos (tree 5 text node_shape)) (C.kept context.old) result (C.kept context.new) }
{
    check_btree_each::<ArchivedString, ArchivedNode, C, _, _, 5>(
        bytes,
        pos,
        context,
        |c: &mut C, p: usize| -> Result<(), Error>
            requires fits { p + 8 ≤ length bytes.now }
            requires range { IsWithin (C.kept c.old) (length bytes.now) }
            ensures moves { Moves (C.kept c.old) result (C.kept c.new) }
            ensures exact { (names : Names)
                → Checks names bytes.entry.now (at p text) (C.kept c.old) result (C.kept c.new) }
        { check_text(alloc, bytes, p, c) },
        |c: &mut C, p: usize| -> Result<(), Error>
            requires fits { p + 24 ≤ length bytes.now }
            requires range { IsWithin (C.kept c.old) (length bytes.now) }
            requires within { (C.kept c.old).end + 24 ≤ room }
            ensures moves { Moves (C.kept c.old) result (C.kept c.new) }
            ensures exact { (names : Names) → KnowsNode names
                → Checks names bytes.entry.now (at p node_shape) (C.kept c.old) result (C.kept c.new) }
        { check_node(alloc, bytes, p, c, room - 24) },
    )
}

/// Checks the hash table of pairs of a text and a node at `pos`. The regions that it claims end at `room` or before.
#[cycle(node)]
#[inline(never)]
#[tactic(auto, unfolding(archive_shape_layout::specs::Bytes::align_up))]
fn check_hashed<C: SharedContext>(
    alloc: Global,
    bytes: &[u8],
    pos: usize,
    context: &mut C,
    room: usize,
) -> Result<(), Error>
    requires fits { pos + 12 ≤ length bytes.now }
    requires range { IsWithin (C.kept context.old) (length bytes.now) }
    requires within { (C.kept context.old).end ≤ room }
    ensures moves { Moves (C.kept context.old) result (C.kept context.new) }
    ensures exact { (names : Names) → KnowsNode names
        → Checks names bytes.now (at pos (table pair_shape)) (C.kept context.old) result (C.kept context.new) }
{
    check_table_each::<Entry<ArchivedString, ArchivedNode>, C, _>(
        bytes,
        pos,
        context,
        |c: &mut C, p: usize| -> Result<(), Error>
            requires fits { p + 32 ≤ length bytes.now }
            requires range { IsWithin (C.kept c.old) (length bytes.now) }
            requires within { (C.kept c.old).end + 32 ≤ room }
            ensures moves { Moves (C.kept c.old) result (C.kept c.new) }
            ensures exact { (names : Names) → KnowsNode names
                → Checks names bytes.entry.now (at p pair_shape) (C.kept c.old) result (C.kept c.new) }
        { check_pair(alloc, bytes, p, c, room - 32) },
    )
}

/// Checks the index map of nodes with texts as keys at `pos`. The regions that it claims end at `room` or before.
#[cycle(node)]
#[inline(never)]
#[tactic(auto, unfolding(archive_shape_layout::specs::Bytes::align_up))]
fn check_kept<C: SharedContext>(
    alloc: Global,
    bytes: &[u8],
    pos: usize,
    context: &mut C,
    room: usize,
) -> Result<(), Error>
    requires fits { pos + 16 ≤ length bytes.now }
    requires range { IsWithin (C.kept context.old) (length bytes.now) }
    requires within { (C.kept context.old).end ≤ room }
    ensures moves { Moves (C.kept context.old) result (C.kept context.new) }
    ensures exact { (names : Names) → KnowsNode names
        → Checks names bytes.now (at pos (index_map text node_shape)) (C.kept context.old) result (C.kept context.new) }
{
    check_index_map_each::<Entry<ArchivedString, ArchivedNode>, C, _>(
        bytes,
        pos,
        context,
        |c: &mut C, p: usize| -> Result<(), Error>
            requires fits { p + 32 ≤ length bytes.now }
            requires range { IsWithin (C.kept c.old) (length bytes.now) }
            requires within { (C.kept c.old).end + 32 ≤ room }
            ensures moves { Moves (C.kept c.old) result (C.kept c.new) }
            ensures exact { (names : Names) → KnowsNode names
                → Checks names bytes.entry.now (at p pair_shape) (C.kept c.old) result (C.kept c.new) }
        { check_pair(alloc, bytes, p, c, room - 32) },
    )
}

/// Checks the counted pointer to a node at `pos`. The first pointer to a node claims and checks it; the regions that it
/// claims end at `room` or before. Returns `CyclicSharedPointer` for a pointer that lies inside its node.
#[cycle(node)]
#[inline(never)]
fn check_whole<C: SharedContext>(
    alloc: Global,
    bytes: &[u8],
    pos: usize,
    context: &mut C,
    room: usize,
) -> Result<(), Error>
    requires fits { pos + 4 ≤ length bytes.now }
    requires range { IsWithin (C.kept context.old) (length bytes.now) }
    requires within { (C.kept context.old).end ≤ room }
    ensures moves { Moves (C.kept context.old) result (C.kept context.new) }
    ensures exact { (names : Names) → KnowsNode names
        → Checks names bytes.now (at pos whole_shape) (C.kept context.old) result (C.kept context.new) }
{
    check_rc_each::<ArchivedNode, RcFlavor, C, _>(
        alloc,
        bytes,
        pos,
        context,
        |c: &mut C, p: usize| -> Result<(), Error>
            requires fits { p + 24 ≤ length bytes.now }
            requires range { IsWithin (C.kept c.old) (length bytes.now) }
            requires within { (C.kept c.old).end + 24 ≤ room }
            ensures moves { Moves (C.kept c.old) result (C.kept c.new) }
            ensures exact { (names : Names) → KnowsNode names
                → Checks names bytes.entry.now (at p node_shape) (C.kept c.old) result (C.kept c.new) }
        { check_node(alloc, bytes, p, c, room - 24) },
    )
}

/// Checks the pair of a text and a node at `pos`. The regions that it claims end at `room` or before.
#[cycle(node)]
#[tactic(auto, unfolding(archive_shape_layout::specs::Bytes::align_up))]
fn check_pair<C: SharedContext>(
    alloc: Global,
    bytes: &[u8],
    pos: usize,
    context: &mut C,
    room: usize,
) -> Result<(), Error>
    requires fits { pos + 32 ≤ length bytes.now }
    requires range { IsWithin (C.kept context.old) (length bytes.now) }
    requires within { (C.kept context.old).end ≤ room }
    ensures moves { Moves (C.kept context.old) result (C.kept context.new) }
    ensures exact { (names : Names) → KnowsNode names
        → Checks names bytes.now (at pos pair_shape) (C.kept context.old) result (C.kept context.new) }
{
    check_tuple2_each::<ArchivedString, ArchivedNode, C, _, _>(
        bytes,
        pos,
        context,
        |c: &mut C, key: usize| -> Result<(), Error>
            requires fits { key + 8 ≤ length bytes.now }
            requires range { IsWithin (C.kept c.old) (length bytes.now) }
            ensures moves { Moves (C.kept c.old) result (C.kept c.new) }
            ensures exact { (names : Names)
                → Checks names bytes.entry.now (at key text) (C.kept c.old) result (C.kept c.new) }
        { check_text(alloc, bytes, key, c) },
        |c: &mut C, value: usize| -> Result<(), Error>
            requires fits { value + 24 ≤ length bytes.now }
            requires range { IsWithin (C.kept c.old) (length bytes.now) }
            requires within { (C.kept c.old).end ≤ room }
            ensures moves { Moves (C.kept c.old) result (C.kept c.new) }
            ensures exact { (names : Names) → KnowsNode names
                → Checks names bytes.entry.now (at value node_shape) (C.kept c.old) result (C.kept c.new) }
        { check_node(alloc, bytes, value, c, room) },
    )
}
