//! Writing a packed search tree, each node after what is below its pointers.
ghost use Rattle.std.specs.Prelude.{◌≡◌, ℕ, ◌+◌, ◌-◌, ◌*◌, ◌^◌, ◌<◌, ◌≤◌, length, suc, OnOk};
ghost use Rattle.std.specs.Iterator.{IsFinite};
ghost use Rattle.archive_forms_laws.specs.Serializing.{HasState};
ghost use Rattle.archive_forms_laws.specs.Taking.{GivesAs, TakesEach};
ghost use Rattle.archive_btree_writing.specs.Built.{Builds, BuildsLesser, BuildsClaimed};

use crate::building::NodeStep;
use crate::building::claimed::{Claimed, finish, take_entry};
use archive_shape_layout::{Error, Writer};
use std::marker::PhantomData;

/// Writes a leaf of `count` entries, and returns its position.
fn build_leaf<T: Copy, S: Writer, N: NodeStep<T, S, E>, I: Iterator<Item = T>, const E: usize>(
    source: &mut Claimed<I>,
    serializer: &mut S,
    nodes: &N,
    node: PhantomData<[T; E]>,
    count: usize,
) -> Result<Option<usize>, Error>
    requires calls { I.can_next source.old.entries × IsFinite (I.remaining source.old.entries) }
    requires some { 0 < count }
    requires few { (count ≤ E) × (E < 2 ^ 32) }
    requires wanted { source.old.taken + count ≤ source.old.claimed }
    requires room { S.failures serializer.old < 2 ^ 64 - 1 }
    requires state { HasState S.pos S.known serializer.old }
    requires takes { TakesEach I.next_gives (N.takes nodes.now) source.old.entries }
    ensures calls { OnOk result (I.can_next source.new.entries
        × IsFinite (I.remaining source.new.entries)) }
    ensures counts { OnOk result ((source.new.claimed ≡ source.old.claimed)
        × (source.new.taken ≡ source.old.taken + count)) }
    ensures built { (above : ℕ) → Builds E N.key_shape N.value_shape N.keys (N.values nodes.now) S.Writer
        (GivesAs N.parts I.next_gives) (suc above) count
        source.old.claimed source.old.taken source.old.entries source.new.entries serializer.old serializer.new result }
{
    let first = take_entry(source)?;
    let mut own = [first; E];
    for i in 1..count {
        own[i] = take_entry(source)?;
    }
    let pos = nodes.write_leaf(&own[..count], serializer)?;
    Ok(Some(pos))
}

/// Writes the subtree below a pointer, and returns the position of its root, if it has entries. The subtree has `above`
/// levels above its last one, and the last level has `wide` places for nodes and `last` entries.
#[cycle(tree)]
fn build_tree<T: Copy, S: Writer, N: NodeStep<T, S, E>, I: Iterator<Item = T>, const E: usize>(
    source: &mut Claimed<I>,
    serializer: &mut S,
    nodes: &N,
    node: PhantomData<[T; E]>,
    above: usize,
    wide: usize,
    last: usize,
) -> Result<Option<usize>, Error>
    requires calls { I.can_next source.old.entries × IsFinite (I.remaining source.old.entries) }
    requires some { (0 < E) × (E < 2 ^ 32) }
    requires wide { wide ≡ (E + 1) ^ above }
    requires fits { last ≤ E * wide }
    requires wanted { source.old.taken + (wide - 1 + last) ≤ source.old.claimed }
    requires room { S.failures serializer.old < 2 ^ 64 - 1 }
    requires state { HasState S.pos S.known serializer.old }
    requires takes { TakesEach I.next_gives (N.takes nodes.now) source.old.entries }
    ensures calls { OnOk result (I.can_next source.new.entries
        × IsFinite (I.remaining source.new.entries)) }
    ensures counts { OnOk result ((source.new.claimed ≡ source.old.claimed)
        × (source.new.taken ≡ source.old.taken + (wide - 1 + last))) }
    ensures built { Builds E N.key_shape N.value_shape N.keys (N.values nodes.now) S.Writer
        (GivesAs N.parts I.next_gives) (suc above) (wide - 1 + last)
        source.old.claimed source.old.taken source.old.entries source.new.entries serializer.old serializer.new result }
{
    let count = wide - 1 + last;
    if count == 0 {
        return Ok(None);
    }
    if count <= E {
        return build_leaf::<T, S, N, I, E>(source, serializer, nodes, node, count);
    }
    build_inner::<T, S, N, I, E>(source, serializer, nodes, node, above, wide, last)
}

/// Writes an inner node after what is below its pointers, and returns its position.
#[cycle(tree)]
fn build_inner<T: Copy, S: Writer, N: NodeStep<T, S, E>, I: Iterator<Item = T>, const E: usize>(
    source: &mut Claimed<I>,
    serializer: &mut S,
    nodes: &N,
    node: PhantomData<[T; E]>,
    above: usize,
    wide: usize,
    last: usize,
) -> Result<Option<usize>, Error>
    requires calls { I.can_next source.old.entries × IsFinite (I.remaining source.old.entries) }
    requires some { (0 < E) × (E < 2 ^ 32) }
    requires wide { wide ≡ (E + 1) ^ above }
    requires fits { last ≤ E * wide }
    requires many { E < wide - 1 + last }
    requires wanted { source.old.taken + (wide - 1 + last) ≤ source.old.claimed }
    requires room { S.failures serializer.old < 2 ^ 64 - 1 }
    requires state { HasState S.pos S.known serializer.old }
    requires takes { TakesEach I.next_gives (N.takes nodes.now) source.old.entries }
    ensures calls { OnOk result (I.can_next source.new.entries
        × IsFinite (I.remaining source.new.entries)) }
    ensures counts { OnOk result ((source.new.claimed ≡ source.old.claimed)
        × (source.new.taken ≡ source.old.taken + (wide - 1 + last))) }
    ensures built { Builds E N.key_shape N.value_shape N.keys (N.values nodes.now) S.Writer
        (GivesAs N.parts I.next_gives) (suc above) (wide - 1 + last)
        source.old.claimed source.old.taken source.old.entries source.new.entries serializer.old serializer.new result }
{
    let below = wide / (E + 1);
    let room = E * below;
    let (child, entry) = build_lesser::<T, S, N, I, E>(
        source,
        serializer,
        nodes,
        node,
        above - 1,
        below,
        last.min(room),
    )?;
    let mut lesser = [child; E];
    let mut own = [entry; E];
    let mut left = last.saturating_sub(room);
    for i in 1..E {
        let (child, entry) = build_lesser::<T, S, N, I, E>(
            source,
            serializer,
            nodes,
            node,
            above - 1,
            below,
            left.min(room),
        )?;
        lesser[i] = child;
        own[i] = entry;
        left = left.saturating_sub(room);
    }
    let greater = build_tree::<T, S, N, I, E>(
        source,
        serializer,
        nodes,
        node,
        above - 1,
        below,
        left,
    )?;
    let pos = nodes.write_inner(&own, &lesser, greater, serializer)?;
    Ok(Some(pos))
}

/// Writes what is below a lesser pointer, and takes the entry after it.
#[cycle(tree)]
fn build_lesser<T: Copy, S: Writer, N: NodeStep<T, S, E>, I: Iterator<Item = T>, const E: usize>(
    source: &mut Claimed<I>,
    serializer: &mut S,
    nodes: &N,
    node: PhantomData<[T; E]>,
    above: usize,
    wide: usize,
    last: usize,
) -> Result<(Option<usize>, T), Error>
    requires calls { I.can_next source.old.entries × IsFinite (I.remaining source.old.entries) }
    requires some { (0 < E) × (E < 2 ^ 32) }
    requires wide { wide ≡ (E + 1) ^ above }
    requires fits { last ≤ E * wide }
    requires wanted { source.old.taken + (wide - 1 + last) < source.old.claimed }
    requires room { S.failures serializer.old < 2 ^ 64 - 1 }
    requires state { HasState S.pos S.known serializer.old }
    requires takes { TakesEach I.next_gives (N.takes nodes.now) source.old.entries }
    ensures calls { OnOk result (I.can_next source.new.entries
        × IsFinite (I.remaining source.new.entries)) }
    ensures counts { OnOk result ((source.new.claimed ≡ source.old.claimed)
        × (source.new.taken ≡ source.old.taken + (wide - 1 + last) + 1)) }
    ensures built { BuildsLesser E N.key_shape N.value_shape N.keys (N.values nodes.now)
        S.Writer N.parts I.next_gives (suc above) (wide - 1 + last)
        source.old.claimed source.old.taken source.old.entries source.new.entries serializer.old serializer.new result }
{
    let child = build_tree::<T, S, N, I, E>(source, serializer, nodes, node, above, wide, last)?;
    let entry = take_entry(source)?;
    Ok((child, entry))
}

/// Returns the number of levels above the last one in a tree of `count` entries, and the number of places for nodes on
/// the last one.
fn levels_above<const E: usize>(count: usize) -> (usize, usize)
    requires some { (0 < E) × (E < 2 ^ 32) }
    ensures wide { result.1 ≡ (E + 1) ^ result.0 }
    ensures least { result.1 ≤ count + (1 - count) }
    ensures fits { count < (E + 1) * result.1 }
{
    let mut above = 0;
    let mut wide = 1;
    while wide <= count / (E + 1) {
        wide *= E + 1;
        above += 1;
    }
    (above, wide)
}

/// Writes the packed search tree of entries that come in order, each node by `nodes`, and returns the position of its
/// root. `claimed` is the number of entries that are claimed to come. `node` names the array type of a node's entries,
/// which has a size.
///
/// # Errors
///
/// - `IteratorLengthMismatch` if fewer entries came, or if more did, which are then counted. What is written for the
///   entries that came remains written.
/// - Any error of `nodes`.
pub fn build_tree_each<
    T: Copy,
    S: Writer,
    N: NodeStep<T, S, E>,
    I: Iterator<Item = T>,
    const E: usize,
>(
    claimed: usize,
    entries: I,
    serializer: &mut S,
    nodes: &N,
    node: PhantomData<[T; E]>,
) -> Result<Option<usize>, Error>
    requires calls { I.can_next entries × IsFinite (I.remaining entries) }
    requires some { (0 < E) × (E < 2 ^ 32) }
    requires room { S.failures serializer.old < 2 ^ 64 - 1 }
    requires state { HasState S.pos S.known serializer.old }
    requires takes { TakesEach I.next_gives (N.takes nodes.now) entries }
    ensures { BuildsClaimed E N.key_shape N.value_shape N.keys (N.values nodes.now) S.Writer
        (GivesAs N.parts I.next_gives) claimed entries serializer.old serializer.new result }
{
    let (above, wide) = levels_above::<E>(claimed);
    let mut source = Claimed {
        entries,
        claimed,
        taken: 0,
    };
    let root = build_tree::<T, S, N, I, E>(
        &mut source,
        serializer,
        nodes,
        node,
        above,
        wide,
        claimed - (wide - 1),
    )?;
    finish(source)?;
    Ok(root)
}
