//! The check of nodes, and of the nodes that inner nodes lead to.
ghost use Rattle.std.specs.Prelude.{◌+◌, ◌*◌, ◌≤◌, length, IfOk};
ghost use Rattle.archive_shape.specs.Kept.{IsWithin, Advances, range_of};
ghost use Rattle.archive_shape.specs.Steps.{StepChecks};
ghost use Rattle.archive_btree_maps.specs.Layout.{IsNodeLayout};
ghost use Rattle.archive_btree_maps.specs.CheckingNodes.{BeginsNode};
ghost use Rattle.archive_btree_maps.specs.Calls.Checking.{CountsChild, CountsChildren, CountsLeaf, CountsNode, TakesIn};

use crate::nodes::NodeLayout;
use crate::nodes::checking::claim::claim_node;
use crate::nodes::checking::entries::check_entries;
use crate::nodes::layout::{MAX_LEVELS, NO_CHILD};
use archive_forms_values::{read_target, read_word};
use archive_shape::{ArchiveContext, Error, Portable};

/// Checks the leaf at `pos`, and returns the number of its entries.
fn check_leaf<
    K: Portable,
    V: Portable,
    C: ArchiveContext,
    F: Fn(&mut C, usize) -> Result<(), Error>,
    G: Fn(&mut C, usize) -> Result<(), Error>,
    const E: usize,
>(
    bytes: &[u8],
    pos: usize,
    layout: NodeLayout,
    context: &mut C,
    key_step: &F,
    value_step: &G,
) -> Result<usize, Error>
    requires layout { IsNodeLayout E K.shape V.shape layout }
    requires begins { BeginsNode (range_of (C.kept context.old)) bytes.now E K.shape V.shape pos 0 }
    requires range { IsWithin (C.kept context.old) (length bytes.now) }
    requires takes_key { TakesIn F.Fn C.kept bytes.now K.shape key_step.now context.old K.SIZE }
    requires takes_value { TakesIn G.Fn C.kept bytes.now V.shape value_step.now context.old V.SIZE }
    requires checks_key { StepChecks F.Fn C.kept bytes.now K.shape key_step.now K.knows }
    requires checks_value { StepChecks G.Fn C.kept bytes.now V.shape value_step.now V.knows }
    ensures moves { IfOk result (λ _. Advances (C.kept context.old) (C.kept context.new)) }
    ensures exact { CountsLeaf C.kept E K.Portable V.Portable bytes.now pos context.old result context.new }
{
    let _len = bytes.len();
    let range = claim_node(pos, layout.leaf, layout.link_align, context)?;
    let len = read_word(bytes, pos + layout.links) as usize;
    if len > E {
        return Err(Error::NodeLength { len, maximum: E });
    }
    check_entries::<K, V, C, F, G>(
        bytes,
        pos + layout.keys,
        pos + layout.values,
        len,
        context,
        key_step,
        value_step,
    )?;
    context.pop_subtree_range(range)?;
    Ok(len)
}

/// Checks the node at `pos` on a level, and returns the number of items of its tree.
///
/// Returns `InvalidSubtreePointer` or `Unaligned` if the part that nodes begin with lies outside the range or is not
/// aligned; `InvalidTag` if the kind is neither a leaf's nor an inner node's; the errors of a claim for the whole node;
/// `NodeLength` if a leaf has more entries than fit; and then the errors of its children, and of its entries.
#[cycle(nodes)]
pub(crate) fn check_node<
    K: Portable,
    V: Portable,
    C: ArchiveContext,
    F: Fn(&mut C, usize) -> Result<(), Error>,
    G: Fn(&mut C, usize) -> Result<(), Error>,
    const E: usize,
>(
    bytes: &[u8],
    pos: usize,
    level: usize,
    layout: NodeLayout,
    context: &mut C,
    key_step: &F,
    value_step: &G,
) -> Result<usize, Error>
    requires level { level ≤ 32 }
    requires layout { IsNodeLayout E K.shape V.shape layout }
    requires range { IsWithin (C.kept context.old) (length bytes.now) }
    requires takes_key { TakesIn F.Fn C.kept bytes.now K.shape key_step.now context.old K.SIZE }
    requires takes_value { TakesIn G.Fn C.kept bytes.now V.shape value_step.now context.old V.SIZE }
    requires checks_key { StepChecks F.Fn C.kept bytes.now K.shape key_step.now K.knows }
    requires checks_value { StepChecks G.Fn C.kept bytes.now V.shape value_step.now V.knows }
    ensures moves { IfOk result (λ _. Advances (C.kept context.old) (C.kept context.new)) }
    ensures exact { CountsNode C.kept E K.Portable V.Portable bytes.now level pos context.old result context.new }
{
    let _len = bytes.len();
    context.check_subtree_ptr(pos, layout.size, layout.align)?;
    match bytes[pos] {
        0 => check_leaf::<K, V, C, F, G, E>(bytes, pos, layout, context, key_step, value_step),
        1 => check_inner::<K, V, C, F, G, E>(
            bytes, pos, level, layout, context, key_step, value_step,
        ),
        _ => Err(Error::InvalidTag),
    }
}

/// Checks the inner node at `pos` on a level, and returns the number of items of its tree.
#[cycle(nodes)]
fn check_inner<
    K: Portable,
    V: Portable,
    C: ArchiveContext,
    F: Fn(&mut C, usize) -> Result<(), Error>,
    G: Fn(&mut C, usize) -> Result<(), Error>,
    const E: usize,
>(
    bytes: &[u8],
    pos: usize,
    level: usize,
    layout: NodeLayout,
    context: &mut C,
    key_step: &F,
    value_step: &G,
) -> Result<usize, Error>
    requires level { level ≤ 32 }
    requires layout { IsNodeLayout E K.shape V.shape layout }
    requires begins { BeginsNode (range_of (C.kept context.old)) bytes.now E K.shape V.shape pos 1 }
    requires range { IsWithin (C.kept context.old) (length bytes.now) }
    requires takes_key { TakesIn F.Fn C.kept bytes.now K.shape key_step.now context.old K.SIZE }
    requires takes_value { TakesIn G.Fn C.kept bytes.now V.shape value_step.now context.old V.SIZE }
    requires checks_key { StepChecks F.Fn C.kept bytes.now K.shape key_step.now K.knows }
    requires checks_value { StepChecks G.Fn C.kept bytes.now V.shape value_step.now V.knows }
    ensures moves { IfOk result (λ _. Advances (C.kept context.old) (C.kept context.new)) }
    ensures exact { CountsNode C.kept E K.Portable V.Portable bytes.now level pos context.old result context.new }
{
    let _len = bytes.len();
    let range = claim_node(pos, layout.inner, layout.link_align, context)?;
    let below = check_children::<K, V, C, F, G, E>(
        bytes,
        pos + layout.links,
        level + 1,
        layout,
        context,
        key_step,
        value_step,
    )?;
    check_entries::<K, V, C, F, G>(
        bytes,
        pos + layout.keys,
        pos + layout.values,
        E,
        context,
        key_step,
        value_step,
    )?;
    context.pop_subtree_range(range)?;
    Ok(below.saturating_add(E))
}

/// Checks the children of an inner node, whose pointers lie side by side from `pos` on: a lesser one for each entry,
/// and the greater one. Returns the number of their items.
#[cycle(nodes)]
fn check_children<
    K: Portable,
    V: Portable,
    C: ArchiveContext,
    F: Fn(&mut C, usize) -> Result<(), Error>,
    G: Fn(&mut C, usize) -> Result<(), Error>,
    const E: usize,
>(
    bytes: &[u8],
    pos: usize,
    level: usize,
    layout: NodeLayout,
    context: &mut C,
    key_step: &F,
    value_step: &G,
) -> Result<usize, Error>
    requires level { level ≤ 33 }
    requires layout { IsNodeLayout E K.shape V.shape layout }
    requires fits { pos + (E + 1) * 4 ≤ length bytes.now }
    requires range { IsWithin (C.kept context.old) (length bytes.now) }
    requires takes_key { TakesIn F.Fn C.kept bytes.now K.shape key_step.now context.old K.SIZE }
    requires takes_value { TakesIn G.Fn C.kept bytes.now V.shape value_step.now context.old V.SIZE }
    requires checks_key { StepChecks F.Fn C.kept bytes.now K.shape key_step.now K.knows }
    requires checks_value { StepChecks G.Fn C.kept bytes.now V.shape value_step.now V.knows }
    ensures moves { IfOk result (λ _. Advances (C.kept context.old) (C.kept context.new)) }
    ensures exact { CountsChildren C.kept E K.Portable V.Portable bytes.now level pos context.old result context.new }
{
    let _len = bytes.len();
    let pointers = E + 1;
    let mut total = 0usize;
    let mut at = pos;
    for i in 0..pointers {
        let items = check_child::<K, V, C, F, G, E>(
            bytes, at, level, layout, context, key_step, value_step,
        )?;
        total = total.saturating_add(items);
        at += 4;
    }
    Ok(total)
}

/// Checks the child on a level that the pointer at `pos` points to, if it points to one, and returns the number of its
/// items.
///
/// Returns `TooManyLevels` for a child below the last level, regardless of where the pointer leads, and otherwise
/// `InvalidSubtreePointer` for a child before the first byte.
#[cycle(nodes)]
fn check_child<
    K: Portable,
    V: Portable,
    C: ArchiveContext,
    F: Fn(&mut C, usize) -> Result<(), Error>,
    G: Fn(&mut C, usize) -> Result<(), Error>,
    const E: usize,
>(
    bytes: &[u8],
    pos: usize,
    level: usize,
    layout: NodeLayout,
    context: &mut C,
    key_step: &F,
    value_step: &G,
) -> Result<usize, Error>
    requires level { level ≤ 33 }
    requires layout { IsNodeLayout E K.shape V.shape layout }
    requires fits { pos + 4 ≤ length bytes.now }
    requires range { IsWithin (C.kept context.old) (length bytes.now) }
    requires takes_key { TakesIn F.Fn C.kept bytes.now K.shape key_step.now context.old K.SIZE }
    requires takes_value { TakesIn G.Fn C.kept bytes.now V.shape value_step.now context.old V.SIZE }
    requires checks_key { StepChecks F.Fn C.kept bytes.now K.shape key_step.now K.knows }
    requires checks_value { StepChecks G.Fn C.kept bytes.now V.shape value_step.now V.knows }
    ensures moves { IfOk result (λ _. Advances (C.kept context.old) (C.kept context.new)) }
    ensures exact { CountsChild C.kept E K.Portable V.Portable bytes.now level pos context.old result context.new }
{
    if read_word(bytes, pos) == NO_CHILD {
        return Ok(0);
    }
    if level > MAX_LEVELS {
        return Err(Error::TooManyLevels);
    }
    let Some(to) = read_target(bytes, pos) else {
        return Err(Error::InvalidSubtreePointer { size: layout.size });
    };
    check_node::<K, V, C, F, G, E>(bytes, to, level, layout, context, key_step, value_step)
}
