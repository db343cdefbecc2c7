//! The check of maps, by their own bytes and the search tree that these lead to.
ghost use Rattle.std.specs.Prelude.{◌+◌, ◌≤◌, length};
ghost use Rattle.archive_shape.specs.Kept.{IsWithin};
ghost use Rattle.archive_shape.specs.Checks.{Moves};
ghost use Rattle.archive_shape.specs.Steps.{StepChecks};
ghost use Rattle.archive_btree_maps.specs.Calls.Checking.{ChecksMap, TakesIn};

use crate::nodes::NodeLayout;
use crate::nodes::checking::nodes::check_node;
use archive_forms_values::{read_target, read_word};
use archive_shape::{ArchiveContext, Error, Portable};

/// Checks the map of eight bytes at `pos`: an offset to the root of its search tree, counted from `pos` in bytes, and
/// the number of entries. Nodes have at most `E` entries each. If there are no entries, the offset is not checked.
///
/// The bytes of each node are claimed, and the claims of its children and its entries lie before them.
///
/// # Errors
///
/// - `InvalidSubtreePointer` if the root lies before the first byte. Its size is that of the part that nodes begin
///   with, which stops at `usize::MAX`.
/// - Otherwise the first error of a node, in this order: of its position and its kind, of its claim, `NodeLength`, of
///   its children in order, and of its entries in order, the key before the value. A child below the 32nd level is
///   `TooManyLevels`.
/// - `EntriesLengthMismatch` comes last.
/// - `OutOfMemory` is the context's or a step's.
pub fn check_btree_each<
    K: Portable,
    V: Portable,
    C: ArchiveContext,
    F: Fn(&mut C, usize) -> Result<(), Error>,
    G: Fn(&mut C, usize) -> Result<(), Error>,
    const E: usize,
>(bytes: &[u8], pos: usize, context: &mut C, key_step: F, value_step: G) -> Result<(), Error>
    requires fits { pos + 8 ≤ length bytes.now }
    requires range { IsWithin (C.kept context.old) (length bytes.now) }
    requires takes_key { TakesIn F.Fn C.kept bytes.now K.shape key_step context.old K.SIZE }
    requires takes_value { TakesIn G.Fn C.kept bytes.now V.shape value_step context.old V.SIZE }
    requires checks_key { StepChecks F.Fn C.kept bytes.now K.shape key_step K.knows }
    requires checks_value { StepChecks G.Fn C.kept bytes.now V.shape value_step V.knows }
    ensures moves { Moves (C.kept context.old) result (C.kept context.new) }
    ensures exact { ChecksMap C.kept E K.Portable V.Portable bytes.now pos context.old result context.new }
{
    let _len = bytes.len();
    let len = read_word(bytes, pos + 4) as usize;
    if len == 0 {
        return Ok(());
    }
    let layout = NodeLayout::of::<K, V, E>();
    let Some(root) = read_target(bytes, pos) else {
        return Err(Error::InvalidSubtreePointer { size: layout.size });
    };
    let entries = check_node::<K, V, C, F, G, E>(
        bytes,
        root,
        1,
        layout,
        context,
        &key_step,
        &value_step,
    )?;
    if entries != len {
        return Err(Error::EntriesLengthMismatch { entries, len });
    }
    Ok(())
}
