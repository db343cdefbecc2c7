//! The check of a node's entries.
ghost use Rattle.std.specs.Prelude.{◌+◌, ◌*◌, ◌<◌, ◌≤◌, length};
ghost use Rattle.archive_shape_layout.specs.Shape.{size_of};
ghost use Rattle.archive_shape.specs.Kept.{IsWithin};
ghost use Rattle.archive_shape.specs.Checks.{Moves};
ghost use Rattle.archive_shape.specs.Steps.{StepChecks};
ghost use Rattle.archive_btree_maps.specs.Calls.Checking.{ChecksEntries, ChecksEntry, TakesIn};

use archive_shape::{ArchiveContext, Error, Portable};

/// Checks one entry: the key at `key_pos`, and then the value at `value_pos`.
fn check_entry<
    K: Portable,
    V: Portable,
    C: ArchiveContext,
    F: Fn(&mut C, usize) -> Result<(), Error>,
    G: Fn(&mut C, usize) -> Result<(), Error>,
>(
    bytes: &[u8],
    key_pos: usize,
    value_pos: usize,
    context: &mut C,
    key_step: &F,
    value_step: &G,
) -> Result<(), Error>
    requires key_fits { key_pos + size_of K.shape ≤ length bytes.now }
    requires value_fits { value_pos + size_of V.shape ≤ length bytes.now }
    requires range { IsWithin (C.kept context.old) (length bytes.now) }
    requires takes_key { TakesIn F.Fn C.kept bytes.now K.shape key_step.now context.old 0 }
    requires takes_value { TakesIn G.Fn C.kept bytes.now V.shape value_step.now context.old 0 }
    requires checks_key { StepChecks F.Fn C.kept bytes.now K.shape key_step.now K.knows }
    requires checks_value { StepChecks G.Fn C.kept bytes.now V.shape value_step.now V.knows }
    ensures moves { Moves (C.kept context.old) result (C.kept context.new) }
    ensures exact { ChecksEntry C.kept K.Portable V.Portable bytes.now key_pos value_pos context.old result context.new }
{
    key_step(context, key_pos)?;
    value_step(context, value_pos)
}

/// Checks `count` entries in order, whose keys lie side by side from `key_pos` on, and their values from `value_pos`
/// on.
pub(crate) fn check_entries<
    K: Portable,
    V: Portable,
    C: ArchiveContext,
    F: Fn(&mut C, usize) -> Result<(), Error>,
    G: Fn(&mut C, usize) -> Result<(), Error>,
>(
    bytes: &[u8],
    key_pos: usize,
    value_pos: usize,
    count: usize,
    context: &mut C,
    key_step: &F,
    value_step: &G,
) -> Result<(), Error>
    requires keys_fit { key_pos + count * size_of K.shape ≤ length bytes.now }
    requires values_fit { value_pos + count * size_of V.shape ≤ length bytes.now }
    requires range { IsWithin (C.kept context.old) (length bytes.now) }
    requires takes_key { 0 < count → TakesIn F.Fn C.kept bytes.now K.shape key_step.now context.old 0 }
    requires takes_value { 0 < count → TakesIn G.Fn C.kept bytes.now V.shape value_step.now context.old 0 }
    requires checks_key { StepChecks F.Fn C.kept bytes.now K.shape key_step.now K.knows }
    requires checks_value { StepChecks G.Fn C.kept bytes.now V.shape value_step.now V.knows }
    ensures moves { Moves (C.kept context.old) result (C.kept context.new) }
    ensures exact { ChecksEntries C.kept K.Portable V.Portable bytes.now count key_pos value_pos context.old result context.new }
{
    let _len = bytes.len();
    let key_size = K::SIZE;
    let value_size = V::SIZE;
    let mut key = key_pos;
    let mut value = value_pos;
    for i in 0..count {
        check_entry::<K, V, C, F, G>(bytes, key, value, context, key_step, value_step)?;
        key += key_size;
        value += value_size;
    }
    Ok(())
}
