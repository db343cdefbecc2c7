//! The check of index maps, by their own bytes, their table and their entries.
ghost use Rattle.std.specs.Prelude.{ℕ, ◌+◌, ◌≤◌, length};
ghost use Rattle.archive_shape.specs.Kept.{IsWithin};
ghost use Rattle.archive_shape.specs.Checks.{Moves};
ghost use Rattle.archive_shape.specs.Steps.{StepTakes, StepChecks};
ghost use Rattle.archive_index.specs.Calls.Checking.{ChecksEntries};

use archive_forms_values::{check_elements_behind, read_target};
use archive_hash_maps::checking::{check_head, check_place_buckets};
use archive_shape::{ArchiveContext, ArchivedU32, Error, Portable};

/// Checks the index map at `pos`, whose entries are pairs of the type `T`. The map has sixteen own bytes: a table of
/// the entries' numbers, of twelve bytes, and an offset to the entries, counted from the offset's own position. Where
/// there are no entries, nothing else is read.
///
/// The table's buckets and controls are claimed and checked first, and then the entries, which lie after them. What an
/// entry claims lies before all entries.
///
/// Returns the errors of `check_head` and `check_place_buckets`; then `InvalidSubtreePointer`, with the size of the
/// entries in bytes, which saturates at `usize::MAX`, where the entries lie outside the range or the offset leads
/// before the first byte; then `Unaligned`, `ExceededMaximumSubtreeDepth`, and the first error of the step.
/// `OutOfMemory` is an error of the context or of the step.
pub fn check_index_map_each<
    T: Portable,
    C: ArchiveContext,
    F: Fn(&mut C, usize) -> Result<(), Error>,
>(bytes: &[u8], pos: usize, context: &mut C, step: F) -> Result<(), Error>
    requires fits { pos + 16 ≤ length bytes.now }
    requires range { IsWithin (C.kept context.old) (length bytes.now) }
    requires takes { StepTakes F.Fn C.kept bytes.now T.shape step (C.kept context.old) T.SIZE }
    requires checks { StepChecks F.Fn C.kept bytes.now T.shape step T.knows }
    ensures moves { Moves (C.kept context.old) result (C.kept context.new) }
    ensures exact { ChecksEntries C.kept T.knows T.shape bytes.now pos context.old result context.new }
{
    let _len = bytes.len();
    let Some(head) = check_head::<ArchivedU32>(bytes, pos)? else {
        return Ok(());
    };
    check_place_buckets(bytes, head.controls, head.len, head.capacity, context)?;
    let size = head.len.saturating_mul(T::SIZE);
    let Some(entries) = read_target(bytes, pos + 12) else {
        return Err(Error::InvalidSubtreePointer { size });
    };
    check_elements_behind::<T, C, F>(bytes, entries, head.len, size, context, step)
}
