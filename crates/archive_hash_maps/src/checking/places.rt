//! The check of a table whose buckets have the numbers of entries.
ghost use Rattle.std.specs.Prelude.{ℕ, ◌+◌, ◌-◌, ◌*◌, ◌^◌, ◌<◌, ◌≤◌, length};
ghost use Rattle.archive_shape_layout.specs.Content.{Names};
ghost use Rattle.archive_shape_layout.specs.Content.Part.{place_at};
ghost use Rattle.archive_shape.specs.Kept.{Kept, IsWithin};
ghost use Rattle.archive_shape.specs.Checks.{Checks, Moves};
ghost use Rattle.archive_hash_maps.specs.Calls.Checks.{ChecksPlaces, ChecksNumbers};

use crate::checking::buckets::claim_buckets;
use crate::checking::controls::{check_tags, controls_at};
use archive_forms_values::read_word;
use archive_shape::{ArchiveContext, ArchivedU32, Error};

/// Checks the number of an entry at `pos`. Returns `InvalidPlace` if it is not below `limit`.
fn check_number(bytes: &[u8], pos: usize, limit: usize) -> Result<(), Error>
    requires { pos + 4 ≤ length bytes.now }
    ensures { (names : Names) (kept : Kept)
        → Checks names bytes.now (place_at pos limit) kept result kept }
{
    let number = read_word(bytes, pos) as usize;
    if number >= limit {
        return Err(Error::InvalidPlace);
    }
    Ok(())
}

/// Checks the numbers of entries whose controls are tags, by ascending places. The first place is the bucket directly
/// below `target`.
fn check_numbers(bytes: &[u8], target: usize, controls: &[u8], limit: usize) -> Result<(), Error>
    requires below { length controls.now * 4 ≤ target }
    requires fits { target ≤ length bytes.now }
    ensures { ChecksNumbers bytes.now target controls.now limit result }
{
    let mut bucket = target;
    for place in 0..controls.len() {
        bucket -= 4;
        if controls[place] < 128 {
            check_number(bytes, bucket, limit)?;
        }
    }
    Ok(())
}

/// Checks the buckets below `target` and the controls from there on, of a table that leads to `len` entries: it has
/// `len` items in `capacity` places, and each is the number of an entry, four bytes.
///
/// Returns the same errors as `check_table_each` for the buckets and the controls, and then `InvalidPlace` for the
/// first number, by ascending places, that is not below `len`. `OutOfMemory` comes from the context.
pub fn check_place_buckets<C: ArchiveContext>(
    bytes: &[u8],
    target: usize,
    len: usize,
    capacity: usize,
    context: &mut C,
) -> Result<(), Error>
    requires small { capacity < 2 ^ 32 }
    requires target { target < 2 ^ 64 - 1 }
    requires range { IsWithin (C.kept context.old) (length bytes.now) }
    ensures moves { Moves (C.kept context.old) result (C.kept context.new) }
    ensures exact { ChecksPlaces C.kept bytes.now target len capacity context.old result context.new }
{
    let _len = bytes.len();
    let range = claim_buckets::<ArchivedU32, C>(target, capacity, context)?;
    let controls = controls_at(bytes, target, capacity);
    check_tags(controls, capacity, len)?;
    check_numbers(bytes, target, &controls[..capacity], len)?;
    context.pop_subtree_range(range)
}
