//! Reads the positions and the number of the places of a table.
ghost use Rattle.std.specs.Prelude.{◌≡◌, ◌+◌, ◌^◌, ◌<◌, ◌≤◌, length};
ghost use Rattle.archive_shape_layout.specs.Bytes.{word_at};
ghost use Rattle.archive_shape_layout.specs.Shape.Shape.{table};
ghost use Rattle.archive_forms_values.specs.Parts.{HasValue};
ghost use Rattle.archive_hash_maps.specs.Calls.Tables.{ReadsBuckets};

use crate::checking::controls_at;
use archive_forms_values::{read_word, target_of};
use archive_shape::Portable;

/// The places of a table that is not empty: its controls, their position and the number of places.
#[derive(Clone, Copy)]
pub struct BucketsAt<'a> {
    /// The control bytes, one after the other.
    pub controls: &'a [u8],
    /// The position at which the controls begin. The items lie before it.
    pub target: usize,
    /// The number of places.
    pub capacity: usize,
}

/// Reads the little-endian `u32` at a position.
pub fn number_at(bytes: &[u8], at: usize) -> usize
    requires { at + 4 ≤ length bytes.now }
    ensures value { result ≡ word_at bytes.now at }
    ensures bound { result < 2 ^ 32 }
{
    read_word(bytes, at) as usize
}

/// Returns the places of the table at `pos`, or `None` if it has no items.
pub fn buckets_at<T: Portable>(bytes: &[u8], pos: usize) -> Option<BucketsAt<'_>>
    requires { HasValue (table T.shape) T.knows bytes.now pos }
    ensures { ReadsBuckets T.shape bytes.entry.now pos result }
{
    let _len = bytes.len();
    if number_at(bytes, pos + 4) == 0 {
        return None;
    }
    let capacity = number_at(bytes, pos + 8);
    let target = target_of(bytes, pos);
    Some(BucketsAt {
        controls: controls_at(bytes, target, capacity),
        target,
        capacity,
    })
}
