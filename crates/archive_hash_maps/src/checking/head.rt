//! The own bytes of a table, and what they encode.
ghost use Rattle.std.specs.Prelude.{◌+◌, ◌-◌, ◌*◌, ◌^◌, ◌≤◌, min, length};
ghost use Rattle.archive_shape_layout.specs.Content.{item};
ghost use Rattle.archive_hash_maps.specs.Calls.Checks.{ReadsHead};

use crate::checking::sizes::table_size;
use archive_forms_values::{read_target, read_word};
use archive_shape::{Error, Portable};

/// What the own bytes of a table with items encode.
#[derive(Clone, Copy, Debug, PartialEq, Eq)]
pub struct TableHead {
    /// The number of items.
    pub len: usize,
    /// The number of places.
    pub capacity: usize,
    /// The position of the first control.
    pub controls: usize,
}

/// Reads the twelve bytes at `pos` of a table of items with the size of `T`. Returns `None` if there are no items: then
/// the other bytes are not read.
///
/// Returns `TableLength` if there are as many items as places or more, and then `InvalidSubtreePointer`, with the size
/// of all buckets and controls, if the controls begin before the first byte.
pub fn check_head<T: Portable>(bytes: &[u8], pos: usize) -> Result<Option<TableHead>, Error>
    requires { pos + 12 ≤ length bytes.now }
    ensures { ReadsHead bytes.now pos (item T.shape) result }
{
    let _len = bytes.len();
    let len = read_word(bytes, pos + 4) as usize;
    if len == 0 {
        return Ok(None);
    }
    let capacity = read_word(bytes, pos + 8) as usize;
    if len >= capacity {
        return Err(Error::TableLength { len, cap: capacity });
    }
    let Some(controls) = read_target(bytes, pos) else {
        return Err(Error::InvalidSubtreePointer {
            size: table_size::<T>(capacity),
        });
    };
    Ok(Some(TableHead {
        len,
        capacity,
        controls,
    }))
}
