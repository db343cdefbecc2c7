//! What is looked up in the archive of a map is what the map answers.
ghost use Rattle.std.specs.Prelude.{◌≡◌, IfOk};
ghost use Rattle.archive_example_stock.specs.Answers.{price_with};

use crate::archived::ArchivedPrices;
use crate::numbers::number_found;
use crate::written::each_is_a_byte;
use archive_core::laws::{root_is_written, unshared_suits};
use archive_core::{Error, access, to_bytes};
use archive_hash::laws::values_are_readable;
use archive_hash::{ArchivedHashMap, OwnedHashMap};
use std::alloc::Global;

/// Archives a map of prices, and returns the price of a ware in the archive: that of the map.
pub fn look_up(
    alloc: Global,
    owned: &OwnedHashMap<String, u32>,
    key: &str,
) -> Result<Option<u32>, Error>
    ensures { IfOk result (λ price. price ≡ price_with key.now owned.now.map.entries) }
{
    root_is_written::<OwnedHashMap<String, u32>>();
    unshared_suits::<OwnedHashMap<String, u32>>();
    values_are_readable::<&str, String, u32>();
    let bytes = to_bytes(alloc, owned)?;
    let archive = bytes.as_slice();
    let root = access::<ArchivedPrices>(alloc, archive)?;
    each_is_a_byte(root.bytes);
    Ok(number_found::<String>(ArchivedHashMap::get(root, &key)))
}
