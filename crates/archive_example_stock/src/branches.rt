//! What is looked up in the archive of a map of maps is what the maps answer.
ghost use Rattle.std.specs.Prelude.{◌≡◌, IfOk};
ghost use Rattle.archive_example_stock.specs.Answers.{price_within};

use crate::archived::ArchivedPrices;
use crate::numbers::number_found;
use crate::written::each_is_a_byte;
use archive_core::laws::{root_is_written, unshared_suits};
use archive_core::{ArchivedString, Error, access, to_bytes};
use archive_hash::laws::values_are_readable;
use archive_hash::{ArchivedHashMap, FxHasher64, OwnedHashMap};
use std::alloc::Global;

/// The prices of each branch, by the names of the branches.
type ArchivedBranches = ArchivedHashMap<ArchivedString, ArchivedPrices, FxHasher64>;

/// Archives the prices of branches, and returns the price of a ware in the archive of one: that of the branch's map.
pub fn price_in_branch(
    alloc: Global,
    branches: &OwnedHashMap<String, OwnedHashMap<String, u32>>,
    branch: &str,
    name: &str,
) -> Result<Option<u32>, Error>
    ensures { IfOk result
        (λ price. price ≡ price_within (λ prices. prices.map.entries) branch.now name.now branches.now.map.entries) }
{
    root_is_written::<OwnedHashMap<String, OwnedHashMap<String, u32>>>();
    unshared_suits::<OwnedHashMap<String, OwnedHashMap<String, u32>>>();
    values_are_readable::<&str, String, OwnedHashMap<String, u32>>();
    values_are_readable::<&str, String, u32>();
    let bytes = to_bytes(alloc, branches)?;
    let archive = bytes.as_slice();
    let root = access::<ArchivedBranches>(alloc, archive)?;
    each_is_a_byte(root.bytes);
    match ArchivedHashMap::get(root, &branch) {
        Some(prices) => {
            each_is_a_byte(prices.bytes);
            Ok(number_found::<String>(ArchivedHashMap::get(prices, &name)))
        }
        None => Ok(None),
    }
}
