//! What is looked up in the archive of several maps is what one of the maps answers.
ghost use Rattle.std.specs.Prelude.{◌≡◌, ℕ, length, IfOk};
ghost use Rattle.archive_shape_layout.specs.Shape.Shape.{vector};
ghost use Rattle.archive_shape_layout.specs.Value.{Values, count_values};
ghost use Rattle.archive_shape_layout.specs.Value.Value.{group};
ghost use Rattle.archive_forms_laws.specs.Regions.{values};
ghost use Rattle.archive_forms_laws.specs.State.{State};
ghost use Rattle.archive_forms_values.specs.Parts.{HasValue};
ghost use Rattle.archive_example_stock.specs.Answers.{price_among};
ghost use Rattle.archive_example_stock.specs.Stock.{prices_shape, any_entry};
ghost use Rattle.archive_example_stock.specs.Written.{HasWritten};

use crate::archived::ArchivedPrices;
use crate::numbers::number_found;
use crate::written::each_is_a_byte;
use archive_core::laws::{elements_are_written, part_is_held, root_is_written, unshared_suits};
use archive_core::{Archive, ArchivedVec, Error, Ref, access, to_bytes};
use archive_hash::laws::values_are_readable;
use archive_hash::{ArchivedHashMap, OwnedHashMap};
use std::alloc::Global;

/// A list has as many values as elements.
fn elements_are_counted<T: Archive>()
    ensures { (xs : _) (state : State) (elements : Values) (len : ℕ) → group (values T.spelling xs state) ≡ group elements
        → count_values elements ≡ len → len ≡ length xs }
{}

/// Returns the price of a ware in a shop, if there is such a shop and it has the ware.
fn price_at(root: Ref<'_, ArchivedVec<ArchivedPrices>>, shop: usize, name: &str) -> Option<u32>
    requires { HasValue (vector prices_shape) any_entry root.bytes.now root.pos }
    ensures { (shops : _) → HasWritten (vector prices_shape) ⟦<Vec<OwnedHashMap<String, u32>> as Archive>⟧.spelling
        root.entry.bytes.now root.entry.pos shops
        → result ≡ price_among (λ prices. prices.map.entries) shop name.now shops.items }
{
    elements_are_counted::<OwnedHashMap<String, u32>>();
    elements_are_written::<OwnedHashMap<String, u32>>();
    part_is_held::<Vec<OwnedHashMap<String, u32>>>();
    unshared_suits::<OwnedHashMap<String, u32>>();
    values_are_readable::<&str, String, u32>();
    match ArchivedVec::get(root, shop) {
        Some(prices) => number_found::<String>(ArchivedHashMap::get(prices, &name)),
        None => None,
    }
}

/// Archives the prices of several shops, and returns the price of a ware in the archive of one: that of the shop's map.
pub fn price_in_shop(
    alloc: Global,
    shops: &Vec<OwnedHashMap<String, u32>>,
    shop: usize,
    name: &str,
) -> Result<Option<u32>, Error>
    ensures { IfOk result (λ price. price ≡ price_among (λ prices. prices.map.entries) shop name.now shops.now.items) }
{
    root_is_written::<Vec<OwnedHashMap<String, u32>>>();
    unshared_suits::<Vec<OwnedHashMap<String, u32>>>();
    let bytes = to_bytes(alloc, shops)?;
    each_is_a_byte(&bytes);
    let archive = bytes.as_slice();
    let root = access::<ArchivedVec<ArchivedPrices>>(alloc, archive)?;
    Ok(price_at(root, shop, name))
}
