//! What is read back of the archive of a stock has what the stock has.
ghost use Rattle.std.specs.Prelude.{IfOk};
ghost use Rattle.archive_example_stock.specs.ReadBack.{IsReadBack};
ghost use Rattle.archive_example_stock.specs.Written.{HaveOneText};

use crate::stock::Stock;
use archive_btree::OwnedBTreeMap;
use archive_core::laws::{
    alike_leaves_are_one, alike_texts_are_equal, forms_are_faithful, leaves_are_faithful,
    one_is_equal, read_back_is_written, texts_are_faithful, unshared_suits,
};
use archive_core::{
    ArchivedRcStr, ArchivedString, ArchivedU32, Error, RcFlavor, Shared, from_bytes, to_bytes,
};
use archive_hash::OwnedHashMap;
use archive_hash::laws::maps_are_read_back;
use std::alloc::Global;
use std::rc::RcStr;

/// Archives a stock, and reads it back: look-ups in what is read return what they return in the stock, and the labels are
/// the same.
pub fn read_back(alloc: Global, stock: &Stock) -> Result<Stock, Error>
    requires labels { HaveOneText stock.now.labels.items }
    ensures { IfOk result (IsReadBack stock.now) }
{
    let bytes = to_bytes(alloc, stock)?;
    let archive = bytes.as_slice();
    // The calls ensure that no two keys are equal.
    let _prices = stock.prices.map.len();
    let _counts = stock.counts.map.len();
    let _shelves = stock.shelves.map.len();
    texts_are_faithful();
    leaves_are_faithful::<u32, ()>();
    forms_are_faithful::<Shared<RcStr>, (), ArchivedRcStr<RcFlavor>, (), 0>();
    alike_texts_are_equal();
    alike_leaves_are_one::<()>();
    one_is_equal::<u32>();
    maps_are_read_back::<String, u32, ArchivedString, ArchivedU32>();
    maps_are_read_back::<u32, u32, ArchivedU32, ArchivedU32>();
    archive_btree::laws::maps_are_read_back::<u32, String, ArchivedU32, ArchivedString, 5>();
    unshared_suits::<OwnedHashMap<String, u32>>();
    unshared_suits::<OwnedHashMap<u32, u32>>();
    unshared_suits::<OwnedBTreeMap<u32, String, 5>>();
    read_back_is_written::<Stock>();
    let read = from_bytes::<Stock>(alloc, archive)?;
    Ok(read)
}
