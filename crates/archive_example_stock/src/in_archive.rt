//! What is looked up in the archive of a stock is what the stock's maps answer, also after a count was written over.
ghost use Rattle.std.specs.Prelude.{◌≡◌, ◌+◌, IfOk, length};
ghost use Rattle.std.specs.Option.{option_map};
ghost use Rattle.std.specs.String.{string_bytes};
ghost use Rattle.archive_shape_layout.specs.Holds.{root_position};
ghost use Rattle.archive_forms_values.specs.Parts.{HasValue};
ghost use Rattle.archive_example_stock.specs.Answers.{price_with, count_with, shelf_with};
ghost use Rattle.archive_example_stock.specs.Edited.{count_after, WritesCount};
ghost use Rattle.archive_example_stock.specs.Stock.{any_stock, stock_shape};
ghost use Rattle.archive_example_stock.specs.Written.{HasWritten, HaveOneText};

use crate::archived::ArchivedStock;
use crate::look_ups::{count_among, count_of, price_of, write_count};
use crate::stock::Stock;
use crate::texts::text_of;
use crate::written::{each_is_a_byte, maps_are_written};
use archive_btree::OwnedBTreeMap;
use archive_btree::laws::map_written_at_answers;
use archive_core::laws::{root_is_written, unshared_suits};
use archive_core::{Archive, ArchivedU32, Error, KeyOf, Seal, access, to_bytes};
use archive_hash::{FxHasher64, HashedKey, OwnedHashMap};
use std::alloc::Global;
use std::hash::{Hash, Hasher};

/// Returns the archive of a stock.
pub fn archive(alloc: Global, stock: &Stock) -> Result<Vec<u8>, Error>
    requires labels { HaveOneText stock.now.labels.items }
    ensures { IfOk result (λ bytes. HasWritten stock_shape ⟦<Stock as Archive>⟧.spelling bytes.items
        (root_position (length bytes.items) stock_shape) stock.now) }
{
    root_is_written::<Stock>();
    unshared_suits::<OwnedHashMap<String, u32>>();
    unshared_suits::<OwnedHashMap<u32, u32>>();
    unshared_suits::<OwnedBTreeMap<u32, String, 5>>();
    let bytes = to_bytes(alloc, stock)?;
    each_is_a_byte(&bytes);
    Ok(bytes)
}

/// Archives a stock, and returns the price of a ware in the archive: that of the stock.
pub fn price_in_archive(alloc: Global, stock: &Stock, name: &str) -> Result<Option<u32>, Error>
    requires labels { HaveOneText stock.now.labels.items }
    ensures { IfOk result (λ price. price ≡ price_with name.now stock.now.prices.map.entries) }
{
    let bytes = archive(alloc, stock)?;
    let archive = bytes.as_slice();
    let root = access::<ArchivedStock>(alloc, archive)?;
    Ok(price_of(root, name))
}

/// Archives a stock, and returns the count of a shelf in the archive: that of the stock.
pub fn count_in_archive(alloc: Global, stock: &Stock, shelf: u32) -> Result<Option<u32>, Error>
    requires labels { HaveOneText stock.now.labels.items }
    ensures { IfOk result (λ count. count ≡ count_with shelf stock.now.counts.map.entries) }
{
    let bytes = archive(alloc, stock)?;
    let archive = bytes.as_slice();
    let root = access::<ArchivedStock>(alloc, archive)?;
    Ok(count_of(root, shelf))
}

/// Archives a stock, and returns the name of a shelf in the archive: that of the stock.
pub fn shelf_in_archive(alloc: Global, stock: &Stock, shelf: u32) -> Result<Option<String>, Error>
    requires labels { HaveOneText stock.now.labels.items }
    ensures { IfOk result (λ name. option_map string_bytes name ≡ shelf_with shelf stock.now.shelves.map.entries) }
{
    maps_are_written();
    map_written_at_answers::<u32, u32, String, 5>(&stock.shelves);
    let bytes = archive(alloc, stock)?;
    let archive = bytes.as_slice();
    let root = access::<ArchivedStock>(alloc, archive)?;
    match text_of::<u32, u32, 5>(ArchivedStock::shelves(root), &shelf) {
        Some(name) => Ok(Some(String::from_str(alloc, name)?)),
        None => Ok(None),
    }
}

/// Writes the count of a shelf over the one of the stock at a position, and returns whether there was one.
fn write_at(bytes: &mut [u8], pos: usize, shelf: u32, count: u32) -> bool
    requires { HasValue stock_shape any_stock bytes.now pos }
    ensures same_length { length bytes.new ≡ length bytes.old }
    ensures answers { WritesCount ⟦<ArchivedU32 as HashedKey<u32>>⟧ ⟦<ArchivedU32 as KeyOf<u32, u32>>⟧.key ⟦<u32 as Hash>⟧
        ⟦<FxHasher64 as Default>⟧ ⟦<FxHasher64 as Hasher>⟧ bytes.old (pos + 12) shelf count bytes.new }
{
    write_count(Seal::new(&mut *bytes, pos), shelf, count)
}

/// Archives a stock, writes the count of a shelf over the archived one, and returns the count of another shelf, or of this
/// one, in the edited archive: the new count of the shelf, if it was counted, and those of the stock.
pub fn count_after_edit(
    alloc: Global,
    stock: &Stock,
    shelf: u32,
    count: u32,
    other: u32,
) -> Result<Option<u32>, Error>
    requires labels { HaveOneText stock.now.labels.items }
    ensures { IfOk result (λ found. found ≡ count_after shelf count other stock.now.counts.map.entries) }
{
    maps_are_written();
    archive_hash::laws::map_written_at_answers::<u32, u32, u32>();
    // The call ensures that no two shelves are equal.
    let _counted = stock.counts.map.len();
    let mut bytes = archive(alloc, stock)?;
    let pos = access::<ArchivedStock>(alloc, bytes.as_slice())?.pos();
    let _edited = write_at(bytes.as_mut_slice(), pos, shelf, count);
    let edited = bytes.as_slice();
    let root = access::<ArchivedStock>(alloc, edited)?;
    Ok(count_among(ArchivedStock::counts(root), other))
}
