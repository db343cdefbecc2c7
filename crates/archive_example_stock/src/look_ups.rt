//! Look-ups in an archived stock, and edits of its counts, in place.
ghost use Rattle.std.specs.Prelude.{◌≡◌, ◌+◌, false, length};
ghost use Rattle.archive_shape_layout.specs.Numbers.{Reads};
ghost use Rattle.archive_shape_layout.specs.Value.Value.{natural};
ghost use Rattle.archive_forms_values.specs.Parts.{HasValue};
ghost use Rattle.archive_hash_maps.specs.Maps.{HasMap};
ghost use Rattle.archive_example_stock.specs.Answers.{price_with, count_with};
ghost use Rattle.archive_example_stock.specs.Edited.{FindsCount, TellsCount, WritesCount};
ghost use Rattle.archive_example_stock.specs.Stock.{number_shape, stock_shape, any, any_stock};
ghost use Rattle.archive_example_stock.specs.Written.{HasWritten};

use crate::archived::{ArchivedCounts, ArchivedStock};
use crate::numbers::number_found;
use crate::stock::Stock;
use crate::written::{each_is_a_byte, maps_are_written};
use archive_core::{Archive, ArchivedU32, KeyOf, OwnSeal, Ref, Seal, native_of};
use archive_hash::laws::{edited_map_answers, held_once, values_are_readable};
use archive_hash::{ArchivedHashMap, FxHasher64, HashedKey};
use std::hash::{Hash, Hasher};

/// Returns the price of a ware, if it has one.
pub fn price_of(root: Ref<'_, ArchivedStock>, name: &str) -> Option<u32>
    requires { HasValue stock_shape any_stock root.bytes.now root.pos }
    ensures { (stock : Stock) → HasWritten stock_shape ⟦<Stock as Archive>⟧.spelling root.entry.bytes.now root.entry.pos stock
        → result ≡ price_with name.now stock.prices.map.entries }
{
    maps_are_written();
    values_are_readable::<&str, String, u32>();
    number_found::<String>(ArchivedHashMap::get(ArchivedStock::prices(root), &name))
}

/// Returns how many wares are on a shelf, if they were counted.
pub fn count_of(root: Ref<'_, ArchivedStock>, shelf: u32) -> Option<u32>
    requires { HasValue stock_shape any_stock root.bytes.now root.pos }
    ensures { (stock : Stock) → HasWritten stock_shape ⟦<Stock as Archive>⟧.spelling root.entry.bytes.now root.entry.pos stock
        → result ≡ count_with shelf stock.counts.map.entries }
{
    maps_are_written();
    values_are_readable::<u32, u32, u32>();
    number_found::<u32>(ArchivedHashMap::get(ArchivedStock::counts(root), &shelf))
}

/// Returns the count of a shelf, if it was counted: that of the entries for which the counts answer.
pub fn count_among(counts: Ref<'_, ArchivedCounts>, shelf: u32) -> Option<u32>
    requires { HasMap number_shape number_shape any any counts }
    ensures { FindsCount ⟦<ArchivedU32 as HashedKey<u32>>⟧ ⟦<ArchivedU32 as KeyOf<u32, u32>>⟧.key ⟦<u32 as Hash>⟧
        ⟦<FxHasher64 as Default>⟧ ⟦<FxHasher64 as Hasher>⟧ counts.entry.bytes.now counts.entry.pos shelf result }
{
    match ArchivedHashMap::get(counts, &shelf) {
        Some(count) => Some(native_of(count)),
        None => None,
    }
}

/// Writes the count of a shelf over the one that was archived, and returns whether there was one.
pub fn write_count(root: Seal<'_, ArchivedStock>, shelf: u32, count: u32) -> bool
    requires { HasValue stock_shape any_stock root.bytes.now root.pos }
    ensures same_length { length root.exit.0.now ≡ length root.entry.bytes.now }
    ensures told { TellsCount ⟦<ArchivedU32 as HashedKey<u32>>⟧ ⟦<ArchivedU32 as KeyOf<u32, u32>>⟧.key ⟦<u32 as Hash>⟧
        ⟦<FxHasher64 as Default>⟧ ⟦<FxHasher64 as Hasher>⟧ root.entry.bytes.now (root.entry.pos + 12) shelf result }
    ensures answers { WritesCount ⟦<ArchivedU32 as HashedKey<u32>>⟧ ⟦<ArchivedU32 as KeyOf<u32, u32>>⟧.key ⟦<u32 as Hash>⟧
        ⟦<FxHasher64 as Default>⟧ ⟦<FxHasher64 as Hasher>⟧ root.entry.bytes.now (root.entry.pos + 12) shelf count root.exit.0.now }
    ensures kept { result ≡ false → root.exit.0.now ≡ root.entry.bytes.now }
{
    edited_map_answers::<u32, u32, u32>();
    held_once::<ArchivedU32>();
    let Seal { bytes, pos, .. } = root;
    let _len = bytes.len();
    each_is_a_byte(bytes);
    let mut put = |_key: Ref<'_, ArchivedU32>, value: &mut OwnSeal<'_, ArchivedU32>|
        requires { length value.now.own.now ≡ 4 }
        ensures same_reference { value.new.own.ghost_name ≡ value.old.own.ghost_name }
        ensures reads { Reads number_shape value.new.own.now (natural count) }
    {
        value.put(count);
    };
    let counts = Seal::<ArchivedCounts>::new(&mut *bytes, pos + 12);
    let found = ArchivedHashMap::visit_key_value_seal(counts, &shelf, &mut put);
    each_is_a_byte(bytes);
    found.is_some()
}
