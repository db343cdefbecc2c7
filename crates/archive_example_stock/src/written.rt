//! What bytes have, and a stock that was written.
ghost use Rattle.std.specs.Prelude.{ℕ, ◌+◌, List};
ghost use Rattle.archive_shape_canonical.specs.Canonical.{AreBytes};
ghost use Rattle.archive_example_stock.specs.Stock.{prices_shape, counts_shape, shelves_shape, stock_shape};
ghost use Rattle.archive_example_stock.specs.Written.{HasWritten};

use crate::stock::{Fields, Stock};
use archive_btree::OwnedBTreeMap;
use archive_core::laws::{fields_are_readable, views_are_written};
use archive_core::{Archive, Shared};
use archive_hash::OwnedHashMap;
use std::rc::RcStr;

/// Each byte is less than 256.
pub fn each_is_a_byte(bytes: &[u8])
    ensures { AreBytes bytes.now }
{}

/// Where a stock was written, each of its maps was, at its position.
pub fn maps_are_written()
    ensures { (stock : Stock) (bytes : List ℕ) (pos : ℕ) → HasWritten stock_shape ⟦<Stock as Archive>⟧.spelling bytes pos stock
        → HasWritten prices_shape ⟦<OwnedHashMap<String, u32> as Archive>⟧.spelling bytes pos stock.prices
        × HasWritten counts_shape ⟦<OwnedHashMap<u32, u32> as Archive>⟧.spelling bytes (pos + 12) stock.counts
        × HasWritten shelves_shape ⟦<OwnedBTreeMap<u32, String, 5> as Archive>⟧.spelling bytes (pos + 24) stock.shelves }
{
    views_are_written::<Fields, Stock, ()>();
    fields_are_readable::<
        OwnedHashMap<String, u32>,
        OwnedHashMap<u32, u32>,
        OwnedBTreeMap<u32, String, 5>,
        Vec<Shared<RcStr>>,
    >();
}
