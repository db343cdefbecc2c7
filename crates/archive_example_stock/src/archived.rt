//! The archived form of a stock: how it is checked, read in place, edited and read back, as the tuple of its fields.
ghost use Rattle.std.specs.Prelude.{◌≡◌, ◌+◌, ◌-◌, ◌^◌, min, []};
ghost use Rattle.std.proofs.Common.{refl, lit<, lit≤};
ghost use Rattle.archive_shape_layout.specs.Shape.{size_of};
ghost use Rattle.archive_forms_values.specs.Parts.{HasValue};
ghost use Rattle.archive_forms_values.specs.Fields.{AreFieldsAt};
ghost use Rattle.archive_forms.specs.Reading.{reads_in};
ghost use Rattle.archive_example_stock.specs.Stock.{prices_shape, counts_shape, shelves_shape, labels_shape, stock_shape, any, any_entry, any_stock, stock_parts};

use crate::stock::{Fields, Stock};
use archive_btree::ArchivedBTreeMap;
use archive_core::{
    ArchiveContext, ArchivedRcStr, ArchivedString, ArchivedTuple4, ArchivedU32, ArchivedVec,
    CheckBytes, Deserialize, Error, Portable, RcFlavor, ReadBack, Ref, Seal, Shape, SharedContext,
    SharedPool, Str,
};
use archive_hash::{ArchivedHashMap, FxHasher64};
use std::alloc::{AllocError, Global};
use std::rc::RcStr;

/// Prices by the names of the wares.
pub type ArchivedPrices = ArchivedHashMap<ArchivedString, ArchivedU32, FxHasher64>;

/// Counts by the numbers of the shelves.
pub type ArchivedCounts = ArchivedHashMap<ArchivedU32, ArchivedU32, FxHasher64>;

/// The names of the shelves by their numbers.
pub type ArchivedShelves = ArchivedBTreeMap<ArchivedU32, ArchivedString, 5>;

/// Labels, of which equal ones are shared.
pub type ArchivedLabels = ArchivedVec<ArchivedRcStr<RcFlavor>>;

/// The tuple of the archived fields.
type ArchivedFields = ArchivedTuple4<
    ArchivedPrices,
    ArchivedCounts,
    ArchivedShelves,
    ArchivedLabels,
>;

/// What keeps the shared labels that were read back.
type Pool = (((), ()), ((), ()), ((), ()), SharedPool<RcStr, Str, ()>);

/// An archived stock: 40 bytes, with the prices at 0, the counts at 12, the shelves at 24 and the labels at 32.
#[derive(Clone, Copy)]
pub struct ArchivedStock {}

impl Portable for ArchivedStock {
    ghost SIZE = { min (size_of stock_shape) (2 ^ 64 - 1) };

    ghost ALIGN = { 4 };

    ghost shape = { stock_shape };

    ghost knows = { any_stock };

    ghost named = { [] };

    const SIZE: usize = 40;

    const ALIGN: usize = 4;

    fn shape(alloc: Global) -> Result<Shape, AllocError> {
        ArchivedFields::shape(alloc)
    }

    ghost sized = { refl };

    ghost aligned = { refl };

    ghost aligns = { (lit< tt, lit≤ tt) };

    ghost known = { λ _ _. ((tt, tt), (tt, tt), (tt, tt), tt) };
}

impl<C: SharedContext> CheckBytes<C> for ArchivedStock {
    fn check(alloc: Global, bytes: &[u8], pos: usize, context: &mut C) -> Result<(), Error> {
        ArchivedFields::check(alloc, bytes, pos, context)
    }
}

impl ReadBack<Stock> for ArchivedStock {
    ghost reads = { reads_in (λ s. (s.prices, s.counts, s.shelves, s.labels)) ⟦<ArchivedFields as ReadBack<Fields>>⟧.reads };
}

impl Deserialize<Stock> for ArchivedStock {
    type Pool = Pool;

    fn deserialize(
        this: &Ref<'_, ArchivedStock>,
        alloc: Global,
        deserializer: &mut Pool,
    ) -> Result<Stock, Error> {
        let fields = Ref::<ArchivedFields>::new(this.bytes, this.pos);
        let (prices, counts, shelves, labels) = ArchivedFields::deserialize(
            &fields,
            alloc,
            deserializer,
        )?;
        Ok(Stock {
            prices,
            counts,
            shelves,
            labels,
        })
    }
}

impl ArchivedStock {
    /// Returns the prices.
    pub fn prices<'a>(this: Ref<'a, ArchivedStock>) -> Ref<'a, ArchivedPrices>
        requires { HasValue stock_shape any_stock this.bytes.now this.pos }
        ensures bytes { result.bytes ≡ this.entry.bytes }
        ensures pos { result.pos ≡ this.entry.pos }
        ensures there { HasValue prices_shape any_entry result.bytes.now result.pos }
        ensures value { AreFieldsAt stock_parts any_stock this.entry.bytes.now this.entry.pos }
    {
        ArchivedTuple4::first(Ref::<ArchivedFields>::new(this.bytes, this.pos))
    }

    /// Returns the counts.
    pub fn counts<'a>(this: Ref<'a, ArchivedStock>) -> Ref<'a, ArchivedCounts>
        requires { HasValue stock_shape any_stock this.bytes.now this.pos }
        ensures bytes { result.bytes ≡ this.entry.bytes }
        ensures pos { result.pos ≡ this.entry.pos + 12 }
        ensures there { HasValue counts_shape any_entry result.bytes.now result.pos }
        ensures value { AreFieldsAt stock_parts any_stock this.entry.bytes.now this.entry.pos }
    {
        ArchivedTuple4::second(Ref::<ArchivedFields>::new(this.bytes, this.pos))
    }

    /// Returns the names of the shelves.
    pub fn shelves<'a>(this: Ref<'a, ArchivedStock>) -> Ref<'a, ArchivedShelves>
        requires { HasValue stock_shape any_stock this.bytes.now this.pos }
        ensures bytes { result.bytes ≡ this.entry.bytes }
        ensures pos { result.pos ≡ this.entry.pos + 24 }
        ensures there { HasValue shelves_shape any_entry result.bytes.now result.pos }
        ensures value { AreFieldsAt stock_parts any_stock this.entry.bytes.now this.entry.pos }
    {
        ArchivedTuple4::third(Ref::<ArchivedFields>::new(this.bytes, this.pos))
    }

    /// Returns the labels.
    pub fn labels<'a>(this: Ref<'a, ArchivedStock>) -> Ref<'a, ArchivedLabels>
        requires { HasValue stock_shape any_stock this.bytes.now this.pos }
        ensures bytes { result.bytes ≡ this.entry.bytes }
        ensures pos { result.pos ≡ this.entry.pos + 32 }
        ensures there { HasValue labels_shape any result.bytes.now result.pos }
        ensures value { AreFieldsAt stock_parts any_stock this.entry.bytes.now this.entry.pos }
    {
        ArchivedTuple4::fourth(Ref::<ArchivedFields>::new(this.bytes, this.pos))
    }

    /// Returns the counts, which may be edited.
    pub fn counts_seal<'a>(this: Seal<'a, ArchivedStock>) -> Seal<'a, ArchivedCounts>
        requires { HasValue stock_shape any_stock this.bytes.now this.pos }
        ensures same_reference { result.bytes.ghost_name ≡ this.entry.bytes.ghost_name }
        ensures bytes { result.bytes.now ≡ this.entry.bytes.now }
        ensures pos { result.pos ≡ this.entry.pos + 12 }
        ensures there { HasValue counts_shape any_entry result.bytes.now result.pos }
    {
        let Seal { bytes, pos, .. } = this;
        let _len = bytes.len();
        Seal::new(bytes, pos + 12)
    }
}
