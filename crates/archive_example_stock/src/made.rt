//! The stock, the shops and the branches that the program archives.
ghost use Rattle.std.specs.Prelude.{IfOk};
ghost use Rattle.archive_example_stock.specs.Written.{HaveOneText};

use crate::stock::Stock;
use archive_btree::OwnedBTreeMap;
use archive_core::{Error, Shared};
use archive_hash::OwnedHashMap;
use std::alloc::Global;
use std::collections::{BTreeMap, HashMap};
use std::rc::RcStr;

/// Returns a map of prices.
fn prices(alloc: Global) -> Result<OwnedHashMap<String, u32>, Error> {
    let mut map = HashMap::new(alloc);
    for (name, price) in [("nails", 3), ("screws", 5), ("a hammer", 1250)] {
        let name = String::from_str(alloc, name)?;
        if map.insert(name, price).is_err() {
            return Err(Error::OutOfMemory);
        }
    }
    Ok(OwnedHashMap { map })
}

/// Returns a map of counts.
fn counts(alloc: Global) -> Result<OwnedHashMap<u32, u32>, Error> {
    let mut map = HashMap::new(alloc);
    for (shelf, count) in [(7, 120), (9, 40)] {
        if map.insert(shelf, count).is_err() {
            return Err(Error::OutOfMemory);
        }
    }
    Ok(OwnedHashMap { map })
}

/// Returns a map of names of shelves.
fn shelves(alloc: Global) -> Result<OwnedBTreeMap<u32, String, 5>, Error> {
    let mut map = BTreeMap::new(alloc);
    for (shelf, name) in [(9, "behind the counter"), (7, "window")] {
        let name = String::from_str(alloc, name)?;
        if map.insert(shelf, name).is_err() {
            return Err(Error::OutOfMemory);
        }
    }
    Ok(OwnedBTreeMap { map })
}

/// Returns labels, of which the last two are one text.
fn labels(alloc: Global) -> Result<Vec<Shared<RcStr>>, Error>
    ensures { IfOk result (λ labels. HaveOneText labels.items) }
{
    let sharp = RcStr::from_str(alloc, "sharp")?;
    let steel = RcStr::from_str(alloc, "stainless steel")?;
    let same = steel.clone()?;
    let labels = vec![in alloc;
        Shared {
            key: 1,
            value: sharp,
        },
        Shared {
            key: 2,
            value: steel,
        },
        Shared {
            key: 2,
            value: same,
        },
    ]?;
    Ok(labels)
}

/// Returns the prices of two shops, of which the first has nothing.
pub fn shops(alloc: Global) -> Result<Vec<OwnedHashMap<String, u32>>, Error> {
    let nothing = OwnedHashMap {
        map: HashMap::new(alloc),
    };
    let wares = prices(alloc)?;
    let shops = vec![in alloc; nothing, wares]?;
    Ok(shops)
}

/// Returns the prices of two branches by their names, of which the second has nothing.
pub fn branches(alloc: Global) -> Result<OwnedHashMap<String, OwnedHashMap<String, u32>>, Error> {
    let mut map = HashMap::new(alloc);
    let harbour = String::from_str(alloc, "harbour")?;
    if map.insert(harbour, prices(alloc)?).is_err() {
        return Err(Error::OutOfMemory);
    }
    let station = String::from_str(alloc, "station")?;
    let nothing = OwnedHashMap {
        map: HashMap::new(alloc),
    };
    if map.insert(station, nothing).is_err() {
        return Err(Error::OutOfMemory);
    }
    Ok(OwnedHashMap { map })
}

/// Returns a stock of nails, screws and hammers.
pub fn stock(alloc: Global) -> Result<Stock, Error>
    ensures { IfOk result (λ stock. HaveOneText stock.labels.items) }
{
    Ok(Stock {
        prices: prices(alloc)?,
        counts: counts(alloc)?,
        shelves: shelves(alloc)?,
        labels: labels(alloc)?,
    })
}
