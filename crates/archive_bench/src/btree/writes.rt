//! Writes of archives of maps, called from outside.
use archive_btree::OwnedBTreeMap;
use archive_core::to_bytes;
use archive_shape::Error;
use std::alloc::Global;
use std::collections::BTreeMap;

/// Returns the map from the decimal texts of numbers to the numbers.
fn map_of(alloc: Global, numbers: &[u32]) -> Result<OwnedBTreeMap<String, u64, 5>, Error> {
    let mut map = BTreeMap::new(alloc);
    for number in numbers {
        map.insert(format!(in alloc; "{number}")?, u64::from(*number))?;
    }
    Ok(OwnedBTreeMap { map })
}

/// Makes `rounds` archives of a map, and returns the total number of their bytes.
fn archived_again(
    alloc: Global,
    map: &OwnedBTreeMap<String, u64, 5>,
    rounds: usize,
) -> Result<usize, Error> {
    let mut total = 0usize;
    for _ in 0..rounds {
        let bytes = to_bytes(alloc, map)?;
        total = total.wrapping_add(bytes.len());
    }
    Ok(total)
}

/// Makes `rounds` archives of the map from the decimal texts of numbers to the numbers. Returns the total number of
/// their bytes, or 0 if an allocation fails.
#[unsafe(no_mangle)]
pub extern "C" fn archive_btree_bench_write(
    alloc: Global,
    numbers: &[u32],
    rounds: usize,
) -> usize {
    match map_of(alloc, numbers) {
        Ok(map) => archived_again(alloc, &map, rounds).unwrap_or(0),
        Err(_) => 0,
    }
}
