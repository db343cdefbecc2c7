//! Writes of tables of maps, called from outside.
ghost use Rattle.std.specs.Prelude.{◌-◌, ◌^◌, ◌<◌};
ghost use Rattle.archive_forms_laws.specs.Serializing.{HasState};

use archive_core_serializing::Serializer;
use archive_forms_writing::SerializeEntry;
use archive_hash::{OwnedHashMap, serialize_map_scan_each};
use archive_hash_probing::{Group1, Group8, Group16, Scan};
use archive_shape::{Error, Positional, Registry, Writer};
use std::alloc::Global;
use std::collections::HashMap;

/// A serializer into memory that grows.
type Memory = Serializer<Vec<u8>, Global, ()>;

/// Returns a serializer into memory that is empty.
fn memory(alloc: Global) -> Memory
    ensures room { ⟦<Memory as Writer>⟧.failures result < 2 ^ 64 - 1 }
    ensures state { HasState ⟦<Memory as Positional>⟧.pos ⟦<Memory as Registry>⟧.known result }
{
    Serializer::new(Vec::new(alloc), alloc, ())
}

/// Returns the map from the decimal texts of numbers to the numbers.
fn map_of(alloc: Global, numbers: &[u32]) -> Result<OwnedHashMap<String, u64>, Error> {
    let mut map = HashMap::new(alloc);
    for number in numbers {
        map.insert(format!(in alloc; "{number}")?, u64::from(*number))?;
    }
    Ok(OwnedHashMap { map })
}

/// Writes `rounds` tables of a map, each with the data of its entries, and returns the total number of bytes.
fn written_again<S: Scan>(
    alloc: Global,
    map: &OwnedHashMap<String, u64>,
    rounds: usize,
) -> Result<usize, Error> {
    let mut total = 0usize;
    for _ in 0..rounds {
        let mut serializer = memory(alloc);
        serialize_map_scan_each::<S, String, u64, Memory, SerializeEntry>(
            map,
            &mut serializer,
            &SerializeEntry,
        )?;
        total = total.wrapping_add(serializer.into_writer().len());
    }
    Ok(total)
}

/// Writes `rounds` tables of the map from the decimal texts of numbers to the numbers. Returns the total number of
/// bytes, or 0 if an allocation fails.
fn written<S: Scan>(alloc: Global, numbers: &[u32], rounds: usize) -> usize {
    match map_of(alloc, numbers) {
        Ok(map) => written_again::<S>(alloc, &map, rounds).unwrap_or(0),
        Err(_) => 0,
    }
}

/// Returns what `written` does, by a scan of one control.
#[unsafe(no_mangle)]
pub extern "C" fn archive_hash_bench_write_1(
    alloc: Global,
    numbers: &[u32],
    rounds: usize,
) -> usize {
    written::<Group1>(alloc, numbers, rounds)
}

/// Returns what `written` does, by a scan of eight controls.
#[unsafe(no_mangle)]
pub extern "C" fn archive_hash_bench_write_8(
    alloc: Global,
    numbers: &[u32],
    rounds: usize,
) -> usize {
    written::<Group8>(alloc, numbers, rounds)
}

/// Returns what `written` does, by a scan of sixteen controls.
#[unsafe(no_mangle)]
pub extern "C" fn archive_hash_bench_write_16(
    alloc: Global,
    numbers: &[u32],
    rounds: usize,
) -> usize {
    written::<Group16>(alloc, numbers, rounds)
}
