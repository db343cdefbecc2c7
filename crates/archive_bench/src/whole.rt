//! Writes of and accesses to whole archives, called from outside.
ghost use Rattle.std.specs.Prelude.{length, ⊤};
ghost use Rattle.std.specs.Bool.{MatchBool};
ghost use Rattle.archive_shape_layout.specs.Content.{Names};
ghost use Rattle.archive_shape_layout.specs.Holds.{root_position};
ghost use Rattle.archive_forms_values.specs.Parts.{HasValue};

use crate::values::{lists, options, records, texts};
use archive_core::to_bytes;
use archive_core_serializing::HighSerializer;
use archive_core_validation::{HighValidator, access};
use archive_forms_values::{ArchivedOption, ArchivedString, ArchivedTuple4, ArchivedVec};
use archive_forms_writing::Serialize;
use archive_shape::{ArchivedU32, ArchivedU64, CheckBytes, Error};
use std::alloc::Global;

type ArchivedRecord = ArchivedTuple4<
    ArchivedU64,
    ArchivedString,
    ArchivedOption<ArchivedU32>,
    ArchivedVec<ArchivedString>,
>;

/// Returns whether the root of an archive is accepted.
fn has_root<T: CheckBytes<HighValidator>>(alloc: Global, bytes: &[u8]) -> bool
    ensures { (names : Names) → T.knows names
        → MatchBool result (HasValue T.shape T.knows bytes.now (root_position (length bytes.now) T.shape)) ⊤ }
{
    match access::<T>(alloc, bytes) {
        Ok(_) => true,
        Err(_) => false,
    }
}

/// Returns whether an archive of a vector of options is accepted.
#[unsafe(no_mangle)]
pub extern "C" fn archive_core_bench_access_options(alloc: Global, bytes: &[u8]) -> bool {
    has_root::<ArchivedVec<ArchivedOption<ArchivedU32>>>(alloc, bytes)
}

/// Returns whether an archive of a vector of texts is accepted.
#[unsafe(no_mangle)]
pub extern "C" fn archive_core_bench_access_texts(alloc: Global, bytes: &[u8]) -> bool {
    has_root::<ArchivedVec<ArchivedString>>(alloc, bytes)
}

/// Returns whether an archive of a vector of vectors is accepted.
#[unsafe(no_mangle)]
pub extern "C" fn archive_core_bench_access_lists(alloc: Global, bytes: &[u8]) -> bool {
    has_root::<ArchivedVec<ArchivedVec<ArchivedU32>>>(alloc, bytes)
}

/// Returns whether an archive of a vector of records is accepted.
#[unsafe(no_mangle)]
pub extern "C" fn archive_core_bench_access_records(alloc: Global, bytes: &[u8]) -> bool {
    has_root::<ArchivedVec<ArchivedRecord>>(alloc, bytes)
}

/// Returns how many archives of a record are accepted. The archives lie one after the other, and each ends at one of
/// these positions.
#[unsafe(no_mangle)]
pub extern "C" fn archive_core_bench_access_each_record(
    alloc: Global,
    bytes: &[u8],
    ends: &[usize],
) -> usize {
    let mut start = 0;
    let mut accepted = 0usize;
    for end in ends {
        if start <= *end
            && *end <= bytes.len()
            && has_root::<ArchivedRecord>(alloc, &bytes[start..*end])
        {
            accepted = accepted.wrapping_add(1);
        }
        start = *end;
    }
    accepted
}

/// Returns the number of bytes of the archive of a value.
fn archived<T: Serialize<HighSerializer<Vec<u8>, Global>>>(
    alloc: Global,
    value: &T,
) -> Result<usize, Error> {
    let bytes = to_bytes(alloc, value)?;
    Ok(bytes.len())
}

/// Makes `rounds` archives of a value, and returns the total number of their bytes.
fn archived_again<T: Serialize<HighSerializer<Vec<u8>, Global>>>(
    alloc: Global,
    value: &T,
    rounds: usize,
) -> Result<usize, Error> {
    let mut total = 0usize;
    for _ in 0..rounds {
        total = total.wrapping_add(archived(alloc, value)?);
    }
    Ok(total)
}

/// Makes `rounds` archives of each value, and returns the total number of their bytes.
fn archived_each<T: Serialize<HighSerializer<Vec<u8>, Global>>>(
    alloc: Global,
    values: &[T],
    rounds: usize,
) -> Result<usize, Error> {
    let mut total = 0usize;
    for _ in 0..rounds {
        for value in values {
            total = total.wrapping_add(archived(alloc, value)?);
        }
    }
    Ok(total)
}

/// Makes `rounds` archives of a vector of options. Returns the total number of their bytes, or 0 if an allocation
/// fails.
#[unsafe(no_mangle)]
pub extern "C" fn archive_core_bench_to_bytes_options(
    alloc: Global,
    numbers: &[u32],
    rounds: usize,
) -> usize {
    match options(alloc, numbers) {
        Ok(options) => archived_again(alloc, &options, rounds).unwrap_or(0),
        Err(_) => 0,
    }
}

/// Makes `rounds` archives of a vector of texts. Returns the total number of their bytes, or 0 if an allocation fails.
#[unsafe(no_mangle)]
pub extern "C" fn archive_core_bench_to_bytes_texts(
    alloc: Global,
    lengths: &[u32],
    rounds: usize,
) -> usize {
    match texts(alloc, lengths) {
        Ok(texts) => archived_again(alloc, &texts, rounds).unwrap_or(0),
        Err(_) => 0,
    }
}

/// Makes `rounds` archives of a vector of lists of ten. Returns the total number of their bytes, or 0 if an allocation
/// fails.
#[unsafe(no_mangle)]
pub extern "C" fn archive_core_bench_to_bytes_lists(
    alloc: Global,
    numbers: &[u32],
    rounds: usize,
) -> usize {
    match lists(alloc, numbers) {
        Ok(lists) => archived_again(alloc, &lists, rounds).unwrap_or(0),
        Err(_) => 0,
    }
}

/// Makes `rounds` archives of a vector of records. Returns the total number of their bytes, or 0 if an allocation
/// fails.
#[unsafe(no_mangle)]
pub extern "C" fn archive_core_bench_to_bytes_records(
    alloc: Global,
    numbers: &[u32],
    rounds: usize,
) -> usize {
    match records(alloc, numbers) {
        Ok(records) => archived_again(alloc, &records, rounds).unwrap_or(0),
        Err(_) => 0,
    }
}

/// Makes `rounds` archives of each of the records. Returns the total number of their bytes, or 0 if an allocation
/// fails.
#[unsafe(no_mangle)]
pub extern "C" fn archive_core_bench_to_bytes_each_record(
    alloc: Global,
    numbers: &[u32],
    rounds: usize,
) -> usize {
    match records(alloc, numbers) {
        Ok(records) => archived_each(alloc, records.as_slice(), rounds).unwrap_or(0),
        Err(_) => 0,
    }
}
