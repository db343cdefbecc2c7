//! Values that are archived repeatedly, called from outside.
use crate::forms::serializer::MemorySerializer;
use crate::values::{lists, options, texts};
use archive_forms_writing::{Serialize, serialize_using};
use archive_shape::Error;
use std::alloc::Global;

/// Archives a value, and returns the number of bytes that were written.
fn serialized<T: Serialize<MemorySerializer>>(alloc: Global, value: &T) -> Result<usize, Error> {
    let mut serializer = MemorySerializer::new(alloc);
    match serialize_using(value, &mut serializer) {
        Ok(_) => Ok(serializer.bytes().len()),
        Err(e) => Err(e),
    }
}

/// Archives a value `rounds` times, and returns the total number of bytes that were written.
fn serialized_again<T: Serialize<MemorySerializer>>(
    alloc: Global,
    value: &T,
    rounds: usize,
) -> Result<usize, Error> {
    let mut total = 0usize;
    for _ in 0..rounds {
        total = total.wrapping_add(serialized(alloc, value)?);
    }
    Ok(total)
}

/// Archives a vector of options `rounds` times: the odd numbers, and `None` in the place of each even one. Returns the
/// total number of bytes that were written, or 0 if an allocation fails.
#[unsafe(no_mangle)]
pub extern "C" fn archive_forms_bench_serialize_options(
    alloc: Global,
    numbers: &[u32],
    rounds: usize,
) -> usize {
    match options(alloc, numbers) {
        Ok(options) => serialized_again(alloc, &options, rounds).unwrap_or(0),
        Err(_) => 0,
    }
}

/// Archives a vector of texts `rounds` times, with the number of letters of each in `lengths`. Returns the total number
/// of bytes that were written, or 0 if an allocation fails.
#[unsafe(no_mangle)]
pub extern "C" fn archive_forms_bench_serialize_texts(
    alloc: Global,
    lengths: &[u32],
    rounds: usize,
) -> usize {
    match texts(alloc, lengths) {
        Ok(texts) => serialized_again(alloc, &texts, rounds).unwrap_or(0),
        Err(_) => 0,
    }
}

/// Archives a vector of lists of ten numbers `rounds` times. Returns the total number of bytes that were written, or 0
/// if an allocation fails.
#[unsafe(no_mangle)]
pub extern "C" fn archive_forms_bench_serialize_lists(
    alloc: Global,
    numbers: &[u32],
    rounds: usize,
) -> usize {
    match lists(alloc, numbers) {
        Ok(lists) => serialized_again(alloc, &lists, rounds).unwrap_or(0),
        Err(_) => 0,
    }
}
