//! Values made of numbers, which the benchmarks archive.
use archive_shape_layout::Error;
use std::alloc::Global;

/// A number, a text, an option of a number, and texts.
pub type Record = (u64, String, Option<u32>, Vec<String>);

/// Returns an odd number, and `None` for an even one.
fn odd(number: u32) -> Option<u32> {
    if number % 2 == 0 { None } else { Some(number) }
}

/// Returns the odd numbers, with `None` in the place of each even one.
pub fn options(alloc: Global, numbers: &[u32]) -> Result<Vec<Option<u32>>, Error> {
    let mut options = Vec::new(alloc);
    for number in numbers {
        options.push(odd(*number))?;
    }
    Ok(options)
}

/// Returns a text of `count` letters.
fn letters(alloc: Global, count: u32) -> Result<String, Error> {
    let mut text = String::new(alloc);
    for i in 0..count {
        text.push(if i % 2 == 0 { 'a' } else { 'b' })?;
    }
    Ok(text)
}

/// Returns texts with the number of letters of each in `lengths`.
pub fn texts(alloc: Global, lengths: &[u32]) -> Result<Vec<String>, Error> {
    let mut texts = Vec::new(alloc);
    for length in lengths {
        let text = letters(alloc, *length)?;
        texts.push(text)?;
    }
    Ok(texts)
}

/// Returns the numbers in lists of ten.
pub fn lists(alloc: Global, numbers: &[u32]) -> Result<Vec<Vec<u32>>, Error> {
    let mut lists = Vec::new(alloc);
    for ten in numbers.chunks(10) {
        let list = Vec::from_slice(alloc, ten)?;
        lists.push(list)?;
    }
    Ok(lists)
}

/// Returns the record of a number: its text has up to 16 letters, and it has up to three texts of up to 20.
fn record(alloc: Global, number: u32) -> Result<Record, Error> {
    let lengths = [number % 5, number % 9, number % 21];
    let name = letters(alloc, number % 17)?;
    let tags = texts(alloc, &lengths[..(number % 4) as usize])?;
    Ok((u64::from(number), name, odd(number), tags))
}

/// Returns the record of each number.
pub fn records(alloc: Global, numbers: &[u32]) -> Result<Vec<Record>, Error> {
    let mut records = Vec::new(alloc);
    for number in numbers {
        let record = record(alloc, *number)?;
        records.push(record)?;
    }
    Ok(records)
}
