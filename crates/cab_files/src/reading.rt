//! The bytes of a file.

use std::fs::{File, Metadata};
use std::io;
use std::io::Read;
use std::rt::Files;

/// Returns the bytes of a file, and what its metadata were before they were read.
pub fn read<R: Files<File = File> + AllocGlobal>(
    rt: &R,
    path: &str,
) -> io::Result<(Vec<u8>, Metadata)> {
    let mut file = File::open(rt, path)?;
    let metadata = file.metadata()?;
    let mut bytes = Vec::new(rt.alloc());
    file.read_to_end(&mut bytes)?;
    Ok((bytes, metadata))
}
