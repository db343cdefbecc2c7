//! The text of the document that an archive holds, put into a buffer.
ghost use Rattle.cabinet.specs.ByteCalls.{Loads};

use crate::calls::putting::put;
use crate::calls::status::Status;
use crate::showing::write_document;
use std::alloc::Global;

/// Checks the bytes, and puts the text of the document that they are the archive of into the buffer.
pub fn load(alloc: Global, archive: &[u8], buffer: &mut [u8], written: &mut usize) -> Status
    ensures { Loads archive.now buffer.old buffer.new written.new result }
{
    *written = 0;
    let mut text = Vec::new(alloc);
    match write_document(alloc, archive, &mut text) {
        Ok(Ok(())) => put(text.as_slice(), Status::Ok, buffer, written),
        Ok(Err(_)) => Status::OutOfMemory,
        Err(refusal) => Status::of_opening(refusal),
    }
}
