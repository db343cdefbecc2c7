//! The archive of the document that has a text, put into a buffer.
ghost use Rattle.cabinet.specs.ByteCalls.{Builds};

use crate::calls::putting::put;
use crate::calls::status::Status;
use cabinet_archives::{SaveRefusal, to_bytes};
use cabinet_text_reading::read_text;
use std::alloc::Global;

/// Makes the archive of the document that has this text, and puts it into the buffer. `line` is the line for which the
/// text is refused, counted from 1, and 0 where it is not.
pub fn build(
    alloc: Global,
    text: &[u8],
    buffer: &mut [u8],
    written: &mut usize,
    line: &mut usize,
) -> Status
    ensures { Builds text.now buffer.old buffer.new written.new line.new result }
{
    *written = 0;
    *line = 0;
    let document = match read_text(alloc, text) {
        Ok(document) => document,
        Err(refusal) => {
            *line = refusal.line as usize;
            return Status::of_cause(refusal.cause);
        }
    };
    match to_bytes(alloc, &document) {
        Ok(archive) => put(archive.as_slice(), Status::Ok, buffer, written),
        Err(SaveRefusal::Limit(_)) => Status::Limit,
        Err(_) => Status::OutOfMemory,
    }
}
