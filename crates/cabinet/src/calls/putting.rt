//! Bytes that a call gives, put into a buffer of the caller.
ghost use Rattle.cabinet.specs.Buffers.{Gives};

use crate::calls::status::Status;

/// Puts bytes at the front of a buffer and returns the status, or returns `Short` where the buffer has fewer bytes, and
/// leaves it as it was. In both cases `written` is the number of the bytes.
pub fn put(bytes: &[u8], status: Status, buffer: &mut [u8], written: &mut usize) -> Status
    ensures { Gives bytes.now status buffer.old buffer.new written.new result }
{
    *written = bytes.len();
    if bytes.len() > buffer.len() {
        return Status::Short;
    }
    buffer[..bytes.len()].copy_from_slice(bytes);
    status
}
