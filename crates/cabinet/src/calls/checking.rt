//! Whether bytes are the archive of a document, as a status.
ghost use Rattle.cabinet.specs.ByteCalls.{Checks};

use crate::calls::status::Status;
use std::alloc::Global;

/// Checks that the bytes are the archive of a document.
pub fn check(alloc: Global, archive: &[u8]) -> Status
    ensures { Checks archive.now result }
{
    match cabinet_archives::check(alloc, archive) {
        Ok(()) => Status::Ok,
        Err(refusal) => Status::of_opening(refusal),
    }
}
