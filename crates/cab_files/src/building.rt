//! `cab build`, which writes the archive of the document that a text file holds.
ghost use Rattle.std.specs.Prelude.{IfOk, IfErr};
ghost use Rattle.cab_files.specs.Building.{Builds, RefusesText, EndsBuild};

use crate::ending::standard_output;
use crate::replacing;
use cabinet::{Fault, read_text, to_bytes};
use std::alloc::Global;
use std::fs::File;
use std::rt::Files;
use std::{fs, mem};

/// Returns the archive of the document that has a text. The text is dropped once it is read. A document that was saved is
/// not dropped: the program ends with its archive, and to free it node by node takes a tenth of the instructions.
pub fn archive_of(alloc: Global, text: Vec<u8>) -> Result<Vec<u8>, Fault>
    ensures built { IfOk result (λ archive. Builds text.items archive.items) }
    ensures refused { IfErr result (RefusesText text.items) }
{
    let document = match read_text(alloc, text.as_slice()) {
        Ok(document) => document,
        Err(refusal) => return Err(Fault::Text(refusal)),
    };
    drop(text);
    let archive = match to_bytes(alloc, &document) {
        Ok(archive) => archive,
        Err(refusal) => return Err(Fault::Save(refusal)),
    };
    mem::forget(document);
    Ok(archive)
}

/// Saves the document that a text file holds as an archive file, and prints the number of bytes of the archive.
pub fn build<R: Files<File = File> + Print + AllocGlobal>(
    rt: &R,
    text: String,
    archive: String,
) -> Result<(), Fault>
    ensures { EndsBuild text archive result }
{
    let Ok(bytes) = fs::read(rt, text.as_str()) else {
        return Err(Fault::CannotRead(text));
    };
    let image = archive_of(rt.alloc(), bytes)?;
    if replacing::write(rt, archive.as_str(), image.as_slice()).is_err() {
        return Err(Fault::CannotWrite(archive));
    }
    let len = image.len();
    match println!(rt; "built {len}") {
        Ok(()) => Ok(()),
        Err(_) => Err(Fault::CannotWrite(standard_output(text))),
    }
}
