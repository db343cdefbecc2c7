//! Calls that make archives, open them and load their documents.

use crate::again::{copy_of, document_of, has_text};
use crate::tally::Outcome;
use cabinet::{
    OpenRefusal, Opened, SaveRefusal, Scan, check_scanned, open, open_scanned, save, to_bytes,
};
use cabinet_doubles::Row;
use std::alloc::Global;

/// Makes an archive.
pub fn makes_bytes(alloc: Global, row: &Row<'_, '_>) -> Outcome {
    let Some(document) = document_of(alloc, row.text) else {
        return Outcome::Wrong;
    };
    match to_bytes(alloc, &document) {
        Ok(archive) => Outcome::succeeded(archive.as_slice() == row.archive),
        Err(SaveRefusal::OutOfMemory) => Outcome::refused(has_text(&document, row.text)),
        Err(_) => Outcome::Wrong,
    }
}

/// Saves a document into memory that grows.
pub fn saves(alloc: Global, row: &Row<'_, '_>) -> Outcome {
    let Some(document) = document_of(alloc, row.text) else {
        return Outcome::Wrong;
    };
    let mut written = Vec::new(alloc);
    match save(alloc, &document, &mut written) {
        Ok(()) => Outcome::succeeded(written.as_slice() == row.archive),
        Err(SaveRefusal::OutOfMemory) => Outcome::refused(
            row.archive.starts_with(written.as_slice()) && has_text(&document, row.text),
        ),
        Err(_) => Outcome::Wrong,
    }
}

/// Returns the outcome of opening, by whether the bytes are as they were.
fn opened_as(refusal: Option<OpenRefusal>, stands: bool) -> Outcome {
    match refusal {
        None => Outcome::succeeded(stands),
        Some(OpenRefusal::OutOfMemory) => Outcome::refused(stands),
        Some(_) => Outcome::Wrong,
    }
}

/// Checks an archive.
pub fn checks<G: Scan>(alloc: Global, row: &Row<'_, '_>) -> Outcome {
    opened_as(check_scanned::<G>(alloc, row.archive).err(), true)
}

/// Opens an archive.
pub fn opens<G: Scan>(alloc: Global, row: &Row<'_, '_>) -> Outcome {
    let Ok(mut bytes) = copy_of(alloc, row.archive) else {
        return Outcome::Wrong;
    };
    let refusal = open_scanned::<G>(alloc, bytes.as_mut_slice()).err();
    opened_as(refusal, bytes.as_slice() == row.archive)
}

/// Loads the document of an opened archive.
fn loads_from(alloc: Global, opened: &Opened<'_>, row: &Row<'_, '_>) -> Outcome {
    let outcome = match opened.load(alloc) {
        Ok(document) => Outcome::succeeded(has_text(&document, row.text)),
        Err(_) => Outcome::Refused,
    };
    let stands = opened.bytes() == row.archive;
    outcome.and(Outcome::succeeded(stands))
}

/// Loads the document of an archive, which is opened once more if memory for that is refused.
pub fn loads(alloc: Global, row: &Row<'_, '_>) -> Outcome {
    let Ok(mut bytes) = copy_of(alloc, row.archive) else {
        return Outcome::Wrong;
    };
    if let Ok(opened) = open(alloc, bytes.as_mut_slice()) {
        return loads_from(alloc, &opened, row);
    }
    match open(alloc, bytes.as_mut_slice()) {
        Ok(opened) => loads_from(alloc, &opened, row),
        Err(_) => Outcome::Wrong,
    }
}
