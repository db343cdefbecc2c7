//! Reads the text of a document and writes it again.
ghost use Rattle.std.specs.Prelude.{◌≡◌, ◌++◌, MatchResult};
ghost use Rattle.cabinet_text_session.specs.Copying.{Refuses};

use archive_shape_layout::Error;
use cabinet_text::{TextRefusal, read_text, write_text};
use std::alloc::Global;

/// The error of copying a text.
#[derive(Drop)]
pub enum Fault {
    Text(TextRefusal),
    Write(Error),
}

/// Reads a text as a document, and writes the document's text after the other copies.
pub fn copy_text(alloc: Global, text: &[u8], copies: &mut Vec<u8>) -> Result<(), Fault>
    ensures { MatchResult result (λ _. copies.new.items ≡ copies.old.items ++ text.now) (Refuses text.now) }
{
    let document = match read_text(alloc, text) {
        Ok(document) => document,
        Err(refusal) => return Err(Fault::Text(refusal)),
    };
    match write_text(&document, copies) {
        Ok(()) => Ok(()),
        Err(error) => Err(Fault::Write(error)),
    }
}
