//! What calls need, made twice where memory for it is refused once.

use archive_core_serializing::Buffer;
use cabinet::{Document, Line, read_line, read_text, write_text};
use std::alloc::{AllocError, Global};

/// Returns whether this is the text of a document. Takes no memory.
pub fn has_text(document: &Document, text: &[u8]) -> bool {
    let mut memory = [0; 8192];
    let mut writer = Buffer::new(&mut memory);
    write_text(document, &mut writer).is_ok() && writer.bytes() == text
}

/// Returns the document that has a text.
pub fn document_of(alloc: Global, text: &[u8]) -> Option<Document> {
    match read_text(alloc, text) {
        Ok(document) => Some(document),
        Err(_) => read_text(alloc, text).ok(),
    }
}

/// Returns the line that bytes say.
pub fn line_of(alloc: Global, bytes: &[u8]) -> Option<Line> {
    match read_line(alloc, bytes) {
        Ok(line) => Some(line),
        Err(_) => read_line(alloc, bytes).ok(),
    }
}

/// Returns a copy of bytes.
pub fn copy_of(alloc: Global, bytes: &[u8]) -> Result<Vec<u8>, AllocError> {
    match Vec::from_slice(alloc, bytes) {
        Ok(copy) => Ok(copy),
        Err(_) => Vec::from_slice(alloc, bytes),
    }
}
