//! Texts of documents whose wholes lie in one another.

use std::alloc::{AllocError, Global};

/// Returns the text of `count` wholes, of which the first is `int 1`, and of a root. Each next one, and the root, is these
/// lines, with the number of the whole before it after each of them.
pub fn text_of_wholes(alloc: Global, lines: &[&str], count: u32) -> Result<Vec<u8>, AllocError> {
    let head = format!(in alloc; "wholes {count}\nint 1\n")?;
    let mut text = Vec::from_slice(alloc, head.as_bytes())?;
    for number in 0..count {
        for line in lines {
            text.extend_from_slice(line.as_bytes())?;
            text.extend_from_slice(format!(in alloc; "{number}\n")?.as_bytes())?;
        }
    }
    Ok(text)
}
