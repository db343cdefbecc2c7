//! Documents of numbered parts: maps whose keys are the decimal texts of the numbers below a count, each with the number 0, and
//! wholes that have one another, of which the first is `int 1`.

use crate::call::make_each;
use crate::tally::{Outcome, Tally};
use cabinet::{read_text, to_bytes};
use cabinet_doubles::{Row, text_of_wholes};
use std::alloc::{AllocError, Global};

/// What a document is made of.
#[derive(Clone, Copy)]
pub enum Parts {
    /// The keys of a map of this kind.
    Keys(&'static str),
    /// Wholes, each of which is the lines with the number of the one before it after each.
    Wholes(&'static [&'static str]),
}

/// The parts of a document, their number, the size of its archive, and lines with their answers.
#[derive(Clone, Copy)]
pub struct Numbered {
    pub parts: Parts,
    pub count: u32,
    pub size: usize,
    pub lines: &'static [u8],
    pub answers: &'static [u8],
}

/// Returns the keys, in ascending order.
fn keys(alloc: Global, count: u32) -> Result<Vec<String>, AllocError> {
    let mut keys = Vec::new(alloc);
    for number in 0..count {
        keys.push(format!(in alloc; "{number}")?)?;
    }
    keys.sort()?;
    Ok(keys)
}

/// Returns the text of a map.
fn text_of_map(alloc: Global, head: &str, count: u32) -> Result<Vec<u8>, AllocError> {
    let head = format!(in alloc; "{head} {count}\n")?;
    let mut text = Vec::from_slice(alloc, head.as_bytes())?;
    for key in keys(alloc, count)? {
        text.push(b'\'')?;
        text.extend_from_slice(key.as_bytes())?;
        text.extend_from_slice(b"\nint 0\n")?;
    }
    Ok(text)
}

impl Numbered {
    /// Returns the text of the document.
    fn text(self, alloc: Global) -> Result<Vec<u8>, AllocError> {
        match self.parts {
            Parts::Keys(head) => text_of_map(alloc, head, self.count),
            Parts::Wholes(lines) => text_of_wholes(alloc, lines, self.count),
        }
    }

    /// Returns the text of the document and its archive.
    fn saved(self, alloc: Global) -> Option<(Vec<u8>, Vec<u8>)> {
        let text = self.text(alloc).ok()?;
        let document = read_text(alloc, text.as_slice()).ok()?;
        let archive = to_bytes(alloc, &document).ok()?;
        Some((text, archive))
    }

    /// Makes each call with the document. What they need is made twice if memory for it is refused.
    pub fn make_each(self, alloc: Global) -> Tally {
        let saved = match self.saved(alloc) {
            Some(saved) => Some(saved),
            None => self.saved(alloc),
        };
        let Some((text, archive)) = saved else {
            return Tally::of(Outcome::Wrong);
        };
        if archive.len() != self.size {
            return Tally::of(Outcome::Wrong);
        }
        let row = Row {
            text: text.as_slice(),
            archive: archive.as_slice(),
            lines: self.lines,
            answers: self.answers,
            edit: None,
        };
        make_each(alloc, &row)
    }
}
