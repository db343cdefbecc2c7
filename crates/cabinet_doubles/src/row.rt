//! A document, its archive, and lines about it.

use crate::archives::{
    COFFEE_AND_TEA, TWO_SHARED, TWO_WHOLES, VAT_IN_EU, WHOLE_IN_MAPS, WHOLE_IN_WHOLE, Z_AND_A,
};

/// An edit: how many lines precede it, the bytes that it writes, and the position in the archive where it writes them.
#[derive(Clone, Copy)]
pub struct Edit {
    pub line: usize,
    pub position: usize,
    pub bytes: &'static [u8],
}

/// The text and the archive of a document, and lines about it with their answers. At most one line is an edit that is done.
#[derive(Clone, Copy)]
pub struct Row<'t, 'b> {
    pub text: &'t [u8],
    pub archive: &'b [u8],
    pub lines: &'static [u8],
    pub answers: &'static [u8],
    pub edit: Option<Edit>,
}

/// Documents of maps, lists, shared texts and wholes.
pub const ROWS: [Row<'static, 'static>; 7] = [
    Row {
        text: b"ordered 2\n'coffee\nint 300\n'tea\nint 250\n",
        archive: COFFEE_AND_TEA,
        lines: b"get\nget 'tea\nset int 275 'tea\nget 'tea\n",
        answers: b"ordered 2\nint 250\nok\nint 275\n",
        edit: Some(Edit {
            line: 2,
            position: 80,
            bytes: b"\x13\x01",
        }),
    },
    Row {
        text: b"ordered 1\n'eu\nhashed 1\n'vat\nlist 2\nint 7\nint 19\n",
        archive: VAT_IN_EU,
        lines: b"get 'eu 'vat #1\nset int 20 'eu 'vat #1\nget 'eu 'vat #1\nget 'eu 'vat #0\nget 'eu 'vat #2\n",
        answers: b"int 19\nok\nint 20\nint 7\nmissing\n",
        edit: Some(Edit {
            line: 1,
            position: 32,
            bytes: b"\x14",
        }),
    },
    Row {
        text: b"list 2\nshared 'hello\\sworld!\nshared 'hello\\sworld!\n",
        archive: TWO_SHARED,
        lines: b"get #0\nget #1\nset text 'HELLO\\sWORLD! #0\n",
        answers: b"shared 'hello\\sworld!\nshared 'hello\\sworld!\nrefused\n",
        edit: None,
    },
    Row {
        text: b"kept 2\n'z\nint 1\n'a\nint 2\n",
        archive: Z_AND_A,
        lines: b"keys\nget 'a\nget 'b\nget #0\nset int 3 'a\n",
        answers: b"keys 2 'z 'a\nint 2\nmissing\nmissing\nok\n",
        edit: Some(Edit {
            line: 4,
            position: 96,
            bytes: b"\x03",
        }),
    },
    Row {
        text: b"wholes 1\nint 5\nlist 2\nwhole 0\nwhole 0\n",
        archive: TWO_WHOLES,
        lines: b"get #0\nget #1 ?\nset int 6 #0 ?\nset int 6 #0\nget #0 'a\n",
        answers: b"whole\nint 5\nrefused\nrefused\nmissing\n",
        edit: None,
    },
    Row {
        text: b"wholes 2\nint 1\nlist 2\nwhole 0\nwhole 0\nlist 3\nwhole 1\nwhole 0\nwhole 1\n",
        archive: WHOLE_IN_WHOLE,
        lines: b"get #0 ?\nget #2 ? #1 ?\nget #1 ?\nset int 2 #2 ? #0 ?\nkeys #1\n",
        answers: b"list 2\nint 1\nint 1\nrefused\nwrong\n",
        edit: None,
    },
    Row {
        text: b"wholes 1\nint 5\nlist 3\nordered 2\n'a\nwhole 0\n'b\nint 6\nhashed 2\n'a\nwhole 0\n'b\nint 7\nkept 2\n'b\nint 8\n'a\nwhole 0\n",
        archive: WHOLE_IN_MAPS,
        lines: b"get #0 'a ?\nset int 9 #1 'b\nget #1 'b\nset int 6 #1 'a ?\nget #2 'a ?\nkeys #2\n",
        answers: b"int 5\nok\nint 9\nrefused\nint 5\nkeys 2 'b 'a\n",
        edit: Some(Edit {
            line: 1,
            position: 248,
            bytes: b"\x09",
        }),
    },
];

/// Returns the number of lines of a text.
pub fn count_lines(text: &[u8]) -> usize {
    let mut count: usize = 0;
    for byte in text {
        if *byte == b'\n' {
            count = count.saturating_add(1);
        }
    }
    count
}

/// Returns the number of bytes of the first lines of a text.
fn end_of(text: &[u8], count: usize) -> usize {
    let mut left = count;
    let mut end: usize = 0;
    for byte in text {
        if left == 0 {
            return end;
        }
        end = end.saturating_add(1);
        if *byte == b'\n' {
            left -= 1;
        }
    }
    end
}

/// Returns the first lines of a text.
fn first_lines(text: &[u8], count: usize) -> &[u8] {
    &text[..end_of(text, count).min(text.len())]
}

/// Returns a line of a text, without its newline.
pub fn line_at(text: &[u8], index: usize) -> &[u8] {
    let start = first_lines(text, index).len();
    let rest = &text[start.min(text.len())..];
    let line = first_lines(rest, 1);
    line.strip_suffix(b"\n").unwrap_or(line)
}

impl Row<'_, '_> {
    /// Returns whether these are the answers to the first lines, and after them, if `is_cut`, not more than the answer to
    /// the next one.
    pub fn has_answers(&self, written: &[u8], count: usize, is_cut: bool) -> bool {
        let whole = first_lines(self.answers, count);
        let next = first_lines(self.answers, count.saturating_add(1));
        written == whole || is_cut && written.starts_with(whole) && next.starts_with(written)
    }

    /// Changes the bytes of the archive as the first lines do.
    pub fn change(&self, archive: &mut [u8], count: usize) {
        let Some(edit) = self.edit else {
            return;
        };
        if edit.line < count {
            for (byte, value) in archive.iter_mut().skip(edit.position).zip(edit.bytes) {
                *byte = *value;
            }
        }
    }

    /// Returns the number of edits among the first lines.
    pub fn edits(&self, count: usize) -> u64 {
        match self.edit {
            Some(edit) if edit.line < count => 1,
            _ => 0,
        }
    }
}
