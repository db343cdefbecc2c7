//! Reads and writes numbers, words and escaped texts as bytes.
#![tactic(auto)]

mod escape;
mod number;
mod spelling;
mod writing;

pub use escape::{first_byte, is_escaped, try_unescape, unescape_text, unescaped_len};
pub use number::{Decimal, read_count, read_number};
pub use spelling::{after_prefix, newline_in, read_truth, split_word};
pub use writing::{write_escaped, write_escaped_line};
