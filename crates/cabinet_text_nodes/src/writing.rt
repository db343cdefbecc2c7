//! Writes texts of documents, and the lines of answers.
mod answer;
mod head;
mod text;

pub use answer::{
    answer_missing, answer_wrong, write_bad, write_key, write_keys_head, write_missing,
    write_outcome, write_wrong,
};
pub(crate) use head::write_whole_line;
pub use head::{write_head, write_key_line};
pub use text::{write_node, write_text};
