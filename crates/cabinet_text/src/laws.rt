//! The laws of documents as text. Each is a function with an empty body, whose contract is the law.
pub use cabinet_text_grammar::{
    change_keeps_document, fault_refuses, key_has_text, map_answers_its_pairs, one_document,
    one_fault, one_line, only_done_changes, read_back, text_has_key, text_or_fault,
    text_without_wholes,
};
