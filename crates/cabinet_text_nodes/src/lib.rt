//! Types of documents, which have ten kinds of nodes, and of lines about documents; their texts and answers.
#![tactic(auto)]

mod answer;
mod change;
mod depth;
mod document;
mod fault;
mod head;
mod leaf;
mod line;
mod node;
mod node_text;
mod order;
mod refusal;
mod repeated;
mod restructuring;
mod shared_texts;
mod table;
mod walk;
mod writing;

pub use answer::{Asked, EditAnswer};
pub use depth::depth_of;
pub use document::Document;
pub use head::{Head, HeadRef};
pub use leaf::{Leaf, LeafRef, fits};
pub use line::{EditLine, Line, LineRefusal, Step};
pub use node::{Kind, Node};
pub use node_text::NodeText;
pub use order::{are_in_order, walk_node, walk_nodes, walk_pairs, walk_values};
pub use refusal::DocumentRefusal;
pub use shared_texts::SharedTexts;
pub use writing::{
    answer_missing, answer_wrong, write_bad, write_head, write_key, write_key_line,
    write_keys_head, write_missing, write_node, write_outcome, write_text, write_wrong,
};
