//! The byte layout of archives, for every form of the format, and its laws.
//!
//! `content_of` gives the content of a part, one step deep. `Holds` says that a part has a value, and which regions the
//! part and its parts claim. `HasRoot` says that a buffer has a value at a position, with regions that ascend. Each
//! function of `laws` has an empty body, and its contract is a law. `Shape` is a layout at run time.
#![tactic(auto)]

mod finding;

pub use finding::root_is_found;

mod laws;
mod shape;

pub use laws::{
    alignments_are_small_powers, ascent_is_apart, ascent_splits, edit_of_leaf, edit_of_text, frame,
    leaf_in_one_region, leaf_within, leaves_apart, one_value, paths_join, root_regions,
    value_at_path, visits_stand,
};
pub use shape::{Alignment, Pointee, Shape, Shapes, Width, same_shape};

mod error;
mod pieces;
mod writer;

pub use error::Error;
pub use pieces::{write_all_pieces, write_three_pieces, write_two_pieces};
pub use writer::{Positional, Registry, Writer};
