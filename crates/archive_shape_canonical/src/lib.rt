//! Canonical archives: the one archive of a value, at every shape, which is the archive that writing the value makes.
//!
//! `IsClean` says what the padding and filler bytes of a part are. `IsSettled` says what is chosen where the layout
//! leaves a choice: packed search trees, and tables filled by a `Fit`, such as first fit. `IsCanonical` says where
//! regions lie. `CanonicalArchive` combines them. Each function of `laws` has an empty body, and its contract is a law.
#![tactic(auto)]

mod hash;
mod laws;

pub use laws::{
    avoiding_paths_join, canonical_edit_of_leaf, canonical_edit_of_text, canonical_frame,
    one_archive, tables_of_one_map, written_everywhere,
};
