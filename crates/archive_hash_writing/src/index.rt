//! How index maps are archived, and that what is written is the one archive of the map.
//!
//! `map_spelling` is made of the spelling of entries and of the hashes of their keys. Its law says that what it writes is
//! what the layout reads, and is canonical. That law is the lemma `index_spells` of `proofs`, because it is about every
//! spelling. Each function of `laws` has no body; its contract is a law.

mod laws;
mod resolver;

pub use laws::{maps_are_written, samples_are_spelled, texts_are_kept};
pub use resolver::IndexMapResolver;
