//! The hashes of texts, and the places at which a table is searched for a hash, as definitions.
