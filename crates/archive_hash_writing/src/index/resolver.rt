//! The resolver of an index map, which holds the positions of its data.
use archive_hash_maps::HashTableResolver;

/// The position of the controls of a map's table, and that of its first entry, if the map has entries.
#[derive(Clone, Copy, Debug, PartialEq, Eq)]
pub struct IndexMapResolver {
    pub table: HashTableResolver,
    pub entries: Option<usize>,
}
