//! The resolver of a node, which holds the position of its data.
use archive_btree_maps::BTreeMapResolver;
use archive_forms_rc::RcResolver;
use archive_forms_values::{BoxResolver, StringResolver, VecResolver};
use archive_hash_maps::HashTableResolver;
use archive_hash_writing::index::IndexMapResolver;

/// The position of the data that a node points to, by its kind; it is known once the data is written.
#[derive(Clone, Copy, Debug, PartialEq, Eq)]
pub enum NodeResolver {
    /// A truth value or a number, which has no data.
    Leaf,
    /// A text, which has data where it is not inline.
    Text(StringResolver),
    /// A shared text, whose data is written once.
    Shared(RcResolver),
    /// An option; `None` has no data.
    Maybe(Option<BoxResolver>),
    /// A list, whose data is its elements.
    List(VecResolver),
    /// An ordered map, whose data is its search tree.
    Ordered(BTreeMapResolver),
    /// A hashed map, whose data is its table.
    Hashed(HashTableResolver),
    /// A map that keeps its order, whose data is a table of numbers and its entries.
    Kept(IndexMapResolver),
    /// A whole, whose data is written once.
    Whole(RcResolver),
}
