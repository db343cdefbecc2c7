//! Search trees in archives: their items, the search for an entry, and when a tree is packed.
#![tactic(auto)]

mod laws;

pub use laws::{
    descent_finds, descent_is_equal, descent_meets, nodes_stay, one_packed, packed_height,
    packed_is_least, pairs_stay, tree_is_read, tree_stays, values_apart,
};
