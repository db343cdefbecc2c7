//! The entries of archived B-tree maps by the positions of the maps: the search for a key, walks, and cursors that lend
//! values.

mod iter;
mod laws;
mod lookup;
mod range;
mod root;
mod sealing;

pub use iter::{Iter, Keys, Values};
pub use laws::{map_is_read, one_map};
pub use lookup::{search_key, search_map};
pub use range::{Range, range_at, walk_between};
pub use root::{count_at, entry_walk_at, walk_at};
pub use sealing::{IterSeal, RangeSeal, ValuesSeal, pass_entry};
