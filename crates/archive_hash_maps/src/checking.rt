//! The check of hash tables.
//!
//! A table is checked by a step for its items, a closure that checks one item at a position. Its contract is defined in
//! archive_shape's specs/Steps. The parts of this check are also used for a table whose items are the numbers of
//! entries that lie elsewhere.

mod buckets;
mod controls;
mod head;
mod items;
mod places;
mod sizes;
mod table;

pub use controls::controls_at;
pub use head::{TableHead, check_head};
pub use places::check_place_buckets;
pub use sizes::control_count;
pub use table::check_table_each;
