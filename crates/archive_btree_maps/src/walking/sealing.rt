//! Cursors over the entries of archived B-tree maps that lend the values, one at a time.

mod iter;
mod passing;
mod range;

pub use iter::{IterSeal, ValuesSeal};
pub use passing::pass_entry;
pub use range::RangeSeal;
