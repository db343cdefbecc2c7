//! The open containers of a document that is being read.

mod ascending;
mod completing;
mod due;
mod frame;
mod kept;
mod key;
mod keyed;
mod pairs;
mod seen;
mod store;
mod taking;

pub use ascending::{AscendingKeyed, AscendingPairs};
pub(crate) use completing::{all_lack_one, completes};
pub use due::{Due, Next};
pub use frame::{Frame, OpenMap};
pub use kept::{KeptKeyed, KeptPairs};
pub use key::cmp_escaped;
pub use keyed::Keyed;
pub use pairs::Pairs;
pub use taking::{take_head, take_key};
