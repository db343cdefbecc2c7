//! Calls for other languages: archives, texts and lines are bytes of the caller, and each call returns a status.

mod asking;
mod building;
mod checking;
mod loading;
mod putting;
mod setting;
mod status;

pub use asking::ask;
pub use building::build;
pub use checking::check;
pub use loading::load;
pub use setting::set;
pub use status::Status;
