//! Questions about documents, answered from the bytes of their archives.

mod heads;
mod keys;
mod location;
mod question;
mod walk;

pub use heads::head;
pub use location::locate;
pub use question::ask;
pub use walk::{find, find_counted};
