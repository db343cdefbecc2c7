//! The tags of the kinds of a node, and where each payload lies in the node's 24 bytes.

/// The tag of a truth value, which is at `BOOL_OFFSET`.
pub const BOOL: u8 = 0;

/// The tag of a number, which is at `INT_OFFSET`.
pub const INT: u8 = 1;

/// The tag of a text.
pub const TEXT: u8 = 2;

/// The tag of a shared text.
pub const SHARED: u8 = 3;

/// The tag of an option.
pub const MAYBE: u8 = 4;

/// The tag of a list.
pub const LIST: u8 = 5;

/// The tag of an ordered map.
pub const ORDERED: u8 = 6;

/// The tag of a hashed map.
pub const HASHED: u8 = 7;

/// The tag of a map that keeps the order of its pairs.
pub const KEPT: u8 = 8;

/// The tag of a whole.
pub const WHOLE: u8 = 9;

/// The offset of a truth value from the start of the node.
pub const BOOL_OFFSET: usize = 1;

/// The offset of a number.
pub const INT_OFFSET: usize = 8;

/// The offset of the payload of each other kind.
pub const OFFSET: usize = 4;
