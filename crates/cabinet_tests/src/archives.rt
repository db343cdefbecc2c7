//! Archives that saving does not write, byte by byte.
use std::alloc::{AllocError, Global};

/// The archive of `int 5`.
pub const FIVE: &[u8; 24] = b"\x01\0\0\0\0\0\0\0\x05\0\0\0\0\0\0\0\0\0\0\0\0\0\0\0";

/// The same without its last byte.
pub const SHORT: &[u8; 23] = b"\x01\0\0\0\0\0\0\0\x05\0\0\0\0\0\0\0\0\0\0\0\0\0\0";

/// The archive of a list of `int 7` and `int 19`.
pub const TWO: &[u8; 72] =
    b"\x01\0\0\0\0\0\0\0\x07\0\0\0\0\0\0\0\0\0\0\0\0\0\0\0\x01\0\0\0\0\0\0\0\x13\0\0\0\0\0\0\0\0\0\0\0\0\0\0\0\x05\0\0\0\xcc\xff\xff\xff\x02\0\0\0\0\0\0\0\0\0\0\0\0\0\0\0";

/// The archive of a list of an option of `int 1` and one of `int 2`.
pub const TWO_OPTIONS: &[u8; 120] =
    b"\x01\0\0\0\0\0\0\0\x01\0\0\0\0\0\0\0\0\0\0\0\0\0\0\0\x01\0\0\0\0\0\0\0\x02\0\0\0\0\0\0\0\0\0\0\0\0\0\0\0\x04\0\0\0\x01\0\0\0\xc8\xff\xff\xff\0\0\0\0\0\0\0\0\0\0\0\0\x04\0\0\0\x01\0\0\0\xc8\xff\xff\xff\0\0\0\0\0\0\0\0\0\0\0\0\x05\0\0\0\xcc\xff\xff\xff\x02\0\0\0\0\0\0\0\0\0\0\0\0\0\0\0";

/// The archive of an option of `int 5`.
pub const OPTION: &[u8; 48] =
    b"\x01\0\0\0\0\0\0\0\x05\0\0\0\0\0\0\0\0\0\0\0\0\0\0\0\x04\0\0\0\x01\0\0\0\xe0\xff\xff\xff\0\0\0\0\0\0\0\0\0\0\0\0";

/// The archive of `text 'hello\sworld!`.
pub const TEXT: &[u8; 40] =
    b"hello world!\0\0\0\0\x02\0\0\0\x8c\0\0\0\xec\xff\xff\xff\0\0\0\0\0\0\0\0\0\0\0\0";

/// The archive of a list of a list of `int 7` and `int 19`, and of `int 5`.
pub const LIST: &[u8; 120] =
    b"\x01\0\0\0\0\0\0\0\x07\0\0\0\0\0\0\0\0\0\0\0\0\0\0\0\x01\0\0\0\0\0\0\0\x13\0\0\0\0\0\0\0\0\0\0\0\0\0\0\0\x05\0\0\0\xcc\xff\xff\xff\x02\0\0\0\0\0\0\0\0\0\0\0\0\0\0\0\x01\0\0\0\0\0\0\0\x05\0\0\0\0\0\0\0\0\0\0\0\0\0\0\0\x05\0\0\0\xcc\xff\xff\xff\x02\0\0\0\0\0\0\0\0\0\0\0\0\0\0\0";

/// A shared text of twelve bytes, and its node.
pub const SHARED: &[u8; 40] =
    b"hello world!....\x03\0\0\0\xec\xff\xff\xff\x0c\0\0\0\0\0\0\0\0\0\0\0\0\0\0\0";

/// A list of two nodes with the same shared text of twelve bytes, which lies at two positions.
pub const SHARED_APART: &[u8; 104] =
    b"hello world!....hello world!....\x03\0\0\0\xdc\xff\xff\xff\x0c\0\0\0\0\0\0\0\0\0\0\0\0\0\0\0\x03\0\0\0\xd4\xff\xff\xff\x0c\0\0\0\0\0\0\0\0\0\0\0\0\0\0\0\x05\0\0\0\xcc\xff\xff\xff\x02\0\0\0\0\0\0\0\0\0\0\0\0\0\0\0";

/// A list of two wholes `5`, which lie at two positions: the nodes, and the elements from 48 on.
pub const WHOLES_APART: &[u8; 120] =
    b"\x01\0\0\0\0\0\0\0\x05\0\0\0\0\0\0\0\0\0\0\0\0\0\0\0\x01\0\0\0\0\0\0\0\x05\0\0\0\0\0\0\0\0\0\0\0\0\0\0\0\x09\0\0\0\xcc\xff\xff\xff\0\0\0\0\0\0\0\0\0\0\0\0\0\0\0\0\x09\0\0\0\xcc\xff\xff\xff\0\0\0\0\0\0\0\0\0\0\0\0\0\0\0\0\x05\0\0\0\xcc\xff\xff\xff\x02\0\0\0\0\0\0\0\0\0\0\0\0\0\0\0";

/// A whole that leads to the node in which it lies, and the root, a whole of this node.
pub const CYCLE: &[u8; 48] =
    b"\x09\0\0\0\xfc\xff\xff\xff\0\0\0\0\0\0\0\0\0\0\0\0\0\0\0\0\x09\0\0\0\xe4\xff\xff\xff\0\0\0\0\0\0\0\0\0\0\0\0\0\0\0\0";

/// A hashed map without pairs.
pub const EMPTY_HASHED: &[u8; 24] = b"\x07\0\0\0\x01\0\0\0\0\0\0\0\0\0\0\0\0\0\0\0\0\0\0\0";

/// A kept map without pairs.
pub const EMPTY_KEPT: &[u8; 24] = b"\x08\0\0\0\x01\0\0\0\0\0\0\0\0\0\0\0\x01\0\0\0\0\0\0\0";

/// An ordered map without pairs, with other bytes where no field is, and in its pointer.
pub const EMPTY_ORDERED: &[u8; 24] =
    b"\x06\xaa\xaa\xaa\xaa\xaa\xaa\xaa\0\0\0\0\xaa\xaa\xaa\xaa\xaa\xaa\xaa\xaa\xaa\xaa\xaa\xaa";

/// The map from coffee to 300 and from tea to 250, with other bytes where no field is, and seven more after it.
pub const LOOSE: &[u8; 207] =
    b"\0\0\0\0coffee\xff\xfftea\xff\xff\xff\xff\xff\0\0\0\0\0\0\0\0\0\0\0\0\0\0\0\0\0\0\0\0\0\0\0\0\0\0\0\0\x01\0\0\0\0\0\0\0,\x01\0\0\0\0\0\0\0\0\0\0\0\0\0\0\x01\0\0\0\0\0\0\0\xfa\0\0\0\0\0\0\0\0\0\0\0\0\0\0\0\0\0\0\0\0\0\0\0\0\0\0\0\0\0\0\0\0\0\0\0\0\0\0\0\0\0\0\0\0\0\0\0\0\0\0\0\0\0\0\0\0\0\0\0\0\0\0\0\0\0\0\0\0\0\0\0\0\0\0\0\0\0\0\0\0\0\0\0\0\0\0\0\x02\0\0\0\0\0\0\0\x06\0\0\0L\xff\xff\xff\x02\0\0\0\xaa\xaa\xaa\xaa\xaa\xaa\xaa\xaa\xaa\xaa\xaa\xaa\xbb\xbb\xbb\xbb\xbb\xbb\xbb";

/// A map from a to e to the numbers from 1 to 5: a leaf without entries from 0 on, an inner node from 176 on, whose child
/// after the last entry is that leaf, and the root from 368 on.
pub const FIVE_ABOVE_NONE: &[u8; 392] =
    b"\0\0\0\0\0\0\0\0\0\0\0\0\0\0\0\0\0\0\0\0\0\0\0\0\0\0\0\0\0\0\0\0\0\0\0\0\0\0\0\0\0\0\0\0\0\0\0\0\0\0\0\0\0\0\0\0\0\0\0\0\0\0\0\0\0\0\0\0\0\0\0\0\0\0\0\0\0\0\0\0\0\0\0\0\0\0\0\0\0\0\0\0\0\0\0\0\0\0\0\0\0\0\0\0\0\0\0\0\0\0\0\0\0\0\0\0\0\0\0\0\0\0\0\0\0\0\0\0\0\0\0\0\0\0\0\0\0\0\0\0\0\0\0\0\0\0\0\0\0\0\0\0\0\0\0\0\0\0\0\0\0\0\0\0\0\0\0\0\0\0\0\0\0\0\0\0\x01\0\0\0a\xff\xff\xff\xff\xff\xff\xffb\xff\xff\xff\xff\xff\xff\xffc\xff\xff\xff\xff\xff\xff\xffd\xff\xff\xff\xff\xff\xff\xffe\xff\xff\xff\xff\xff\xff\xff\0\0\0\0\x01\0\0\0\0\0\0\0\x01\0\0\0\0\0\0\0\0\0\0\0\0\0\0\0\x01\0\0\0\0\0\0\0\x02\0\0\0\0\0\0\0\0\0\0\0\0\0\0\0\x01\0\0\0\0\0\0\0\x03\0\0\0\0\0\0\0\0\0\0\0\0\0\0\0\x01\0\0\0\0\0\0\0\x04\0\0\0\0\0\0\0\0\0\0\0\0\0\0\0\x01\0\0\0\0\0\0\0\x05\0\0\0\0\0\0\0\0\0\0\0\0\0\0\0\x01\0\0\0\x01\0\0\0\x01\0\0\0\x01\0\0\0\x01\0\0\0\x94\xfe\xff\xff\x06\0\0\0<\xff\xff\xff\x05\0\0\0\0\0\0\0\0\0\0\0\0\0\0\0";

/// A map from a to g to the number 5: the leaves of a and of g, an inner node from 352 on with its children from 520 on,
/// and the root from 544 on.
pub const TWO_LEAVES: &[u8; 568] =
    b"\0\0\0\0a\xff\xff\xff\xff\xff\xff\xff\0\0\0\0\0\0\0\0\0\0\0\0\0\0\0\0\0\0\0\0\0\0\0\0\0\0\0\0\0\0\0\0\0\0\0\0\x01\0\0\0\0\0\0\0\x05\0\0\0\0\0\0\0\0\0\0\0\0\0\0\0\0\0\0\0\0\0\0\0\0\0\0\0\0\0\0\0\0\0\0\0\0\0\0\0\0\0\0\0\0\0\0\0\0\0\0\0\0\0\0\0\0\0\0\0\0\0\0\0\0\0\0\0\0\0\0\0\0\0\0\0\0\0\0\0\0\0\0\0\0\0\0\0\0\0\0\0\0\0\0\0\0\0\0\0\0\0\0\0\0\0\0\0\0\0\0\0\x01\0\0\0\0\0\0\0\0\0\0\0g\xff\xff\xff\xff\xff\xff\xff\0\0\0\0\0\0\0\0\0\0\0\0\0\0\0\0\0\0\0\0\0\0\0\0\0\0\0\0\0\0\0\0\0\0\0\0\x01\0\0\0\0\0\0\0\x05\0\0\0\0\0\0\0\0\0\0\0\0\0\0\0\0\0\0\0\0\0\0\0\0\0\0\0\0\0\0\0\0\0\0\0\0\0\0\0\0\0\0\0\0\0\0\0\0\0\0\0\0\0\0\0\0\0\0\0\0\0\0\0\0\0\0\0\0\0\0\0\0\0\0\0\0\0\0\0\0\0\0\0\0\0\0\0\0\0\0\0\0\0\0\0\0\0\0\0\0\0\0\0\0\0\0\0\0\0\0\0\x01\0\0\0\0\0\0\0\x01\0\0\0b\xff\xff\xff\xff\xff\xff\xffc\xff\xff\xff\xff\xff\xff\xffd\xff\xff\xff\xff\xff\xff\xffe\xff\xff\xff\xff\xff\xff\xfff\xff\xff\xff\xff\xff\xff\xff\0\0\0\0\x01\0\0\0\0\0\0\0\x05\0\0\0\0\0\0\0\0\0\0\0\0\0\0\0\x01\0\0\0\0\0\0\0\x05\0\0\0\0\0\0\0\0\0\0\0\0\0\0\0\x01\0\0\0\0\0\0\0\x05\0\0\0\0\0\0\0\0\0\0\0\0\0\0\0\x01\0\0\0\0\0\0\0\x05\0\0\0\0\0\0\0\0\0\0\0\0\0\0\0\x01\0\0\0\0\0\0\0\x05\0\0\0\0\0\0\0\0\0\0\0\0\0\0\0\xf8\xfd\xff\xff\x01\0\0\0\x01\0\0\0\x01\0\0\0\x01\0\0\0\x94\xfe\xff\xff\x06\0\0\0<\xff\xff\xff\x07\0\0\0\0\0\0\0\0\0\0\0\0\0\0\0";

/// The archive of the map from a to 1: the buckets of places 1 and 0, the controls from 64 on, and the root from 96 on.
pub const A_TO_ONE: &[u8; 120] =
    b"a\xff\xff\xff\xff\xff\xff\xff\x01\0\0\0\0\0\0\0\x01\0\0\0\0\0\0\0\0\0\0\0\0\0\0\0\0\0\0\0\0\0\0\0\0\0\0\0\0\0\0\0\0\0\0\0\0\0\0\0\0\0\0\0\0\0\0\0\xffU\xffU\xff\xff\xff\xff\xff\xff\xff\xff\xff\xff\xff\xff\xff\xff\xff\xff\xff\xff\xff\xff\xff\xff\xff\xff\xff\xff\xff\0\x07\0\0\0\xdc\xff\xff\xff\x01\0\0\0\x02\0\0\0\0\0\0\0\0\0\0\0";

/// A table of three places, in two of which the key is a, with 1 and 2.
pub const A_TWICE: &[u8; 152] =
    b"a\xff\xff\xff\xff\xff\xff\xff\x01\0\0\0\0\0\0\0\x01\0\0\0\0\0\0\0\0\0\0\0\0\0\0\0\0\0\0\0\0\0\0\0\0\0\0\0\0\0\0\0\0\0\0\0\0\0\0\0\0\0\0\0\0\0\0\0a\xff\xff\xff\xff\xff\xff\xff\x01\0\0\0\0\0\0\0\x02\0\0\0\0\0\0\0\0\0\0\0\0\0\0\0U\xffUU\xffU\xff\xff\xff\xff\xff\xff\xff\xff\xff\xff\xff\xff\xff\xff\xff\xff\xff\xff\xff\xff\xff\xff\xff\xff\xff\0\x07\0\0\0\xdc\xff\xff\xff\x02\0\0\0\x03\0\0\0\0\0\0\0\0\0\0\0";

/// A table of 32 places with the controls from 1024 on: the key a with 1 in the bucket of place 5, and in that of place 20,
/// whose control is empty.
pub const A_APART: &[u8; 1096] =
    b"\0\0\0\0\0\0\0\0\0\0\0\0\0\0\0\0\0\0\0\0\0\0\0\0\0\0\0\0\0\0\0\0\0\0\0\0\0\0\0\0\0\0\0\0\0\0\0\0\0\0\0\0\0\0\0\0\0\0\0\0\0\0\0\0\0\0\0\0\0\0\0\0\0\0\0\0\0\0\0\0\0\0\0\0\0\0\0\0\0\0\0\0\0\0\0\0\0\0\0\0\0\0\0\0\0\0\0\0\0\0\0\0\0\0\0\0\0\0\0\0\0\0\0\0\0\0\0\0\0\0\0\0\0\0\0\0\0\0\0\0\0\0\0\0\0\0\0\0\0\0\0\0\0\0\0\0\0\0\0\0\0\0\0\0\0\0\0\0\0\0\0\0\0\0\0\0\0\0\0\0\0\0\0\0\0\0\0\0\0\0\0\0\0\0\0\0\0\0\0\0\0\0\0\0\0\0\0\0\0\0\0\0\0\0\0\0\0\0\0\0\0\0\0\0\0\0\0\0\0\0\0\0\0\0\0\0\0\0\0\0\0\0\0\0\0\0\0\0\0\0\0\0\0\0\0\0\0\0\0\0\0\0\0\0\0\0\0\0\0\0\0\0\0\0\0\0\0\0\0\0\0\0\0\0\0\0\0\0\0\0\0\0\0\0\0\0\0\0\0\0\0\0\0\0\0\0\0\0\0\0\0\0\0\0\0\0\0\0\0\0\0\0\0\0\0\0\0\0\0\0\0\0\0\0\0\0\0\0\0\0\0\0\0\0\0\0\0\0\0\0\0\0a\xff\xff\xff\xff\xff\xff\xff\x01\0\0\0\0\0\0\0\x01\0\0\0\0\0\0\0\0\0\0\0\0\0\0\0\0\0\0\0\0\0\0\0\0\0\0\0\0\0\0\0\0\0\0\0\0\0\0\0\0\0\0\0\0\0\0\0\0\0\0\0\0\0\0\0\0\0\0\0\0\0\0\0\0\0\0\0\0\0\0\0\0\0\0\0\0\0\0\0\0\0\0\0\0\0\0\0\0\0\0\0\0\0\0\0\0\0\0\0\0\0\0\0\0\0\0\0\0\0\0\0\0\0\0\0\0\0\0\0\0\0\0\0\0\0\0\0\0\0\0\0\0\0\0\0\0\0\0\0\0\0\0\0\0\0\0\0\0\0\0\0\0\0\0\0\0\0\0\0\0\0\0\0\0\0\0\0\0\0\0\0\0\0\0\0\0\0\0\0\0\0\0\0\0\0\0\0\0\0\0\0\0\0\0\0\0\0\0\0\0\0\0\0\0\0\0\0\0\0\0\0\0\0\0\0\0\0\0\0\0\0\0\0\0\0\0\0\0\0\0\0\0\0\0\0\0\0\0\0\0\0\0\0\0\0\0\0\0\0\0\0\0\0\0\0\0\0\0\0\0\0\0\0\0\0\0\0\0\0\0\0\0\0\0\0\0\0\0\0\0\0\0\0\0\0\0\0\0\0\0\0\0\0\0\0\0\0\0\0\0\0\0\0\0\0\0\0\0\0\0\0\0\0\0\0\0\0\0\0\0\0\0\0\0\0\0\0\0\0\0\0\0\0\0\0\0\0\0\0\0\0\0\0\0\0\0\0\0\0\0\0\0\0\0\0\0\0\0\0\0\0\0\0\0\0\0\0\0\0\0\0\0\0\0\0\0\0\0\0\0\0\0\0\0\0\0\0\0\0\0\0\0\0\0\0\0\0\0\0\0\0\0\0\0\0\0\0\0\0\0\0\0\0\0\0\0\0\0\0\0\0\0\0\0\0\0\0\0\0\0\0\0\0\0\0\0\0\0\0\0\0\0\0\0\0\0\0\0\0\0\0\0\0\0\0\0\0\0\0\0\0\0\0a\xff\xff\xff\xff\xff\xff\xff\x01\0\0\0\0\0\0\0\x01\0\0\0\0\0\0\0\0\0\0\0\0\0\0\0\0\0\0\0\0\0\0\0\0\0\0\0\0\0\0\0\0\0\0\0\0\0\0\0\0\0\0\0\0\0\0\0\0\0\0\0\0\0\0\0\0\0\0\0\0\0\0\0\0\0\0\0\0\0\0\0\0\0\0\0\0\0\0\0\0\0\0\0\0\0\0\0\0\0\0\0\0\0\0\0\0\0\0\0\0\0\0\0\0\0\0\0\0\0\0\0\0\0\0\0\0\0\0\0\0\0\0\0\0\0\0\0\0\0\0\0\0\0\0\0\0\0\0\0\0\0\0\0\0\0\0\0\0\0\0\0\0\0\0\0\0\0\0\0\0\0\0\0\0\0\0\0\0\0\0\0\0\0\0\0\xff\xff\xff\xff\xffU\xff\xff\xff\xff\xff\xff\xff\xff\xff\xff\xff\xff\xff\xff\xff\xff\xff\xff\xff\xff\xff\xff\xff\xff\xff\xff\xff\xff\xff\xff\xffU\xff\xff\xff\xff\xff\xff\xff\xff\xff\0\x07\0\0\0\xcc\xff\xff\xff\x01\0\0\0 \0\0\0\0\0\0\0\0\0\0\0";

/// A kept map of three pairs, in two of which the key is a: the numbers of places 3 to 0, the controls from 16 on, the
/// entries from 48 on, and the root from 144 on.
pub const A_TWICE_KEPT: &[u8; 168] =
    b"\0\0\0\0\0\0\0\0\x02\0\0\0\x01\0\0\0U\x11\xffUU\x11\xffU\xff\xff\xff\xff\xff\xff\xff\xff\xff\xff\xff\xff\xff\xff\xff\xff\xff\xff\xff\xff\xff\xff\xff\0a\xff\xff\xff\xff\xff\xff\xff\x01\0\0\0\0\0\0\0\x01\0\0\0\0\0\0\0\0\0\0\0\0\0\0\0a\xff\xff\xff\xff\xff\xff\xff\x01\0\0\0\0\0\0\0\x02\0\0\0\0\0\0\0\0\0\0\0\0\0\0\0z\xff\xff\xff\xff\xff\xff\xff\x01\0\0\0\0\0\0\0\x03\0\0\0\0\0\0\0\0\0\0\0\0\0\0\0\x08\0\0\0|\xff\xff\xff\x03\0\0\0\x04\0\0\0\x90\xff\xff\xff\0\0\0\0";

/// An inner node with five keys of two letters, the number 0 under each and no children, up to the pointer to the last one.
const LEVEL: [u8; 188] =
    *b"\x01\0\0\00a\xff\xff\xff\xff\xff\xff0b\xff\xff\xff\xff\xff\xff0c\xff\xff\xff\xff\xff\xff0d\xff\xff\xff\xff\xff\xff0e\xff\xff\xff\xff\xff\xff\0\0\0\0\x01\0\0\0\0\0\0\0\0\0\0\0\0\0\0\0\0\0\0\0\0\0\0\0\x01\0\0\0\0\0\0\0\0\0\0\0\0\0\0\0\0\0\0\0\0\0\0\0\x01\0\0\0\0\0\0\0\0\0\0\0\0\0\0\0\0\0\0\0\0\0\0\0\x01\0\0\0\0\0\0\0\0\0\0\0\0\0\0\0\0\0\0\0\0\0\0\0\x01\0\0\0\0\0\0\0\0\0\0\0\0\0\0\0\0\0\0\0\0\0\0\0\x01\0\0\0\x01\0\0\0\x01\0\0\0\x01\0\0\0\x01\0\0\0";

/// Returns the map of five keys on each of at most 33 levels, of which each is after those of the level above it. The keys
/// are 0a to 0e at the root, and the last of 32 levels has Oa to Oe.
pub fn tall(alloc: Global, levels: u8) -> Result<Vec<u8>, AllocError> {
    let mut bytes = Vec::new(alloc);
    for above in (0..levels).rev() {
        let greater = if bytes.is_empty() {
            *b"\x01\0\0\0"
        } else {
            *b"\x84\xfe\xff\xff"
        };
        let mut node = LEVEL;
        let letter = above.saturating_add(b'0');
        node[4] = letter;
        node[12] = letter;
        node[20] = letter;
        node[28] = letter;
        node[36] = letter;
        bytes.extend_from_slice(&node)?;
        bytes.extend_from_slice(&greater)?;
    }
    let mut root = *b"\x06\0\0\0\x3c\xff\xff\xff\0\0\0\0\0\0\0\0\0\0\0\0\0\0\0\0";
    root[8] = levels.saturating_mul(5);
    bytes.extend_from_slice(&root)?;
    Ok(bytes)
}

/// The hashed map from a to the whole `1` and from b to the whole `2`, by whose places b comes first: the nodes of `2` and of
/// `1`, the table from 48 on, and the root from 176 on.
pub const WHOLES_BY_PLACE: &[u8; 200] =
    b"\x01\0\0\0\0\0\0\0\x02\0\0\0\0\0\0\0\0\0\0\0\0\0\0\0\x01\0\0\0\0\0\0\0\x01\0\0\0\0\0\0\0\0\0\0\0\0\0\0\0a\xff\xff\xff\xff\xff\xff\xff\x09\0\0\0\xdc\xff\xff\xff\0\0\0\0\0\0\0\0\0\0\0\0\0\0\0\0b\xff\xff\xff\xff\xff\xff\xff\x09\0\0\0\xa4\xff\xff\xff\0\0\0\0\0\0\0\0\0\0\0\0\0\0\0\0\0\0\0\0\0\0\0\0\0\0\0\0\0\0\0\0\0\0\0\0\0\0\0\0\0\0\0\0\0\0\0\0\xffSU\xffSU\xff\xff\xff\xff\xff\xff\xff\xff\xff\xff\xff\xff\xff\xff\xff\xff\xff\xff\xff\xff\xff\xff\xff\xff\xff\0\x07\0\0\0\xdc\xff\xff\xff\x02\0\0\0\x03\0\0\0\0\0\0\0\0\0\0\0";

/// The node of `int 1`.
const ONE: &[u8; 24] = b"\x01\0\0\0\0\0\0\0\x01\0\0\0\0\0\0\0\0\0\0\0\0\0\0\0";

/// An option of the node that ends where it begins, a whole of it, and the root that is a list of the two nodes before it.
const OPTION_OF_IT: &[u8; 24] = b"\x04\0\0\0\x01\0\0\0\xe0\xff\xff\xff\0\0\0\0\0\0\0\0\0\0\0\0";

const WHOLE_OF_IT: &[u8; 24] = b"\x09\0\0\0\xe4\xff\xff\xff\0\0\0\0\0\0\0\0\0\0\0\0\0\0\0\0";

const LIST_OF_TWO: &[u8; 24] = b"\x05\0\0\0\xcc\xff\xff\xff\x02\0\0\0\0\0\0\0\0\0\0\0\0\0\0\0";

/// A whole of the node that ends 24 bytes before it begins, and an option of it.
const WHOLE_AGAIN: &[u8; 24] = b"\x09\0\0\0\xcc\xff\xff\xff\0\0\0\0\0\0\0\0\0\0\0\0\0\0\0\0";

const OPTION_AGAIN: &[u8; 24] = b"\x04\0\0\0\x01\0\0\0\xc8\xff\xff\xff\0\0\0\0\0\0\0\0\0\0\0\0";

/// Returns `count` wholes, each of which but the first has the one before it, and at the root the last one.
pub fn chain(alloc: Global, count: usize) -> Result<Vec<u8>, AllocError> {
    let mut bytes = Vec::from_slice(alloc, ONE)?;
    for _ in 0..count {
        bytes.extend_from_slice(WHOLE_OF_IT)?;
    }
    Ok(bytes)
}

/// Returns `count` wholes, each of which but the first is a list that has the one before it twice, and such a list of the last
/// one at the root.
pub fn doubled(alloc: Global, count: usize) -> Result<Vec<u8>, AllocError> {
    let mut bytes = Vec::from_slice(alloc, ONE)?;
    for _ in 0..count {
        bytes.extend_from_slice(WHOLE_OF_IT)?;
        bytes.extend_from_slice(WHOLE_AGAIN)?;
        bytes.extend_from_slice(LIST_OF_TWO)?;
    }
    Ok(bytes)
}

/// Returns a list of a whole of 61 options, one in the other, and of `around` options, one in the other, that have it again.
/// `offset` is the low byte of the first element's offset.
pub fn whole_again_in_options(
    alloc: Global,
    around: usize,
    offset: u8,
) -> Result<Vec<u8>, AllocError> {
    let mut bytes = Vec::from_slice(alloc, ONE)?;
    for _ in 0..61 {
        bytes.extend_from_slice(OPTION_OF_IT)?;
    }
    bytes.extend_from_slice(WHOLE_OF_IT)?;
    for _ in 1..around {
        bytes.extend_from_slice(OPTION_OF_IT)?;
    }
    let mut first = *WHOLE_OF_IT;
    first[4] = offset;
    bytes.extend_from_slice(&first)?;
    bytes.extend_from_slice(OPTION_AGAIN)?;
    bytes.extend_from_slice(LIST_OF_TWO)?;
    Ok(bytes)
}
