//! Archives of documents, byte by byte, as saving writes them.

/// The archive of the map from coffee to 300 and from tea to 250: a leaf from 0 on, and the root from 176 on.
pub const COFFEE_AND_TEA: &[u8; 200] =
    b"\0\0\0\0coffee\xff\xfftea\xff\xff\xff\xff\xff\0\0\0\0\0\0\0\0\0\0\0\0\0\0\0\0\0\0\0\0\0\0\0\0\0\0\0\0\x01\0\0\0\0\0\0\0,\x01\0\0\0\0\0\0\0\0\0\0\0\0\0\0\x01\0\0\0\0\0\0\0\xfa\0\0\0\0\0\0\0\0\0\0\0\0\0\0\0\0\0\0\0\0\0\0\0\0\0\0\0\0\0\0\0\0\0\0\0\0\0\0\0\0\0\0\0\0\0\0\0\0\0\0\0\0\0\0\0\0\0\0\0\0\0\0\0\0\0\0\0\0\0\0\0\0\0\0\0\0\0\0\0\0\0\0\0\0\0\0\0\x02\0\0\0\0\0\0\0\x06\0\0\0L\xff\xff\xff\x02\0\0\0\0\0\0\0\0\0\0\0\0\0\0\0";

/// The archive of the map from a to f to the numbers from 1 to 6: a leaf of the first entry from 0 on, an inner node of
/// the others from 176 on, and the root from 368 on.
pub const SIX: &[u8; 392] =
    b"\0\0\0\0a\xff\xff\xff\xff\xff\xff\xff\0\0\0\0\0\0\0\0\0\0\0\0\0\0\0\0\0\0\0\0\0\0\0\0\0\0\0\0\0\0\0\0\0\0\0\0\x01\0\0\0\0\0\0\0\x01\0\0\0\0\0\0\0\0\0\0\0\0\0\0\0\0\0\0\0\0\0\0\0\0\0\0\0\0\0\0\0\0\0\0\0\0\0\0\0\0\0\0\0\0\0\0\0\0\0\0\0\0\0\0\0\0\0\0\0\0\0\0\0\0\0\0\0\0\0\0\0\0\0\0\0\0\0\0\0\0\0\0\0\0\0\0\0\0\0\0\0\0\0\0\0\0\0\0\0\0\0\0\0\0\0\0\0\0\0\0\0\x01\0\0\0\0\0\0\0\x01\0\0\0b\xff\xff\xff\xff\xff\xff\xffc\xff\xff\xff\xff\xff\xff\xffd\xff\xff\xff\xff\xff\xff\xffe\xff\xff\xff\xff\xff\xff\xfff\xff\xff\xff\xff\xff\xff\xff\0\0\0\0\x01\0\0\0\0\0\0\0\x02\0\0\0\0\0\0\0\0\0\0\0\0\0\0\0\x01\0\0\0\0\0\0\0\x03\0\0\0\0\0\0\0\0\0\0\0\0\0\0\0\x01\0\0\0\0\0\0\0\x04\0\0\0\0\0\0\0\0\0\0\0\0\0\0\0\x01\0\0\0\0\0\0\0\x05\0\0\0\0\0\0\0\0\0\0\0\0\0\0\0\x01\0\0\0\0\0\0\0\x06\0\0\0\0\0\0\0\0\0\0\0\0\0\0\0\xa8\xfe\xff\xff\x01\0\0\0\x01\0\0\0\x01\0\0\0\x01\0\0\0\x01\0\0\0\x06\0\0\0<\xff\xff\xff\x06\0\0\0\0\0\0\0\0\0\0\0\0\0\0\0";

/// The archive of the list of the shared text `hello world!` twice: its bytes, and the elements from 16 on.
pub const TWO_SHARED: &[u8; 88] =
    b"hello world!\0\0\0\0\x03\0\0\0\xec\xff\xff\xff\x0c\0\0\0\0\0\0\0\0\0\0\0\0\0\0\0\x03\0\0\0\xd4\xff\xff\xff\x0c\0\0\0\0\0\0\0\0\0\0\0\0\0\0\0\x05\0\0\0\xcc\xff\xff\xff\x02\0\0\0\0\0\0\0\0\0\0\0\0\0\0\0";

/// The archive of the list of the whole `5` twice: its node, and the elements from 24 on.
pub const TWO_WHOLES: &[u8; 96] =
    b"\x01\0\0\0\0\0\0\0\x05\0\0\0\0\0\0\0\0\0\0\0\0\0\0\0\x09\0\0\0\xe4\xff\xff\xff\0\0\0\0\0\0\0\0\0\0\0\0\0\0\0\0\x09\0\0\0\xcc\xff\xff\xff\0\0\0\0\0\0\0\0\0\0\0\0\0\0\0\0\x05\0\0\0\xcc\xff\xff\xff\x02\0\0\0\0\0\0\0\0\0\0\0\0\0\0\0";

/// The archive of a list of two wholes, one of them in two places: the node of `1`, the elements of the list that has it twice
/// from 24 on, that list from 72 on, the elements from 96 on, and the root from 168 on.
pub const WHOLE_IN_WHOLE: &[u8; 192] =
    b"\x01\0\0\0\0\0\0\0\x01\0\0\0\0\0\0\0\0\0\0\0\0\0\0\0\x09\0\0\0\xe4\xff\xff\xff\0\0\0\0\0\0\0\0\0\0\0\0\0\0\0\0\x09\0\0\0\xcc\xff\xff\xff\0\0\0\0\0\0\0\0\0\0\0\0\0\0\0\0\x05\0\0\0\xcc\xff\xff\xff\x02\0\0\0\0\0\0\0\0\0\0\0\0\0\0\0\x09\0\0\0\xe4\xff\xff\xff\0\0\0\0\0\0\0\0\0\0\0\0\0\0\0\0\x09\0\0\0\x84\xff\xff\xff\0\0\0\0\0\0\0\0\0\0\0\0\0\0\0\0\x09\0\0\0\xb4\xff\xff\xff\0\0\0\0\0\0\0\0\0\0\0\0\0\0\0\0\x05\0\0\0\xb4\xff\xff\xff\x03\0\0\0\0\0\0\0\0\0\0\0\0\0\0\0";

/// The archive of a list of an ordered, a hashed and a kept map, in each of which the whole `5` is under a, beside a number
/// under b: its node, the leaf from 24 on, the hashed map's table from 200 on, the kept map's table from 328 on and its entries
/// from 376 on, the elements from 440 on, and the root from 512 on.
pub const WHOLE_IN_MAPS: &[u8; 536] =
    b"\x01\0\0\0\0\0\0\0\x05\0\0\0\0\0\0\0\0\0\0\0\0\0\0\0\0\0\0\0a\xff\xff\xff\xff\xff\xff\xffb\xff\xff\xff\xff\xff\xff\xff\0\0\0\0\0\0\0\0\0\0\0\0\0\0\0\0\0\0\0\0\0\0\0\0\0\0\0\0\x09\0\0\0\xb4\xff\xff\xff\0\0\0\0\0\0\0\0\0\0\0\0\0\0\0\0\x01\0\0\0\0\0\0\0\x06\0\0\0\0\0\0\0\0\0\0\0\0\0\0\0\0\0\0\0\0\0\0\0\0\0\0\0\0\0\0\0\0\0\0\0\0\0\0\0\0\0\0\0\0\0\0\0\0\0\0\0\0\0\0\0\0\0\0\0\0\0\0\0\0\0\0\0\0\0\0\0\0\0\0\0\0\0\0\0\0\0\0\0\0\0\0\0\x02\0\0\0\0\0\0\0a\xff\xff\xff\xff\xff\xff\xff\x09\0\0\0,\xff\xff\xff\0\0\0\0\0\0\0\0\0\0\0\0\0\0\0\0b\xff\xff\xff\xff\xff\xff\xff\x01\0\0\0\0\0\0\0\x07\0\0\0\0\0\0\0\0\0\0\0\0\0\0\0\0\0\0\0\0\0\0\0\0\0\0\0\0\0\0\0\0\0\0\0\0\0\0\0\0\0\0\0\0\0\0\0\xffSU\xffSU\xff\xff\xff\xff\xff\xff\xff\xff\xff\xff\xff\xff\xff\xff\xff\xff\xff\xff\xff\xff\xff\xff\xff\xff\xff\0\x01\0\0\0\0\0\0\0\0\0\0\0\xffSU\xffSU\xff\xff\xff\xff\xff\xff\xff\xff\xff\xff\xff\xff\xff\xff\xff\xff\xff\xff\xff\xff\xff\xff\xff\xff\xff\0\0\0\0\0b\xff\xff\xff\xff\xff\xff\xff\x01\0\0\0\0\0\0\0\x08\0\0\0\0\0\0\0\0\0\0\0\0\0\0\0a\xff\xff\xff\xff\xff\xff\xff\x09\0\0\0\\\xfe\xff\xff\0\0\0\0\0\0\0\0\0\0\0\0\0\0\0\0\x06\0\0\0\\\xfe\xff\xff\x02\0\0\0\0\0\0\0\0\0\0\0\0\0\0\0\x07\0\0\0T\xff\xff\xff\x02\0\0\0\x03\0\0\0\0\0\0\0\0\0\0\0\x08\0\0\0h\xff\xff\xff\x02\0\0\0\x03\0\0\0\x80\xff\xff\xff\0\0\0\0\x05\0\0\0\xb4\xff\xff\xff\x03\0\0\0\0\0\0\0\0\0\0\0\0\0\0\0";

/// The archive of the map from a to world: the buckets of places 1 and 0, the controls from 64 on, and the root from 96 on.
pub const A_TO_WORLD: &[u8; 120] =
    b"a\xff\xff\xff\xff\xff\xff\xff\x02\0\0\0world\xff\xff\xff\0\0\0\0\0\0\0\0\0\0\0\0\0\0\0\0\0\0\0\0\0\0\0\0\0\0\0\0\0\0\0\0\0\0\0\0\0\0\0\0\0\0\0\0\xffU\xffU\xff\xff\xff\xff\xff\xff\xff\xff\xff\xff\xff\xff\xff\xff\xff\xff\xff\xff\xff\xff\xff\xff\xff\xff\xff\xff\xff\0\x07\0\0\0\xdc\xff\xff\xff\x01\0\0\0\x02\0\0\0\0\0\0\0\0\0\0\0";

/// The archive of the ordered map from eu to the hashed map from vat to the list of 7 and 19: the elements, the table from
/// 48 on with its controls from 112 on, the leaf from 144 on, and the root from 320 on.
pub const VAT_IN_EU: &[u8; 344] =
    b"\x01\0\0\0\0\0\0\0\x07\0\0\0\0\0\0\0\0\0\0\0\0\0\0\0\x01\0\0\0\0\0\0\0\x13\0\0\0\0\0\0\0\0\0\0\0\0\0\0\0\0\0\0\0\0\0\0\0\0\0\0\0\0\0\0\0\0\0\0\0\0\0\0\0\0\0\0\0\0\0\0\0vat\xff\xff\xff\xff\xff\x05\0\0\0\xa4\xff\xff\xff\x02\0\0\0\0\0\0\0\0\0\0\0\0\0\0\0\x1c\xff\x1c\xff\xff\xff\xff\xff\xff\xff\xff\xff\xff\xff\xff\xff\xff\xff\xff\xff\xff\xff\xff\xff\xff\xff\xff\xff\xff\xff\xff\0\0\0\0\0eu\xff\xff\xff\xff\xff\xff\0\0\0\0\0\0\0\0\0\0\0\0\0\0\0\0\0\0\0\0\0\0\0\0\0\0\0\0\0\0\0\0\0\0\0\0\x07\0\0\0\xac\xff\xff\xff\x01\0\0\0\x02\0\0\0\0\0\0\0\0\0\0\0\0\0\0\0\0\0\0\0\0\0\0\0\0\0\0\0\0\0\0\0\0\0\0\0\0\0\0\0\0\0\0\0\0\0\0\0\0\0\0\0\0\0\0\0\0\0\0\0\0\0\0\0\0\0\0\0\0\0\0\0\0\0\0\0\0\0\0\0\0\0\0\0\0\0\0\0\0\0\0\0\0\0\0\0\0\0\0\0\0\0\0\0\0\0\0\0\x01\0\0\0\0\0\0\0\x06\0\0\0L\xff\xff\xff\x01\0\0\0\0\0\0\0\0\0\0\0\0\0\0\0";

/// The archive of the kept map from z to 1 and from a to 2: the numbers of places 2, 1 and 0, the controls from 12 on, the
/// entries from 48 on, and the root from 112 on.
pub const Z_AND_A: &[u8; 136] =
    b"\x01\0\0\0\0\0\0\0\0\0\0\0\xff\x11U\xff\x11U\xff\xff\xff\xff\xff\xff\xff\xff\xff\xff\xff\xff\xff\xff\xff\xff\xff\xff\xff\xff\xff\xff\xff\xff\xff\0\0\0\0\0z\xff\xff\xff\xff\xff\xff\xff\x01\0\0\0\0\0\0\0\x01\0\0\0\0\0\0\0\0\0\0\0\0\0\0\0a\xff\xff\xff\xff\xff\xff\xff\x01\0\0\0\0\0\0\0\x02\0\0\0\0\0\0\0\0\0\0\0\0\0\0\0\x08\0\0\0\x98\xff\xff\xff\x02\0\0\0\x03\0\0\0\xb0\xff\xff\xff\0\0\0\0";
