//! Tests of printed maps and sets.
ghost use Rattle.std.specs.Prelude.{[]};

use crate::archives::{EMPTY, FOUR_TEXTS, Numbers, SIX_PAIRS, Texts, root_of};
use crate::sets::FOUR;
use archive_btree_maps::ArchivedBTreeSet;
use archive_core_validation::HighValidator;
use archive_forms_comparing::ArchivedDebug;
use archive_forms_values::ArchivedString;
use archive_shape::{ArchivedU32, CheckBytes};
use std::alloc::Global;
use std::fmt::Formatter;

/// The bytes of the set of the texts a and b: a leaf with room for five texts of two words, and the set.
const TWO_TEXTS: &[u8; 56] =
    b"\0\0\0\0a\xff\xff\xff\xff\xff\xff\xffb\xff\xff\xff\xff\xff\xff\xff\0\0\0\0\0\0\0\0\0\0\0\0\0\0\0\0\0\0\0\0\0\0\0\0\x02\0\0\0\xd0\xff\xff\xff\x02\0\0\0";

/// The archived set of numbers.
type Keys = ArchivedBTreeSet<ArchivedU32, 5>;

/// The archived set of texts.
type TextKeys = ArchivedBTreeSet<ArchivedString, 5>;

/// Checks whether a map or a set is printed as a text.
fn prints<T: ArchivedDebug + CheckBytes<HighValidator>>(
    alloc: Global,
    bytes: &[u8],
    expected: &str,
) -> bool
    requires { T.knows [] }
{
    let Some(root) = root_of::<T>(alloc, bytes) else {
        return false;
    };
    let mut f = Formatter::new(String::new(alloc));
    T::fmt(&root, &mut f).is_ok() && f.into_inner().as_str() == expected
}

#[test]
fn maps_are_printed_as_those_of_std(rt: HostRuntime) {
    let alloc = rt.alloc();
    let six = "{1: 11, 2: 12, 3: 13, 4: 14, 5: 15, 6: 16}";
    let four = "{\"bar\": 20, \"bat\": 80, \"baz\": 40, \"foo\": 10}";
    assert!(rt;
        prints::<Numbers>(alloc, EMPTY, "{}")
            && prints::<Numbers>(alloc, SIX_PAIRS, six)
            && prints::<Texts>(alloc, FOUR_TEXTS, four)
    );
}

#[test]
fn sets_are_printed_as_those_of_std(rt: HostRuntime) {
    let alloc = rt.alloc();
    assert!(rt;
        prints::<Keys>(alloc, EMPTY, "{}")
            && prints::<Keys>(alloc, FOUR, "{10, 20, 40, 80}")
            && prints::<TextKeys>(alloc, TWO_TEXTS, "{\"a\", \"b\"}")
    );
}
