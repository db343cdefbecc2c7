//! Tests of numbers and chars as keys.
ghost use Rattle.std.specs.Prelude.{◌≡◌, ◌+◌, ◌≤◌, length};
ghost use Rattle.std.specs.Ordering.{nat_cmp};
ghost use Rattle.std.specs.Int.{w32, from_le_bytes};
ghost use Rattle.archive_shape_layout.specs.Bytes.{window};

use archive_shape::{ArchivedChar, ArchivedI32, ArchivedKey, ArchivedU32, Ref};
use std::cmp::Ordering;

// A caller that compares a key knows how the number there compares with the query.
fn compare_number(bytes: &[u8], pos: usize, query: u32) -> Ordering
    requires { pos + 4 ≤ length bytes.now }
    ensures { result ≡ nat_cmp (from_le_bytes w32 (window bytes.now pos 4)) query }
{
    ArchivedU32::compare(&Ref::new(bytes, pos), &query)
}

#[test]
fn number_keys(rt: HostRuntime) {
    let bytes = [9, 0x2c, 1, 0, 0];
    let rows = [
        (299, false, Ordering::Greater),
        (300, true, Ordering::Equal),
        (301, false, Ordering::Less),
    ];
    let key = Ref::<ArchivedU32>::new(&bytes, 1);
    for (query, same, order) in rows {
        let answers = (
            ArchivedU32::same(&key, &query),
            compare_number(&bytes, 1, query),
        );
        assert!(rt; answers == (same, order));
    }
}

#[test]
#[tactic(auto, unfolding(archive_shape_layout::specs::Content::is_scalar, archive_shape_layout::specs::Bytes::word_at))]
fn signed_and_char_keys(rt: HostRuntime) {
    let signed = Ref::<ArchivedI32>::new(&[0xff; 4], 0);
    let key = Ref::<ArchivedChar>::new(&[0x6b, 0, 0, 0], 0);
    assert!(rt;
        ArchivedI32::same(&signed, &-1)
            && ArchivedI32::compare(&signed, &0) == Ordering::Less
            && ArchivedChar::same(&key, &'k')
            && !ArchivedChar::same(&key, &'K')
            && ArchivedChar::compare(&key, &'z') == Ordering::Less
    );
}
