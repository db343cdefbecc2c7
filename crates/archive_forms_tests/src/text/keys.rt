//! Tests of texts as keys.
use super::checked::checked;
use archive_forms_values::ArchivedString;
use archive_shape::{ArchivedKey, Ref};
use std::cmp::Ordering;

/// Returns whether a key is the text `query`, and the order of the key relative to it.
fn compared<'q, K: ArchivedKey<&'q str>>(key: &Ref<'_, K>, query: &'q str) -> (bool, Ordering)
    requires { K.is_key key.now.bytes.now key.now.pos }
{
    (K::same(key, &query), K::compare(key, &query))
}

#[test]
fn keys_inline(rt: HostRuntime) {
    let Ok(world) = checked(rt.alloc(), b"world\xff\xff\xff", 0) else {
        panic!(rt; "refused");
    };
    let rows = [
        ("world", true, Ordering::Equal),
        ("worl", false, Ordering::Greater),
        ("worlds", false, Ordering::Less),
        ("wos", false, Ordering::Less),
        ("World", false, Ordering::Greater),
    ];
    for (query, same, order) in rows {
        assert!(rt; compared(&world, query) == (same, order));
    }
}

#[test]
fn keys_out_of_line(rt: HostRuntime) {
    let bytes = b"hello world!........\x8c\0\0\0\xec\xff\xff\xff";
    let Ok(hello) = checked(rt.alloc(), bytes, 20) else {
        panic!(rt; "refused");
    };
    let rows = [
        ("hello world!", true, Ordering::Equal),
        ("hello", false, Ordering::Greater),
        ("hello world?", false, Ordering::Less),
        ("hello world!!", false, Ordering::Less),
        ("", false, Ordering::Greater),
    ];
    for (query, same, order) in rows {
        assert!(rt; compared(&hello, query) == (same, order));
    }
}
