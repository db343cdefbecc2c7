//! Tests of how counted pointers are compared, hashed and printed.
ghost use Rattle.std.specs.Prelude.{IfOk, []};
ghost use Rattle.archive_forms_values.specs.Parts.{HasValue};

use archive_core::{
    ArchivedDebug, ArchivedHash, ArchivedOrd, ArchivedRc, ArchivedRcSlice, ArchivedRcStr,
    ArchivedRcWeak, CheckBytes, Error, HighValidator, RcFlavor, Ref, access,
};
use std::alloc::Global;
use std::cmp::Ordering;
use std::fmt::Formatter;
use std::hash::{DefaultHasher, Hash, Hasher};
use std::test::Fail;

/// Returns the value at the root.
pub(crate) fn root<T: CheckBytes<HighValidator>>(
    alloc: Global,
    bytes: &[u8],
) -> Result<Ref<'_, T>, Error>
    requires { T.knows [] }
    ensures { IfOk result (λ r. HasValue T.shape T.knows r.bytes.now r.pos) }
{
    match access::<T>(alloc, bytes) {
        Ok(root) => Ok(root),
        Err(refusal) => Err(refusal),
    }
}

fn hash_of<T: ArchivedHash>(this: &Ref<'_, T>) -> u64
    requires { HasValue T.shape T.knows this.now.bytes.now this.now.pos }
{
    let mut state = DefaultHasher::new();
    T::hash(this, &mut state);
    state.finish()
}

/// Returns the order of the value at the root of the first bytes relative to that of the second, or `None` if equality or
/// the hashes disagree with it.
fn roots_compared<T: CheckBytes<HighValidator> + ArchivedOrd + ArchivedHash>(
    alloc: Global,
    this: &[u8],
    other: &[u8],
) -> Result<Option<Ordering>, Error>
    requires { T.knows [] }
{
    let this = root::<T>(alloc, this)?;
    let other = root::<T>(alloc, other)?;
    let order = T::cmp(&this, &other);
    let is_equal = T::eq(&this, &other);
    if is_equal == order.is_eq() && is_equal == (hash_of(&this) == hash_of(&other)) {
        Ok(Some(order))
    } else {
        Ok(None)
    }
}

/// Checks whether the value at the root is printed as `text`.
fn prints<T: CheckBytes<HighValidator> + ArchivedDebug>(
    alloc: Global,
    bytes: &[u8],
    text: &str,
) -> Result<bool, Error>
    requires { T.knows [] }
{
    let this = root::<T>(alloc, bytes)?;
    let mut f = Formatter::new(String::new(alloc));
    Ok(T::fmt(&this, &mut f).is_ok() && f.into_inner().as_str() == text)
}

#[test]
fn pointers_are_compared_as_what_they_lead_to(rt: HostRuntime) {
    type Number = ArchivedRc<u8, RcFlavor>;
    type Bytes = ArchivedRcSlice<u8, RcFlavor>;
    type Text = ArchivedRcStr<RcFlavor>;
    let alloc = rt.alloc();
    let low = b"\x05...\xfc\xff\xff\xff";
    let high = b"....\x05...\xfc\xff\xff\xff";
    let more = b"\x06...\xfc\xff\xff\xff";
    assert!(rt;
        roots_compared::<Number>(alloc, low, high) == Ok(Some(Ordering::Equal))
            && roots_compared::<Number>(alloc, high, more) == Ok(Some(Ordering::Less))
    );
    let low = b"\x01\x02..\xfc\xff\xff\xff\x02\0\0\0";
    let high = b"....\x01\x02..\xfc\xff\xff\xff\x02\0\0\0";
    let short = b"\x01...\xfc\xff\xff\xff\x01\0\0\0";
    assert!(rt;
        roots_compared::<Bytes>(alloc, low, high) == Ok(Some(Ordering::Equal))
            && roots_compared::<Bytes>(alloc, low, short) == Ok(Some(Ordering::Greater))
    );
    let low = b"ab..\xfc\xff\xff\xff\x02\0\0\0";
    let high = b"....ab..\xfc\xff\xff\xff\x02\0\0\0";
    let more = b"ac..\xfc\xff\xff\xff\x02\0\0\0";
    assert!(rt;
        roots_compared::<Text>(alloc, low, high) == Ok(Some(Ordering::Equal))
            && roots_compared::<Text>(alloc, high, more) == Ok(Some(Ordering::Less))
    );
}

#[test]
fn pointers_are_hashed_as_native_ones(rt: HostRuntime) -> Result<(), Fail> {
    let alloc = rt.alloc();
    let number = root::<ArchivedRc<u8, RcFlavor>>(alloc, b"\x05...\xfc\xff\xff\xff")?;
    let mut state = DefaultHasher::new();
    Hash::hash(&5u8, &mut state);
    assert!(rt; hash_of(&number) == state.finish());
    let text = root::<ArchivedRcStr<RcFlavor>>(alloc, b"ab..\xfc\xff\xff\xff\x02\0\0\0")?;
    let mut state = DefaultHasher::new();
    Hash::hash("ab", &mut state);
    assert!(rt; hash_of(&text) == state.finish());
    Ok(())
}

#[test]
fn pointers_are_printed_as_what_they_lead_to_and_weak_ones_without_it(rt: HostRuntime) {
    type Number = ArchivedRc<u8, RcFlavor>;
    type Bytes = ArchivedRcSlice<u8, RcFlavor>;
    type Text = ArchivedRcStr<RcFlavor>;
    type Weak = ArchivedRcWeak<u8, RcFlavor>;
    let alloc = rt.alloc();
    let two = b"\x01\x02..\xfc\xff\xff\xff\x02\0\0\0";
    let text = b"a\"b.\xfc\xff\xff\xff\x03\0\0\0";
    let something = b"\x05...\x01...\xf8\xff\xff\xff";
    assert!(rt;
        prints::<Number>(alloc, b"\x05...\xfc\xff\xff\xff", "5") == Ok(true)
            && prints::<Bytes>(alloc, two, "[1, 2]") == Ok(true)
            && prints::<Text>(alloc, text, "\"a\\\"b\"") == Ok(true)
            && prints::<Weak>(alloc, &[0; 8], "(Weak)") == Ok(true)
            && prints::<Weak>(alloc, something, "(Weak)") == Ok(true)
    );
}
