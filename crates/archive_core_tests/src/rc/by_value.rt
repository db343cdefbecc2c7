//! Tests of counted pointers, which are compared and hashed as the laws say of what they lead to.
ghost use Rattle.std.specs.Prelude.{◌≡◌, ⊤};
ghost use Rattle.std.specs.List.{fold};
ghost use Rattle.std.specs.Ordering.{nat_cmp};
ghost use Rattle.std.specs.Cmp.Lexicographic.{slice_cmp};
ghost use Rattle.archive_shape_layout.specs.Value.{Value};
ghost use Rattle.archive_shape.specs.Key.{HeldAt};
ghost use Rattle.archive_forms_laws.specs.Orders.{text_hashed};
ghost use Rattle.archive_forms_laws.specs.Views.{text_of};
ghost use Rattle.archive_forms_values.specs.Parts.{HasValue};
ghost use Rattle.archive_forms_rc.specs.Compared.{counted_of, counted_equality, counted_order, counted_hashed};
ghost use Rattle.archive_core_tests.specs.Forms.{counted_number, counted_text};

use super::counted::root;
use archive_core::{
    ArchivedEq, ArchivedHash, ArchivedOrd, ArchivedRc, ArchivedRcStr, ArchivedU32, RcFlavor, Ref,
};
use archive_forms_rc::laws::{
    counted_are_equal_by_value, counted_are_hashed_by_value, counted_are_ordered_by_value,
    counted_keys_are_compared_as_texts,
};
use archive_shape::ArchivedKey;
use std::cmp::Ordering;
use std::hash::{DefaultHasher, Hash, Hasher};
use std::test::Fail;

type Number = ArchivedRc<ArchivedU32, RcFlavor>;

type Text = ArchivedRcStr<RcFlavor>;

/// Returns whether two counted numbers are equal and their order, which are those of the numbers.
fn compared(this: &Ref<'_, Number>, other: &Ref<'_, Number>) -> (bool, Ordering)
    requires this { HasValue counted_number (λ _. ⊤) this.now.bytes.now this.now.pos }
    requires other { HasValue counted_number (λ _. ⊤) other.now.bytes.now other.now.pos }
    ensures equal { (v w : Value)
        → HeldAt counted_number (λ _. ⊤) this.now.bytes.now this.now.pos v
        → HeldAt counted_number (λ _. ⊤) other.now.bytes.now other.now.pos w
        → result.0 ≡ counted_equality ⟦<ArchivedU32 as ArchivedEq>⟧.equal v w }
    ensures order { (v w : Value)
        → HeldAt counted_number (λ _. ⊤) this.now.bytes.now this.now.pos v
        → HeldAt counted_number (λ _. ⊤) other.now.bytes.now other.now.pos w
        → result.1 ≡ counted_order ⟦<ArchivedU32 as ArchivedOrd>⟧.order v w }
{
    counted_are_equal_by_value::<ArchivedU32, RcFlavor>();
    counted_are_ordered_by_value::<ArchivedU32, RcFlavor>();
    (Number::eq(this, other), Number::cmp(this, other))
}

/// Feeds a counted text to a hasher, as the text.
fn hash_text<H: Hasher>(this: &Ref<'_, Text>, state: &mut H)
    requires { HasValue counted_text (λ _. ⊤) this.now.bytes.now this.now.pos }
    ensures { (v : Value)
        → HeldAt counted_text (λ _. ⊤) this.now.bytes.now this.now.pos v
        → state.new ≡ fold H.write state.old (counted_hashed text_hashed v) }
{
    counted_are_hashed_by_value::<ArchivedU32, RcFlavor>();
    Text::hash(this, state);
}

/// Returns the order of a counted text relative to another text, by their bytes.
fn key_compared(key: &Ref<'_, Text>, query: &str) -> Ordering
    requires { HasValue counted_text (λ _. ⊤) key.now.bytes.now key.now.pos }
    ensures { (v : Value)
        → HeldAt counted_text (λ _. ⊤) key.now.bytes.now key.now.pos v
        → result ≡ slice_cmp nat_cmp (text_of (counted_of v)) query.now }
{
    counted_keys_are_compared_as_texts::<RcFlavor>();
    Text::compare(key, &query)
}

#[test]
fn numbers_are_compared_by_value(rt: HostRuntime) -> Result<(), Fail> {
    let alloc = rt.alloc();
    let five = root::<Number>(alloc, b"\x05\0\0\0\xfc\xff\xff\xff")?;
    let six = root::<Number>(alloc, b"....\x06\0\0\0\xfc\xff\xff\xff")?;
    assert!(rt; compared(&five, &six) == (false, Ordering::Less));
    let also_five = root::<Number>(alloc, b"....\x05\0\0\0\xfc\xff\xff\xff")?;
    assert!(rt; compared(&five, &also_five) == (true, Ordering::Equal));
    Ok(())
}

#[test]
fn texts_are_hashed_and_compared_by_bytes(rt: HostRuntime) -> Result<(), Fail> {
    let key = root::<Text>(rt.alloc(), b"ab..\xfc\xff\xff\xff\x02\0\0\0")?;
    let (mut state, mut native) = (DefaultHasher::new(), DefaultHasher::new());
    hash_text(&key, &mut state);
    Hash::hash("ab", &mut native);
    assert!(rt; state.finish() == native.finish());
    let rows = [
        ("ab", Ordering::Equal),
        ("b", Ordering::Less),
        ("", Ordering::Greater),
    ];
    for (query, order) in rows {
        assert!(rt; key_compared(&key, query) == order);
    }
    Ok(())
}
