//! Tests of a form with parts, which is compared and hashed as the laws say of each part.
ghost use Rattle.std.specs.Prelude.{◌≡◌, IsTrue};
ghost use Rattle.std.specs.Ordering.{ordering_reverse};
ghost use Rattle.archive_forms_values.specs.Parts.{HasValue};
ghost use Rattle.archive_forms_comparing.specs.Calls.Comparing.{Compares, Hashes};
ghost use Rattle.archive_forms_tests.specs.Labelled.{labelled_shape, KnowsLabelled, labelled_equality, labelled_order, labelled_hashed};

use crate::reading::checked::checked;
use archive_forms::laws::{
    equal_values_are_hashed_alike, equalities_are_equivalences, orders_agree, orders_are_total,
};
use archive_forms_comparing::laws::{
    forms_are_equal_by_parts, forms_are_hashed_by_parts, forms_are_ordered_by_parts,
    leaves_are_equal_by_value, leaves_are_hashed_by_value, leaves_are_ordered_by_value,
    texts_are_compared_by_bytes, tuples_are_equal_by_fields, tuples_are_hashed_by_fields,
    tuples_are_ordered_by_fields,
};
use archive_forms_comparing::{ArchivedEq, ArchivedHash, ArchivedOrd, ComparedNative};
use archive_forms_values::{ArchivedOption, ArchivedString, ArchivedTuple2};
use archive_shape::{ArchivedU32, Ref};
use std::alloc::Global;
use std::cmp::Ordering;
use std::hash::{DefaultHasher, Hasher};

/// A number beside a text, if there is one.
type Labelled = ArchivedOption<ArchivedTuple2<ArchivedU32, ArchivedString>>;

fn labelled_are_equal_by_parts()
    ensures { ⟦<Labelled as ArchivedEq>⟧.equal ≡ labelled_equality }
{
    leaves_are_equal_by_value::<u32, ()>();
    texts_are_compared_by_bytes();
    tuples_are_equal_by_fields::<ArchivedU32, ArchivedString, (), ()>();
    forms_are_equal_by_parts::<ArchivedTuple2<ArchivedU32, ArchivedString>, (), 0>();
}

fn labelled_are_ordered_by_parts()
    ensures { ⟦<Labelled as ArchivedOrd>⟧.order ≡ labelled_order }
{
    leaves_are_ordered_by_value::<u32, ()>();
    texts_are_compared_by_bytes();
    tuples_are_ordered_by_fields::<ArchivedU32, ArchivedString, (), ()>();
    forms_are_ordered_by_parts::<ArchivedTuple2<ArchivedU32, ArchivedString>, (), 0>();
}

fn labelled_are_hashed_by_parts()
    ensures { ⟦<Labelled as ArchivedHash>⟧.hashed ≡ labelled_hashed ⟦<u32 as ComparedNative>⟧.hashed }
{
    leaves_are_hashed_by_value::<u32, ()>();
    texts_are_compared_by_bytes();
    tuples_are_hashed_by_fields::<ArchivedU32, ArchivedString, (), ()>();
    forms_are_hashed_by_parts::<ArchivedTuple2<ArchivedU32, ArchivedString>, (), 0>();
}

/// Returns whether two values are equal, as their numbers and texts are, and so the other way round.
fn equal_both_ways(this: &Ref<'_, Labelled>, other: &Ref<'_, Labelled>) -> (bool, bool)
    requires this { HasValue labelled_shape KnowsLabelled this.now.bytes.now this.now.pos }
    requires other { HasValue labelled_shape KnowsLabelled other.now.bytes.now other.now.pos }
    ensures equal { Compares labelled_shape KnowsLabelled this.now other.now labelled_equality result.0 }
    ensures turned { result.1 ≡ result.0 }
{
    labelled_are_equal_by_parts();
    equalities_are_equivalences();
    (Labelled::eq(this, other), Labelled::eq(other, this))
}

/// Returns the order of two values, by their numbers and then their texts, and that the other way round.
fn ordered_both_ways(this: &Ref<'_, Labelled>, other: &Ref<'_, Labelled>) -> (Ordering, Ordering)
    requires this { HasValue labelled_shape KnowsLabelled this.now.bytes.now this.now.pos }
    requires other { HasValue labelled_shape KnowsLabelled other.now.bytes.now other.now.pos }
    ensures order { Compares labelled_shape KnowsLabelled this.now other.now labelled_order result.0 }
    ensures turned { result.1 ≡ ordering_reverse result.0 }
{
    labelled_are_ordered_by_parts();
    orders_are_total();
    (Labelled::cmp(this, other), Labelled::cmp(other, this))
}

/// Returns whether the order of two values is `Equal`, which is so exactly where they are equal.
fn are_in_one_place(this: &Ref<'_, Labelled>, other: &Ref<'_, Labelled>) -> bool
    requires this { HasValue labelled_shape KnowsLabelled this.now.bytes.now this.now.pos }
    requires other { HasValue labelled_shape KnowsLabelled other.now.bytes.now other.now.pos }
    ensures { Compares labelled_shape KnowsLabelled this.now other.now labelled_equality result }
{
    labelled_are_ordered_by_parts();
    orders_agree();
    Labelled::cmp(this, other).is_eq()
}

/// Feeds each value to a hasher, and returns whether they are equal. Where they are, equal hashers stay equal.
fn hashed_alike<H: Hasher>(
    this: &Ref<'_, Labelled>,
    other: &Ref<'_, Labelled>,
    first: &mut H,
    second: &mut H,
) -> bool
    requires this { HasValue labelled_shape KnowsLabelled this.now.bytes.now this.now.pos }
    requires other { HasValue labelled_shape KnowsLabelled other.now.bytes.now other.now.pos }
    ensures hashed { Hashes labelled_shape KnowsLabelled this.now H.write
        (labelled_hashed ⟦<u32 as ComparedNative>⟧.hashed) first.old first.new }
    ensures alike { first.old ≡ second.old → IsTrue result → first.new ≡ second.new }
{
    labelled_are_equal_by_parts();
    labelled_are_hashed_by_parts();
    equal_values_are_hashed_alike();
    Labelled::hash(this, first);
    Labelled::hash(other, second);
    Labelled::eq(this, other)
}

/// Checks whether two values compare as `order` says, and are equal and hashed alike where it is `Equal`.
fn are_ordered(alloc: Global, this: &[u8], other: &[u8], order: Ordering) -> bool {
    let Ok(this) = checked::<Labelled>(alloc, this, 0) else {
        return false;
    };
    let Ok(other) = checked::<Labelled>(alloc, other, 0) else {
        return false;
    };
    let same = order.is_eq();
    let (mut first, mut second) = (DefaultHasher::new(), DefaultHasher::new());
    equal_both_ways(&this, &other) == (same, same)
        && ordered_both_ways(&this, &other) == (order, order.reverse())
        && are_in_one_place(&this, &other) == same
        && hashed_alike(&this, &other, &mut first, &mut second) == same
        && (first.finish() == second.finish()) == same
}

#[test]
fn numbers_beside_texts_are_compared_and_hashed_by_parts(rt: HostRuntime) {
    let this = b"\x01...\x07\0\0\0ab\xff\xff\xff\xff\xff\xff";
    let rows = [
        (
            *b"\x01...\x07\0\0\0ab\xff\xff\xff\xff\xff\xff",
            Ordering::Equal,
        ),
        (
            *b"\x01...\x07\0\0\0ac\xff\xff\xff\xff\xff\xff",
            Ordering::Less,
        ),
        (
            *b"\x01...\x06\0\0\0ac\xff\xff\xff\xff\xff\xff",
            Ordering::Greater,
        ),
        (*b"\0...............", Ordering::Greater),
    ];
    for (other, order) in rows {
        assert!(rt; are_ordered(rt.alloc(), this, &other, order));
    }
}
