//! The laws of how each archived form is compared and hashed, each a function with an empty body whose contract is the
//! law. What the functions that they name do is defined in archive_forms_laws.
ghost use Rattle.std.specs.Prelude.{◌≡◌, ℕ, ℤ, Bool, List};
ghost use denote.Bor.{Bor};
ghost use Rattle.archive_shape_layout.specs.Value.Value.{boolean, integer, natural, string};
ghost use Rattle.archive_forms_laws.specs.Orders.{natural_equality, natural_order, integer_equality, integer_order, truth_equality, truth_order, text_equality, text_order, text_hashed, option_equality, option_order, option_hashed, result_equality, result_order, result_hashed, vector_equality, vector_order, vector_hashed, no_fields_equality, no_fields_order, no_fields_hashed, more_fields_equality, more_fields_order, more_fields_hashed, tuple_equality, tuple_order, tuple_hashed, unit_equality, unit_order, unit_hashed};

use crate::{ArchivedEq, ArchivedHash, ArchivedOrd, ComparedNative};
use archive_forms_values::{
    ArchivedBox, ArchivedBoxedSlice, ArchivedBoxedStr, ArchivedOption, ArchivedResult,
    ArchivedString, ArchivedTuple1, ArchivedTuple2, ArchivedTuple3, ArchivedTuple4, ArchivedVec,
    Entry,
};
use archive_shape::LittleEndian;
use std::hash::Hash;
use std::marker::PhantomData;
use std::num::{NonZeroI8, NonZeroU8};

/// Forms are equal where their parts are.
pub fn forms_are_equal_by_parts<T: ArchivedEq, U: ArchivedEq, const N: usize>()
    ensures options { ⟦<ArchivedOption<T> as ArchivedEq>⟧.equal ≡ option_equality T.equal }
    ensures results { ⟦<ArchivedResult<T, U> as ArchivedEq>⟧.equal ≡ result_equality T.equal U.equal }
    ensures boxes { ⟦<ArchivedBox<T> as ArchivedEq>⟧.equal ≡ T.equal }
    ensures vectors { ⟦<ArchivedVec<T> as ArchivedEq>⟧.equal ≡ vector_equality T.equal }
    ensures slices { ⟦<ArchivedBoxedSlice<T> as ArchivedEq>⟧.equal ≡ vector_equality T.equal }
    ensures arrays { ⟦<[T; N] as ArchivedEq>⟧.equal ≡ vector_equality T.equal }
    ensures entries { ⟦<Entry<T, U> as ArchivedEq>⟧.equal
        ≡ tuple_equality (more_fields_equality T.equal (more_fields_equality U.equal no_fields_equality)) }
{}

/// Forms are ordered by their parts.
pub fn forms_are_ordered_by_parts<T: ArchivedOrd, U: ArchivedOrd, const N: usize>()
    ensures options { ⟦<ArchivedOption<T> as ArchivedOrd>⟧.order ≡ option_order T.order }
    ensures results { ⟦<ArchivedResult<T, U> as ArchivedOrd>⟧.order ≡ result_order T.order U.order }
    ensures boxes { ⟦<ArchivedBox<T> as ArchivedOrd>⟧.order ≡ T.order }
    ensures vectors { ⟦<ArchivedVec<T> as ArchivedOrd>⟧.order ≡ vector_order T.order }
    ensures slices { ⟦<ArchivedBoxedSlice<T> as ArchivedOrd>⟧.order ≡ vector_order T.order }
    ensures arrays { ⟦<[T; N] as ArchivedOrd>⟧.order ≡ vector_order T.order }
    ensures entries { ⟦<Entry<T, U> as ArchivedOrd>⟧.order
        ≡ tuple_order (more_fields_order T.order (more_fields_order U.order no_fields_order)) }
{}

/// What is hashed of forms is what is hashed of their parts, behind a variant or a length where there is one.
pub fn forms_are_hashed_by_parts<T: ArchivedHash, U: ArchivedHash, const N: usize>()
    ensures options { ⟦<ArchivedOption<T> as ArchivedHash>⟧.hashed ≡ option_hashed T.hashed }
    ensures results { ⟦<ArchivedResult<T, U> as ArchivedHash>⟧.hashed ≡ result_hashed T.hashed U.hashed }
    ensures boxes { ⟦<ArchivedBox<T> as ArchivedHash>⟧.hashed ≡ T.hashed }
    ensures vectors { ⟦<ArchivedVec<T> as ArchivedHash>⟧.hashed ≡ vector_hashed T.hashed }
    ensures slices { ⟦<ArchivedBoxedSlice<T> as ArchivedHash>⟧.hashed ≡ vector_hashed T.hashed }
    ensures arrays { ⟦<[T; N] as ArchivedHash>⟧.hashed ≡ vector_hashed T.hashed }
    ensures entries { ⟦<Entry<T, U> as ArchivedHash>⟧.hashed
        ≡ tuple_hashed (more_fields_hashed T.hashed (more_fields_hashed U.hashed no_fields_hashed)) }
{}

/// Tuples are compared by their fields in order.
pub fn tuples_are_equal_by_fields<A: ArchivedEq, B: ArchivedEq, C: ArchivedEq, D: ArchivedEq>()
    ensures of_one { ⟦<ArchivedTuple1<A> as ArchivedEq>⟧.equal
        ≡ tuple_equality (more_fields_equality A.equal no_fields_equality) }
    ensures of_two { ⟦<ArchivedTuple2<A, B> as ArchivedEq>⟧.equal
        ≡ tuple_equality (more_fields_equality A.equal (more_fields_equality B.equal no_fields_equality)) }
    ensures of_three { ⟦<ArchivedTuple3<A, B, C> as ArchivedEq>⟧.equal
        ≡ tuple_equality (more_fields_equality A.equal (more_fields_equality B.equal
        (more_fields_equality C.equal no_fields_equality))) }
    ensures of_four { ⟦<ArchivedTuple4<A, B, C, D> as ArchivedEq>⟧.equal
        ≡ tuple_equality (more_fields_equality A.equal (more_fields_equality B.equal
        (more_fields_equality C.equal (more_fields_equality D.equal no_fields_equality)))) }
{}

/// The first fields that are not equal decide the order of tuples.
pub fn tuples_are_ordered_by_fields<
    A: ArchivedOrd,
    B: ArchivedOrd,
    C: ArchivedOrd,
    D: ArchivedOrd,
>()
    ensures of_one { ⟦<ArchivedTuple1<A> as ArchivedOrd>⟧.order
        ≡ tuple_order (more_fields_order A.order no_fields_order) }
    ensures of_two { ⟦<ArchivedTuple2<A, B> as ArchivedOrd>⟧.order
        ≡ tuple_order (more_fields_order A.order (more_fields_order B.order no_fields_order)) }
    ensures of_three { ⟦<ArchivedTuple3<A, B, C> as ArchivedOrd>⟧.order
        ≡ tuple_order (more_fields_order A.order (more_fields_order B.order
        (more_fields_order C.order no_fields_order))) }
    ensures of_four { ⟦<ArchivedTuple4<A, B, C, D> as ArchivedOrd>⟧.order
        ≡ tuple_order (more_fields_order A.order (more_fields_order B.order
        (more_fields_order C.order (more_fields_order D.order no_fields_order)))) }
{}

/// Tuples are hashed field by field.
pub fn tuples_are_hashed_by_fields<
    A: ArchivedHash,
    B: ArchivedHash,
    C: ArchivedHash,
    D: ArchivedHash,
>()
    ensures of_one { ⟦<ArchivedTuple1<A> as ArchivedHash>⟧.hashed
        ≡ tuple_hashed (more_fields_hashed A.hashed no_fields_hashed) }
    ensures of_two { ⟦<ArchivedTuple2<A, B> as ArchivedHash>⟧.hashed
        ≡ tuple_hashed (more_fields_hashed A.hashed (more_fields_hashed B.hashed no_fields_hashed)) }
    ensures of_three { ⟦<ArchivedTuple3<A, B, C> as ArchivedHash>⟧.hashed
        ≡ tuple_hashed (more_fields_hashed A.hashed (more_fields_hashed B.hashed
        (more_fields_hashed C.hashed no_fields_hashed))) }
    ensures of_four { ⟦<ArchivedTuple4<A, B, C, D> as ArchivedHash>⟧.hashed
        ≡ tuple_hashed (more_fields_hashed A.hashed (more_fields_hashed B.hashed
        (more_fields_hashed C.hashed (more_fields_hashed D.hashed no_fields_hashed)))) }
{}

/// Numbers, truth values and chars are equal where their native values are, and units always.
pub fn leaves_are_equal_by_value<N: ComparedNative, T>()
    ensures numbers { ⟦<LittleEndian<N> as ArchivedEq>⟧.equal ≡ N.comparison.equal }
    ensures truths { ⟦<bool as ArchivedEq>⟧.equal ≡ truth_equality }
    ensures unsigned { ⟦<u8 as ArchivedEq>⟧.equal ≡ natural_equality }
    ensures signed { ⟦<i8 as ArchivedEq>⟧.equal ≡ integer_equality }
    ensures unsigned_nonzero { ⟦<NonZeroU8 as ArchivedEq>⟧.equal ≡ natural_equality }
    ensures signed_nonzero { ⟦<NonZeroI8 as ArchivedEq>⟧.equal ≡ integer_equality }
    ensures units { ⟦<() as ArchivedEq>⟧.equal ≡ unit_equality }
    ensures phantoms { ⟦<PhantomData<T> as ArchivedEq>⟧.equal ≡ unit_equality }
{}

/// They are in the order of their native values.
pub fn leaves_are_ordered_by_value<N: ComparedNative, T>()
    ensures numbers { ⟦<LittleEndian<N> as ArchivedOrd>⟧.order ≡ N.comparison.order }
    ensures truths { ⟦<bool as ArchivedOrd>⟧.order ≡ truth_order }
    ensures unsigned { ⟦<u8 as ArchivedOrd>⟧.order ≡ natural_order }
    ensures signed { ⟦<i8 as ArchivedOrd>⟧.order ≡ integer_order }
    ensures unsigned_nonzero { ⟦<NonZeroU8 as ArchivedOrd>⟧.order ≡ natural_order }
    ensures signed_nonzero { ⟦<NonZeroI8 as ArchivedOrd>⟧.order ≡ integer_order }
    ensures units { ⟦<() as ArchivedOrd>⟧.order ≡ unit_order }
    ensures phantoms { ⟦<PhantomData<T> as ArchivedOrd>⟧.order ≡ unit_order }
{}

/// They are hashed as their native values are, and nothing is hashed of units.
pub fn leaves_are_hashed_by_value<N: ComparedNative, T>()
    ensures numbers { ⟦<LittleEndian<N> as ArchivedHash>⟧.hashed ≡ N.hashed }
    ensures truths { (x : Bool) → ⟦<bool as ArchivedHash>⟧.hashed (boolean x) ≡ ⟦<bool as Hash>⟧.hash_input x }
    ensures unsigned { (x : ℕ) → ⟦<u8 as ArchivedHash>⟧.hashed (natural x) ≡ ⟦<u8 as Hash>⟧.hash_input x }
    ensures signed { (x : ℤ) → ⟦<i8 as ArchivedHash>⟧.hashed (integer x) ≡ ⟦<i8 as Hash>⟧.hash_input x }
    ensures unsigned_nonzero { ⟦<NonZeroU8 as ArchivedHash>⟧.hashed ≡ ⟦<u8 as ArchivedHash>⟧.hashed }
    ensures signed_nonzero { ⟦<NonZeroI8 as ArchivedHash>⟧.hashed ≡ ⟦<i8 as ArchivedHash>⟧.hashed }
    ensures units { ⟦<() as ArchivedHash>⟧.hashed ≡ unit_hashed }
    ensures phantoms { ⟦<PhantomData<T> as ArchivedHash>⟧.hashed ≡ unit_hashed }
{}

/// Texts, also in boxes, are compared and hashed by their bytes, and hashed as `&str` is.
pub fn texts_are_compared_by_bytes<'q>()
    ensures equal { ⟦<ArchivedString as ArchivedEq>⟧.equal ≡ text_equality }
    ensures order { ⟦<ArchivedString as ArchivedOrd>⟧.order ≡ text_order }
    ensures hashed { ⟦<ArchivedString as ArchivedHash>⟧.hashed ≡ text_hashed }
    ensures boxed_equal { ⟦<ArchivedBoxedStr as ArchivedEq>⟧.equal ≡ text_equality }
    ensures boxed_order { ⟦<ArchivedBoxedStr as ArchivedOrd>⟧.order ≡ text_order }
    ensures boxed_hashed { ⟦<ArchivedBoxedStr as ArchivedHash>⟧.hashed ≡ text_hashed }
    ensures as_native { (t : Bor (List ℕ)) → text_hashed (string t.now) ≡ ⟦<&'q str as Hash>⟧.hash_input t }
{}
