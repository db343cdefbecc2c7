//! The laws of values that are archived alike: they are one or, where a part is on the heap, equal. Each is a function
//! without a body, whose contract is the law.
ghost use Rattle.archive_forms.specs.Alike.{AlikeAreEqual, AlikeAreOne};

use archive_forms_writing::Archive;
use std::boxed::{BoxedSlice, BoxedStr};
use std::marker::PhantomData;
use std::num::{
    NonZeroI8, NonZeroI16, NonZeroI32, NonZeroI64, NonZeroI128, NonZeroU8, NonZeroU16, NonZeroU32,
    NonZeroU64, NonZeroU128,
};

/// Numbers, truth values, chars and values without bytes that are archived alike are one.
pub fn alike_leaves_are_one<T>()
    ensures truths { AlikeAreOne ⟦<bool as Archive>⟧.spelling }
    ensures chars { AlikeAreOne ⟦<char as Archive>⟧.spelling }
    ensures unsigned_8 { AlikeAreOne ⟦<u8 as Archive>⟧.spelling }
    ensures unsigned_16 { AlikeAreOne ⟦<u16 as Archive>⟧.spelling }
    ensures unsigned_32 { AlikeAreOne ⟦<u32 as Archive>⟧.spelling }
    ensures unsigned_64 { AlikeAreOne ⟦<u64 as Archive>⟧.spelling }
    ensures unsigned_128 { AlikeAreOne ⟦<u128 as Archive>⟧.spelling }
    ensures unsigned_sizes { AlikeAreOne ⟦<usize as Archive>⟧.spelling }
    ensures signed_8 { AlikeAreOne ⟦<i8 as Archive>⟧.spelling }
    ensures signed_16 { AlikeAreOne ⟦<i16 as Archive>⟧.spelling }
    ensures signed_32 { AlikeAreOne ⟦<i32 as Archive>⟧.spelling }
    ensures signed_64 { AlikeAreOne ⟦<i64 as Archive>⟧.spelling }
    ensures signed_128 { AlikeAreOne ⟦<i128 as Archive>⟧.spelling }
    ensures signed_sizes { AlikeAreOne ⟦<isize as Archive>⟧.spelling }
    ensures units { AlikeAreOne ⟦<() as Archive>⟧.spelling }
    ensures phantoms { AlikeAreOne ⟦<PhantomData<T> as Archive>⟧.spelling }
{}

/// So are numbers that are not 0.
pub fn alike_nonzero_numbers_are_one()
    ensures unsigned_8 { AlikeAreOne ⟦<NonZeroU8 as Archive>⟧.spelling }
    ensures unsigned_16 { AlikeAreOne ⟦<NonZeroU16 as Archive>⟧.spelling }
    ensures unsigned_32 { AlikeAreOne ⟦<NonZeroU32 as Archive>⟧.spelling }
    ensures unsigned_64 { AlikeAreOne ⟦<NonZeroU64 as Archive>⟧.spelling }
    ensures unsigned_128 { AlikeAreOne ⟦<NonZeroU128 as Archive>⟧.spelling }
    ensures signed_8 { AlikeAreOne ⟦<NonZeroI8 as Archive>⟧.spelling }
    ensures signed_16 { AlikeAreOne ⟦<NonZeroI16 as Archive>⟧.spelling }
    ensures signed_32 { AlikeAreOne ⟦<NonZeroI32 as Archive>⟧.spelling }
    ensures signed_64 { AlikeAreOne ⟦<NonZeroI64 as Archive>⟧.spelling }
    ensures signed_128 { AlikeAreOne ⟦<NonZeroI128 as Archive>⟧.spelling }
{}

/// So are options, results, arrays and tuples of values that are.
pub fn alike_forms_are_one<T: Archive, U: Archive, V: Archive, W: Archive, const N: usize>()
    requires first { AlikeAreOne T.spelling }
    requires second { AlikeAreOne U.spelling }
    requires third { AlikeAreOne V.spelling }
    requires fourth { AlikeAreOne W.spelling }
    ensures options { AlikeAreOne ⟦<Option<T> as Archive>⟧.spelling }
    ensures results { AlikeAreOne ⟦<Result<T, U> as Archive>⟧.spelling }
    ensures arrays { AlikeAreOne ⟦<[T; N] as Archive>⟧.spelling }
    ensures of_one { AlikeAreOne ⟦<(T,) as Archive>⟧.spelling }
    ensures of_two { AlikeAreOne ⟦<(T, U) as Archive>⟧.spelling }
    ensures of_three { AlikeAreOne ⟦<(T, U, V) as Archive>⟧.spelling }
    ensures of_four { AlikeAreOne ⟦<(T, U, V, W) as Archive>⟧.spelling }
{}

/// Values that are one where they are archived alike are equal then.
pub fn one_is_equal<T: Archive + Eq>()
    requires { AlikeAreOne T.spelling }
    ensures { AlikeAreEqual T.spelling T.eq }
{}

/// Texts that are archived alike are equal.
pub fn alike_texts_are_equal()
    ensures texts { AlikeAreEqual ⟦<String as Archive>⟧.spelling ⟦<String as PartialEq>⟧.eq }
    ensures boxed { AlikeAreEqual ⟦<BoxedStr as Archive>⟧.spelling ⟦<BoxedStr as PartialEq>⟧.eq }
{}

/// Forms that are archived alike are equal where their parts are.
pub fn alike_forms_are_equal<T: Archive + PartialEq, U: Archive + PartialEq, const N: usize>()
    requires first { AlikeAreEqual T.spelling T.eq }
    requires second { AlikeAreEqual U.spelling U.eq }
    ensures options { AlikeAreEqual ⟦<Option<T> as Archive>⟧.spelling ⟦<Option<T> as PartialEq>⟧.eq }
    ensures results { AlikeAreEqual ⟦<Result<T, U> as Archive>⟧.spelling
        ⟦<Result<T, U> as PartialEq>⟧.eq }
    ensures boxes { AlikeAreEqual ⟦<Box<T> as Archive>⟧.spelling ⟦<Box<T> as PartialEq>⟧.eq }
    ensures vectors { AlikeAreEqual ⟦<Vec<T> as Archive>⟧.spelling ⟦<Vec<T> as PartialEq>⟧.eq }
    ensures boxed_slices { AlikeAreEqual ⟦<BoxedSlice<T> as Archive>⟧.spelling
        ⟦<BoxedSlice<T> as PartialEq>⟧.eq }
    ensures arrays { AlikeAreEqual ⟦<[T; N] as Archive>⟧.spelling ⟦<[T; N] as PartialEq>⟧.eq }
{}

/// So are tuples.
pub fn alike_tuples_are_equal<
    T: Archive + PartialEq,
    U: Archive + PartialEq,
    V: Archive + PartialEq,
    W: Archive + PartialEq,
>()
    requires first { AlikeAreEqual T.spelling T.eq }
    requires second { AlikeAreEqual U.spelling U.eq }
    requires third { AlikeAreEqual V.spelling V.eq }
    requires fourth { AlikeAreEqual W.spelling W.eq }
    ensures of_one { AlikeAreEqual ⟦<(T,) as Archive>⟧.spelling ⟦<(T,) as PartialEq>⟧.eq }
    ensures of_two { AlikeAreEqual ⟦<(T, U) as Archive>⟧.spelling ⟦<(T, U) as PartialEq>⟧.eq }
    ensures of_three { AlikeAreEqual ⟦<(T, U, V) as Archive>⟧.spelling ⟦<(T, U, V) as PartialEq>⟧.eq }
    ensures of_four { AlikeAreEqual ⟦<(T, U, V, W) as Archive>⟧.spelling
        ⟦<(T, U, V, W) as PartialEq>⟧.eq }
{}
