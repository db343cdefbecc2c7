//! `ArchivedDebug`, the printing of archived values.
ghost use Rattle.archive_forms_values.specs.Parts.{HasValue, HasElements};

use crate::{
    array_elements, box_value, boxed_elements, boxed_text, element, option_value, result_outcome,
    text_at, vector_elements,
};
use archive_forms_values::{
    ArchivedBox, ArchivedBoxedSlice, ArchivedBoxedStr, ArchivedOption, ArchivedResult,
    ArchivedString, ArchivedVec, SliceRef, native_of,
};
use archive_shape::{LittleEndian, Native, Portable, Ref};
use std::fmt;
use std::fmt::{Debug, Formatter, Write};
use std::marker::PhantomData;
use std::num::{NonZeroI8, NonZeroU8};

/// A type of archived values that are printed for programmers, as `{:?}` prints their native values. The output is one
/// line.
pub trait ArchivedDebug: Portable {
    /// Writes the value to the formatter.
    fn fmt<W: Write>(this: &Ref<'_, Self>, f: &mut Formatter<W>) -> fmt::Result
        requires { HasValue Self.shape Self.knows this.now.bytes.now this.now.pos };
}

/// Writes the elements in brackets, separated by commas.
pub fn fmt_elements<T: ArchivedDebug, W: Write>(
    elements: &SliceRef<'_, T>,
    f: &mut Formatter<W>,
) -> fmt::Result
    requires { HasElements T.shape T.knows elements.now.bytes.now elements.now.pos elements.now.len }
{
    f.write_str("[")?;
    for index in 0..elements.len() {
        if index > 0 {
            f.write_str(", ")?;
        }
        T::fmt(&element(elements, index), f)?;
    }
    f.write_str("]")
}

impl<N: Native + Debug> ArchivedDebug for LittleEndian<N> {
    fn fmt<W: Write>(this: &Ref<'_, LittleEndian<N>>, f: &mut Formatter<W>) -> fmt::Result {
        Debug::fmt(&native_of(*this), f)
    }
}

impl ArchivedDebug for bool {
    fn fmt<W: Write>(this: &Ref<'_, bool>, f: &mut Formatter<W>) -> fmt::Result {
        Debug::fmt(&native_of(*this), f)
    }
}

impl ArchivedDebug for u8 {
    fn fmt<W: Write>(this: &Ref<'_, u8>, f: &mut Formatter<W>) -> fmt::Result {
        Debug::fmt(&native_of(*this), f)
    }
}

impl ArchivedDebug for NonZeroU8 {
    fn fmt<W: Write>(this: &Ref<'_, NonZeroU8>, f: &mut Formatter<W>) -> fmt::Result {
        Debug::fmt(&native_of(*this), f)
    }
}

impl ArchivedDebug for i8 {
    fn fmt<W: Write>(this: &Ref<'_, i8>, f: &mut Formatter<W>) -> fmt::Result {
        Debug::fmt(&native_of(*this), f)
    }
}

impl ArchivedDebug for NonZeroI8 {
    fn fmt<W: Write>(this: &Ref<'_, NonZeroI8>, f: &mut Formatter<W>) -> fmt::Result {
        Debug::fmt(&native_of(*this), f)
    }
}

impl ArchivedDebug for ArchivedString {
    fn fmt<W: Write>(this: &Ref<'_, ArchivedString>, f: &mut Formatter<W>) -> fmt::Result {
        Debug::fmt(&text_at(this), f)
    }
}

impl<T: ArchivedDebug> ArchivedDebug for ArchivedOption<T> {
    fn fmt<W: Write>(this: &Ref<'_, ArchivedOption<T>>, f: &mut Formatter<W>) -> fmt::Result {
        match option_value(this) {
            None => f.write_str("None"),
            Some(value) => {
                f.write_str("Some(")?;
                T::fmt(&value, f)?;
                f.write_str(")")
            }
        }
    }
}

impl<T: ArchivedDebug, E: ArchivedDebug> ArchivedDebug for ArchivedResult<T, E> {
    fn fmt<W: Write>(this: &Ref<'_, ArchivedResult<T, E>>, f: &mut Formatter<W>) -> fmt::Result {
        match result_outcome(this) {
            Ok(value) => {
                f.write_str("Ok(")?;
                T::fmt(&value, f)?;
            }
            Err(error) => {
                f.write_str("Err(")?;
                E::fmt(&error, f)?;
            }
        }
        f.write_str(")")
    }
}

impl<T: ArchivedDebug> ArchivedDebug for ArchivedBox<T> {
    fn fmt<W: Write>(this: &Ref<'_, ArchivedBox<T>>, f: &mut Formatter<W>) -> fmt::Result {
        T::fmt(&box_value(this), f)
    }
}

impl<T: ArchivedDebug> ArchivedDebug for ArchivedVec<T> {
    fn fmt<W: Write>(this: &Ref<'_, ArchivedVec<T>>, f: &mut Formatter<W>) -> fmt::Result {
        fmt_elements(&vector_elements(this), f)
    }
}

impl<T: ArchivedDebug, const N: usize> ArchivedDebug for [T; N] {
    fn fmt<W: Write>(this: &Ref<'_, [T; N]>, f: &mut Formatter<W>) -> fmt::Result {
        fmt_elements(&array_elements(this), f)
    }
}

impl<T: ArchivedDebug> ArchivedDebug for ArchivedBoxedSlice<T> {
    fn fmt<W: Write>(this: &Ref<'_, ArchivedBoxedSlice<T>>, f: &mut Formatter<W>) -> fmt::Result {
        fmt_elements(&boxed_elements(this), f)
    }
}

impl ArchivedDebug for ArchivedBoxedStr {
    fn fmt<W: Write>(this: &Ref<'_, ArchivedBoxedStr>, f: &mut Formatter<W>) -> fmt::Result {
        Debug::fmt(&boxed_text(this), f)
    }
}

impl ArchivedDebug for () {
    fn fmt<W: Write>(_this: &Ref<'_, ()>, f: &mut Formatter<W>) -> fmt::Result {
        f.write_str("()")
    }
}

impl<T> ArchivedDebug for PhantomData<T> {
    fn fmt<W: Write>(_this: &Ref<'_, PhantomData<T>>, f: &mut Formatter<W>) -> fmt::Result {
        f.write_str("PhantomData")
    }
}
