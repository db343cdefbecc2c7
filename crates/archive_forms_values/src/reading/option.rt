//! `ArchivedOption`: its layout, its check and the methods that read it.
ghost use Rattle.std.specs.Prelude.{◌≡◌, ℕ, ◌+◌, ◌-◌, ◌^◌, ◌<◌, ◌↔◌, min, IsTrue};
ghost use Rattle.archive_shape_layout.specs.Bytes.{align_up};
ghost use Rattle.archive_shape_layout.specs.Shape.Shape.{option};
ghost use Rattle.archive_forms_laws.proofs.Sizes.{option_sized};
ghost use Rattle.archive_forms_values.specs.Parts.{HasValue, IsNoneAt, IsSomeAt, HasSome, some_position};
ghost use Rattle.archive_forms_values.specs.Calls.Reading.{TellsNone, TellsSome, FindsSome, SealsSome, FindsSomeOr, GivesSomeOr};

use crate::checking::{check_option_each, next_multiple};
use crate::reading::Iter;
use archive_shape::{ArchiveContext, CheckBytes, Error, Portable, Ref, Seal, Shape};
use std::alloc::{AllocError, Global};
use std::marker::PhantomData;

/// Returns the size in bytes of an option whose value has this size and alignment, at most `usize::MAX`.
pub(crate) const fn option_size(size: usize, align: usize) -> usize
    requires { 0 < align }
    ensures { result ≡ min (align_up (align + size) align) (2 ^ 64 - 1) }
{
    next_multiple(align.saturating_add(size), align)
}

/// The tag of an archived option that has a value.
pub const SOME_TAG: u8 = 1;

/// An archived option: a tag of one byte, which is 0 or 1, and with 1 the value at the first multiple of its alignment
/// after the tag. With 0 the bytes of the value are not read.
#[derive_where(Clone, Copy)]
pub struct ArchivedOption<T> {
    pub of: PhantomData<T>,
}

impl<T: Portable> Portable for ArchivedOption<T> {
    ghost SIZE = { min (align_up (T.ALIGN + T.SIZE) T.ALIGN) (2 ^ 64 - 1) };

    ghost ALIGN = { T.ALIGN };

    ghost shape = { option T.shape };

    ghost knows = { T.knows };

    ghost named = { T.named };

    const SIZE: usize = option_size(T::SIZE, T::ALIGN);

    const ALIGN: usize = T::ALIGN;

    fn shape(alloc: Global) -> Result<Shape, AllocError> {
        Ok(Shape::Option(Box::new(alloc, T::shape(alloc)?)?))
    }

    ghost sized = { option_sized T.shape T.SIZE T.ALIGN T.sized T.aligned T.aligns.0 };

    ghost aligned = { T.aligned };

    ghost aligns = { T.aligns };

    ghost known = { T.known };
}

impl<C: ArchiveContext, T: CheckBytes<C>> CheckBytes<C> for ArchivedOption<T> {
    fn check(alloc: Global, bytes: &[u8], pos: usize, context: &mut C) -> Result<(), Error> {
        check_option_each::<T, C, _>(
            bytes,
            pos,
            context,
            |c: &mut C, p: usize| T::check(alloc, bytes, p, c),
        )
    }
}

/// Returns `true` if the option at `pos` is none.
fn is_none_at<T: Portable>(bytes: &[u8], pos: usize) -> bool
    requires { HasValue (option T.shape) T.knows bytes.now pos }
    ensures { TellsNone T.shape T.knows bytes.now pos result }
{
    bytes[pos] == 0
}

impl<T: Portable> ArchivedOption<T> {
    /// Returns `true` if the option is none.
    pub fn is_none(this: Ref<'_, ArchivedOption<T>>) -> bool
        requires { HasValue (option T.shape) T.knows this.bytes.now this.pos }
        ensures { TellsNone T.shape T.knows this.entry.bytes.now this.entry.pos result }
    {
        is_none_at::<T>(this.bytes, this.pos)
    }

    /// Returns `true` if the option has a value.
    pub fn is_some(this: Ref<'_, ArchivedOption<T>>) -> bool
        requires { HasValue (option T.shape) T.knows this.bytes.now this.pos }
        ensures { TellsSome T.shape T.knows this.entry.bytes.now this.entry.pos result }
    {
        !ArchivedOption::is_none(this)
    }

    /// Returns the value, if there is one.
    pub fn as_ref<'a>(this: Ref<'a, ArchivedOption<T>>) -> Option<Ref<'a, T>>
        requires { HasValue (option T.shape) T.knows this.bytes.now this.pos }
        ensures { FindsSome T.shape T.knows this.entry result }
    {
        if ArchivedOption::is_none(this) {
            None
        } else {
            Some(Ref::new(this.bytes, this.pos + T::ALIGN))
        }
    }

    /// Returns the value, which may be edited, if there is one. The contents of the buffer after the loan are not
    /// specified.
    pub fn as_seal<'a>(this: Seal<'a, ArchivedOption<T>>) -> Option<Seal<'a, T>>
        requires { HasValue (option T.shape) T.knows this.bytes.now this.pos }
        ensures { SealsSome T.shape T.knows this.entry result }
    {
        let Seal { bytes, pos, .. } = this;
        if is_none_at::<T>(bytes, pos) {
            None
        } else {
            Some(Seal::new(bytes, pos + T::ALIGN))
        }
    }

    /// Returns the value, or `err` if there is none.
    pub fn ok_or<'a, E: Drop>(this: Ref<'a, ArchivedOption<T>>, err: E) -> Result<Ref<'a, T>, E>
        requires { HasValue (option T.shape) T.knows this.bytes.now this.pos }
        ensures { FindsSomeOr T.shape T.knows this.entry err result }
    {
        match ArchivedOption::as_ref(this) {
            Some(value) => Ok(value),
            None => Err(err),
        }
    }

    /// Returns the value of an option that is known to have one.
    pub fn unwrap<'a>(this: Ref<'a, ArchivedOption<T>>) -> Ref<'a, T>
        requires { HasSome T.shape T.knows this.bytes.now this.pos }
        ensures bytes { result.bytes ≡ this.entry.bytes }
        ensures pos { result.pos ≡ some_position T.shape this.entry.pos }
        ensures value { IsSomeAt T.shape T.knows this.entry.bytes.now this.entry.pos }
    {
        ArchivedOption::as_ref(this).unwrap()
    }

    /// Returns the value, or `default` if there is none.
    pub fn unwrap_or<'a>(this: Ref<'a, ArchivedOption<T>>, default: Ref<'a, T>) -> Ref<'a, T>
        requires { HasValue (option T.shape) T.knows this.bytes.now this.pos }
        ensures { GivesSomeOr T.shape T.knows this.entry (result ≡ default.entry) result }
    {
        match ArchivedOption::as_ref(this) {
            Some(value) => value,
            None => default,
        }
    }

    /// Returns the value, or the result of `f` if there is none.
    pub fn unwrap_or_else<'a, F: FnOnce() -> Ref<'a, T>>(
        this: Ref<'a, ArchivedOption<T>>,
        f: F,
    ) -> Ref<'a, T>
        requires there { HasValue (option T.shape) T.knows this.bytes.now this.pos }
        requires callable { IsNoneAt T.shape T.knows this.bytes.now this.pos → F.pre f }
        ensures { GivesSomeOr T.shape T.knows this.entry (F.post f result) result }
    {
        match ArchivedOption::as_ref(this) {
            Some(value) => value,
            None => f(),
        }
    }

    /// Returns an iterator over the value, if there is one.
    pub fn iter<'a>(this: Ref<'a, ArchivedOption<T>>) -> Iter<Ref<'a, T>>
        requires { HasValue (option T.shape) T.knows this.bytes.now this.pos }
        ensures { FindsSome T.shape T.knows this.entry result }
    {
        Iter::new(ArchivedOption::as_ref(this))
    }
}
