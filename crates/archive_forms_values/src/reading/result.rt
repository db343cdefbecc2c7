//! `ArchivedResult`: its layout, its check and the methods that read it.
ghost use Rattle.std.specs.Prelude.{◌≡◌, ℕ, ◌+◌, ◌-◌, ◌^◌, ◌<◌, ◌++◌, max, min};
ghost use Rattle.archive_shape_layout.specs.Bytes.{align_up};
ghost use Rattle.archive_shape_layout.specs.Shape.Shape.{result as result_shape};
ghost use Rattle.archive_shape_layout.proofs.Naming.{first_types, other_types};
ghost use Rattle.archive_shape_layout.proofs.PointerSizes.{pointer_aligns};
ghost use Rattle.archive_forms_laws.proofs.Sizes.{result_sized, result_aligned};
ghost use Rattle.archive_forms_values.specs.Parts.{HasValue, both, IsOkAt, HasOk, outcome_position, outcome_size};
ghost use Rattle.archive_forms_values.specs.Calls.Reading.{HasResult, TellsOk, TellsErr, FindsOutcome, FindsOk, MayCallOnErr, GivesOkOr};

use crate::checking::{check_result_each, greater};
use crate::reading::Iter;
use crate::reading::option::option_size;
use archive_shape::{ArchiveContext, CheckBytes, Error, Portable, Ref, Shape};
use std::alloc::{AllocError, Global};
use std::marker::PhantomData;

/// Returns the size in bytes of a result whose value and error have these sizes and alignments, at most `usize::MAX`.
const fn result_size(
    value_size: usize,
    value_align: usize,
    error_size: usize,
    error_align: usize,
) -> usize
    requires { 0 < value_align }
    ensures { result ≡ outcome_size value_size value_align error_size error_align }
{
    option_size(
        greater(value_size, error_size),
        greater(value_align, error_align),
    )
}

/// An archived result: a tag of one byte, and with 0 the value, with 1 the error, at the first multiple of the greater
/// alignment of the two after the tag.
#[derive_where(Clone, Copy)]
pub struct ArchivedResult<T, E> {
    pub of: PhantomData<(T, E)>,
}

impl<T: Portable, E: Portable> Portable for ArchivedResult<T, E> {
    ghost SIZE = { min (align_up (max T.ALIGN E.ALIGN + max T.SIZE E.SIZE) (max T.ALIGN E.ALIGN)) (2 ^ 64 - 1) };

    ghost ALIGN = { max T.ALIGN E.ALIGN };

    ghost shape = { result_shape T.shape E.shape };

    ghost knows = { λ names. T.knows names × E.knows names };

    ghost named = { T.named ++ E.named };

    const SIZE: usize = result_size(T::SIZE, T::ALIGN, E::SIZE, E::ALIGN);

    const ALIGN: usize = greater(T::ALIGN, E::ALIGN);

    fn shape(alloc: Global) -> Result<Shape, AllocError> {
        let value = Box::new(alloc, T::shape(alloc)?)?;
        let error = Box::new(alloc, E::shape(alloc)?)?;
        Ok(Shape::Result(value, error))
    }

    ghost sized = { result_sized T.shape E.shape T.SIZE T.ALIGN E.SIZE E.ALIGN T.sized T.aligned T.aligns.0 E.sized E.aligned };

    ghost aligned = { result_aligned T.shape E.shape T.ALIGN E.ALIGN T.aligned E.aligned };

    ghost aligns = { pointer_aligns T.ALIGN E.ALIGN T.aligns E.aligns };

    ghost known = { λ names has. (
      T.known names (first_types names T.named E.named has),
      E.known names (other_types names T.named E.named has),
    ) };
}

impl<C: ArchiveContext, T: CheckBytes<C>, E: CheckBytes<C>> CheckBytes<C> for ArchivedResult<T, E> {
    fn check(alloc: Global, bytes: &[u8], pos: usize, context: &mut C) -> Result<(), Error> {
        check_result_each::<T, E, C, _, _>(
            bytes,
            pos,
            context,
            |c: &mut C, p: usize| T::check(alloc, bytes, p, c),
            |c: &mut C, p: usize| E::check(alloc, bytes, p, c),
        )
    }
}

/// Returns `true` if the result at `pos` is a value.
fn is_ok_at<T: Portable, E: Portable>(bytes: &[u8], pos: usize) -> bool
    requires { HasValue (result_shape T.shape E.shape) (both T.knows E.knows) bytes.now pos }
    ensures { TellsOk T.shape E.shape T.knows E.knows bytes.now pos result }
{
    bytes[pos] == 0
}

/// Returns the position of the value or the error of the result at `pos`.
fn outcome_at<T: Portable, E: Portable>(bytes: &[u8], pos: usize) -> usize
    requires { HasValue (result_shape T.shape E.shape) (both T.knows E.knows) bytes.now pos }
    ensures { result ≡ outcome_position T.shape E.shape pos }
{
    pos + greater(T::ALIGN, E::ALIGN)
}

impl<T: Portable, E: Portable> ArchivedResult<T, E> {
    /// Returns `true` if the result is a value.
    pub fn is_ok(this: Ref<'_, ArchivedResult<T, E>>) -> bool
        requires { HasResult T.shape E.shape T.knows E.knows this }
        ensures { TellsOk T.shape E.shape T.knows E.knows this.entry.bytes.now this.entry.pos result }
    {
        is_ok_at::<T, E>(this.bytes, this.pos)
    }

    /// Returns `true` if the result is an error.
    pub fn is_err(this: Ref<'_, ArchivedResult<T, E>>) -> bool
        requires { HasResult T.shape E.shape T.knows E.knows this }
        ensures { TellsErr T.shape E.shape T.knows E.knows this.entry.bytes.now this.entry.pos result }
    {
        !ArchivedResult::is_ok(this)
    }

    /// Returns the value or the error.
    pub fn as_ref<'a>(this: Ref<'a, ArchivedResult<T, E>>) -> Result<Ref<'a, T>, Ref<'a, E>>
        requires { HasResult T.shape E.shape T.knows E.knows this }
        ensures { FindsOutcome T.shape E.shape T.knows E.knows this.entry result }
    {
        let at = outcome_at::<T, E>(this.bytes, this.pos);
        if is_ok_at::<T, E>(this.bytes, this.pos) {
            Ok(Ref::new(this.bytes, at))
        } else {
            Err(Ref::new(this.bytes, at))
        }
    }

    /// Returns the value, or `None` if the result is an error.
    pub fn ok<'a>(this: Ref<'a, ArchivedResult<T, E>>) -> Option<Ref<'a, T>>
        requires { HasResult T.shape E.shape T.knows E.knows this }
        ensures { FindsOk T.shape E.shape T.knows E.knows this.entry result }
    {
        match ArchivedResult::as_ref(this) {
            Ok(value) => Some(value),
            Err(_) => None,
        }
    }

    /// Returns the value of a result that is known to have one.
    pub fn unwrap<'a>(this: Ref<'a, ArchivedResult<T, E>>) -> Ref<'a, T>
        requires { HasOk T.shape E.shape T.knows E.knows this.bytes.now this.pos }
        ensures bytes { result.bytes ≡ this.entry.bytes }
        ensures pos { result.pos ≡ outcome_position T.shape E.shape this.entry.pos }
        ensures value { IsOkAt T.shape E.shape T.knows E.knows this.entry.bytes.now this.entry.pos }
    {
        ArchivedResult::ok(this).unwrap()
    }

    /// Returns the value, or the result of `f` for the error.
    pub fn unwrap_or_else<'a, F: FnOnce(Ref<'a, E>) -> Ref<'a, T>>(
        this: Ref<'a, ArchivedResult<T, E>>,
        f: F,
    ) -> Ref<'a, T>
        requires there { HasResult T.shape E.shape T.knows E.knows this }
        requires callable { MayCallOnErr T.shape E.shape T.knows E.knows this (F.pre f) }
        ensures { GivesOkOr T.shape E.shape T.knows E.knows this.entry (F.post f) result }
    {
        match ArchivedResult::as_ref(this) {
            Ok(value) => value,
            Err(error) => f(error),
        }
    }

    /// Returns an iterator over the value, or over nothing if the result is an error.
    pub fn iter<'a>(this: Ref<'a, ArchivedResult<T, E>>) -> Iter<Ref<'a, T>>
        requires { HasResult T.shape E.shape T.knows E.knows this }
        ensures { FindsOk T.shape E.shape T.knows E.knows this.entry result }
    {
        Iter::new(ArchivedResult::ok(this))
    }
}
