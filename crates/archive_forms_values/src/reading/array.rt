//! The functions that read archived arrays.
ghost use Rattle.std.specs.Prelude.{◌≡◌, ℕ};
ghost use Rattle.archive_shape_layout.specs.Shape.Shape.{array};
ghost use Rattle.archive_forms_values.specs.Arrays.{IsArrayAt};
ghost use Rattle.archive_forms_values.specs.Parts.{HasValue};
ghost use Rattle.archive_forms_values.specs.Calls.Reading.{FindsElement, SealsElement};

use crate::reading::{SliceRef, SliceSeal};
use archive_shape::{Portable, Ref, Seal};
use std::marker::PhantomData;

/// Returns the elements of an archived array.
pub fn array_slice<'a, T: Portable, const N: usize>(this: Ref<'a, [T; N]>) -> SliceRef<'a, T>
    requires { HasValue (array N T.shape) T.knows this.bytes.now this.pos }
    ensures bytes { result.bytes ≡ this.entry.bytes }
    ensures stands { (result.pos ≡ this.entry.pos) × (result.len ≡ N) }
    ensures elements { IsArrayAt N T.shape T.knows this.entry.bytes.now this.entry.pos }
{
    SliceRef {
        bytes: this.bytes,
        pos: this.pos,
        len: N,
        of: PhantomData,
    }
}

/// Returns the element of an archived array at `index`, or `None` if it is out of bounds.
pub fn array_element<'a, T: Portable, const N: usize>(
    this: Ref<'a, [T; N]>,
    index: usize,
) -> Option<Ref<'a, T>>
    requires { HasValue (array N T.shape) T.knows this.bytes.now this.pos }
    ensures elements { IsArrayAt N T.shape T.knows this.entry.bytes.now this.entry.pos }
    ensures element { FindsElement T.shape this.entry.bytes this.entry.pos N index result }
{
    array_slice(this).get(index)
}

/// Returns the element of an archived array at `index`, which may be edited, or `None` if it is out of bounds. The
/// contents of the buffer after the loan are not specified.
pub fn array_element_seal<'a, T: Portable, const N: usize>(
    this: Seal<'a, [T; N]>,
    index: usize,
) -> Option<Seal<'a, T>>
    requires { HasValue (array N T.shape) T.knows this.bytes.now this.pos }
    ensures elements { IsArrayAt N T.shape T.knows this.entry.bytes.now this.entry.pos }
    ensures element { SealsElement T.shape this.entry.bytes this.entry.pos N index result }
{
    let Seal { bytes, pos, .. } = this;
    let all: SliceSeal<'a, T> = SliceSeal {
        bytes,
        pos,
        len: N,
        of: PhantomData,
    };
    all.get(index)
}
