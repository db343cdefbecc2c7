//! Arrays are read back.
ghost use Rattle.std.specs.Prelude.{IfOk};
ghost use Rattle.archive_shape_layout.specs.Shape.Shape.{array};
ghost use Rattle.archive_forms_values.specs.Parts.{HasValue};
ghost use Rattle.archive_forms.specs.Deserializing.{DeserializesBy};
ghost use Rattle.archive_forms.specs.Reading.{reads_all};
ghost use Rattle.archive_forms.specs.Calls.Forms.{DeserializesArray};
ghost use Rattle.archive_forms.specs.Calls.Steps.{StepTakesIn, StepReadsBack};

use crate::deserializing::deserialize::deserialize_element;
use crate::deserializing::elements::deserialize_elements_each;
use crate::deserializing::{Deserialize, Deserializer, ReadBack};
use archive_forms_values::array_slice;
use archive_forms_writing::Archive;
use archive_shape::{Error, Ref};
use std::alloc::Global;
use std::marker::PhantomData;

/// Reads an array back, each element by the step. The elements are collected in memory of `alloc`.
pub fn deserialize_array_each<
    T: Archive + Drop,
    A: ReadBack<T>,
    const N: usize,
    D: Deserializer,
    F: Fn(&mut D, usize) -> Result<(T, PhantomData<T::Archived>), Error>,
>(this: Ref<'_, [A; N]>, alloc: Global, deserializer: &mut D, step: F) -> Result<[T; N], Error>
    requires there { HasValue (array N A.shape) A.knows this.bytes.now this.pos }
    requires kept { D.is_of deserializer.old this.bytes.now }
    requires takes { StepTakesIn F.Fn step A.ReadBack D.is_of (array N A.shape) this }
    requires reads { StepReadsBack F.Fn step A.ReadBack D.is_of this.bytes.now }
    ensures value { DeserializesArray N A.ReadBack this.entry result }
    ensures keeps { IfOk result (λ _. D.is_of deserializer.new this.entry.bytes.now) }
{
    let all = deserialize_elements_each(array_slice(this), alloc, deserializer, step)?;
    Ok(<[T; N]>::try_from(all).unwrap())
}

impl<T, A: ReadBack<T>, const N: usize> ReadBack<[T; N]> for [A; N] {
    ghost reads = { reads_all A.reads };
}

impl<T: Archive + Drop, A: Deserialize<T>, const N: usize> Deserialize<[T; N]> for [A; N] {
    type Pool = A::Pool;

    fn deserialize(
        this: &Ref<'_, [A; N]>,
        alloc: Global,
        deserializer: &mut A::Pool,
    ) -> Result<[T; N], Error> {
        let bytes = this.bytes;
        deserialize_array_each::<T, A, N, A::Pool, _>(
            *this,
            alloc,
            deserializer,
            |d: &mut A::Pool, pos: usize| -> Result<(T, PhantomData<T::Archived>), Error>
                requires there { HasValue A.shape A.knows bytes.now pos }
                requires kept { A.Pool.is_of d.old bytes.now }
                ensures value { DeserializesBy A.reads A.shape A.knows bytes.entry.now pos (λ q. q.0) result }
                ensures keeps { IfOk result (λ _. A.Pool.is_of d.new bytes.entry.now) }
            { deserialize_element::<T, A>(bytes, pos, alloc, d) },
        )
    }
}
