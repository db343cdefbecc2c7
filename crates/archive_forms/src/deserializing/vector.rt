//! Vectors are read back.
ghost use Rattle.std.specs.Prelude.{IfOk};
ghost use Rattle.archive_shape_layout.specs.Shape.Shape.{vector};
ghost use Rattle.archive_forms_values.specs.Parts.{HasValue};
ghost use Rattle.archive_forms.specs.Deserializing.{DeserializesBy};
ghost use Rattle.archive_forms.specs.Reading.{reads_all, reads_in};
ghost use Rattle.archive_forms.specs.Steps.{StepTakes};
ghost use Rattle.archive_forms.specs.Calls.Forms.{DeserializesVec};
ghost use Rattle.archive_forms.specs.Calls.Steps.{StepReadsBack};

use crate::deserializing::deserialize::deserialize_element;
use crate::deserializing::elements::deserialize_elements_each;
use crate::deserializing::{Deserialize, Deserializer, ReadBack};
use archive_forms_values::ArchivedVec;
use archive_forms_writing::Archive;
use archive_shape::{Error, Ref};
use std::alloc::Global;
use std::marker::PhantomData;

/// Reads a vector back, each element by the step.
pub fn deserialize_vec_each<
    T: Archive + Drop,
    A: ReadBack<T>,
    D: Deserializer,
    F: Fn(&mut D, usize) -> Result<(T, PhantomData<T::Archived>), Error>,
>(
    this: Ref<'_, ArchivedVec<A>>,
    alloc: Global,
    deserializer: &mut D,
    step: F,
) -> Result<Vec<T>, Error>
    requires there { HasValue (vector A.shape) A.knows this.bytes.now this.pos }
    requires kept { D.is_of deserializer.old this.bytes.now }
    requires takes { StepTakes F.Fn step A.shape A.knows D.is_of this.bytes.now this.pos }
    requires reads { StepReadsBack F.Fn step A.ReadBack D.is_of this.bytes.now }
    ensures value { DeserializesVec A.ReadBack this.entry result }
    ensures keeps { IfOk result (λ _. D.is_of deserializer.new this.entry.bytes.now) }
{
    deserialize_elements_each(ArchivedVec::as_slice(this), alloc, deserializer, step)
}

impl<T, A: ReadBack<T>> ReadBack<Vec<T>> for ArchivedVec<A> {
    ghost reads = { reads_in (λ xs. xs.items) (reads_all A.reads) };
}

impl<T: Archive + Drop, A: Deserialize<T>> Deserialize<Vec<T>> for ArchivedVec<A> {
    type Pool = A::Pool;

    fn deserialize(
        this: &Ref<'_, ArchivedVec<A>>,
        alloc: Global,
        deserializer: &mut A::Pool,
    ) -> Result<Vec<T>, Error> {
        let bytes = this.bytes;
        deserialize_vec_each::<T, A, A::Pool, _>(
            *this,
            alloc,
            deserializer,
            |d: &mut A::Pool, pos: usize| -> Result<(T, PhantomData<T::Archived>), Error>
                requires there { HasValue A.shape A.knows bytes.now pos }
                requires kept { A.Pool.is_of d.old bytes.now }
                ensures value { DeserializesBy A.reads A.shape A.knows bytes.entry.now pos (λ q. q.0) result }
                ensures keeps { IfOk result (λ _. A.Pool.is_of d.new bytes.entry.now) }
            { deserialize_element::<T, A>(bytes, pos, alloc, d) },
        )
    }
}
