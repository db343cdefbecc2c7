//! Results are read back.
ghost use Rattle.std.specs.Prelude.{IfOk};
ghost use Rattle.archive_shape_layout.specs.Shape.Shape.{result as result_shape};
ghost use Rattle.archive_forms_values.specs.Parts.{HasValue};
ghost use Rattle.archive_forms.specs.Deserializing.{DeserializesBy};
ghost use Rattle.archive_forms.specs.Keeping.{both_of};
ghost use Rattle.archive_forms.specs.Reading.{reads_result};
ghost use Rattle.archive_forms.specs.Calls.Forms.{HasResult, DeserializesResult};
ghost use Rattle.archive_forms.specs.Calls.Steps.{StepTakesIn, StepReadsBack};

use crate::deserializing::deserialize::deserialize_element;
use crate::deserializing::{Deserialize, Deserializer, ReadBack};
use archive_forms_values::ArchivedResult;
use archive_forms_writing::Archive;
use archive_shape::{Error, Ref};
use std::alloc::Global;
use std::marker::PhantomData;

/// Reads a result back, its value by `step` or its error by `step_of_error`.
pub fn deserialize_result_each<
    T: Archive,
    E: Archive,
    A: ReadBack<T>,
    B: ReadBack<E>,
    D: Deserializer,
    F: Fn(&mut D, usize) -> Result<(T, PhantomData<T::Archived>), Error>,
    G: Fn(&mut D, usize) -> Result<(E, PhantomData<E::Archived>), Error>,
>(
    this: Ref<'_, ArchivedResult<A, B>>,
    deserializer: &mut D,
    step: F,
    step_of_error: G,
) -> Result<Result<T, E>, Error>
    requires there { HasResult A.ReadBack B.ReadBack this }
    requires kept { D.is_of deserializer.old this.bytes.now }
    requires takes { StepTakesIn F.Fn step A.ReadBack D.is_of (result_shape A.shape B.shape) this }
    requires reads { StepReadsBack F.Fn step A.ReadBack D.is_of this.bytes.now }
    requires takes_errors { StepTakesIn G.Fn step_of_error B.ReadBack D.is_of
        (result_shape A.shape B.shape) this }
    requires reads_errors { StepReadsBack G.Fn step_of_error B.ReadBack D.is_of this.bytes.now }
    ensures value { DeserializesResult A.ReadBack B.ReadBack this.entry result }
    ensures keeps { IfOk result (λ _. D.is_of deserializer.new this.entry.bytes.now) }
{
    match ArchivedResult::as_ref(this) {
        Ok(value) => Ok(Ok(step(deserializer, value.pos)?.0)),
        Err(error) => Ok(Err(step_of_error(deserializer, error.pos)?.0)),
    }
}

impl<T, E, A: ReadBack<T>, B: ReadBack<E>> ReadBack<Result<T, E>> for ArchivedResult<A, B> {
    ghost reads = { reads_result A.reads B.reads };
}

impl<T: Archive, E: Archive, A: Deserialize<T>, B: Deserialize<E>> Deserialize<Result<T, E>>
    for ArchivedResult<A, B> {
    type Pool = (A::Pool, B::Pool);

    fn deserialize(
        this: &Ref<'_, ArchivedResult<A, B>>,
        alloc: Global,
        deserializer: &mut (A::Pool, B::Pool),
    ) -> Result<Result<T, E>, Error> {
        let bytes = this.bytes;
        deserialize_result_each::<T, E, A, B, (A::Pool, B::Pool), _, _>(
            *this,
            deserializer,
            |d: &mut (A::Pool, B::Pool), pos: usize| -> Result<(T, PhantomData<T::Archived>), Error>
                requires there { HasValue A.shape A.knows bytes.now pos }
                requires kept { both_of A.Pool.is_of B.Pool.is_of d.old bytes.now }
                ensures value { DeserializesBy A.reads A.shape A.knows bytes.entry.now pos (λ q. q.0) result }
                ensures keeps { IfOk result (λ _. both_of A.Pool.is_of B.Pool.is_of d.new bytes.entry.now) }
            { deserialize_element::<T, A>(bytes, pos, alloc, &mut d.0) },
            |d: &mut (A::Pool, B::Pool), pos: usize| -> Result<(E, PhantomData<E::Archived>), Error>
                requires there { HasValue B.shape B.knows bytes.now pos }
                requires kept { both_of A.Pool.is_of B.Pool.is_of d.old bytes.now }
                ensures value { DeserializesBy B.reads B.shape B.knows bytes.entry.now pos (λ q. q.0) result }
                ensures keeps { IfOk result (λ _. both_of A.Pool.is_of B.Pool.is_of d.new bytes.entry.now) }
            { deserialize_element::<E, B>(bytes, pos, alloc, &mut d.1) },
        )
    }
}
