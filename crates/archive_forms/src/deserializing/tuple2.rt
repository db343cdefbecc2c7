//! Tuples of two fields are read back.
ghost use Rattle.std.specs.Prelude.{IfOk};
ghost use Rattle.archive_forms_values.specs.Tuples.{tuple2};
ghost use Rattle.archive_forms_values.specs.Parts.{HasValue, both};
ghost use Rattle.archive_forms.specs.Deserializing.{DeserializesBy};
ghost use Rattle.archive_forms.specs.Keeping.{both_of};
ghost use Rattle.archive_forms.specs.Reading.{reads_tuple2};
ghost use Rattle.archive_forms.specs.Calls.Forms.{DeserializesTuple2};
ghost use Rattle.archive_forms.specs.Calls.Steps.{StepTakesIn, StepReadsBack};

use crate::deserializing::deserialize::deserialize_element;
use crate::deserializing::{Deserialize, Deserializer, ReadBack};
use archive_forms_values::ArchivedTuple2;
use archive_forms_writing::Archive;
use archive_shape::{Error, Ref};
use std::alloc::Global;
use std::marker::PhantomData;

/// Reads a tuple of two fields back, in order, each field by its own step.
pub fn deserialize_tuple2_each<
    T: Archive + Drop,
    U: Archive,
    A: ReadBack<T>,
    B: ReadBack<U>,
    S: Deserializer,
    F: Fn(&mut S, usize) -> Result<(T, PhantomData<T::Archived>), Error>,
    G: Fn(&mut S, usize) -> Result<(U, PhantomData<U::Archived>), Error>,
>(
    this: Ref<'_, ArchivedTuple2<A, B>>,
    deserializer: &mut S,
    read_first: F,
    read_second: G,
) -> Result<(T, U), Error>
    requires there { HasValue (tuple2 A.shape B.shape) (both A.knows B.knows) this.bytes.now this.pos }
    requires kept { S.is_of deserializer.old this.bytes.now }
    requires takes_first { StepTakesIn F.Fn read_first A.ReadBack S.is_of
        (tuple2 A.shape B.shape) this }
    requires reads_first { StepReadsBack F.Fn read_first A.ReadBack S.is_of this.bytes.now }
    requires takes_second { StepTakesIn G.Fn read_second B.ReadBack S.is_of
        (tuple2 A.shape B.shape) this }
    requires reads_second { StepReadsBack G.Fn read_second B.ReadBack S.is_of this.bytes.now }
    ensures value { DeserializesTuple2 A.ReadBack B.ReadBack this.entry result }
    ensures keeps { IfOk result (λ _. S.is_of deserializer.new this.entry.bytes.now) }
{
    let t = read_first(deserializer, ArchivedTuple2::first(this).pos)?.0;
    let u = read_second(deserializer, ArchivedTuple2::second(this).pos)?.0;
    Ok((t, u))
}

impl<T, U, A: ReadBack<T>, B: ReadBack<U>> ReadBack<(T, U)> for ArchivedTuple2<A, B> {
    ghost reads = { reads_tuple2 A.reads B.reads };
}

impl<T: Archive + Drop, U: Archive, A: Deserialize<T>, B: Deserialize<U>> Deserialize<(T, U)>
    for ArchivedTuple2<A, B> {
    type Pool = (A::Pool, B::Pool);

    fn deserialize(
        this: &Ref<'_, ArchivedTuple2<A, B>>,
        alloc: Global,
        deserializer: &mut (A::Pool, B::Pool),
    ) -> Result<(T, U), Error> {
        let bytes = this.bytes;
        deserialize_tuple2_each::<T, U, A, B, (A::Pool, B::Pool), _, _>(
            *this,
            deserializer,
            |d: &mut (A::Pool, B::Pool), pos: usize| -> Result<(T, PhantomData<T::Archived>), Error>
                requires there { HasValue A.shape A.knows bytes.now pos }
                requires kept { both_of A.Pool.is_of B.Pool.is_of d.old bytes.now }
                ensures value { DeserializesBy A.reads A.shape A.knows bytes.entry.now pos (λ q. q.0) result }
                ensures keeps { IfOk result (λ _. both_of A.Pool.is_of B.Pool.is_of d.new bytes.entry.now) }
            { deserialize_element::<T, A>(bytes, pos, alloc, &mut d.0) },
            |d: &mut (A::Pool, B::Pool), pos: usize| -> Result<(U, PhantomData<U::Archived>), Error>
                requires there { HasValue B.shape B.knows bytes.now pos }
                requires kept { both_of A.Pool.is_of B.Pool.is_of d.old bytes.now }
                ensures value { DeserializesBy B.reads B.shape B.knows bytes.entry.now pos (λ q. q.0) result }
                ensures keeps { IfOk result (λ _. both_of A.Pool.is_of B.Pool.is_of d.new bytes.entry.now) }
            { deserialize_element::<U, B>(bytes, pos, alloc, &mut d.1) },
        )
    }
}
