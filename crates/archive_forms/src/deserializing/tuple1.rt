//! Tuples of one field are read back.
ghost use Rattle.std.specs.Prelude.{IfOk};
ghost use Rattle.archive_forms_values.specs.Tuples.{tuple1};
ghost use Rattle.archive_forms_values.specs.Parts.{HasValue};
ghost use Rattle.archive_forms.specs.Deserializing.{DeserializesBy};
ghost use Rattle.archive_forms.specs.Keeping.{one_of};
ghost use Rattle.archive_forms.specs.Reading.{reads_tuple1};
ghost use Rattle.archive_forms.specs.Calls.Forms.{DeserializesTuple1};
ghost use Rattle.archive_forms.specs.Calls.Steps.{StepTakesIn, StepReadsBack};

use crate::deserializing::deserialize::deserialize_element;
use crate::deserializing::{Deserialize, Deserializer, ReadBack};
use archive_forms_values::ArchivedTuple1;
use archive_forms_writing::Archive;
use archive_shape::{Error, Ref};
use std::alloc::Global;
use std::marker::PhantomData;

/// Reads a tuple of one field back, the field by the step.
pub fn deserialize_tuple1_each<
    T: Archive,
    A: ReadBack<T>,
    S: Deserializer,
    F: Fn(&mut S, usize) -> Result<(T, PhantomData<T::Archived>), Error>,
>(this: Ref<'_, ArchivedTuple1<A>>, deserializer: &mut S, read_first: F) -> Result<(T,), Error>
    requires there { HasValue (tuple1 A.shape) A.knows this.bytes.now this.pos }
    requires kept { S.is_of deserializer.old this.bytes.now }
    requires takes_first { StepTakesIn F.Fn read_first A.ReadBack S.is_of (tuple1 A.shape) this }
    requires reads_first { StepReadsBack F.Fn read_first A.ReadBack S.is_of this.bytes.now }
    ensures value { DeserializesTuple1 A.ReadBack this.entry result }
    ensures keeps { IfOk result (λ _. S.is_of deserializer.new this.entry.bytes.now) }
{
    let t = read_first(deserializer, ArchivedTuple1::first(this).pos)?.0;
    Ok((t,))
}

impl<T, A: ReadBack<T>> ReadBack<(T,)> for ArchivedTuple1<A> {
    ghost reads = { reads_tuple1 A.reads };
}

impl<T: Archive, A: Deserialize<T>> Deserialize<(T,)> for ArchivedTuple1<A> {
    type Pool = (A::Pool,);

    fn deserialize(
        this: &Ref<'_, ArchivedTuple1<A>>,
        alloc: Global,
        deserializer: &mut (A::Pool,),
    ) -> Result<(T,), Error> {
        let bytes = this.bytes;
        deserialize_tuple1_each::<T, A, (A::Pool,), _>(
            *this,
            deserializer,
            |d: &mut (A::Pool,), pos: usize| -> Result<(T, PhantomData<T::Archived>), Error>
                requires there { HasValue A.shape A.knows bytes.now pos }
                requires kept { one_of A.Pool.is_of d.old bytes.now }
                ensures value { DeserializesBy A.reads A.shape A.knows bytes.entry.now pos (λ q. q.0) result }
                ensures keeps { IfOk result (λ _. one_of A.Pool.is_of d.new bytes.entry.now) }
            { deserialize_element::<T, A>(bytes, pos, alloc, &mut d.0) },
        )
    }
}
