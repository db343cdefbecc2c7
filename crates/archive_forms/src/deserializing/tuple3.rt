//! Tuples of three fields are read back.
ghost use Rattle.std.specs.Prelude.{IfOk};
ghost use Rattle.archive_forms_values.specs.Tuples.{tuple3};
ghost use Rattle.archive_forms.specs.Reading.{reads_tuple3};
ghost use Rattle.archive_forms.specs.Calls.Forms.{HasTuple3, DeserializesTuple3};
ghost use Rattle.archive_forms.specs.Calls.Steps.{StepTakesIn, StepReadsBack};

use crate::deserializing::deserialize::deserialize_element;
use crate::deserializing::{Deserialize, Deserializer, ReadBack};
use archive_forms_values::ArchivedTuple3;
use archive_forms_writing::Archive;
use archive_shape::{Error, Ref};
use std::alloc::Global;
use std::marker::PhantomData;

/// Reads a tuple of three fields back, in order, each field by its own step.
pub fn deserialize_tuple3_each<
    T: Archive + Drop,
    U: Archive + Drop,
    V: Archive,
    A: ReadBack<T>,
    B: ReadBack<U>,
    C: ReadBack<V>,
    S: Deserializer,
    F: Fn(&mut S, usize) -> Result<(T, PhantomData<T::Archived>), Error>,
    G: Fn(&mut S, usize) -> Result<(U, PhantomData<U::Archived>), Error>,
    H: Fn(&mut S, usize) -> Result<(V, PhantomData<V::Archived>), Error>,
>(
    this: Ref<'_, ArchivedTuple3<A, B, C>>,
    deserializer: &mut S,
    read_first: F,
    read_second: G,
    read_third: H,
) -> Result<(T, U, V), Error>
    requires there { HasTuple3 A.ReadBack B.ReadBack C.ReadBack this }
    requires kept { S.is_of deserializer.old this.bytes.now }
    requires takes_first { StepTakesIn F.Fn read_first A.ReadBack S.is_of
        (tuple3 A.shape B.shape C.shape) this }
    requires reads_first { StepReadsBack F.Fn read_first A.ReadBack S.is_of this.bytes.now }
    requires takes_second { StepTakesIn G.Fn read_second B.ReadBack S.is_of
        (tuple3 A.shape B.shape C.shape) this }
    requires reads_second { StepReadsBack G.Fn read_second B.ReadBack S.is_of this.bytes.now }
    requires takes_third { StepTakesIn H.Fn read_third C.ReadBack S.is_of
        (tuple3 A.shape B.shape C.shape) this }
    requires reads_third { StepReadsBack H.Fn read_third C.ReadBack S.is_of this.bytes.now }
    ensures value { DeserializesTuple3 A.ReadBack B.ReadBack C.ReadBack this.entry result }
    ensures keeps { IfOk result (λ _. S.is_of deserializer.new this.entry.bytes.now) }
{
    let t = read_first(deserializer, ArchivedTuple3::first(this).pos)?.0;
    let u = read_second(deserializer, ArchivedTuple3::second(this).pos)?.0;
    let v = read_third(deserializer, ArchivedTuple3::third(this).pos)?.0;
    Ok((t, u, v))
}

impl<T, U, V, A: ReadBack<T>, B: ReadBack<U>, C: ReadBack<V>> ReadBack<(T, U, V)>
    for ArchivedTuple3<A, B, C> {
    ghost reads = { reads_tuple3 A.reads B.reads C.reads };
}

impl<
    T: Archive + Drop,
    U: Archive + Drop,
    V: Archive,
    A: Deserialize<T>,
    B: Deserialize<U>,
    C: Deserialize<V>,
> Deserialize<(T, U, V)> for ArchivedTuple3<A, B, C> {
    type Pool = (A::Pool, B::Pool, C::Pool);

    fn deserialize(
        this: &Ref<'_, ArchivedTuple3<A, B, C>>,
        alloc: Global,
        deserializer: &mut (A::Pool, B::Pool, C::Pool),
    ) -> Result<(T, U, V), Error> {
        let bytes = this.bytes;
        let at = ArchivedTuple3::first(*this).pos;
        let t = deserialize_element::<T, A>(bytes, at, alloc, &mut deserializer.0)?.0;
        let at = ArchivedTuple3::second(*this).pos;
        let u = deserialize_element::<U, B>(bytes, at, alloc, &mut deserializer.1)?.0;
        let at = ArchivedTuple3::third(*this).pos;
        let v = deserialize_element::<V, C>(bytes, at, alloc, &mut deserializer.2)?.0;
        Ok((t, u, v))
    }
}
