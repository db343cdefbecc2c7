//! Tuples of four fields are read back.
ghost use Rattle.std.specs.Prelude.{IfOk};
ghost use Rattle.archive_forms_values.specs.Tuples.{tuple4};
ghost use Rattle.archive_forms.specs.Reading.{reads_tuple4};
ghost use Rattle.archive_forms.specs.Calls.Forms.{HasTuple4, DeserializesTuple4};
ghost use Rattle.archive_forms.specs.Calls.Steps.{StepTakesIn, StepReadsBack};

use crate::deserializing::deserialize::deserialize_element;
use crate::deserializing::{Deserialize, Deserializer, ReadBack};
use archive_forms_values::ArchivedTuple4;
use archive_forms_writing::Archive;
use archive_shape::{Error, Ref};
use std::alloc::Global;
use std::marker::PhantomData;

/// Reads a tuple of four fields back, in order, each field by its own step.
pub fn deserialize_tuple4_each<
    T: Archive + Drop,
    U: Archive + Drop,
    V: Archive + Drop,
    W: Archive,
    A: ReadBack<T>,
    B: ReadBack<U>,
    C: ReadBack<V>,
    D: ReadBack<W>,
    S: Deserializer,
    F: Fn(&mut S, usize) -> Result<(T, PhantomData<T::Archived>), Error>,
    G: Fn(&mut S, usize) -> Result<(U, PhantomData<U::Archived>), Error>,
    H: Fn(&mut S, usize) -> Result<(V, PhantomData<V::Archived>), Error>,
    I: Fn(&mut S, usize) -> Result<(W, PhantomData<W::Archived>), Error>,
>(
    this: Ref<'_, ArchivedTuple4<A, B, C, D>>,
    deserializer: &mut S,
    read_first: F,
    read_second: G,
    read_third: H,
    read_fourth: I,
) -> Result<(T, U, V, W), Error>
    requires there { HasTuple4 A.ReadBack B.ReadBack C.ReadBack D.ReadBack this }
    requires kept { S.is_of deserializer.old this.bytes.now }
    requires takes_first { StepTakesIn F.Fn read_first A.ReadBack S.is_of
        (tuple4 A.shape B.shape C.shape D.shape) this }
    requires reads_first { StepReadsBack F.Fn read_first A.ReadBack S.is_of this.bytes.now }
    requires takes_second { StepTakesIn G.Fn read_second B.ReadBack S.is_of
        (tuple4 A.shape B.shape C.shape D.shape) this }
    requires reads_second { StepReadsBack G.Fn read_second B.ReadBack S.is_of this.bytes.now }
    requires takes_third { StepTakesIn H.Fn read_third C.ReadBack S.is_of
        (tuple4 A.shape B.shape C.shape D.shape) this }
    requires reads_third { StepReadsBack H.Fn read_third C.ReadBack S.is_of this.bytes.now }
    requires takes_fourth { StepTakesIn I.Fn read_fourth D.ReadBack S.is_of
        (tuple4 A.shape B.shape C.shape D.shape) this }
    requires reads_fourth { StepReadsBack I.Fn read_fourth D.ReadBack S.is_of this.bytes.now }
    ensures value { DeserializesTuple4 A.ReadBack B.ReadBack C.ReadBack D.ReadBack this.entry result }
    ensures keeps { IfOk result (λ _. S.is_of deserializer.new this.entry.bytes.now) }
{
    let t = read_first(deserializer, ArchivedTuple4::first(this).pos)?.0;
    let u = read_second(deserializer, ArchivedTuple4::second(this).pos)?.0;
    let v = read_third(deserializer, ArchivedTuple4::third(this).pos)?.0;
    let w = read_fourth(deserializer, ArchivedTuple4::fourth(this).pos)?.0;
    Ok((t, u, v, w))
}

impl<T, U, V, W, A: ReadBack<T>, B: ReadBack<U>, C: ReadBack<V>, D: ReadBack<W>> ReadBack<
    (T, U, V, W),
> for ArchivedTuple4<A, B, C, D> {
    ghost reads = { reads_tuple4 A.reads B.reads C.reads D.reads };
}

impl<
    T: Archive + Drop,
    U: Archive + Drop,
    V: Archive + Drop,
    W: Archive,
    A: Deserialize<T>,
    B: Deserialize<U>,
    C: Deserialize<V>,
    D: Deserialize<W>,
> Deserialize<(T, U, V, W)> for ArchivedTuple4<A, B, C, D> {
    type Pool = (A::Pool, B::Pool, C::Pool, D::Pool);

    fn deserialize(
        this: &Ref<'_, ArchivedTuple4<A, B, C, D>>,
        alloc: Global,
        deserializer: &mut (A::Pool, B::Pool, C::Pool, D::Pool),
    ) -> Result<(T, U, V, W), Error> {
        let bytes = this.bytes;
        let at = ArchivedTuple4::first(*this).pos;
        let t = deserialize_element::<T, A>(bytes, at, alloc, &mut deserializer.0)?.0;
        let at = ArchivedTuple4::second(*this).pos;
        let u = deserialize_element::<U, B>(bytes, at, alloc, &mut deserializer.1)?.0;
        let at = ArchivedTuple4::third(*this).pos;
        let v = deserialize_element::<V, C>(bytes, at, alloc, &mut deserializer.2)?.0;
        let at = ArchivedTuple4::fourth(*this).pos;
        let w = deserialize_element::<W, D>(bytes, at, alloc, &mut deserializer.3)?.0;
        Ok((t, u, v, w))
    }
}
