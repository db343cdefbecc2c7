//! Counted pointers to slices are read back.
ghost use Rattle.std.specs.Prelude.{false, IfOk};
ghost use Rattle.std.specs.Rc.{rc_slice_items};
ghost use Rattle.archive_shape_layout.specs.Shape.Shape.{shared};
ghost use Rattle.archive_shape_layout.specs.Shape.Pointee.{slice};
ghost use Rattle.archive_forms_values.specs.Parts.{HasValue};
ghost use Rattle.archive_forms.specs.Deserializing.{DeserializesBy};
ghost use Rattle.archive_forms.specs.Steps.{StepTakes};
ghost use Rattle.archive_forms.specs.Reading.{reads_rc_slice};
ghost use Rattle.archive_forms.specs.Calls.Pointers.{DeserializesRcSlice, HasRcSliceKey};
ghost use Rattle.archive_forms.specs.Calls.Pools.{slice_pool_of, StaysOf, IsPooled, Reuses};
ghost use Rattle.archive_forms.specs.Calls.Steps.{StepReadsBack};

use crate::deserializing::deserialize::deserialize_element;
use crate::deserializing::once::read_elements_once;
use crate::deserializing::{Deserialize, Keeps, ReadBack, SharedPool};
use archive_forms_rc::{ArchivedRcSlice, RcFlavor, Shared};
use archive_forms_writing::Archive;
use archive_shape::{Error, Ref, Slice};
use std::alloc::Global;
use std::marker::PhantomData;
use std::rc::RcSlice;

/// Reads a counted pointer to a slice back, each element by the step. Its key is the position of the elements.
/// Elements that the deserializer keeps are not read again.
pub fn deserialize_rc_slice_each<
    T: Archive + Drop,
    A: ReadBack<T>,
    D: Keeps<RcSlice<T>, Slice<A>>,
    F: Fn(&mut D, usize) -> Result<(T, PhantomData<T::Archived>), Error>,
>(
    this: Ref<'_, ArchivedRcSlice<A, RcFlavor>>,
    alloc: Global,
    deserializer: &mut D,
    step: F,
) -> Result<Shared<RcSlice<T>>, Error>
    requires there { HasValue (shared false (slice A.shape)) A.knows this.bytes.now this.pos }
    requires kept { D.is_of deserializer.old this.bytes.now }
    requires takes { StepTakes F.Fn step A.shape A.knows D.is_of this.bytes.now this.pos }
    requires reads { StepReadsBack F.Fn step A.ReadBack D.is_of this.bytes.now }
    ensures value { DeserializesRcSlice A.ReadBack this.entry result }
    ensures key { IfOk result (HasRcSliceKey A.ReadBack this.entry) }
    ensures keeps { IfOk result (λ _. D.is_of deserializer.new this.entry.bytes.now) }
    ensures pooled { IfOk result (IsPooled rc_slice_items (D.kept deserializer.new)) }
    ensures unread { IfOk result (Reuses rc_slice_items D.kept deserializer.old deserializer.new) }
{
    let items = ArchivedRcSlice::get(this);
    let key = items.pos;
    let value = read_elements_once(items, alloc, deserializer, step)?;
    Ok(Shared { key, value })
}

impl<T, A: ReadBack<T>> ReadBack<Shared<RcSlice<T>>> for ArchivedRcSlice<A, RcFlavor> {
    ghost reads = { reads_rc_slice A.reads };
}

impl<T: Archive + Drop, A: Deserialize<T>> Deserialize<Shared<RcSlice<T>>>
    for ArchivedRcSlice<A, RcFlavor> {
    type Pool = SharedPool<RcSlice<T>, Slice<A>, A::Pool>;

    fn deserialize(
        this: &Ref<'_, ArchivedRcSlice<A, RcFlavor>>,
        alloc: Global,
        deserializer: &mut SharedPool<RcSlice<T>, Slice<A>, A::Pool>,
    ) -> Result<Shared<RcSlice<T>>, Error>
        requires there { HasValue (shared false (slice A.shape)) A.knows this.now.bytes.now this.now.pos }
        requires kept { slice_pool_of A.ReadBack A.Pool.is_of deserializer.old this.now.bytes.now }
        ensures value { DeserializesRcSlice A.ReadBack this.now result }
        ensures key { IfOk result (HasRcSliceKey A.ReadBack this.now) }
        ensures keeps { StaysOf (slice_pool_of A.ReadBack A.Pool.is_of) deserializer.new this.now result }
    {
        let bytes = this.bytes;
        deserialize_rc_slice_each::<T, A, SharedPool<RcSlice<T>, Slice<A>, A::Pool>, _>(
            *this,
            alloc,
            deserializer,
            |d: &mut SharedPool<RcSlice<T>, Slice<A>, A::Pool>, pos: usize| -> Result<
                (T, PhantomData<T::Archived>),
                Error,
            >
                requires there { HasValue A.shape A.knows bytes.now pos }
                requires kept { slice_pool_of A.ReadBack A.Pool.is_of d.old bytes.now }
                ensures value { DeserializesBy A.reads A.shape A.knows bytes.entry.now pos (λ q. q.0) result }
                ensures keeps { IfOk result (λ _. slice_pool_of A.ReadBack A.Pool.is_of d.new bytes.entry.now) }
            { deserialize_element::<T, A>(bytes, pos, alloc, &mut d.inside) },
        )
    }
}
