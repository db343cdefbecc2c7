//! Counted pointers to values are read back.
ghost use Rattle.std.specs.Prelude.{false, IfOk};
ghost use Rattle.archive_shape_layout.specs.Shape.Shape.{shared};
ghost use Rattle.archive_shape_layout.specs.Shape.Pointee.{sized};
ghost use Rattle.archive_forms_values.specs.Parts.{HasValue};
ghost use Rattle.archive_forms.specs.Deserializing.{DeserializesBy};
ghost use Rattle.archive_forms.specs.Steps.{StepTakes};
ghost use Rattle.archive_forms.specs.Reading.{reads_rc};
ghost use Rattle.archive_forms.specs.Calls.Pointers.{DeserializesRc, HasRcKey};
ghost use Rattle.archive_forms.specs.Calls.Pools.{value_pool_of, StaysOf, IsPooled, ReusesAt};
ghost use Rattle.archive_forms.specs.Calls.Steps.{StepReadsBack};

use crate::deserializing::deserialize::deserialize_element;
use crate::deserializing::once::read_value_once;
use crate::deserializing::{Deserialize, Keeps, ReadBack, SharedPool};
use archive_forms_rc::{ArchivedRc, RcFlavor, Shared};
use archive_forms_writing::Archive;
use archive_shape::{Error, Ref};
use std::alloc::Global;
use std::marker::PhantomData;
use std::rc::Rc;

/// Reads a counted pointer back, its value by the step. Its key is the position of the value, so pointers to one value
/// have one key, and no other value has that key. A value that the deserializer keeps is not read again.
pub fn deserialize_rc_each<
    T: Archive + Drop,
    A: ReadBack<T>,
    D: Keeps<Rc<T>, A>,
    F: Fn(&mut D, usize) -> Result<(T, PhantomData<T::Archived>), Error>,
>(
    this: Ref<'_, ArchivedRc<A, RcFlavor>>,
    alloc: Global,
    deserializer: &mut D,
    step: F,
) -> Result<Shared<Rc<T>>, Error>
    requires there { HasValue (shared false (sized A.shape)) A.knows this.bytes.now this.pos }
    requires kept { D.is_of deserializer.old this.bytes.now }
    requires takes { StepTakes F.Fn step A.shape A.knows D.is_of this.bytes.now this.pos }
    requires reads { StepReadsBack F.Fn step A.ReadBack D.is_of this.bytes.now }
    ensures value { DeserializesRc A.ReadBack this.entry result }
    ensures key { IfOk result (HasRcKey A.ReadBack this.entry) }
    ensures keeps { IfOk result (λ _. D.is_of deserializer.new this.entry.bytes.now) }
    ensures pooled { IfOk result (IsPooled (λ p. p.value) (D.kept deserializer.new)) }
    ensures unread { IfOk result (λ x. ReusesAt D.kept x.key deserializer.old deserializer.new) }
{
    let target = ArchivedRc::get(this);
    let key = target.pos;
    let value = read_value_once(target, alloc, deserializer, step)?;
    Ok(Shared { key, value })
}

impl<T, A: ReadBack<T>> ReadBack<Shared<Rc<T>>> for ArchivedRc<A, RcFlavor> {
    ghost reads = { reads_rc A.reads };
}

impl<T: Archive + Drop, A: Deserialize<T>> Deserialize<Shared<Rc<T>>> for ArchivedRc<A, RcFlavor> {
    type Pool = SharedPool<Rc<T>, A, A::Pool>;

    fn deserialize(
        this: &Ref<'_, ArchivedRc<A, RcFlavor>>,
        alloc: Global,
        deserializer: &mut SharedPool<Rc<T>, A, A::Pool>,
    ) -> Result<Shared<Rc<T>>, Error>
        requires there { HasValue (shared false (sized A.shape)) A.knows this.now.bytes.now this.now.pos }
        requires kept { value_pool_of A.ReadBack A.Pool.is_of deserializer.old this.now.bytes.now }
        ensures value { DeserializesRc A.ReadBack this.now result }
        ensures key { IfOk result (HasRcKey A.ReadBack this.now) }
        ensures keeps { StaysOf (value_pool_of A.ReadBack A.Pool.is_of) deserializer.new this.now result }
    {
        let bytes = this.bytes;
        deserialize_rc_each::<T, A, SharedPool<Rc<T>, A, A::Pool>, _>(
            *this,
            alloc,
            deserializer,
            |d: &mut SharedPool<Rc<T>, A, A::Pool>, pos: usize| -> Result<
                (T, PhantomData<T::Archived>),
                Error,
            >
                requires there { HasValue A.shape A.knows bytes.now pos }
                requires kept { value_pool_of A.ReadBack A.Pool.is_of d.old bytes.now }
                ensures value { DeserializesBy A.reads A.shape A.knows bytes.entry.now pos (λ q. q.0) result }
                ensures keeps { IfOk result (λ _. value_pool_of A.ReadBack A.Pool.is_of d.new bytes.entry.now) }
            { deserialize_element::<T, A>(bytes, pos, alloc, &mut d.inside) },
        )
    }
}
