//! Boxes are read back.
ghost use Rattle.std.specs.Prelude.{refl, IfOk};
ghost use Rattle.archive_shape_layout.specs.Shape.Shape.{box};
ghost use Rattle.archive_shape_layout.specs.Shape.Pointee.{sized};
ghost use Rattle.archive_forms_values.specs.Parts.{HasValue};
ghost use Rattle.archive_forms.specs.Deserializing.{DeserializesBy};
ghost use Rattle.archive_forms.specs.Reading.{reads_in};
ghost use Rattle.archive_forms.specs.Steps.{StepTakes};
ghost use Rattle.archive_forms.specs.Calls.Forms.{DeserializesBox};
ghost use Rattle.archive_forms.specs.Calls.Steps.{StepReadsBack};

use crate::deserializing::deserialize::deserialize_element;
use crate::deserializing::{Deserialize, DeserializeUnsized, Deserializer, ReadBack};
use archive_forms_values::ArchivedBox;
use archive_forms_writing::Archive;
use archive_shape::{Error, Ref};
use std::alloc::Global;
use std::marker::PhantomData;

/// Reads a box back, its value by the step.
pub fn deserialize_box_each<
    T: Archive + Drop,
    A: ReadBack<T>,
    D: Deserializer,
    F: Fn(&mut D, usize) -> Result<(T, PhantomData<T::Archived>), Error>,
>(
    this: Ref<'_, ArchivedBox<A>>,
    alloc: Global,
    deserializer: &mut D,
    step: F,
) -> Result<Box<T>, Error>
    requires there { HasValue (box (sized A.shape)) A.knows this.bytes.now this.pos }
    requires kept { D.is_of deserializer.old this.bytes.now }
    requires takes { StepTakes F.Fn step A.shape A.knows D.is_of this.bytes.now this.pos }
    requires reads { StepReadsBack F.Fn step A.ReadBack D.is_of this.bytes.now }
    ensures value { DeserializesBox A.ReadBack this.entry result }
    ensures keeps { IfOk result (λ _. D.is_of deserializer.new this.entry.bytes.now) }
{
    let value = step(deserializer, ArchivedBox::get(this).pos)?.0;
    match Box::new(alloc, value) {
        Ok(boxed) => Ok(boxed),
        Err(_) => Err(Error::OutOfMemory),
    }
}

impl<T, A: ReadBack<T>> ReadBack<Box<T>> for ArchivedBox<A> {
    ghost reads = { reads_in (λ b. b.value) A.reads };
}

impl<T: Archive + Drop, A: Deserialize<T>> DeserializeUnsized<Box<T>> for A {
    type Boxed = ArchivedBox<A>;

    type Pool = A::Pool;

    fn deserialize_unsized(
        this: &Ref<'_, ArchivedBox<A>>,
        alloc: Global,
        deserializer: &mut A::Pool,
    ) -> Result<Box<T>, Error> {
        let bytes = this.bytes;
        deserialize_box_each::<T, A, A::Pool, _>(
            *this,
            alloc,
            deserializer,
            |d: &mut A::Pool, pos: usize| -> Result<(T, PhantomData<T::Archived>), Error>
                requires there { HasValue A.shape A.knows bytes.now pos }
                requires kept { A.Pool.is_of d.old bytes.now }
                ensures value { DeserializesBy A.reads A.shape A.knows bytes.entry.now pos (λ q. q.0) result }
                ensures keeps { IfOk result (λ _. A.Pool.is_of d.new bytes.entry.now) }
            { deserialize_element::<T, A>(bytes, pos, alloc, d) },
        )
    }

    ghost boxed = { refl };
}

impl<T: Archive + Drop, A: Deserialize<T>> Deserialize<Box<T>> for ArchivedBox<A> {
    type Pool = A::Pool;

    fn deserialize(
        this: &Ref<'_, ArchivedBox<A>>,
        alloc: Global,
        deserializer: &mut A::Pool,
    ) -> Result<Box<T>, Error> {
        <A as DeserializeUnsized<Box<T>>>::deserialize_unsized(this, alloc, deserializer)
    }
}
