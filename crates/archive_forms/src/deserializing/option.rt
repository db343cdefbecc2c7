//! Options are read back.
ghost use Rattle.std.specs.Prelude.{IfOk};
ghost use Rattle.archive_shape_layout.specs.Shape.Shape.{option};
ghost use Rattle.archive_forms_values.specs.Parts.{HasValue};
ghost use Rattle.archive_forms.specs.Deserializing.{DeserializesBy};
ghost use Rattle.archive_forms.specs.Reading.{reads_option};
ghost use Rattle.archive_forms.specs.Calls.Forms.{DeserializesOption};
ghost use Rattle.archive_forms.specs.Calls.Steps.{StepTakesIn, StepReadsBack};

use crate::deserializing::deserialize::deserialize_element;
use crate::deserializing::{Deserialize, Deserializer, ReadBack};
use archive_forms_values::ArchivedOption;
use archive_forms_writing::Archive;
use archive_shape::{Error, Ref};
use std::alloc::Global;
use std::marker::PhantomData;

/// Reads an option back, its value by the step.
pub fn deserialize_option_each<
    T: Archive,
    A: ReadBack<T>,
    D: Deserializer,
    F: Fn(&mut D, usize) -> Result<(T, PhantomData<T::Archived>), Error>,
>(this: Ref<'_, ArchivedOption<A>>, deserializer: &mut D, step: F) -> Result<Option<T>, Error>
    requires there { HasValue (option A.shape) A.knows this.bytes.now this.pos }
    requires kept { D.is_of deserializer.old this.bytes.now }
    requires takes { StepTakesIn F.Fn step A.ReadBack D.is_of (option A.shape) this }
    requires reads { StepReadsBack F.Fn step A.ReadBack D.is_of this.bytes.now }
    ensures value { DeserializesOption A.ReadBack this.entry result }
    ensures keeps { IfOk result (λ _. D.is_of deserializer.new this.entry.bytes.now) }
{
    match ArchivedOption::as_ref(this) {
        None => Ok(None),
        Some(value) => Ok(Some(step(deserializer, value.pos)?.0)),
    }
}

impl<T, A: ReadBack<T>> ReadBack<Option<T>> for ArchivedOption<A> {
    ghost reads = { reads_option A.reads };
}

impl<T: Archive, A: Deserialize<T>> Deserialize<Option<T>> for ArchivedOption<A> {
    type Pool = A::Pool;

    fn deserialize(
        this: &Ref<'_, ArchivedOption<A>>,
        alloc: Global,
        deserializer: &mut A::Pool,
    ) -> Result<Option<T>, Error> {
        let bytes = this.bytes;
        deserialize_option_each::<T, A, A::Pool, _>(
            *this,
            deserializer,
            |d: &mut A::Pool, pos: usize| -> Result<(T, PhantomData<T::Archived>), Error>
                requires there { HasValue A.shape A.knows bytes.now pos }
                requires kept { A.Pool.is_of d.old bytes.now }
                ensures value { DeserializesBy A.reads A.shape A.knows bytes.entry.now pos (λ q. q.0) result }
                ensures keeps { IfOk result (λ _. A.Pool.is_of d.new bytes.entry.now) }
            { deserialize_element::<T, A>(bytes, pos, alloc, d) },
        )
    }
}
