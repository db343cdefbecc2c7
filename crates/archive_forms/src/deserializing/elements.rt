//! Adjacent elements are read back.
ghost use Rattle.std.specs.Prelude.{IfOk};
ghost use Rattle.archive_forms_values.specs.Parts.{HasElements};
ghost use Rattle.archive_forms.specs.Calls.Forms.{DeserializesElements};
ghost use Rattle.archive_forms.specs.Calls.Steps.{StepTakesEach, StepReadsBack};

use crate::deserializing::{Deserializer, ReadBack};
use archive_forms_values::SliceRef;
use archive_forms_writing::Archive;
use archive_shape::Error;
use std::alloc::Global;
use std::marker::PhantomData;

/// Reads the elements of a slice back, each by the step. Memory is allocated as elements are read.
pub fn deserialize_elements_each<
    T: Archive + Drop,
    A: ReadBack<T>,
    D: Deserializer,
    F: Fn(&mut D, usize) -> Result<(T, PhantomData<T::Archived>), Error>,
>(items: SliceRef<'_, A>, alloc: Global, deserializer: &mut D, step: F) -> Result<Vec<T>, Error>
    requires there { HasElements A.shape A.knows items.bytes.now items.pos items.len }
    requires kept { D.is_of deserializer.old items.bytes.now }
    requires takes { StepTakesEach F.Fn step A.ReadBack D.is_of items }
    requires reads { StepReadsBack F.Fn step A.ReadBack D.is_of items.bytes.now }
    ensures values { DeserializesElements (λ all. all.items) A.ReadBack items.entry result }
    ensures keeps { IfOk result (λ _. D.is_of deserializer.new items.entry.bytes.now) }
{
    let mut all = Vec::new(alloc);
    for index in 0..items.len() {
        let item = items.get(index).unwrap();
        let value = step(deserializer, item.pos)?.0;
        if all.push(value).is_err() {
            return Err(Error::OutOfMemory);
        }
    }
    Ok(all)
}
