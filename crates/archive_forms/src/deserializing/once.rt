//! What counted pointers lead to is read once for each position.
ghost use Rattle.std.specs.Prelude.{IfOk};
ghost use Rattle.std.specs.Rc.{rc_slice_items};
ghost use Rattle.archive_forms_values.specs.Parts.{HasValue, HasElements};
ghost use Rattle.archive_forms.specs.Calls.Forms.{DeserializesValue, DeserializesElements};
ghost use Rattle.archive_forms.specs.Calls.Pools.{IsPooledAt, ReusesAt, ReusesElements};
ghost use Rattle.archive_forms.specs.Calls.Steps.{StepTakesIn, StepTakesEach, StepReadsBack};

use crate::deserializing::elements::deserialize_elements_each;
use crate::deserializing::keeping::keep_clone;
use crate::deserializing::{Keeps, ReadBack};
use archive_forms_values::SliceRef;
use archive_forms_writing::Archive;
use archive_shape::{Error, Ref, Slice};
use std::alloc::Global;
use std::marker::PhantomData;
use std::rc::{Rc, RcSlice};

/// Returns a pointer to the value at a position: a clone of the one that is kept, if one is, and otherwise one to what
/// the step reads, of which a clone is kept.
pub(crate) fn read_value_once<
    T: Archive + Drop,
    A: ReadBack<T>,
    D: Keeps<Rc<T>, A>,
    F: Fn(&mut D, usize) -> Result<(T, PhantomData<T::Archived>), Error>,
>(value: Ref<'_, A>, alloc: Global, deserializer: &mut D, step: F) -> Result<Rc<T>, Error>
    requires there { HasValue A.shape A.knows value.bytes.now value.pos }
    requires kept { D.is_of deserializer.old value.bytes.now }
    requires takes { StepTakesIn F.Fn step A.ReadBack D.is_of A.shape value }
    requires reads { StepReadsBack F.Fn step A.ReadBack D.is_of value.bytes.now }
    ensures value { DeserializesValue (λ pointer. pointer.value) A.ReadBack value.entry result }
    ensures keeps { IfOk result (λ _. D.is_of deserializer.new value.entry.bytes.now) }
    ensures pooled { IfOk result (IsPooledAt (λ p. p.value) (D.kept deserializer.new) value.entry.pos) }
    ensures unread { ReusesAt D.kept value.entry.pos deserializer.old deserializer.new }
{
    let pos = value.pos;
    if let Some(pointer) = deserializer.clone_kept(pos)? {
        return Ok(pointer);
    }
    let read = step(deserializer, pos)?.0;
    let pointer = match Rc::new(alloc, read) {
        Ok(pointer) => pointer,
        Err(_) => return Err(Error::OutOfMemory),
    };
    keep_clone::<_, A, D>(deserializer, pos, pointer)
}

/// Returns a pointer to elements: a clone of the one that is kept for their position, if it leads to as many, and
/// otherwise one to what the step reads, of which a clone is kept.
pub(crate) fn read_elements_once<
    T: Archive + Drop,
    A: ReadBack<T>,
    D: Keeps<RcSlice<T>, Slice<A>>,
    F: Fn(&mut D, usize) -> Result<(T, PhantomData<T::Archived>), Error>,
>(items: SliceRef<'_, A>, alloc: Global, deserializer: &mut D, step: F) -> Result<RcSlice<T>, Error>
    requires there { HasElements A.shape A.knows items.bytes.now items.pos items.len }
    requires kept { D.is_of deserializer.old items.bytes.now }
    requires takes { StepTakesEach F.Fn step A.ReadBack D.is_of items }
    requires reads { StepReadsBack F.Fn step A.ReadBack D.is_of items.bytes.now }
    ensures values { DeserializesElements rc_slice_items A.ReadBack items.entry result }
    ensures keeps { IfOk result (λ _. D.is_of deserializer.new items.entry.bytes.now) }
    ensures pooled { IfOk result (IsPooledAt rc_slice_items (D.kept deserializer.new) items.entry.pos) }
    ensures unread { ReusesElements D.kept items.entry deserializer.old deserializer.new }
{
    let pos = items.pos;
    if let Some(pointer) = deserializer.clone_kept(pos)? {
        if pointer.len() == items.len() {
            return Ok(pointer);
        }
    }
    let all = deserialize_elements_each::<T, A, D, F>(items, alloc, deserializer, step)?;
    let pointer = match RcSlice::from_vec(all) {
        Ok(pointer) => pointer,
        Err(_) => return Err(Error::OutOfMemory),
    };
    keep_clone::<_, Slice<A>, D>(deserializer, pos, pointer)
}
