//! Boxes of slices and of texts are read back.
ghost use Rattle.std.specs.Prelude.{refl, IfOk};
ghost use Rattle.std.specs.Box.{boxed_slice_items, boxed_str_bytes};
ghost use Rattle.archive_shape_layout.specs.Shape.Shape.{box};
ghost use Rattle.archive_shape_layout.specs.Shape.Pointee.{slice};
ghost use Rattle.archive_forms_laws.specs.Forms.{seen_as};
ghost use Rattle.archive_forms_values.specs.Parts.{HasValue};
ghost use Rattle.archive_forms_writing.specs.Owned.{boxed_str_spelling};
ghost use Rattle.archive_forms.specs.Deserializing.{DeserializesBy};
ghost use Rattle.archive_forms.specs.Reading.{reads_all, reads_as, reads_in};
ghost use Rattle.archive_forms.specs.Steps.{StepTakes};
ghost use Rattle.archive_forms.specs.Calls.Forms.{DeserializesBoxedSlice};
ghost use Rattle.archive_forms.specs.Calls.Steps.{StepReadsBack};

use crate::deserializing::deserialize::deserialize_element;
use crate::deserializing::{
    Deserialize, DeserializeUnsized, Deserializer, ReadBack, deserialize_vec_each,
};
use archive_forms_values::{ArchivedBoxedSlice, ArchivedBoxedStr, ArchivedVec};
use archive_forms_writing::Archive;
use archive_shape::{Error, Ref, Slice, Str};
use std::alloc::Global;
use std::boxed::{BoxedSlice, BoxedStr};
use std::marker::PhantomData;

/// Reads the box of a slice back, each element by the step.
pub fn deserialize_boxed_slice_each<
    T: Archive + Drop,
    A: ReadBack<T>,
    D: Deserializer,
    F: Fn(&mut D, usize) -> Result<(T, PhantomData<T::Archived>), Error>,
>(
    this: Ref<'_, ArchivedBoxedSlice<A>>,
    alloc: Global,
    deserializer: &mut D,
    step: F,
) -> Result<BoxedSlice<T>, Error>
    requires there { HasValue (box (slice A.shape)) A.knows this.bytes.now this.pos }
    requires kept { D.is_of deserializer.old this.bytes.now }
    requires takes { StepTakes F.Fn step A.shape A.knows D.is_of this.bytes.now this.pos }
    requires reads { StepReadsBack F.Fn step A.ReadBack D.is_of this.bytes.now }
    ensures value { DeserializesBoxedSlice A.ReadBack this.entry result }
    ensures keeps { IfOk result (λ _. D.is_of deserializer.new this.entry.bytes.now) }
{
    let vector = Ref::<ArchivedVec<A>> {
        bytes: this.bytes,
        pos: this.pos,
        of: PhantomData,
    };
    let all = deserialize_vec_each::<T, A, D, F>(vector, alloc, deserializer, step)?;
    Ok(all.into_boxed_slice())
}

impl<T, A: ReadBack<T>> ReadBack<BoxedSlice<T>> for ArchivedBoxedSlice<A> {
    ghost reads = { reads_in boxed_slice_items (reads_all A.reads) };
}

impl<T: Archive + Drop, A: Deserialize<T>> DeserializeUnsized<BoxedSlice<T>> for Slice<A> {
    type Boxed = ArchivedBoxedSlice<A>;

    type Pool = A::Pool;

    fn deserialize_unsized(
        this: &Ref<'_, ArchivedBoxedSlice<A>>,
        alloc: Global,
        deserializer: &mut A::Pool,
    ) -> Result<BoxedSlice<T>, Error> {
        let bytes = this.bytes;
        deserialize_boxed_slice_each::<T, A, A::Pool, _>(
            *this,
            alloc,
            deserializer,
            |d: &mut A::Pool, pos: usize| -> Result<(T, PhantomData<T::Archived>), Error>
                requires there { HasValue A.shape A.knows bytes.now pos }
                requires kept { A.Pool.is_of d.old bytes.now }
                ensures value { DeserializesBy A.reads A.shape A.knows bytes.entry.now pos (λ q. q.0) result }
                ensures keeps { IfOk result (λ _. A.Pool.is_of d.new bytes.entry.now) }
            { deserialize_element::<T, A>(bytes, pos, alloc, d) },
        )
    }

    ghost boxed = { refl };
}

impl<T: Archive + Drop, A: Deserialize<T>> Deserialize<BoxedSlice<T>> for ArchivedBoxedSlice<A> {
    type Pool = A::Pool;

    fn deserialize(
        this: &Ref<'_, ArchivedBoxedSlice<A>>,
        alloc: Global,
        deserializer: &mut A::Pool,
    ) -> Result<BoxedSlice<T>, Error> {
        <Slice<A> as DeserializeUnsized<BoxedSlice<T>>>::deserialize_unsized(
            this,
            alloc,
            deserializer,
        )
    }
}

impl DeserializeUnsized<BoxedStr> for Str {
    type Boxed = ArchivedBoxedStr;

    type Pool = ();

    fn deserialize_unsized(
        this: &Ref<'_, ArchivedBoxedStr>,
        alloc: Global,
        _deserializer: &mut (),
    ) -> Result<BoxedStr, Error> {
        match BoxedStr::from_str(alloc, ArchivedBoxedStr::get(*this)) {
            Ok(text) => Ok(text),
            Err(_) => Err(Error::OutOfMemory),
        }
    }

    ghost boxed = { refl };
}

impl ReadBack<BoxedStr> for ArchivedBoxedStr {
    ghost reads = { reads_as (seen_as boxed_str_bytes boxed_str_spelling) };
}

impl Deserialize<BoxedStr> for ArchivedBoxedStr {
    type Pool = ();

    fn deserialize(
        this: &Ref<'_, ArchivedBoxedStr>,
        alloc: Global,
        deserializer: &mut (),
    ) -> Result<BoxedStr, Error> {
        <Str as DeserializeUnsized<BoxedStr>>::deserialize_unsized(this, alloc, deserializer)
    }
}
