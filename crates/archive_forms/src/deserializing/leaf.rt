//! Numbers, truth values and chars are read back.
ghost use Rattle.archive_forms.specs.Reading.{reads_as};

use crate::deserializing::{Deserialize, ReadBack};
use archive_forms_values::native_of;
use archive_forms_writing::{Archive, Leaf};
use archive_shape::{Error, LittleEndian, Native, Ref};
use std::alloc::Global;
use std::num::{NonZeroI8, NonZeroU8};

impl<N: Native + Leaf<Archived = LittleEndian<N>>> ReadBack<N> for LittleEndian<N> {
    ghost reads = { reads_as ⟦<N as Archive>⟧.spelling };
}

impl<N: Native + Leaf<Archived = LittleEndian<N>>> Deserialize<N> for LittleEndian<N> {
    type Pool = ();

    fn deserialize(
        this: &Ref<'_, LittleEndian<N>>,
        _alloc: Global,
        _deserializer: &mut (),
    ) -> Result<N, Error> {
        Ok(native_of(*this))
    }
}

impl ReadBack<bool> for bool {
    ghost reads = { reads_as ⟦<bool as Archive>⟧.spelling };
}

impl Deserialize<bool> for bool {
    type Pool = ();

    fn deserialize(
        this: &Ref<'_, bool>,
        _alloc: Global,
        _deserializer: &mut (),
    ) -> Result<bool, Error> {
        Ok(native_of(*this))
    }
}

impl ReadBack<u8> for u8 {
    ghost reads = { reads_as ⟦<u8 as Archive>⟧.spelling };
}

impl Deserialize<u8> for u8 {
    type Pool = ();

    fn deserialize(
        this: &Ref<'_, u8>,
        _alloc: Global,
        _deserializer: &mut (),
    ) -> Result<u8, Error> {
        Ok(native_of(*this))
    }
}

impl ReadBack<i8> for i8 {
    ghost reads = { reads_as ⟦<i8 as Archive>⟧.spelling };
}

impl Deserialize<i8> for i8 {
    type Pool = ();

    fn deserialize(
        this: &Ref<'_, i8>,
        _alloc: Global,
        _deserializer: &mut (),
    ) -> Result<i8, Error> {
        Ok(native_of(*this))
    }
}

impl ReadBack<NonZeroU8> for NonZeroU8 {
    ghost reads = { reads_as ⟦<NonZeroU8 as Archive>⟧.spelling };
}

impl Deserialize<NonZeroU8> for NonZeroU8 {
    type Pool = ();

    fn deserialize(
        this: &Ref<'_, NonZeroU8>,
        _alloc: Global,
        _deserializer: &mut (),
    ) -> Result<NonZeroU8, Error> {
        Ok(native_of(*this))
    }
}

impl ReadBack<NonZeroI8> for NonZeroI8 {
    ghost reads = { reads_as ⟦<NonZeroI8 as Archive>⟧.spelling };
}

impl Deserialize<NonZeroI8> for NonZeroI8 {
    type Pool = ();

    fn deserialize(
        this: &Ref<'_, NonZeroI8>,
        _alloc: Global,
        _deserializer: &mut (),
    ) -> Result<NonZeroI8, Error> {
        Ok(native_of(*this))
    }
}
