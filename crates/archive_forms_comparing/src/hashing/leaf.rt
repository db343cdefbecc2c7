//! Numbers, truth values and chars are hashed as their native values are.
ghost use Rattle.std.specs.Hash as fed;
ghost use Rattle.archive_forms_laws.specs.Views.{natural_of, integer_of, truth_of};
ghost use Rattle.archive_forms_laws.proofs.Forms.{alike};

use crate::ComparedNative;
use crate::hashing::ArchivedHash;
use archive_forms_values::native_of;
use archive_shape::{LittleEndian, Ref};
use std::hash::{Hash, Hasher};
use std::num::{NonZeroI8, NonZeroU8};

impl<N: ComparedNative> ArchivedHash for LittleEndian<N> {
    ghost hashed = { N.hashed };

    ghost alike = { N.alike };

    fn hash<H: Hasher>(this: &Ref<'_, LittleEndian<N>>, state: &mut H) {
        native_of(*this).hash(state);
    }
}

impl ArchivedHash for bool {
    ghost hashed = { λ v. fed.bool (truth_of v) };

    ghost alike = { alike.truths fed.bool };

    fn hash<H: Hasher>(this: &Ref<'_, bool>, state: &mut H) {
        native_of(*this).hash(state);
    }
}

impl ArchivedHash for u8 {
    ghost hashed = { λ v. fed.u8 (natural_of v) };

    ghost alike = { alike.naturals fed.u8 };

    fn hash<H: Hasher>(this: &Ref<'_, u8>, state: &mut H) {
        native_of(*this).hash(state);
    }
}

impl ArchivedHash for NonZeroU8 {
    ghost hashed = { λ v. fed.u8 (natural_of v) };

    ghost alike = { alike.naturals fed.u8 };

    fn hash<H: Hasher>(this: &Ref<'_, NonZeroU8>, state: &mut H) {
        native_of(*this).hash(state);
    }
}

impl ArchivedHash for i8 {
    ghost hashed = { λ v. fed.i8 (integer_of v) };

    ghost alike = { alike.integers fed.i8 };

    fn hash<H: Hasher>(this: &Ref<'_, i8>, state: &mut H) {
        native_of(*this).hash(state);
    }
}

impl ArchivedHash for NonZeroI8 {
    ghost hashed = { λ v. fed.i8 (integer_of v) };

    ghost alike = { alike.integers fed.i8 };

    fn hash<H: Hasher>(this: &Ref<'_, NonZeroI8>, state: &mut H) {
        native_of(*this).hash(state);
    }
}
