//! Vectors, arrays and boxes of slices are hashed: the number of elements first, and then each element.
ghost use Rattle.archive_forms_laws.specs.Orders.{vector_hashed};
ghost use Rattle.archive_forms_laws.proofs.Forms.{alike};
ghost use Rattle.archive_forms_values.specs.Parts.{HasElements};
ghost use Rattle.archive_forms_comparing.specs.Calls.Comparing.{HashesElements};

use crate::hashing::ArchivedHash;
use crate::{array_elements, boxed_elements, element, vector_elements};
use archive_forms_values::{ArchivedBoxedSlice, ArchivedVec, SliceRef};
use archive_shape::Ref;
use std::hash::Hasher;

/// Feeds the number of elements to the hasher, and then each element.
pub fn hash_elements<T: ArchivedHash, H: Hasher>(elements: &SliceRef<'_, T>, state: &mut H)
    requires { HasElements T.shape T.knows elements.now.bytes.now elements.now.pos elements.now.len }
    ensures { HashesElements T.shape T.knows elements.now H.write T.hashed state.old state.new }
{
    state.write_usize(elements.len());
    for index in 0..elements.len() {
        T::hash(&element(elements, index), state);
    }
}

impl<T: ArchivedHash> ArchivedHash for ArchivedVec<T> {
    ghost hashed = { vector_hashed T.hashed };

    ghost alike = { alike.vectors T.equal T.hashed T.alike };

    fn hash<H: Hasher>(this: &Ref<'_, ArchivedVec<T>>, state: &mut H) {
        hash_elements(&vector_elements(this), state);
    }
}

impl<T: ArchivedHash, const N: usize> ArchivedHash for [T; N] {
    ghost hashed = { vector_hashed T.hashed };

    ghost alike = { alike.vectors T.equal T.hashed T.alike };

    fn hash<H: Hasher>(this: &Ref<'_, [T; N]>, state: &mut H) {
        hash_elements(&array_elements(this), state);
    }
}

impl<T: ArchivedHash> ArchivedHash for ArchivedBoxedSlice<T> {
    ghost hashed = { vector_hashed T.hashed };

    ghost alike = { alike.vectors T.equal T.hashed T.alike };

    fn hash<H: Hasher>(this: &Ref<'_, ArchivedBoxedSlice<T>>, state: &mut H) {
        hash_elements(&boxed_elements(this), state);
    }
}
