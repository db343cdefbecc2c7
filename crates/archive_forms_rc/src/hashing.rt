//! Counted pointers of flavors that forbid cycles are hashed as the values that they lead to, regardless of the
//! positions.
ghost use Rattle.std.specs.Hash.{on_Alike};
ghost use Rattle.archive_forms_laws.specs.Orders.{vector_hashed, text_hashed};
ghost use Rattle.archive_forms_laws.proofs.Forms.{alike};
ghost use Rattle.archive_forms_rc.specs.Compared.{counted_of, counted_hashed};

use crate::parts::{rc_elements, rc_text, rc_value};
use crate::{Acyclic, ArchivedRc, ArchivedRcSlice, ArchivedRcStr};
use archive_forms_comparing::{ArchivedHash, hash_elements};
use archive_shape::Ref;
use std::hash::{Hash, Hasher};

impl<T: ArchivedHash, L: Acyclic> ArchivedHash for ArchivedRc<T, L> {
    ghost hashed = { counted_hashed T.hashed };

    ghost alike = { on_Alike counted_of T.alike };

    fn hash<H: Hasher>(this: &Ref<'_, ArchivedRc<T, L>>, state: &mut H) {
        T::hash(&rc_value(this), state);
    }
}

impl<T: ArchivedHash, L: Acyclic> ArchivedHash for ArchivedRcSlice<T, L> {
    ghost hashed = { counted_hashed (vector_hashed T.hashed) };

    ghost alike = { on_Alike counted_of (alike.vectors T.equal T.hashed T.alike) };

    fn hash<H: Hasher>(this: &Ref<'_, ArchivedRcSlice<T, L>>, state: &mut H) {
        hash_elements(&rc_elements(this), state);
    }
}

impl<L: Acyclic> ArchivedHash for ArchivedRcStr<L> {
    ghost hashed = { counted_hashed text_hashed };

    ghost alike = { on_Alike counted_of alike.texts };

    fn hash<H: Hasher>(this: &Ref<'_, ArchivedRcStr<L>>, state: &mut H) {
        Hash::hash(&rc_text(this), state);
    }
}
