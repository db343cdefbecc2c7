//! Texts, and boxes of texts, are hashed as their native values are.
ghost use Rattle.archive_forms_laws.specs.Orders.{text_hashed};
ghost use Rattle.archive_forms_laws.proofs.Forms.{alike};

use crate::hashing::ArchivedHash;
use crate::{boxed_text, text_at};
use archive_forms_values::{ArchivedBoxedStr, ArchivedString};
use archive_shape::Ref;
use std::hash::{Hash, Hasher};

impl ArchivedHash for ArchivedString {
    ghost hashed = { text_hashed };

    ghost alike = { alike.texts };

    fn hash<H: Hasher>(this: &Ref<'_, ArchivedString>, state: &mut H) {
        Hash::hash(&text_at(this), state);
    }
}

impl ArchivedHash for ArchivedBoxedStr {
    ghost hashed = { text_hashed };

    ghost alike = { alike.texts };

    fn hash<H: Hasher>(this: &Ref<'_, ArchivedBoxedStr>, state: &mut H) {
        Hash::hash(&boxed_text(this), state);
    }
}
