//! Texts are compared by their bytes.
ghost use Rattle.std.specs.Prelude.{⊤};
ghost use Rattle.archive_shape_layout.specs.Shape.Shape.{text};
ghost use Rattle.archive_forms_laws.specs.Views.{text_of};
ghost use Rattle.archive_forms_laws.specs.Orders.{text_equality, text_order};
ghost use Rattle.archive_forms_laws.proofs.Forms.{equivalences, total, agree};
ghost use Rattle.archive_forms_values.specs.Parts.{HasValue};
ghost use Rattle.archive_forms_comparing.specs.Compared.{OfValue};

use crate::{ArchivedEq, ArchivedOrd};
use archive_forms_values::ArchivedString;
use archive_shape::{Portable, Ref};
use std::cmp::Ordering;

/// Returns the text of an archived text.
pub fn text_at<'a>(this: &Ref<'a, ArchivedString>) -> &'a str
    requires { HasValue text (λ _. ⊤) this.now.bytes.now this.now.pos }
    ensures { OfValue text (λ _. ⊤) this.now.bytes.now this.now.pos text_of result.now }
{
    ArchivedString::as_str(*this)
}

impl ArchivedEq for ArchivedString {
    ghost equal = { text_equality };

    ghost is_equivalence = { equivalences.texts };

    fn eq(this: &Ref<'_, ArchivedString>, other: &Ref<'_, ArchivedString>) -> bool {
        text_at(this) == text_at(other)
    }
}

impl ArchivedOrd for ArchivedString {
    ghost order = { text_order };

    ghost is_total = { total.texts };

    ghost agrees = { agree.texts };

    fn cmp(this: &Ref<'_, ArchivedString>, other: &Ref<'_, ArchivedString>) -> Ordering {
        text_at(this).cmp(text_at(other))
    }
}
