//! Boxes of texts are compared as texts are.
ghost use Rattle.std.specs.Prelude.{⊤};
ghost use Rattle.archive_shape_layout.specs.Shape.Shape.{box};
ghost use Rattle.archive_shape_layout.specs.Shape.Pointee.{str};
ghost use Rattle.archive_forms_laws.specs.Views.{text_of};
ghost use Rattle.archive_forms_laws.specs.Orders.{text_equality, text_order};
ghost use Rattle.archive_forms_laws.proofs.Forms.{equivalences, total, agree};
ghost use Rattle.archive_forms_values.specs.Parts.{HasValue};
ghost use Rattle.archive_forms_comparing.specs.Compared.{OfValue};

use crate::{ArchivedEq, ArchivedOrd};
use archive_forms_values::ArchivedBoxedStr;
use archive_shape::{Portable, Ref};
use std::cmp::Ordering;

/// Returns the text of the archived box of a text.
pub fn boxed_text<'a>(this: &Ref<'a, ArchivedBoxedStr>) -> &'a str
    requires { HasValue (box str) (λ _. ⊤) this.now.bytes.now this.now.pos }
    ensures { OfValue (box str) (λ _. ⊤) this.now.bytes.now this.now.pos text_of result.now }
{
    ArchivedBoxedStr::get(*this)
}

impl ArchivedEq for ArchivedBoxedStr {
    ghost equal = { text_equality };

    ghost is_equivalence = { equivalences.texts };

    fn eq(this: &Ref<'_, ArchivedBoxedStr>, other: &Ref<'_, ArchivedBoxedStr>) -> bool {
        boxed_text(this) == boxed_text(other)
    }
}

impl ArchivedOrd for ArchivedBoxedStr {
    ghost order = { text_order };

    ghost is_total = { total.texts };

    ghost agrees = { agree.texts };

    fn cmp(this: &Ref<'_, ArchivedBoxedStr>, other: &Ref<'_, ArchivedBoxedStr>) -> Ordering {
        boxed_text(this).cmp(boxed_text(other))
    }
}
