//! Archived boxes of texts as keys, compared with texts.
ghost use Rattle.std.specs.Prelude.{◌≡◌, ⊤};
ghost use Rattle.std.specs.Ordering.{nat_cmp};
ghost use Rattle.std.specs.Cmp.{on_total};
ghost use Rattle.std.specs.Cmp.Lexicographic.{slice_cmp};
ghost use Rattle.std.proofs.Common.{ap, sym, ◌∙◌};
ghost use Rattle.std.proofs.lemmas.Cmp.{nat_list_cmp_total};
ghost use Rattle.archive_shape_layout.specs.Shape.Shape.{box};
ghost use Rattle.archive_shape_layout.specs.Shape.Pointee.{str};
ghost use Rattle.archive_forms_laws.specs.Views.{text_of};
ghost use Rattle.archive_forms_values.specs.Parts.{HasValue};
ghost use Rattle.archive_forms_values.specs.Keys.{EachStandsFor};

use crate::boxed::ArchivedBoxedStr;
use crate::text::TextQuery;
use archive_shape::{ArchivedKey, Ref};
use std::cmp::Ordering;

impl<Q: TextQuery> ArchivedKey<Q> for ArchivedBoxedStr {
    ghost is_key = { HasValue (box str) (λ _. ⊤) };

    ghost key_of = { λ bytes pos key. EachStandsFor (box str) (λ _. ⊤) bytes pos (λ value. text_of value ≡ Q.text key) };

    ghost stands_for = { λ value key. text_of value ≡ Q.text key };

    ghost order = { λ key query. slice_cmp nat_cmp (Q.text key) (Q.text query) };

    fn same(this: &Ref<'_, Self>, query: &Q) -> bool {
        ArchivedBoxedStr::get(*this) == query.as_text()
    }

    fn compare(this: &Ref<'_, Self>, query: &Q) -> Ordering {
        ArchivedBoxedStr::get(*this).cmp(query.as_text())
    }

    ghost held_is_key = { λ bytes pos value h. record { value = value; held = h } };

    ghost held_stands_for = { λ bytes pos value h key is. is.each value h };

    ghost one_value = { λ value a b x y query. ap (λ key. slice_cmp nat_cmp key (Q.text query)) (sym x ∙ y) };

    ghost one_key = { λ bytes pos a b x y query. ap (λ key. slice_cmp nat_cmp key (Q.text query)) (sym (x.each x.there.value x.there.held) ∙ y.each x.there.value x.there.held) };

    ghost is_total = { on_total Q.text nat_list_cmp_total };
}
