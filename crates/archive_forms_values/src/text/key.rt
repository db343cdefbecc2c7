//! Archived texts as keys, compared with texts.
ghost use Rattle.std.specs.Ordering.{nat_cmp};
ghost use Rattle.std.specs.Cmp.{on_total};
ghost use Rattle.std.specs.Cmp.Lexicographic.{slice_cmp};
ghost use Rattle.std.specs.Prelude.{◌≡◌};
ghost use Rattle.std.proofs.Common.{ap, sym, ◌∙◌};
ghost use Rattle.std.proofs.lemmas.Cmp.{nat_list_cmp_total};
ghost use Rattle.archive_shape_layout.specs.Value.Value.{string};
ghost use Rattle.archive_shape.proofs.Held.{claims_within};
ghost use Rattle.archive_forms_laws.proofs.Once.{one_text_law};
ghost use Rattle.archive_forms_laws.proofs.Held.{held_is_text_law, text_value, one_string};
ghost use Rattle.archive_forms_laws.specs.Text.{HasText, IsText};

use crate::text::{ArchivedString, TextQuery};
use archive_shape::{ArchivedKey, Ref};
use std::cmp::Ordering;

impl<Q: TextQuery> ArchivedKey<Q> for ArchivedString {
    ghost is_key = { HasText };

    ghost key_of = { λ bytes pos key. IsText bytes pos (Q.text key) };

    ghost stands_for = { λ value key. value ≡ string (Q.text key) };

    ghost order = { λ key query. slice_cmp nat_cmp (Q.text key) (Q.text query) };

    fn same(this: &Ref<'_, Self>, query: &Q) -> bool {
        ArchivedString::as_str(*this) == query.as_text()
    }

    fn compare(this: &Ref<'_, Self>, query: &Q) -> Ordering {
        ArchivedString::as_str(*this).cmp(query.as_text())
    }

    ghost held_is_key = { λ bytes pos value h. (held_is_text_law h.names bytes h.level h.inside pos value h.regions h.before h.after h.own_within (claims_within h) h.holds).stands.there };

    ghost held_stands_for = { λ bytes pos value h key is. text_value bytes pos (Q.text key) value (held_is_text_law h.names bytes h.level h.inside pos value h.regions h.before h.after h.own_within (claims_within h) h.holds) is };

    ghost one_value = { λ value a b x y query. ap (λ key. slice_cmp nat_cmp key (Q.text query)) (one_string (sym x ∙ y)) };

    ghost one_key = { λ bytes pos a b x y query. ap (λ key. slice_cmp nat_cmp key (Q.text query)) (one_text_law bytes pos (Q.text a) (Q.text b) x y) };

    ghost is_total = { on_total Q.text nat_list_cmp_total };
}
