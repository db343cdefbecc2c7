//! The laws of how values compare, each a function with an empty body whose contract is the law.
ghost use Rattle.archive_forms_laws.specs.OrderingLaws.{AreEquivalences, AreTotal, AllAgree, AreHashedAlike};

/// Equality of each form is an equivalence where that of its parts is.
pub fn equalities_are_equivalences()
    ensures { AreEquivalences }
{}

/// The order of each form is total where those of its parts are.
pub fn orders_are_total()
    ensures { AreTotal }
{}

/// Values are equal exactly where the order returns `Equal`.
pub fn orders_agree()
    ensures { AllAgree }
{}

/// Equal values of each form are hashed alike where those of its parts are.
pub fn equal_values_are_hashed_alike()
    ensures { AreHashedAlike }
{}
