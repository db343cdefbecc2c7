//! A law. The function below has no body: its contract is the law.
ghost use Rattle.archive_core_validation.specs.NestingLaws.{NestingIsBounded};

/// Regions that ascend nest no deeper than the number of bytes that they lie in: what lies inside another region ends
/// before it begins, and what claims no bytes has nothing inside.
pub fn nesting_is_bounded()
    ensures { NestingIsBounded }
{}
