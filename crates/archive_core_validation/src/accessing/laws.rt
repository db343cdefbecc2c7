//! A law. The function below has no body: its contract is the law.
ghost use Rattle.archive_core_validation.specs.AccessLaws.{UnlimitedIsNoLimit};

/// A buffer that has a value at a position, with regions that ascend over the whole buffer, is accepted if there is no
/// limit of depth, under every list of named types.
pub fn unlimited_is_no_limit()
    ensures { UnlimitedIsNoLimit }
{}
