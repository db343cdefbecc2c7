//! The laws of checks and faults, each a function with an empty body whose contract is the law.
ghost use Rattle.archive_shape.specs.Laws.{AcceptedIsAnswered, DeepChildIsRefused, FaultRefuses, OneFault};

/// Where a part is accepted, all its questions are answered by yes.
pub fn accepted_is_answered()
    ensures { AcceptedIsAnswered }
{}

/// A part with a fault is not accepted.
pub fn fault_refuses()
    ensures { FaultRefuses }
{}

/// Two faults of a part are the same.
pub fn one_fault()
    ensures { OneFault }
{}

/// A search tree has at most 32 levels: a pointer to a child below the last one is refused with `TooManyLevels`,
/// regardless of where it leads.
pub fn deep_child_is_refused()
    ensures { DeepChildIsRefused }
{}
