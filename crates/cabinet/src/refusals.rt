//! The law that the archive of a document is refused only when an allocation fails.
ghost use Rattle.cabinet.specs.RefusalsLaws.{AcceptedIsNotRefused};

/// Bytes that are the archive of a document are refused only with `OutOfMemory`.
pub fn accepted_is_not_refused()
    ensures { AcceptedIsNotRefused }
{}
