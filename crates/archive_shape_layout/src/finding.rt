//! The law of roots that are known to exist, a function with an empty body whose contract is the law.
ghost use Rattle.archive_shape_layout.specs.Finding.{RootIsFound};

/// Where some value of a shape is known to be a buffer's root at a position, a value that is its root there is found.
pub fn root_is_found()
    ensures { RootIsFound }
{}
