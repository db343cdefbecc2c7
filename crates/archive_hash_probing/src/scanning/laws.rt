//! Laws of scans. Each function below has no body: its contract is the law.
ghost use Rattle.std.specs.Prelude.{◌≡◌};

use crate::scanning::scan::{Group, Scan, WIDTH};

/// `WIDTH` is the number of controls that the scan in use reads at once.
pub fn width_is_that_of_group()
    ensures { WIDTH ≡ ⟦<Group as Scan>⟧.WIDTH }
{}
