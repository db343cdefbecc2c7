//! The shared texts of a document that is read, each of which is kept once.
ghost use Rattle.std.specs.Prelude.{◌≡◌, IfOk};
ghost use Rattle.std.specs.Rc.{rc_str_bytes};

use std::alloc::{AllocError, Global};
use std::collections::BTreeSet;
use std::rc::RcStr;

/// The shared texts that were met. Each is found in a time that grows with its length and with the logarithm of their
/// number, for any texts.
#[derive(Drop)]
pub struct SharedTexts {
    met: BTreeSet<RcStr>,
}

impl SharedTexts {
    /// Creates a set without texts. It does not allocate.
    pub fn new(alloc: Global) -> Self {
        SharedTexts {
            met: BTreeSet::new(alloc),
        }
    }

    /// Returns the `RcStr` of a text. If the text was met before, the result shares the memory of that `RcStr`.
    pub fn share(&mut self, alloc: Global, text: &str) -> Result<RcStr, AllocError>
        ensures { IfOk result (λ shared. rc_str_bytes shared ≡ text.now) }
    {
        if let Some(shared) = self.met.get(text) {
            return shared.clone();
        }
        let shared = RcStr::from_str(alloc, text)?;
        if let Ok(kept) = shared.clone() {
            // Without memory the text is not kept, and copied again where it is met again.
            let _is_new = self.met.insert(kept);
        }
        Ok(shared)
    }
}
