//! The registry of the positions at which shared texts were written.
ghost use Rattle.std.specs.Prelude.{◌≡◌, MatchResult};
ghost use Rattle.std.specs.BTreeMap.{get_by_text};
ghost use Rattle.archive_core_serializing.specs.Kept.{IsNoneMet};
ghost use Rattle.archive_shape_layout.specs.Progress.{IsSet};
ghost use Rattle.archive_shape_layout.specs.Progress.Progress.{ended};
ghost use Rattle.archive_shape_layout.specs.declared.error.Error.TheVariants.{OutOfMemory};
ghost use Rattle.cabinet_text_grammar.specs.TextKey.{text_key, text_of_key};
ghost use Rattle.cabinet_archived.specs.Sharing.{progress_at};

use archive_shape::{Error, Registry};
use std::alloc::Global;
use std::collections::BTreeMap;

/// Keeps the position at which each text was written. A look-up takes time logarithmic in the number of texts, for any
/// texts.
#[derive(Drop)]
pub(crate) struct TextShare {
    ends: BTreeMap<String, usize>,
}

impl Registry for TextShare {
    ghost known = { λ share key. progress_at (get_by_text share.ends (text_of_key key)) };
}

impl TextShare {
    /// Returns a registry without texts. Does not allocate.
    pub(crate) fn new(alloc: Global) -> Self
        ensures { IsNoneMet (⟦<TextShare as Registry>⟧.known result) }
    {
        TextShare {
            ends: BTreeMap::new(alloc),
        }
    }

    /// Returns the position at which the text was written, if it was.
    pub(crate) fn position(&self, text: &str) -> Option<usize>
        ensures { ⟦<TextShare as Registry>⟧.known self.now (text_key text.now) ≡ progress_at result }
    {
        self.ends.get(text).copied()
    }

    /// Keeps the position at which a text is written. Returns `OutOfMemory` when an allocation fails.
    pub(crate) fn keep(&mut self, alloc: Global, text: &str, pos: usize) -> Result<(), Error>
        ensures { MatchResult result (λ _. IsSet (⟦<TextShare as Registry>⟧.known self.old)
            (⟦<TextShare as Registry>⟧.known self.new) (text_key text.now) (ended pos))
            (λ e. e ≡ OutOfMemory) }
    {
        let copy = String::from_str(alloc, text)?;
        self.ends.insert(copy, pos)?;
        Ok(())
    }
}
