//! The registry of the shared texts and of the wholes that were written.
ghost use Rattle.archive_core_serializing.specs.Kept.{IsNoneMet};
ghost use Rattle.cabinet_archived.specs.Sharing.{of_both};

use crate::sharing::text_share::TextShare;
use archive_core_serializing::Share;
use archive_shape::Registry;
use std::alloc::Global;

/// Keeps the position at which each shared text was written, and at which each whole was, by the whole's number.
#[derive(Drop)]
pub struct NodeShare {
    pub(crate) texts: TextShare,
    pub(crate) wholes: Share,
}

impl Registry for NodeShare {
    ghost known = { λ share. of_both (⟦<TextShare as Registry>⟧.known share.texts) (⟦<Share as Registry>⟧.known share.wholes) };
}

impl NodeShare {
    /// Returns a registry without texts and wholes. Does not allocate.
    pub fn new(alloc: Global) -> Self
        ensures { IsNoneMet (⟦<NodeShare as Registry>⟧.known result) }
    {
        NodeShare {
            texts: TextShare::new(alloc),
            wholes: Share::new(alloc),
        }
    }
}
