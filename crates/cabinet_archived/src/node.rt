//! The type of archived nodes, with its shape and its check.
ghost use Rattle.std.specs.Prelude.{◌≡◌, ℕ, ◌+◌, ◌≤◌, [], ◌∷◌, length, refl};
ghost use Rattle.std.proofs.Common.{lit<, lit≤};
ghost use Rattle.archive_shape_layout.specs.Shape.Shape.{choice};
ghost use Rattle.cabinet_documents.specs.Node.{node_shape, payloads, KnowsNode};

use crate::check::check_node;
use archive_shape::{Alignment, CheckBytes, Error, Portable, Shape, SharedContext};
use std::alloc::{AllocError, Global};

/// The archived form of a document's node: a tag of one byte, then the payload of the tag, at the first multiple of its
/// alignment after the tag.
#[derive(Clone, Copy)]
pub struct ArchivedNode {}

impl Portable for ArchivedNode {
    ghost SIZE = { 24 };

    ghost ALIGN = { 8 };

    ghost shape = { node_shape };

    ghost knows = { KnowsNode };

    ghost named = { (0, choice payloads) ∷ [] };

    const SIZE: usize = 24;

    const ALIGN: usize = 8;

    fn shape(_alloc: Global) -> Result<Shape, AllocError> {
        Ok(Shape::Named {
            name: 0,
            size: 24,
            align: Alignment::Eight,
        })
    }

    ghost sized = { refl };

    ghost aligned = { refl };

    ghost aligns = { (lit< tt, lit≤ tt) };

    ghost known = { λ names has. has 0 (0, choice payloads) (lit< tt) };
}

impl<C: SharedContext> CheckBytes<C> for ArchivedNode {
    fn check(alloc: Global, bytes: &[u8], pos: usize, context: &mut C) -> Result<(), Error> {
        check_node(alloc, bytes, pos, context, bytes.len())
    }
}
