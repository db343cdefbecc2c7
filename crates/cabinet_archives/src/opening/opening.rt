//! The check that bytes are the archive of a document.
ghost use Rattle.std.specs.Prelude.{◌≡◌, length, OnOk, IfOk, IfErr};
ghost use Rattle.archive_shape_layout.specs.Holds.{root_position};
ghost use Rattle.archive_core_validation.specs.Depth.{most_of};
ghost use Rattle.archive_core_validation.specs.Access.{Decides};
ghost use Rattle.cabinet_text_grammar.specs.Tree.{Tree};
ghost use Rattle.cabinet_documents.specs.Node.{node_shape, node_names};
ghost use Rattle.cabinet_documents.specs.Accepted.{Accepted};
ghost use Rattle.cabinet_documents.specs.Audit.{IsRefusedFor};
ghost use Rattle.cabinet_archives.specs.Refused.{refusal_of};

use crate::opening::audit::audit;
use crate::opening::refusal::{OpenRefusal, refused};
use archive_core_validation::{
    ArchiveValidator, HighValidator, SharedValidator, Validator, access_with_context,
};
use archive_hash_probing::{Group, Scan};
use archive_shape::Ref;
use archive_shape_layout::Error;
use cabinet_archived::ArchivedNode;
use std::alloc::Global;
use std::collections::BTreeMap;

/// The depth of subtrees at which a check ends: more than the regions that claim one another in an archive of 64 nested
/// containers, of which a search tree has one on each of at most 32 levels.
const MAX_SUBTREE_DEPTH: usize = 2200;

/// Returns the root node of bytes in which at most `MAX_SUBTREE_DEPTH - 1` regions may nest.
fn access_root(alloc: Global, bytes: &[u8]) -> Result<Ref<'_, ArchivedNode>, Error>
    ensures exact { Decides node_names bytes.now node_shape (root_position (length bytes.now) node_shape) (most_of 2200) result }
    ensures bytes { IfOk result (λ root. root.bytes ≡ bytes.entry) }
    ensures position { IfOk result (λ root. root.pos ≡ root_position (length bytes.now) node_shape) }
{
    let mut context = Validator::new(
        ArchiveValidator::with_max_depth(alloc, bytes, MAX_SUBTREE_DEPTH),
        SharedValidator::new(alloc),
    );
    access_with_context::<ArchivedNode, HighValidator>(alloc, bytes, &mut context)
}

/// Checks that bytes are the archive of a document: their root is accessed, and then audited. The memory that it
/// allocates grows with the depth that it reaches and with the number of shared texts and of wholes, and not with what the
/// bytes state. The caller chooses the scan `G`, by which keys
/// of hashed maps are looked up.
pub fn check_scanned<G: Scan>(alloc: Global, bytes: &[u8]) -> Result<(), OpenRefusal>
    ensures accepted { OnOk result ((t : Tree) × Accepted bytes.now t) }
    ensures refused { IfErr result (λ r. IsRefusedFor bytes.now (refusal_of r)) }
{
    match access_root(alloc, bytes) {
        Ok(root) => match audit::<G>(root, 0, &mut BTreeMap::new(alloc)) {
            Ok(_) => Ok(()),
            Err(refusal) => Err(refusal),
        },
        Err(error) => Err(refused(error)),
    }
}

/// Checks the bytes as [`check_scanned`] does, by the widest scan.
pub fn check(alloc: Global, bytes: &[u8]) -> Result<(), OpenRefusal>
    ensures accepted { OnOk result ((t : Tree) × Accepted bytes.now t) }
    ensures refused { IfErr result (λ r. IsRefusedFor bytes.now (refusal_of r)) }
{
    check_scanned::<Group>(alloc, bytes)
}
