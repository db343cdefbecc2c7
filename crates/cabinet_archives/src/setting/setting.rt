//! Setting the leaf at a path, in the bytes of an archive.
ghost use Rattle.std.specs.Prelude.{◌≡◌};
ghost use Rattle.cabinet_text_grammar.specs.Tree.{Tree, IsLeaf};
ghost use Rattle.cabinet_text_grammar.specs.Line as line;
ghost use Rattle.cabinet_text_grammar.specs.Answering.{answer, change};
ghost use Rattle.cabinet_documents.specs.Accepted.{Accepted};
ghost use Rattle.cabinet_documents.specs.Image.{Image};
ghost use Rattle.cabinet_text_nodes.specs.Outcomes.{outcome_of};
ghost use Rattle.cabinet_text_nodes.specs.View.{leaf_of, path_of};
ghost use Rattle.cabinet_archives.specs.Setting.{EditLeaves};

use crate::asking::find_counted;
use crate::setting::putting::put_leaf;
use archive_core_validation::root_position;
use archive_hash_probing::Scan;
use archive_shape::Ref;
use cabinet_archived::ArchivedNode;
use cabinet_text_nodes::{EditAnswer, Leaf, Step};

/// Writes a leaf at a path of the document that the bytes are the archive of, if the node there is a leaf of the same
/// kind and, for a text, of the same length. What lies in a whole stays, since it may have other places too. Reads only the
/// nodes on the path, and does not allocate. The caller chooses the scan `G`, by which keys of hashed maps are looked up.
pub fn set<G: Scan>(bytes: &mut [u8], path: &[Step], leaf: &Leaf) -> EditAnswer
    requires { ∥ ((t : Tree) × Accepted bytes.old t) ∥₁ }
    ensures answer { (t : Tree) → Accepted bytes.old t
        → outcome_of result ≡ answer t (line.set (path_of path.now) (leaf_of leaf.now)) }
    ensures legal { IsLeaf (leaf_of leaf.now) }
    // No other bytes change.
    ensures bytes { (t : Tree) (a : Accepted bytes.old t)
        → EditLeaves bytes.old a.value (path_of path.now) (leaf_of leaf.now)
        (outcome_of result) bytes.new }
    ensures document { (t : Tree) → Accepted bytes.old t
        → Accepted bytes.new (change t (path_of path.now) (leaf_of leaf.now)) }
    ensures image { (t : Tree) → Image t bytes.old
        → Image (change t (path_of path.now) (leaf_of leaf.now)) bytes.new }
{
    let new = leaf.as_ref();
    let root = root_position::<ArchivedNode>(bytes.len());
    let Some(found) = find_counted::<G>(Ref::new(bytes, root), path).0 else {
        return EditAnswer::Missing;
    };
    if found.in_whole {
        return EditAnswer::Refused;
    }
    let pos = found.node.pos();
    put_leaf(bytes, pos, new)
}
