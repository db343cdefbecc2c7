//! The node that a path leads to in the bytes of an archive, and what the way there takes.
ghost use Rattle.std.specs.Prelude.{◌≡◌, [], ◌∷◌, MatchOption};
ghost use Rattle.archive_shape_layout.specs.Content.Part.{at};
ghost use Rattle.archive_forms_values.specs.Parts.{HasValue};
ghost use Rattle.cabinet_documents.specs.Node.{node_shape, KnowsNode};
ghost use Rattle.cabinet_text_grammar.specs.Path.{enters};
ghost use Rattle.cabinet_text_nodes.specs.View.{step_of, path_of};
ghost use Rattle.cabinet_archives.specs.Cost.{CountsPath, StepTakes};
ghost use Rattle.cabinet_archives.specs.Found.{OfDocument, Reaches, ReachesNone};
ghost use Rattle.cabinet_archives.specs.Sound.{IsSoundPart};

use crate::maps::{get_hashed, get_kept, get_ordered};
use archive_forms_rc::ArchivedRc;
use archive_forms_values::{ArchivedBox, ArchivedOption, ArchivedVec};
use archive_hash_probing::Scan;
use archive_shape::{Ref, Steps};
use cabinet_archived::{ArchivedKind, ArchivedNode};
use cabinet_text_nodes::Step;

/// The node that a path leads to.
#[derive(Clone, Copy)]
pub struct Found<'a> {
    pub node: Ref<'a, ArchivedNode>,
    /// Whether the path leads into a whole.
    pub in_whole: bool,
}

/// Returns the node that a step leads to from `node`, if there is one, whether the step leads into a whole, and what its
/// look-up took.
fn step_down<'a, G: Scan>(
    node: Ref<'a, ArchivedNode>,
    step: &Step,
) -> (Option<Ref<'a, ArchivedNode>>, bool, Steps)
    requires there { HasValue node_shape KnowsNode node.bytes.now node.pos }
    requires sound { IsSoundPart node.bytes.now (at node.pos node_shape) }
    ensures next { MatchOption result.0
        (ReachesNone node.entry.bytes.now node.entry.pos (step_of step.now ∷ []))
        (λ next. (next.bytes ≡ node.entry.bytes) × Reaches node.entry.bytes.now node.entry.pos (step_of step.now ∷ []) next.pos) }
    ensures whole { OfDocument node.entry.bytes.now node.entry.pos (λ t. result.1 ≡ enters t (step_of step.now ∷ [])) }
    ensures takes { StepTakes node.entry.bytes.now node.entry.pos (step_of step.now) result.2.comparisons result.2.strides }
{
    let none = Steps {
        comparisons: 0,
        strides: 0,
    };
    match (ArchivedNode::kind(node), step) {
        (ArchivedKind::Maybe(maybe), Step::Inside) => match ArchivedOption::as_ref(maybe) {
            Some(content) => (Some(ArchivedBox::get(content)), false, none),
            None => (None, false, none),
        },
        (ArchivedKind::Whole(whole), Step::Inside) => (Some(ArchivedRc::get(whole)), true, none),
        (ArchivedKind::List(list), Step::Place(place)) => {
            (ArchivedVec::get(list, *place as usize), false, none)
        }
        (ArchivedKind::Ordered(map), Step::Key(key)) => {
            let (next, taken) = get_ordered(map, key.as_str());
            (next, false, taken)
        }
        (ArchivedKind::Hashed(map), Step::Key(key)) => {
            let (next, taken) = get_hashed::<G>(map, key.as_str());
            (next, false, taken)
        }
        (ArchivedKind::Kept(map), Step::Key(key)) => {
            let (next, taken) = get_kept::<G>(map, key.as_str());
            (next, false, taken)
        }
        _ => (None, false, none),
    }
}

/// Returns the node that a path leads to, if it leads to one, and what its look-ups took: the keys that were compared in
/// search trees, and the strides that were searched in tables. Reads only the nodes on the path, and does not allocate.
/// A count stops at `usize::MAX`. The caller chooses the scan `G`, by which keys of hashed and kept maps are looked up.
pub fn find_counted<'a, G: Scan>(
    root: Ref<'a, ArchivedNode>,
    path: &[Step],
) -> (Option<Found<'a>>, Steps)
    requires there { HasValue node_shape KnowsNode root.bytes.now root.pos }
    requires sound { IsSoundPart root.bytes.now (at root.pos node_shape) }
    ensures node { MatchOption result.0
        (ReachesNone root.entry.bytes.now root.entry.pos (path_of path.now))
        (λ found. (found.node.bytes ≡ root.entry.bytes) × Reaches root.entry.bytes.now root.entry.pos (path_of path.now) found.node.pos
        × OfDocument root.entry.bytes.now root.entry.pos (λ t. found.in_whole ≡ enters t (path_of path.now))) }
    ensures counts { CountsPath root.entry.bytes.now root.entry.pos (path_of path.now) result.1.comparisons result.1.strides }
{
    let mut found = Found {
        node: root,
        in_whole: false,
    };
    let mut all = Steps {
        comparisons: 0,
        strides: 0,
    };
    for step in path {
        let (next, is_whole, taken) = step_down::<G>(found.node, step);
        all = Steps {
            comparisons: all.comparisons.saturating_add(taken.comparisons),
            strides: all.strides.saturating_add(taken.strides),
        };
        match next {
            Some(node) => {
                found = Found {
                    node,
                    in_whole: found.in_whole || is_whole,
                };
            }
            None => return (None, all),
        }
    }
    (Some(found), all)
}

/// Returns the same node as `find_counted`, without the count.
pub fn find<'a, G: Scan>(
    root: Ref<'a, ArchivedNode>,
    path: &[Step],
) -> Option<Ref<'a, ArchivedNode>>
    requires there { HasValue node_shape KnowsNode root.bytes.now root.pos }
    requires sound { IsSoundPart root.bytes.now (at root.pos node_shape) }
    ensures { MatchOption result
        (ReachesNone root.entry.bytes.now root.entry.pos (path_of path.now))
        (λ node. (node.bytes ≡ root.entry.bytes) × Reaches root.entry.bytes.now root.entry.pos (path_of path.now) node.pos) }
{
    match find_counted::<G>(root, path).0 {
        Some(found) => Some(found.node),
        None => None,
    }
}
