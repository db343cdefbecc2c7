//! The search for a key.
ghost use Rattle.std.specs.Prelude.{ℕ, ◌+◌, ◌*◌, ◌^◌, ◌<◌, ◌≤◌};
ghost use Rattle.archive_btree_maps.specs.SearchingLayout.{IsTreeAt};
ghost use Rattle.archive_btree_maps.specs.Searching.{IsSaid};
ghost use Rattle.archive_btree_maps.specs.Calls.Searching.{AnswersCounted, AnswersPlace, CanSearch, FindsAmong, SearchesTo};

use crate::nodes::NodeLayout;
use crate::nodes::layout::MAX_LEVELS;
use crate::nodes::searching::EntryAt;
use crate::nodes::searching::node::{child_of, entry_count, entry_of};
use std::cmp::Ordering;

/// The result of a search among a node's keys, by the index of a key.
#[derive(Clone, Copy)]
enum Outcome {
    /// The key at this index is equal to the query.
    Equals(usize),
    /// The query is above all keys before this index, and below the key at it, if there is one.
    Before(usize),
}

/// Searches `count` keys that lie side by side from `first` on. `compare` returns how the query compares with the key
/// at a position.
fn search_keys<F: Fn(usize) -> Ordering>(
    first: usize,
    size: usize,
    count: usize,
    compare: &F,
) -> Outcome
    requires callable { (i : ℕ) → i < count → F.pre compare.now (first + i * size) }
    requires room { first + count * size < 2 ^ 64 }
    ensures { IsSaid (λ i r. F.post compare.now (first + i * size) r) count result }
{
    for i in 0..count {
        match compare(first + i * size) {
            Ordering::Less => return Outcome::Before(i),
            Ordering::Equal => return Outcome::Equals(i),
            Ordering::Greater => {}
        }
    }
    Outcome::Before(count)
}

/// Searches a tree from its root down, and returns the entry with the number of keys that were compared. `compare`
/// returns how the query compares with the key at a position. The count stops at `usize::MAX`.
pub fn search_counted<F: Fn(usize) -> Ordering>(
    bytes: &[u8],
    root: usize,
    layout: NodeLayout,
    compare: &F,
) -> (Option<EntryAt>, usize)
    requires tree { CanSearch bytes.now layout root F.pre compare.now }
    ensures found { FindsAmong (IsTreeAt bytes.now layout 1 root) F.post compare.now result.0 }
    ensures descends { SearchesTo (IsTreeAt bytes.now layout 1 root) F.post compare.now result.0 }
    ensures answers { AnswersCounted (IsTreeAt bytes.now layout 1 root) F.post compare.now result }
    ensures few { result.1 ≤ 32 * layout.entries }
{
    let _len = bytes.len();
    let mut pos = root;
    let mut compared = 0usize;
    for _level in 0..MAX_LEVELS {
        let count = entry_count(bytes, layout, pos);
        match search_keys(pos + layout.keys, layout.key_size, count, compare) {
            Outcome::Equals(i) => {
                let entry = entry_of(bytes, layout, pos, i);
                return (Some(entry), compared.saturating_add(i + 1));
            }
            Outcome::Before(i) => {
                compared = compared.saturating_add(count.min(i.saturating_add(1)));
                match child_of(bytes, layout, pos, i) {
                    Some(child) => pos = child,
                    None => return (None, compared),
                }
            }
        }
    }
    (None, compared)
}

/// Searches a tree from its root down. `compare` returns how the query compares with the key at a position.
pub fn search_tree<F: Fn(usize) -> Ordering>(
    bytes: &[u8],
    root: usize,
    layout: NodeLayout,
    compare: &F,
) -> Option<EntryAt>
    requires tree { CanSearch bytes.now layout root F.pre compare.now }
    ensures found { FindsAmong (IsTreeAt bytes.now layout 1 root) F.post compare.now result }
    ensures descends { SearchesTo (IsTreeAt bytes.now layout 1 root) F.post compare.now result }
    ensures answers { AnswersPlace (IsTreeAt bytes.now layout 1 root) F.post compare.now result }
{
    search_counted(bytes, root, layout, compare).0
}
