//! Where a map of an archive has come to.
ghost use Rattle.std.specs.Prelude.{◌≡◌};
ghost use Rattle.cabinet_archives.specs.MapLines.{no_tally, raised, with_node, with_row};

/// What a map shows, where the last region ends, and what was counted.
#[derive(Debug, Drop)]
pub(crate) struct Tally {
    /// The maximum number of lines of regions.
    pub(crate) lines: Option<u64>,
    /// The maximum number of characters of a path.
    pub(crate) characters: Option<u64>,
    /// Where the last region ends.
    pub(crate) end: usize,
    /// The number of regions, and of the stretches of bytes that none claims.
    pub(crate) rows: u64,
    /// The number of nodes of each kind, by their tags.
    pub(crate) nodes: [u64; 10],
    /// The number of bytes of the regions of each kind, and after these of those that none claims.
    pub(crate) bytes: [u64; 11],
}

/// Adds to the count at a place, if there is one there. A count stops at the greatest number.
fn raise(counts: &mut [u64], place: usize, more: u64)
    ensures { counts.new ≡ raised counts.old place more }
{
    if place < counts.len() {
        counts[place] = counts[place].saturating_add(more);
    }
}

impl Tally {
    /// Returns the tally before the first region.
    pub(crate) fn new(lines: Option<u64>, characters: Option<u64>) -> Tally
        ensures { result ≡ no_tally lines characters }
    {
        Tally {
            lines,
            characters,
            end: 0,
            rows: 0,
            nodes: [0; 10],
            bytes: [0; 11],
        }
    }

    /// Counts a node with this tag.
    pub(crate) fn count_node(&mut self, tag: u8)
        ensures { self.new ≡ with_node self.old tag }
    {
        raise(&mut self.nodes, tag as usize, 1);
    }

    /// Counts a line of `size` bytes that end at `end`.
    pub(crate) fn count_row(&mut self, end: usize, place: usize, size: usize)
        ensures { self.new ≡ with_row self.old end place size }
    {
        self.end = end;
        self.rows = self.rows.saturating_add(1);
        raise(&mut self.bytes, place, size as u64);
    }
}
