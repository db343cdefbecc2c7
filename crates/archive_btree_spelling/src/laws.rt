//! The laws of how maps are archived: functions without a body, whose contracts are the laws.
ghost use Rattle.archive_btree_spelling.specs.Laws.{MapsAreWritten, SamplesAreSpelled, SixPairsAreWritten, TreesArePacked};

/// States that maps of no, of one and of six entries are spelled as the bytes in `specs/Sample`.
pub fn samples_are_spelled()
    ensures { SamplesAreSpelled }
{}

/// States that a map of numbers is written as its one archive.
pub fn maps_are_written()
    ensures { MapsAreWritten }
{}

/// States that a map of six entries is written as an inner node with one leaf below it.
pub fn six_pairs_are_written()
    ensures { SixPairsAreWritten }
{}

/// States that the search tree that is written for items is packed, and has exactly these items in order.
pub fn trees_are_packed()
    ensures { TreesArePacked }
{}
