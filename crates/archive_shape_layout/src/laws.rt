//! The laws of the layout, each a function with an empty body whose contract is the law.
ghost use Rattle.archive_shape_layout.specs.Laws.{OneValue, AscentSplits, AscentIsApart, AlignmentsAreSmallPowers, RootRegions, Frame};
ghost use Rattle.archive_shape_layout.specs.Edit.{ValueAtPath, PathsJoin, EditOfLeaf, EditOfText, LeavesApart, LeafWithin, LeafInOneRegion};
ghost use Rattle.archive_shape_layout.specs.Visited.{VisitsStand};

/// Bytes have at most one value of a shape at a position, and with it one list of regions and one list of the shared
/// positions that have been visited.
pub fn one_value()
    ensures { OneValue }
{}

/// A list of regions that is made of two ascends exactly where the first ascends and the second ascends from its end.
pub fn ascent_splits()
    ensures { AscentSplits }
{}

/// Of two regions in a list that ascends, the earlier one ends before the later one begins.
pub fn ascent_is_apart()
    ensures { AscentIsApart }
{}

/// The alignment of every shape is a power of two, at least 1 and at most 32.
pub fn alignments_are_small_powers()
    ensures { AlignmentsAreSmallPowers }
{}

/// Every region of a root lies in the buffer and is aligned, and the root's own region is the last of the list.
pub fn root_regions()
    ensures { RootRegions }
{}

/// The value, regions and visits of a part depend on the part's own bytes and on the bytes of the regions that it
/// claims: another buffer with the same bytes there has the same.
pub fn frame()
    ensures { Frame }
{}

/// Every shared position that was visited when a part was read has its value, below the end of what the part claims. So
/// what the counted pointers in a root lead to has its value.
pub fn visits_stand()
    ensures { VisitsStand }
{}

/// The value at a path is that of the part at the path.
pub fn value_at_path()
    ensures { ValueAtPath }
{}

/// A part at a path of a second part, which is at a path of a third, is in the third at the path of the second followed
/// by its path in the second.
pub fn paths_join()
    ensures { PathsJoin }
{}

/// Where only the own bytes of one leaf change, which is a number, a bool, a char or an inline text, and the new bytes
/// have a value of its shape, the root has the same regions and the new value at the leaf's path. All else in its value
/// is unchanged.
pub fn edit_of_leaf()
    ensures { EditOfLeaf }
{}

/// The same for the bytes of a text out of line, where the new bytes are UTF-8 and have the same length.
pub fn edit_of_text()
    ensures { EditOfText }
{}

/// The bytes of two leaves at different paths do not overlap. A leaf is a value in place that has no part, or a text
/// out of line.
pub fn leaves_apart()
    ensures { LeavesApart }
{}

/// A leaf's bytes lie in the buffer.
pub fn leaf_within()
    ensures { LeafWithin }
{}

/// A leaf's bytes lie in one region of the root, and no other region has any of them. So a leaf of at least one byte
/// lies in exactly one region.
pub fn leaf_in_one_region()
    ensures { LeafInOneRegion }
{}
