//! The laws of canonical archives, each a function with an empty body whose contract is the law.
ghost use Rattle.archive_shape_canonical.specs.Everywhere.{WrittenEverywhere};
ghost use Rattle.archive_shape_canonical.specs.Laws.{AvoidingPathsJoin, CanonicalEditOfLeaf, CanonicalEditOfText, CanonicalFrame, OneArchive, TablesOfOneMap};

/// A value has at most one canonical archive, regardless of the positions that identify its shared values. This is so
/// at every shape, search trees, tables and index maps included.
pub fn one_archive()
    ensures { OneArchive }
{}

/// Whether a part is canonical depends on the part's own bytes and on the regions that it claims.
pub fn canonical_frame()
    ensures { CanonicalFrame }
{}

/// Where only the own bytes of one leaf of a canonical archive change, and the new ones are clean own bytes of a value,
/// the result is the canonical archive of the value with the new leaf at its path. The path of the leaf leads to no
/// key.
pub fn canonical_edit_of_leaf()
    ensures { CanonicalEditOfLeaf }
{}

/// The same for the bytes of a text out of line, where the new bytes are UTF-8 and have the same length.
pub fn canonical_edit_of_text()
    ensures { CanonicalEditOfText }
{}

/// Two paths that lead to no key, one followed by the other, lead to no key.
pub fn avoiding_paths_join()
    ensures { AvoidingPathsJoin }
{}

/// Two tables of one finite map, filled by first fit, have their items in the same order.
pub fn tables_of_one_map()
    ensures { TablesOfOneMap }
{}

/// Every part that the root of a canonical archive reaches, shared ones included, has its padding and filler bytes as
/// they are written, and what the layout leaves open at it is settled.
pub fn written_everywhere()
    ensures { WrittenEverywhere }
{}
