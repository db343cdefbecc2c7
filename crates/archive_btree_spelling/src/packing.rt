//! The laws of packed trees in canonical archives: functions without a body, whose contracts are the laws.
ghost use Rattle.archive_btree_spelling.specs.PackingLaws.{MapsArePacked, WrittenIsLeast, WrittenIsPacked, WrittenIsRead};

/// States that where the root of a canonical archive is a map, or reaches one through other parts, shared ones too, the
/// bytes have its search tree there, unless the map is empty.
pub fn written_is_read()
    ensures { WrittenIsRead }
{}

/// States that the search tree of a map that the root of a canonical archive is, or reaches, is packed.
pub fn written_is_packed()
    ensures { WrittenIsPacked }
{}

/// States that no search tree with the same number of items, in any bytes, has fewer nodes or less height than that of
/// a map in a canonical archive.
pub fn written_is_least()
    ensures { WrittenIsLeast }
{}

/// States that what is written for a map of numbers has a packed tree, and that its items are the pairs of the map in
/// order.
pub fn maps_are_packed()
    ensures { MapsArePacked }
{}
