//! The law of maps, for other crates to cite.
ghost use Rattle.cabinet_archives.specs.MapLaws.{MapListsRegions};

/// States that a map lists the regions that the root claims: each once, in ascending order.
pub fn map_lists_regions()
    ensures { MapListsRegions }
{}
