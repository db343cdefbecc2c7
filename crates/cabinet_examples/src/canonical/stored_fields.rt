//! The values that worked documents store in fields of a limited width, by their plans.
ghost use Rattle.cabinet_examples.specs.Stored.{StoredText, StoredSharedText, StoredNestedMaps};

/// The fields of an out-of-line text.
pub fn fields_of_a_text()
    ensures { StoredText }
{}

/// The fields of a shared text that a list holds twice.
pub fn fields_of_a_shared_text()
    ensures { StoredSharedText }
{}

/// The fields of a list in a hashed map in an ordered map.
pub fn fields_of_nested_maps()
    ensures { StoredNestedMaps }
{}
