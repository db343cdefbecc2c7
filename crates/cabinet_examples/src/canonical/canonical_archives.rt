//! Worked archives that are the one archive of what they hold, by first fit.
ghost use Rattle.cabinet_examples.specs.Canonical.{HashOfA, HashOfNothing, CanonicalNumber, CanonicalTruth, CanonicalNothing, CanonicalSomeNumber, CanonicalEmptyList, CanonicalLongText, CanonicalShortText, CanonicalSharedText, CanonicalEmptySharedText, CanonicalWhole, CanonicalOrderedMap, CanonicalLeafOfFive, CanonicalTreeOfSix, CanonicalEmptyOrderedMap, CanonicalHashedMap, CanonicalTakenPlace, CanonicalNestedMaps, CanonicalKeptMap, CanonicalEmptyKeptMap};

/// The hash of the text `a`.
pub fn hash_of_a()
    ensures { HashOfA }
{}

/// The hash of the empty text.
pub fn hash_of_the_empty_text()
    ensures { HashOfNothing }
{}

/// A number alone is canonical.
pub fn number_is_canonical()
    ensures { CanonicalNumber }
{}

/// A truth value alone is canonical.
pub fn truth_is_canonical()
    ensures { CanonicalTruth }
{}

/// An option that is none is canonical.
pub fn nothing_is_canonical()
    ensures { CanonicalNothing }
{}

/// An option of a number is canonical.
pub fn some_number_is_canonical()
    ensures { CanonicalSomeNumber }
{}

/// A list without elements is canonical.
pub fn empty_list_is_canonical()
    ensures { CanonicalEmptyList }
{}

/// A text that lies before the root is canonical.
pub fn long_text_is_canonical()
    ensures { CanonicalLongText }
{}

/// An inline text is canonical.
pub fn short_text_is_canonical()
    ensures { CanonicalShortText }
{}

/// A list of one shared text twice is canonical; the text is written once.
pub fn shared_text_twice_is_canonical()
    ensures { CanonicalSharedText }
{}

/// A list of one empty shared text twice is canonical; a zero byte follows the text.
pub fn empty_shared_text_twice_is_canonical()
    ensures { CanonicalEmptySharedText }
{}

/// A list of one whole twice is canonical; the whole's node is written once.
pub fn whole_twice_is_canonical()
    ensures { CanonicalWhole }
{}

/// An ordered map that is one leaf is canonical.
pub fn ordered_map_of_two_is_canonical()
    ensures { CanonicalOrderedMap }
{}

/// An ordered map of five is canonical as one leaf, which is full.
pub fn ordered_map_of_five_is_canonical()
    ensures { CanonicalLeafOfFive }
{}

/// An ordered map of six is canonical as a packed tree of two nodes.
pub fn ordered_map_of_six_is_canonical()
    ensures { CanonicalTreeOfSix }
{}

/// An ordered map without entries is canonical.
pub fn empty_ordered_map_is_canonical()
    ensures { CanonicalEmptyOrderedMap }
{}

/// A hashed map of one is canonical with its key in the second place.
pub fn hashed_map_of_one_is_canonical()
    ensures { CanonicalHashedMap }
{}

/// A hashed map of two is canonical; its second key finds its first place taken.
pub fn hashed_map_of_two_is_canonical()
    ensures { CanonicalTakenPlace }
{}

/// A list in a hashed map in an ordered map is canonical.
pub fn list_in_a_map_in_a_map_is_canonical()
    ensures { CanonicalNestedMaps }
{}

/// A map of two that keeps its order is canonical.
pub fn kept_map_of_two_is_canonical()
    ensures { CanonicalKeptMap }
{}

/// A map without entries that keeps its order is canonical.
pub fn empty_kept_map_is_canonical()
    ensures { CanonicalEmptyKeptMap }
{}
