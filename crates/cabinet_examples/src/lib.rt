//! Worked archives: the definitions of the layout, run on bytes that are written out.
//!
//! Each function has no body. The contract of a function below states what one buffer holds at its root, with the
//! regions that are claimed, or that the buffer holds nothing there. The contracts of the other modules state which
//! archives are canonical, what some archives store in fields of a limited width, and the images of documents.
#![tactic(auto)]

mod canonical;
mod images;

ghost use Rattle.cabinet_examples.specs.Sizes.{NodeSizes};
ghost use Rattle.cabinet_examples.specs.Documents.{NumberAtTheRoot, TruthAtTheRoot, LongTextAtTheRoot, NothingAtTheRoot, SomeNumber, SixtyFourOptions, EmptyList, SharedTextTwice, EmptySharedTextTwice, WholeTwice, OrderedMapOfTwo, OrderedMapOfSix, OrderedMapWithAnEmptyLeaf, HashedMapOfOne, ListInAMapInAMap, KeptMapOfTwo, EmptyKeptMap};
ghost use Rattle.cabinet_examples.specs.Doubtful.{OrderedMapWithARepeatedKey, HashedMapWithARepeatedKey, HashedMapWithAnotherTag, OrderedMapWithPadding, EmptyBuffer};
ghost use Rattle.cabinet_examples.specs.Boxes.{BoxedBytesInAnOption, BoxesThatLeadBeforeTheBuffer, BoxesThatOverlap, BoxesInACircle, OnePositionWithTwoLengths, MapOfANonzeroNumber, LeafShorterThanItsMap, MapWithAKeyOfZero};
ghost use Rattle.cabinet_examples.specs.Refused.{BoxThatIsNotAligned, UnknownTag, UnknownTagOfAnOption, TruthValueOfTwo, SurrogateChar, BrokenInlineText, BrokenLongText, LongTextOfEight, TableWithoutRoom, ControlThatDoesNotRepeat, EmptyControlThatDoesNotRepeat, TagBeyondTwiceTheCapacity, MoreTagsThanItems, PlaceOutsideTheMap, LeafOfSix, UnknownKindOfNode, ThirtyTwoLevels, ThirtyThreeLevels, OnePositionWithTwoShapes, LoopOfAFlavorWithCycles, LoopOfAFlavorWithoutCycles};

pub use canonical::{
    byte_behind_the_root, capacity_greater_than_needed, capacity_without_entries,
    empty_bucket_that_is_not_zero, empty_control_that_is_not_ff, empty_kept_map_is_canonical,
    empty_list_is_canonical, empty_ordered_map_is_canonical, empty_shared_text_twice_is_canonical,
    fields_of_a_shared_text, fields_of_a_text, fields_of_nested_maps,
    filler_of_a_text_that_is_not_ff, gap_before_a_box, gap_before_the_root, hash_of_a,
    hash_of_the_empty_text, hashed_map_of_one_is_canonical, hashed_map_of_two_is_canonical,
    kept_map_of_two_is_canonical, kept_map_that_is_not_by_first_fit,
    list_in_a_map_in_a_map_is_canonical, long_text_is_canonical, nothing_is_canonical,
    number_is_canonical, offset_without_entries, ordered_map_of_five_is_canonical,
    ordered_map_of_six_is_canonical, ordered_map_of_two_is_canonical, padding_that_is_not_zero,
    shared_text_that_stands_twice, shared_text_twice_is_canonical, short_text_is_canonical,
    some_number_is_canonical, table_that_is_not_by_first_fit, tag_of_another_key,
    tree_higher_than_its_entries_need, tree_that_is_not_filled_from_the_left, truth_is_canonical,
    unused_slot_that_is_not_zero, whole_twice_is_canonical,
};
pub use images::{
    empty_list_image, empty_shared_text_image, five_image, hashed_map_image, kept_map_image,
    list_of_an_empty_list_image, long_text_image, nothing_image, ordered_map_image,
    seven_and_nineteen_image, shared_text_image, some_five_image, true_image, whole_image,
    world_image,
};

/// A document node takes 24 bytes, the item of a map 32, a leaf of an ordered map 176 and an inner node 192.
pub fn node_sizes()
    ensures { NodeSizes }
{}

/// A number alone has 24 bytes, with the root at 0.
pub fn number_at_the_root()
    ensures { NumberAtTheRoot }
{}

/// A truth value alone has 24 bytes, with the root at 0.
pub fn truth_at_the_root()
    ensures { TruthAtTheRoot }
{}

/// A text of twelve bytes lies before the root, which has its length and the offset to it.
pub fn long_text_at_the_root()
    ensures { LongTextAtTheRoot }
{}

/// An option that is none claims only the region of its node.
pub fn nothing_at_the_root()
    ensures { NothingAtTheRoot }
{}

/// An option of a number points to its own node before the root.
pub fn some_number()
    ensures { SomeNumber }
{}

/// A number inside sixty-four options: each is claimed one level deeper than the one around it.
pub fn sixty_four_options()
    ensures { SixtyFourOptions }
{}

/// A list without elements claims no byte, at the position that its pointer leads to.
pub fn empty_list()
    ensures { EmptyList }
{}

/// A list with one shared text twice: the text is written once, is claimed once, and both nodes have its position.
pub fn shared_text_twice()
    ensures { SharedTextTwice }
{}

/// The same with an empty shared text, which has its own position.
pub fn empty_shared_text_twice()
    ensures { EmptySharedTextTwice }
{}

/// A list with one whole twice: the whole's node is written once, is claimed once, and both elements have its position.
pub fn whole_twice()
    ensures { WholeTwice }
{}

/// An ordered map of two numbers is one leaf.
pub fn ordered_map_of_two()
    ensures { OrderedMapOfTwo }
{}

/// An ordered map of six numbers is an inner node of five with a leaf of one below it, whose entry comes first.
pub fn ordered_map_of_six()
    ensures { OrderedMapOfSix }
{}

/// An inner node may have a leaf without entries below it, here after its greater pointer.
pub fn ordered_map_with_an_empty_leaf()
    ensures { OrderedMapWithAnEmptyLeaf }
{}

/// A hashed map of one text has two buckets, the second of which is full.
pub fn hashed_map_of_one()
    ensures { HashedMapOfOne }
{}

/// A list in a hashed map in an ordered map: the regions inside lie before those around them.
pub fn list_in_a_map_in_a_map()
    ensures { ListInAMapInAMap }
{}

/// A map that keeps its order has a table of places, and then the entries in their order.
pub fn kept_map_of_two()
    ensures { KeptMapOfTwo }
{}

/// The pointers of a kept map without entries are not read.
pub fn empty_kept_map()
    ensures { EmptyKeptMap }
{}

/// The layout does not compare keys: an ordered map may have one twice.
pub fn ordered_map_with_a_repeated_key()
    ensures { OrderedMapWithARepeatedKey }
{}

/// A hashed map may have one key twice; its items are in the order of their places.
pub fn hashed_map_with_a_repeated_key()
    ensures { HashedMapWithARepeatedKey }
{}

/// The layout does not compare a tag with the hash of its key.
pub fn hashed_map_with_another_tag()
    ensures { HashedMapWithAnotherTag }
{}

/// Bytes that belong to no field may have any value, and fewer bytes than the root's alignment may follow the root.
pub fn ordered_map_with_padding()
    ensures { OrderedMapWithPadding }
{}

/// An empty buffer has no document.
pub fn empty_buffer()
    ensures { EmptyBuffer }
{}

/// An option of a box of eleven bytes holds these bytes.
pub fn boxed_bytes_in_an_option()
    ensures { BoxedBytesInAnOption }
{}

/// A pointer that leads before the buffer holds nothing.
pub fn boxes_that_lead_before_the_buffer()
    ensures { BoxesThatLeadBeforeTheBuffer }
{}

/// Two boxes hold nothing where they lead to the same bytes.
pub fn boxes_that_overlap()
    ensures { BoxesThatOverlap }
{}

/// Two boxes that lead to one another hold nothing.
pub fn boxes_in_a_circle()
    ensures { BoxesInACircle }
{}

/// Two counted pointers to one position hold nothing where they differ in length.
pub fn one_position_with_two_lengths()
    ensures { OnePositionWithTwoLengths }
{}

/// A search tree of one pair of numbers is a leaf of 48 bytes.
pub fn map_of_a_nonzero_number()
    ensures { MapOfANonzeroNumber }
{}

/// A search tree holds nothing where its length is greater than the number of entries in its nodes.
pub fn leaf_shorter_than_its_map()
    ensures { LeafShorterThanItsMap }
{}

/// A key of a type without 0 holds nothing where it is 0.
pub fn map_with_a_key_of_zero()
    ensures { MapWithAKeyOfZero }
{}

/// A pointer to a position that is not a multiple of the alignment there holds nothing.
pub fn box_that_is_not_aligned()
    ensures { BoxThatIsNotAligned }
{}

/// A document node with a tag past the last kind holds nothing.
pub fn unknown_tag()
    ensures { UnknownTag }
{}

/// An option with another tag than 0 and 1 holds nothing.
pub fn unknown_tag_of_an_option()
    ensures { UnknownTagOfAnOption }
{}

/// A truth value is 0 or 1.
pub fn truth_value_of_two()
    ensures { TruthValueOfTwo }
{}

/// A char is no surrogate.
pub fn surrogate_char()
    ensures { SurrogateChar }
{}

/// An inline text is UTF-8.
pub fn broken_inline_text()
    ensures { BrokenInlineText }
{}

/// A text out of line is UTF-8.
pub fn broken_long_text()
    ensures { BrokenLongText }
{}

/// A text of eight bytes is inline only.
pub fn long_text_of_eight()
    ensures { LongTextOfEight }
{}

/// The capacity of a table is greater than the number of its items.
pub fn table_without_room()
    ensures { TableWithoutRoom }
{}

/// The controls after the capacity repeat those before it.
pub fn control_that_does_not_repeat()
    ensures { ControlThatDoesNotRepeat }
{}

/// The controls repeat byte by byte, even where both bytes represent an empty place.
pub fn empty_control_that_does_not_repeat()
    ensures { EmptyControlThatDoesNotRepeat }
{}

/// After twice the capacity no control is a tag.
pub fn tag_beyond_twice_the_capacity()
    ensures { TagBeyondTwiceTheCapacity }
{}

/// A table has as many tags as items.
pub fn more_tags_than_items()
    ensures { MoreTagsThanItems }
{}

/// A kept map names only entries that it has.
pub fn place_outside_the_map()
    ensures { PlaceOutsideTheMap }
{}

/// A leaf of an ordered document map has at most five entries.
pub fn leaf_of_six()
    ensures { LeafOfSix }
{}

/// A node of a search tree is a leaf or an inner node.
pub fn unknown_kind_of_node()
    ensures { UnknownKindOfNode }
{}

/// A search tree may have thirty-two levels.
pub fn thirty_two_levels()
    ensures { ThirtyTwoLevels }
{}

/// A search tree of thirty-three levels holds nothing.
pub fn thirty_three_levels()
    ensures { ThirtyThreeLevels }
{}

/// Two counted pointers to one position hold nothing where they differ in what they lead to.
pub fn one_position_with_two_shapes()
    ensures { OnePositionWithTwoShapes }
{}

/// A counted pointer may lead to itself where its flavor allows it.
pub fn loop_of_a_flavor_with_cycles()
    ensures { LoopOfAFlavorWithCycles }
{}

/// A counted pointer to itself holds nothing where its flavor does not allow it.
pub fn loop_of_a_flavor_without_cycles()
    ensures { LoopOfAFlavorWithoutCycles }
{}
