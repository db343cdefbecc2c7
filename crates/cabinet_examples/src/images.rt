//! Worked documents with their images written out, one in the contract of each function.

ghost use Rattle.cabinet_examples.specs.Images.{FiveImage, TrueImage, WorldImage, LongTextImage, NothingImage, SomeFiveImage, SevenAndNineteenImage, EmptyListImage, ListOfAnEmptyListImage, SharedTextImage, EmptySharedTextImage, WholeImage, OrderedMapImage, HashedMapImage, KeptMapImage};

/// The image of the number 5.
pub fn five_image()
    ensures { FiveImage }
{}

/// The image of the truth value true.
pub fn true_image()
    ensures { TrueImage }
{}

/// The image of the text `world`, which is inline and filled with `ff`.
pub fn world_image()
    ensures { WorldImage }
{}

/// The image of the text `hello world!`: its bytes lie before its node, which has their length and the offset to them.
pub fn long_text_image()
    ensures { LongTextImage }
{}

/// The image of an option without a node.
pub fn nothing_image()
    ensures { NothingImage }
{}

/// The image of an option of the number 5: the number's node lies before the option's.
pub fn some_five_image()
    ensures { SomeFiveImage }
{}

/// The image of a list of the numbers 7 and 19: its elements lie before its node.
pub fn seven_and_nineteen_image()
    ensures { SevenAndNineteenImage }
{}

/// The image of a list without elements: its pointer leads to its own node's position.
pub fn empty_list_image()
    ensures { EmptyListImage }
{}

/// The image of a list of a list without elements.
pub fn list_of_an_empty_list_image()
    ensures { ListOfAnEmptyListImage }
{}

/// The image of a list of one shared text twice: the text's bytes are written once, and both elements point to them.
pub fn shared_text_image()
    ensures { SharedTextImage }
{}

/// The image of a list of one empty shared text twice, with a zero byte at the position of the text.
pub fn empty_shared_text_image()
    ensures { EmptySharedTextImage }
{}

/// The image of a list of the whole `5` twice: the whole's node is written once, and both elements point to it.
pub fn whole_image()
    ensures { WholeImage }
{}

/// The image of an ordered map of two numbers: one leaf, with the keys and then the numbers.
pub fn ordered_map_image()
    ensures { OrderedMapImage }
{}

/// The image of a hashed map of one text: a table of two places, of which the first is empty.
pub fn hashed_map_image()
    ensures { HashedMapImage }
{}

/// The image of a kept map of two numbers, whose keys descend: a table of the places of its entries, and then the entries
/// in their order.
pub fn kept_map_image()
    ensures { KeptMapImage }
{}
