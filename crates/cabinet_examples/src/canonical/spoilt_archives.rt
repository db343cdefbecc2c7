//! Worked archives that the layout accepts and that are the one archive of no value: each differs from one that is in
//! what its name states.
ghost use Rattle.cabinet_examples.specs.Spoilt.{MarkedPadding, MarkedSlot, MarkedBucket, OtherFiller, OtherControl, RoomForNothing, OffsetToNothing, GapBeforeRoot, GapBeforeBox, ByteBehindRoot, TextStandingTwice, LeafOnTheRight, LeafOfNone, OtherPlace, OtherKeptPlace, WrongTag, RoomToSpare};

/// A byte of padding is not zero.
pub fn padding_that_is_not_zero()
    ensures { MarkedPadding }
{}

/// A slot that a leaf does not use is not zero.
pub fn unused_slot_that_is_not_zero()
    ensures { MarkedSlot }
{}

/// A bucket that is empty is not zero.
pub fn empty_bucket_that_is_not_zero()
    ensures { MarkedBucket }
{}

/// An inline text is filled with another byte than `ff`.
pub fn filler_of_a_text_that_is_not_ff()
    ensures { OtherFiller }
{}

/// The control of an empty place is not `ff`.
pub fn empty_control_that_is_not_ff()
    ensures { OtherControl }
{}

/// A map without entries has room for one.
pub fn capacity_without_entries()
    ensures { RoomForNothing }
{}

/// A tree without entries has an offset other than 1.
pub fn offset_without_entries()
    ensures { OffsetToNothing }
{}

/// Eight zero bytes lie between a box and the root.
pub fn gap_before_the_root()
    ensures { GapBeforeRoot }
{}

/// Eight zero bytes lie before a box.
pub fn gap_before_a_box()
    ensures { GapBeforeBox }
{}

/// A zero byte follows the root.
pub fn byte_behind_the_root()
    ensures { ByteBehindRoot }
{}

/// Two equal shared texts are written at two positions.
pub fn shared_text_that_stands_twice()
    ensures { TextStandingTwice }
{}

/// The one leaf of a tree of six is the last child instead of the first.
pub fn tree_that_is_not_filled_from_the_left()
    ensures { LeafOnTheRight }
{}

/// A tree of five has an inner node, and a leaf without entries.
pub fn tree_higher_than_its_entries_need()
    ensures { LeafOfNone }
{}

/// The item of a table is in another place than first fit gives its key.
pub fn table_that_is_not_by_first_fit()
    ensures { OtherPlace }
{}

/// A map keeps the number of an entry in another place than first fit gives the key.
pub fn kept_map_that_is_not_by_first_fit()
    ensures { OtherKeptPlace }
{}

/// The tag of an item is not that of its key.
pub fn tag_of_another_key()
    ensures { WrongTag }
{}

/// A table has one place more than its items need.
pub fn capacity_greater_than_needed()
    ensures { RoomToSpare }
{}
