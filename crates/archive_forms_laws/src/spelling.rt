//! The laws of how values are written, each a function with an empty body whose contract is the law.
ghost use Rattle.archive_forms_laws.specs.SpellingLaws.{KeyedListsAreWritten, LeafSpells, OnePresentIsWritten, OptionalListsAreWritten, PairsAreWritten, TextsAreWritten, TwoSharedIsWritten, WrittenOnce};

/// The own bytes of a number, a bool or a char, of any type, are read as its value, and are canonical.
pub fn leaf_spells<T>()
    ensures { LeafSpells T }
{}

/// A value has at most one archive that ends with its root, regardless of the positions of shared values.
pub fn written_once()
    ensures { WrittenOnce }
{}

/// A list of shared numbers is written as its one archive, each number once.
pub fn keyed_lists_are_written()
    ensures { KeyedListsAreWritten }
{}

/// A list of numbers in boxes, some of them absent, is written as its one archive.
pub fn optional_lists_are_written()
    ensures { OptionalListsAreWritten }
{}

/// A list of two numbers that are one shared value is written as its one archive, with the number once.
pub fn two_shared_is_written()
    ensures { TwoSharedIsWritten }
{}

/// A list of a number in a box and of an absent one is written as its one archive.
pub fn one_present_is_written()
    ensures { OnePresentIsWritten }
{}

/// A pair of a number of one byte and one of eight is written as its one archive, of sixteen bytes.
pub fn pairs_are_written()
    ensures { PairsAreWritten }
{}

/// Texts of at most eight bytes are written inline, and one of nine bytes out of line, each as its one archive.
pub fn texts_are_written()
    ensures { TextsAreWritten }
{}
