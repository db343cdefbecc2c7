//! Worked documents, texts and lines: each function below has no body and states in its contract what the definitions
//! result in.

ghost use Rattle.cabinet_text_grammar.specs.Texts.{MapOfFour, ListOfEight, WholeTwice};
ghost use Rattle.cabinet_text_grammar.specs.Answers.{RangeInTheMiddle, RangeBetweenKeys, EmptyRange, ReversedRange, KeysOfTheKinds, HeadsOfTheKinds, MissingNodes, Edits, EditedText, AnswersInWholes};
ghost use Rattle.cabinet_text_grammar.specs.Faulty.{HashedKeysThatDescend, OrderedKeyTwice, KeptKeyTwice, SomeWithAnArgument, KeyInPlaceOfAHead, HeadInPlaceOfAKey, CountWithALeadingZero, KeyWithARawSpace, OptionWithoutItsNode, MapWithoutItsSecondPair, ListWithoutItsSecondElement, LineAfterADocument, LastLineWithoutANewline, SixtyFiveOptions, WholeWithoutWholes, WholeInItself, WholesOnALaterLine, NoWholes, EqualWholes, UnusedWhole, WholesOutOfOrder};

/// States the text of an ordered map of four numbers.
pub fn map_of_four()
    ensures { MapOfFour }
{}

/// States the text of a list with an element of each other kind.
pub fn list_of_eight()
    ensures { ListOfEight }
{}

/// States that a range of an ordered map has the keys that are at or above its first bound and below its second.
pub fn range_in_the_middle()
    ensures { RangeInTheMiddle }
{}

/// States that the bounds of a range need not be keys of the map.
pub fn range_between_keys()
    ensures { RangeBetweenKeys }
{}

/// States that a range with equal bounds has no keys.
pub fn empty_range()
    ensures { EmptyRange }
{}

/// States that a range whose second bound is below the first has no keys.
pub fn reversed_range()
    ensures { ReversedRange }
{}

/// States which kinds of nodes have keys in an order, and which have ranges.
pub fn keys_of_the_kinds()
    ensures { KeysOfTheKinds }
{}

/// States the heads of all kinds of nodes, and the nodes at paths by key, by place and into an option.
pub fn heads_of_the_kinds()
    ensures { HeadsOfTheKinds }
{}

/// States that some paths lead to nothing.
pub fn missing_nodes()
    ensures { MissingNodes }
{}

/// States which edits are done and which are refused.
pub fn edits()
    ensures { Edits }
{}

/// States the text of a document after an edit.
pub fn edited_text()
    ensures { EditedText }
{}

/// States the fault of a hashed map whose second key is below the first.
pub fn hashed_keys_that_descend()
    ensures { HashedKeysThatDescend }
{}

/// States the fault of an ordered map whose second key is the first.
pub fn ordered_key_twice()
    ensures { OrderedKeyTwice }
{}

/// States the fault of a kept map whose second key is the first.
pub fn kept_key_twice()
    ensures { KeptKeyTwice }
{}

/// States the fault of a line with a word after `some`.
pub fn some_with_an_argument()
    ensures { SomeWithAnArgument }
{}

/// States the fault of a key where the head of a list's element is expected.
pub fn key_in_place_of_a_head()
    ensures { KeyInPlaceOfAHead }
{}

/// States the fault of a head where the key of a map is expected.
pub fn head_in_place_of_a_key()
    ensures { HeadInPlaceOfAKey }
{}

/// States the fault of a count that begins with a zero.
pub fn count_with_a_leading_zero()
    ensures { CountWithALeadingZero }
{}

/// States the fault of a key with a space that is not escaped.
pub fn key_with_a_raw_space()
    ensures { KeyWithARawSpace }
{}

/// States the fault of a text that ends after `some`.
pub fn option_without_its_node()
    ensures { OptionWithoutItsNode }
{}

/// States the fault of a text that ends where a key is expected.
pub fn map_without_its_second_pair()
    ensures { MapWithoutItsSecondPair }
{}

/// States the fault of a text that ends where the second element of a list is expected.
pub fn list_without_its_second_element()
    ensures { ListWithoutItsSecondElement }
{}

/// States the fault of a line after a document.
pub fn line_after_a_document()
    ensures { LineAfterADocument }
{}

/// States the fault of a last line without a newline.
pub fn last_line_without_a_newline()
    ensures { LastLineWithoutANewline }
{}

/// States the fault of an option inside 64 options.
pub fn sixty_five_options()
    ensures { SixtyFiveOptions }
{}

/// States the text of a list that has one whole twice.
pub fn whole_twice()
    ensures { WholeTwice }
{}

/// States the answers to questions and edits that lead to wholes and into them.
pub fn answers_in_wholes()
    ensures { AnswersInWholes }
{}

/// States the first fault of the number of a whole in a text without wholes.
pub fn whole_without_wholes()
    ensures { WholeWithoutWholes }
{}

/// States the first fault of a whole that names itself.
pub fn whole_in_itself()
    ensures { WholeInItself }
{}

/// States the first fault of a number of wholes on another line than the first.
pub fn wholes_on_a_later_line()
    ensures { WholesOnALaterLine }
{}

/// States the first fault of the number 0 of wholes.
pub fn no_wholes()
    ensures { NoWholes }
{}

/// States the first fault of two wholes that are equal.
pub fn equal_wholes()
    ensures { EqualWholes }
{}

/// States the first fault of a whole that no place uses.
pub fn unused_whole()
    ensures { UnusedWhole }
{}

/// States the first fault of wholes that are used in another order than that of their numbers.
pub fn wholes_out_of_order()
    ensures { WholesOutOfOrder }
{}
