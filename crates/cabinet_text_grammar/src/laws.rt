//! Laws of texts, lines, edits, maps and wholes, for other crates to cite.
ghost use Rattle.cabinet_text_grammar.specs.EditLine.{OneEditLine};
ghost use Rattle.cabinet_text_grammar.specs.Laws.{OneDocument, FaultRefuses, OneFault, OneLine, OnlyDoneChanges, ChangeKeepsDocument};
ghost use Rattle.cabinet_text_grammar.specs.PairsLaws.{MapAnswersItsPairs};
ghost use Rattle.cabinet_text_grammar.specs.WholesLaws.{TextWithoutWholes};

/// States that no two documents have the same text.
pub fn one_document()
    ensures { OneDocument }
{}

/// States that a text with a fault is the text of no document.
pub fn fault_refuses()
    ensures { FaultRefuses }
{}

/// States that a text has at most one first fault.
pub fn one_fault()
    ensures { OneFault }
{}

/// States that bytes spell at most one line.
pub fn one_line()
    ensures { OneLine }
{}

/// States that bytes spell at most one line of a session in which documents grow.
pub fn one_edit_line()
    ensures { OneEditLine }
{}

/// States that only an edit that is done changes the document.
pub fn only_done_changes()
    ensures { OnlyDoneChanges }
{}

/// States that the result of an edit is a document.
pub fn change_keeps_document()
    ensures { ChangeKeepsDocument }
{}

/// States that a map answers a key exactly if it is among its pairs, and then by the node of a pair with that key, of
/// which a legal map has one.
pub fn map_answers_its_pairs()
    ensures { MapAnswersItsPairs }
{}

/// States that the table of a document is empty exactly if no node of it is a whole, and its text is then that of the root
/// alone.
pub fn text_without_wholes()
    ensures { TextWithoutWholes }
{}
