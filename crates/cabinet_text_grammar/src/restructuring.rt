//! Laws and worked examples of edits that add, replace and remove nodes.
ghost use Rattle.cabinet_text_grammar.specs.RestructuringExamples.{NewKeys, Elements, Options, LinesThatEdit};
ghost use Rattle.cabinet_text_grammar.specs.RestructuringLaws.{PutKeepsDocument, InsertKeepsDocument, RemoveKeepsDocument, PutLeadsToNew, InsertMovesElements, RemoveMovesElements};

/// States that a document in which a node was put has the same wholes, and is a document.
pub fn put_keeps_document()
    ensures { PutKeepsDocument }
{}

/// States that a document in which a node was inserted has the same wholes, and is a document.
pub fn insert_keeps_document()
    ensures { InsertKeepsDocument }
{}

/// States that a document of which a node was removed has the same wholes, and is a document.
pub fn remove_keeps_document()
    ensures { RemoveKeepsDocument }
{}

/// States that a path leads to the node that was put there, and paths that part from it lead where they led.
pub fn put_leads_to_new()
    ensures { PutLeadsToNew }
{}

/// States that a place leads to the node that was inserted there, and the places behind it to the elements before them.
pub fn insert_moves_elements()
    ensures { InsertMovesElements }
{}

/// States that what was behind a removed element has its place, and that no path leads to a removed pair or content.
pub fn remove_moves_elements()
    ensures { RemoveMovesElements }
{}

/// States where a node stands that is put under a new key.
pub fn new_keys()
    ensures { NewKeys }
{}

/// States edits of a list.
pub fn elements()
    ensures { Elements }
{}

/// States edits of options, of a root and of wholes.
pub fn options()
    ensures { Options }
{}

/// States the answers to lines that add and remove nodes.
pub fn lines_that_edit()
    ensures { LinesThatEdit }
{}
