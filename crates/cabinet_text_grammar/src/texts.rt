//! Laws that relate documents and texts.
ghost use Rattle.cabinet_text_grammar.specs.TextsLaws.{ReadBack, TextOrFault};

/// States that the text of a document is the text of that document and of no other, and has no fault.
///
/// With the contracts of `read_text` and `write_text`, the text that is written for a document is read as that
/// document, or the reading fails with `OutOfMemory`, which it does only where it takes memory.
pub fn read_back()
    ensures { ReadBack }
{}

/// States that each input either is the text of one document or has one first fault.
pub fn text_or_fault()
    ensures { TextOrFault }
{}
