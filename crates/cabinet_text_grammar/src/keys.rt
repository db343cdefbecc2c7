//! Laws of the numbers of texts. Each function below has no body: it states a law in its contract.
ghost use Rattle.cabinet_text_grammar.specs.TextKey.{KeyHasText, TextHasKey};

/// States that no two texts have the same number: a text's number leads back to the text.
pub fn key_has_text()
    ensures { KeyHasText }
{}

/// States that each number is the number of the text to which it leads.
pub fn text_has_key()
    ensures { TextHasKey }
{}
