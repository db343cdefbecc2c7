//! The laws of archived texts, each a function with an empty body whose contract is the law.
ghost use Rattle.archive_forms_laws.specs.Text.{HeldIsText, OneText};

/// Bytes have at most one text at a position.
pub fn one_text()
    ensures { OneText }
{}

/// Where the layout has a value of the shape of texts, and what it claims lies in the buffer, the bytes have its text
/// there.
pub fn held_is_text()
    ensures { HeldIsText }
{}
