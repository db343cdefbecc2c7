//! The causes for which a text is not the text of a document.
use thiserror::Error;

/// The cause of a fault: what is wrong with a line of a document's text. The variants are in the order in which they
/// are checked.
#[derive(Clone, Copy, Debug, PartialEq, Eq, Error)]
pub enum Cause {
    #[error("NotUtf8")]
    NotUtf8,
    /// The last line lacks its newline.
    #[error("NoNewline")]
    NoNewline,
    /// The input has ended where another line is expected.
    #[error("EndTooEarly")]
    EndTooEarly,
    /// A key is expected and the line does not begin with a quote.
    #[error("KeyExpected")]
    KeyExpected,
    /// A backslash is before another character than `\`, `n` and `s`, or a space is not escaped.
    #[error("BadEscape")]
    BadEscape,
    /// A key of an ordered or a hashed map is not above the key before it.
    #[error("KeyOrder")]
    KeyOrder,
    /// A key of a kept map is the same as an earlier one.
    #[error("KeyRepeated")]
    KeyRepeated,
    #[error("UnknownHead")]
    UnknownHead,
    /// The argument of `int` or of a count is no number of 64 bits, or not written in its shortest form.
    #[error("BadNumber")]
    BadNumber,
    /// The number of a whole is that of none that is complete.
    #[error("UnknownWhole")]
    UnknownWhole,
    /// The line is the head of a container, or of a whole with containers in it, by which more than 64 containers lie in
    /// one another.
    #[error("TooDeep")]
    TooDeep,
    /// The line completes a whole that is equal to an earlier one.
    #[error("RepeatedWhole")]
    RepeatedWhole,
    /// The line completes the document, in which a whole is not used or has not its number: wholes are numbered in the
    /// order in which a walk from the root first completes them.
    #[error("WholeOrder")]
    WholeOrder,
    /// The line is after the end of a complete document.
    #[error("LineAfterEnd")]
    LineAfterEnd,
    #[error("OutOfMemory")]
    OutOfMemory,
}
