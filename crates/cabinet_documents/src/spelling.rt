//! How documents are archived, and that it writes their images: laws, as functions without a body that proofs can cite.
ghost use Rattle.cabinet_documents.specs.SpellingLaws.{NodeSpells, OneImage, OneLevelIsWritten, OneValue, RefusedIsPast, SamplesAreImages, SamplesAreSpelled, ValueDenotes, WrittenIsImage};

/// The bytes that are written for a document are those that the layout reads, and are canonical.
pub fn node_spells()
    ensures { NodeSpells }
{}

/// The value that is written for a document without wholes denotes it, with the pairs of its hashed
/// maps in the order of first fit.
pub fn value_denotes()
    ensures { ValueDenotes }
{}

/// No other value in that order denotes a document, except for the positions of shared texts.
pub fn one_value()
    ensures { OneValue }
{}

/// A document is refused exactly where what it stores is past a limit.
pub fn refused_is_past()
    ensures { RefusedIsPast }
{}

/// Writing one level of a node, with the nodes in it written as nodes, writes the node.
pub fn one_level_is_written<W>()
    ensures { OneLevelIsWritten W }
{}

/// The bytes that are written for a document within the limits are its image.
pub fn written_is_image()
    ensures { WrittenIsImage }
{}

/// A document has at most one image.
pub fn one_image()
    ensures { OneImage }
{}

/// The number five, a list of it, and a list of one shared text twice are written as the sample bytes.
pub fn samples_are_spelled()
    ensures { SamplesAreSpelled }
{}

/// The sample bytes are the images of these documents.
pub fn samples_are_images()
    ensures { SamplesAreImages }
{}
