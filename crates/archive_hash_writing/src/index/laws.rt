//! Laws. Each function below has no body: it states a law in its contract.
ghost use Rattle.archive_hash_writing.specs.IndexLaws.{MapsAreWritten, SamplesAreSpelled, TextsAreKept};

/// States that index maps of no and of two entries are spelled as the sample bytes.
pub fn samples_are_spelled()
    ensures { SamplesAreSpelled }
{}

/// States that an index map of numbers is written as its one archive for all hashes of its keys, where a fit fills the
/// map as it is written.
pub fn maps_are_written()
    ensures { MapsAreWritten }
{}

/// States that first fit fills an index map as it is written where its keys are texts, by the hashes of the texts.
pub fn texts_are_kept()
    ensures { TextsAreKept }
{}
