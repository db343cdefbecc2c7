//! The laws of documents in archives, of their maps and wholes, of loaded documents, of sessions and of statuses. Each is a
//! function whose contract is the law. Its body is empty, or calls the law that it rests on.
ghost use Rattle.cabinet.specs.KeyLaws.{ArchiveAnswersItsPairs};
ghost use Rattle.cabinet.specs.Laws.{AcceptedAfterEachLine, CodesDiffer, EditedAsInPlace, ImageAfterEachLine, LoadedIsSaved, SavedAgainIsSame, UneditedBytesStay};
ghost use Rattle.cabinet.specs.WholesLaws.{ArchiveWithoutWholes};

pub use crate::refusals::accepted_is_not_refused;
use cabinet_text_grammar::map_answers_its_pairs;
pub use cabinet_text_grammar::text_without_wholes;

/// After each line of a session its bytes are the archive of the document after that line.
pub fn accepted_after_each_line()
    ensures { AcceptedAfterEachLine }
{}

/// After each line of a session in the image of a document its bytes are the image of the document after that line.
pub fn image_after_each_line()
    ensures { ImageAfterEachLine }
{}

/// The bytes of an archive in which no edit was done are unchanged.
pub fn unedited_bytes_stay()
    ensures { UneditedBytesStay }
{}

/// Lines that work in place leave the same image where the document is loaded, edited and saved.
pub fn edited_as_in_place()
    ensures { EditedAsInPlace }
{}

/// Saving the document that an archive is loaded as gives an archive of the same document.
pub fn loaded_is_saved()
    ensures { LoadedIsSaved }
{}

/// Loading a saved document and saving it once more gives the same bytes.
pub fn saved_again_is_same()
    ensures { SavedAgainIsSame }
{}

/// A question for a key of a map in an archive is answered exactly if the key is among the pairs of the map, by the head of
/// that pair's node, and is missing otherwise.
pub fn archive_answers_its_pairs()
    ensures { ArchiveAnswersItsPairs }
{
    map_answers_its_pairs();
}

/// An archive has no whole exactly if its document has none.
pub fn archive_without_wholes()
    ensures { ArchiveWithoutWholes }
{}

/// Different statuses have different codes.
pub fn codes_differ()
    ensures { CodesDiffer }
{}
