//! Laws of the archives of documents, as functions without a body that proofs can cite.
ghost use Rattle.cabinet_documents.specs.Laws.{AuditDecides, EditsInEitherOrder, OwnBytesApart, AcceptedStands, EditKeepsAccepted, EditKeepsImage, LeavesStand, OneWalk, FiveIsAccepted, LeafPut, WalkStands, OneDocument, OneAuditFault, RefusedIsNotAccepted};

/// A part has at most one value and one walk.
pub fn one_walk()
    ensures { OneWalk }
{}

/// Accepted bytes denote one document.
pub fn one_document()
    ensures { OneDocument }
{}

/// Bytes have at most one first fault of the audit.
pub fn one_audit_fault()
    ensures { OneAuditFault }
{}

/// Bytes with a fault of the audit are accepted as no document.
pub fn refused_is_not_accepted()
    ensures { RefusedIsNotAccepted }
{}

/// The value at a root has a walk, where no shared position lies inside itself.
pub fn walk_stands()
    ensures { WalkStands }
{}

/// Putting a leaf in a node's value, at a path through options, lists and maps, puts it in the document.
pub fn leaf_put()
    ensures { LeafPut }
{}

/// Twenty-four bytes are the archive of the number five.
pub fn five_is_accepted()
    ensures { FiveIsAccepted }
{}

/// Each leaf of an accepted document has own bytes in the archive.
pub fn leaves_stand()
    ensures { LeavesStand }
{}

/// Writing a leaf over the own bytes of another, where the edit may be done, leaves an archive of the document with the
/// edit.
pub fn edit_keeps_accepted()
    ensures { EditKeepsAccepted }
{}

/// The same edit of the one archive of a document leaves the one archive of the document with the edit.
pub fn edit_keeps_image()
    ensures { EditKeepsImage }
{}

/// Bytes at whose root a node holds, and in whose walk the audit finds no fault, are accepted as a document.
pub fn accepted_stands()
    ensures { AcceptedStands }
{}

/// The audit decides of bytes at whose root a node holds: they are accepted as a document, or its first fault is theirs.
pub fn audit_decides()
    ensures { AuditDecides }
{}

/// The own bytes of leaves at different paths do not overlap.
pub fn own_bytes_apart()
    ensures { OwnBytesApart }
{}

/// Two edits of leaves at different paths may be done in either order.
pub fn edits_in_either_order()
    ensures { EditsInEitherOrder }
{}
