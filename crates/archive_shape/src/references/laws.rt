//! The laws of writes and of pointees, each a function with an empty body whose contract is the law.
ghost use Rattle.archive_shape.specs.Bytes.{OverwriteSpares};
ghost use Rattle.archive_shape.specs.Pointees.{ExtentIsClaimed};
ghost use Rattle.archive_shape.specs.Sealing.{SealedLeaf, SealedText};

/// Bytes that are written at a position are found there, and the bytes outside are unchanged.
pub fn overwrite_spares()
    ensures { OverwriteSpares }
{}

/// Where a number, char or bool is a part of a root, writing other own bytes of its type there, as `Seal::write` does,
/// changes only that leaf of the root's value.
pub fn sealed_leaf()
    ensures { SealedLeaf }
{}

/// Where a text is a part of a root, inline or out of line, writing another text of the same length there, as a seal of
/// the text does, changes only that leaf of the root's value.
pub fn sealed_text()
    ensures { SealedText }
{}

/// The size and the alignment that `LayoutRaw::layout_raw` returns are those of the region that an archive has for what
/// a pointer leads to, where the size of one element is below 2^64.
pub fn extent_is_claimed()
    ensures { ExtentIsClaimed }
{}
