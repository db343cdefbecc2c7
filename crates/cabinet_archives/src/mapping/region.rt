//! What regions of an archive are.
ghost use Rattle.std.specs.Prelude.{◌≡◌};
ghost use Rattle.cabinet_archives.specs.MapLines.{word_of, place_of};

/// What a region is.
#[derive(Clone, Copy, Debug, PartialEq, Eq)]
pub(crate) enum RegionKind {
    /// The node at the root.
    Root,
    /// The node in an option.
    Node,
    /// The node in a whole.
    Whole,
    /// The elements of a list.
    Elements,
    /// A node of an ordered map's search tree.
    Tree,
    /// The table of a hashed map, or that of a kept map, which has the numbers of its entries.
    Table,
    /// The entries of a kept map.
    Entries,
    /// The bytes of a text out of line.
    Text,
    /// The bytes of a key out of line.
    Key,
    /// The bytes of a shared text.
    Shared,
}

impl RegionKind {
    /// Returns the word that a line of a map has for it.
    pub(crate) fn word(self) -> &'static str
        ensures { result.now ≡ word_of self }
    {
        match self {
            RegionKind::Root => "root",
            RegionKind::Node => "node",
            RegionKind::Whole => "whole",
            RegionKind::Elements => "elements",
            RegionKind::Tree => "tree",
            RegionKind::Table => "table",
            RegionKind::Entries => "entries",
            RegionKind::Text => "text",
            RegionKind::Key => "key",
            RegionKind::Shared => "shared",
        }
    }

    /// Returns the place at which a map counts its bytes.
    pub(crate) fn place(self) -> usize
        ensures { result ≡ place_of self }
    {
        match self {
            RegionKind::Root => 0,
            RegionKind::Node => 1,
            RegionKind::Whole => 2,
            RegionKind::Elements => 3,
            RegionKind::Tree => 4,
            RegionKind::Table => 5,
            RegionKind::Entries => 6,
            RegionKind::Text => 7,
            RegionKind::Key => 8,
            RegionKind::Shared => 9,
        }
    }
}
