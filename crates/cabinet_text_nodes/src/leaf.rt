//! Leaves, owned and borrowed, and which leaves may be put in the place of which.
ghost use Rattle.std.specs.Prelude.{◌≡◌};
ghost use Rattle.cabinet_text_grammar.specs.Answering as answering;
ghost use Rattle.cabinet_text_grammar.specs.Tree.{IsLeaf};
ghost use Rattle.cabinet_text_nodes.specs.View.{leaf_of, lent_leaf};

/// A value that a line may set.
#[derive(Debug, Drop)]
pub enum Leaf {
    Bool(bool),
    Int(i64),
    Text(String),
}

/// A leaf whose text is borrowed, from a `Leaf` or from the bytes of an archive.
#[derive(Clone, Copy, Debug)]
pub enum LeafRef<'a> {
    Bool(bool),
    Int(i64),
    Text(&'a str),
}

impl Leaf {
    /// Borrows the leaf.
    pub fn as_ref(&self) -> LeafRef<'_>
        ensures value { lent_leaf result ≡ leaf_of self.now }
        ensures leaf { IsLeaf (leaf_of self.now) }
    {
        match self {
            Leaf::Bool(value) => LeafRef::Bool(*value),
            Leaf::Int(number) => LeafRef::Int(*number),
            Leaf::Text(text) => LeafRef::Text(text.as_str()),
        }
    }
}

/// Returns whether `new` may be put in the place of `there`: both have the same kind, and texts have the same length.
pub fn fits(there: LeafRef<'_>, new: LeafRef<'_>) -> bool
    ensures { result ≡ answering.fits (lent_leaf there.entry) (lent_leaf new.entry) }
{
    match (there, new) {
        (LeafRef::Bool(_), LeafRef::Bool(_)) => true,
        (LeafRef::Int(_), LeafRef::Int(_)) => true,
        (LeafRef::Text(old), LeafRef::Text(text)) => old.len() == text.len(),
        _ => false,
    }
}
