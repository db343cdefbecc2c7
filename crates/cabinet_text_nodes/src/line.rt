//! Steps and lines, and the errors of reading a line.
ghost use Rattle.std.specs.Prelude.{◌↔◌, IsTrue};
ghost use Rattle.cabinet_text_nodes.specs.Lines.{IsQuestion};
ghost use Rattle.cabinet_text_nodes.specs.View.{line_of};

use crate::leaf::Leaf;
use crate::node::Node;
use thiserror::Error;

/// A step down a document, from a node to one inside it.
#[derive(Debug, Drop)]
pub enum Step {
    /// Into a map, by a key.
    Key(String),
    /// Into a list, by a place counted from 0.
    Place(u64),
    /// Into an option or a whole.
    Inside,
}

/// A line: a question about a document, or an edit of it.
#[derive(Debug, Drop)]
pub enum Line {
    /// Requests the head of the node at a path.
    Get(Vec<Step>),
    /// Requests the keys of the map at a path.
    Keys(Vec<Step>),
    /// Requests the keys of the ordered map at a path that are at or above `lo` and below `hi`.
    Range {
        lo: String,
        hi: String,
        path: Vec<Step>,
    },
    /// Puts a leaf at a path.
    Set {
        path: Vec<Step>,
        leaf: Leaf,
    },
}

/// A line of a session in which documents grow.
#[derive(Debug, Drop)]
pub enum EditLine {
    /// Requests a part of the document, or sets a leaf.
    About(Line),
    /// Puts a node at a path.
    Put { path: Vec<Step>, node: Node },
    /// Inserts a node before the element at a path, or after the last.
    Insert { path: Vec<Step>, node: Node },
    /// Removes the node at a path.
    Remove(Vec<Step>),
}

/// The error of reading bytes as a line.
#[derive(Clone, Copy, Debug, PartialEq, Eq, Error)]
pub enum LineRefusal {
    #[error("the bytes are no line")]
    Bad,
    #[error("out of memory")]
    OutOfMemory,
}

impl Line {
    /// Returns whether the line changes nothing.
    pub fn is_question(&self) -> bool
        ensures { IsTrue result ↔ IsQuestion (line_of self.now) }
    {
        match self {
            Line::Get(_) | Line::Keys(_) | Line::Range { .. } => true,
            Line::Set { .. } => false,
        }
    }
}
