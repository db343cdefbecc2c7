//! An edit of the document of an archive, in place.
ghost use Rattle.std.specs.Prelude.{◌≡◌};
ghost use Rattle.cabinet_text_grammar.specs.Tree.{Tree};
ghost use Rattle.cabinet_documents.specs.Accepted.{Accepted};
ghost use Rattle.cabinet.specs.ByteCalls.{Sets};

use crate::calls::status::Status;
use crate::opened::Opened;
use archive_hash_probing::Group;
use cabinet_text_nodes::{Line, LineRefusal};
use cabinet_text_reading::read_line;
use std::alloc::Global;

/// Carries out a line that is an edit.
pub fn set(alloc: Global, archive: &mut [u8], line: &[u8]) -> Status
    requires { ∥ ((t : Tree) × Accepted archive.old t) ∥₁ }
    ensures { Sets line.now archive.old archive.new result }
{
    let edit = match read_line(alloc, line) {
        Ok(edit) => edit,
        Err(LineRefusal::Bad) => return Status::Bad,
        Err(LineRefusal::OutOfMemory) => return Status::OutOfMemory,
    };
    match &edit {
        Line::Set { path, leaf } => {
            let mut opened = Opened::<Group>::new(archive);
            Status::of_outcome(opened.set(path, leaf))
        }
        _ => Status::Bad,
    }
}
