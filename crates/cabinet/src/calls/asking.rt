//! The answer to a question about the document of an archive, put into a buffer.
ghost use Rattle.std.specs.Prelude.{◌≡◌};
ghost use Rattle.cabinet_text_grammar.specs.Tree.{Tree};
ghost use Rattle.cabinet_documents.specs.Accepted.{Accepted};
ghost use Rattle.cabinet.specs.ByteCalls.{Asks};

use crate::calls::putting::put;
use crate::calls::status::Status;
use crate::opened::Opened;
use archive_hash_probing::Group;
use cabinet_text_nodes::LineRefusal;
use cabinet_text_reading::read_line;
use std::alloc::Global;

/// Answers a line that is a question, and puts the answer into the buffer.
pub fn ask(
    alloc: Global,
    archive: &mut [u8],
    line: &[u8],
    buffer: &mut [u8],
    written: &mut usize,
) -> Status
    requires { ∥ ((t : Tree) × Accepted archive.old t) ∥₁ }
    ensures same { archive.new ≡ archive.old }
    ensures asks { Asks archive.old line.now buffer.old buffer.new written.new result }
{
    *written = 0;
    let question = match read_line(alloc, line) {
        Ok(question) => question,
        Err(LineRefusal::Bad) => return Status::Bad,
        Err(LineRefusal::OutOfMemory) => return Status::OutOfMemory,
    };
    if !question.is_question() {
        return Status::Bad;
    }
    let opened = Opened::<Group>::new(archive);
    let mut answer = Vec::new(alloc);
    match opened.ask(&question, &mut answer) {
        Ok(asked) => put(answer.as_slice(), Status::of_asked(asked), buffer, written),
        Err(_) => Status::OutOfMemory,
    }
}
