//! Tests of texts with wholes, and of the answers about a document that has one twice.

use archive_shape_layout::Error;
use cabinet_text::answer;
use cabinet_text_grammar::Cause;
use cabinet_text_nodes::{Document, Line, write_outcome};
use cabinet_text_reading::{TextRefusal, read_line, read_text};
use std::alloc::{AllocError, Global};
use std::test::Fail;

/// The text of a list in which one whole is twice.
const WHOLE_TWICE: &[u8] = b"wholes 1\nint 5\nlist 2\nwhole 0\nwhole 0\n";

/// Returns the text of `count` wholes, each in the next one, and of a root that is the last one.
fn whole_in_whole(alloc: Global, count: u32) -> Result<String, AllocError> {
    let mut text = format!(in alloc; "wholes {count}\nint 1\n")?;
    for number in 0..count {
        let line = format!(in alloc; "whole {number}\n")?;
        text.push_str(line.as_str())?;
    }
    Ok(text)
}

/// Returns the text of a whole with 61 options in it, which is in a list, and in the list again inside 3 options.
fn whole_inside_options(alloc: Global) -> Result<String, AllocError> {
    let mut text = String::from_str(alloc, "wholes 1\n")?;
    for _ in 0..61 {
        text.push_str("some\n")?;
    }
    text.push_str("int 1\nlist 2\nwhole 0\nsome\nsome\nsome\nwhole 0\n")?;
    Ok(text)
}

/// Answers a question, or does an edit and writes its outcome.
fn carry_out(document: &mut Document, line: &Line, answers: &mut Vec<u8>) -> Result<(), Error> {
    if line.is_question() {
        answer(document, line, answers)?;
    } else if let Line::Set { path, leaf } = line {
        write_outcome(document.change(path.as_slice(), leaf), answers)?;
    }
    Ok(())
}

#[test]
fn texts_with_wholes(rt: HostRuntime) -> Result<(), Fail> {
    let in_one_another = whole_in_whole(rt.alloc(), 64)?;
    for (text, count) in [(WHOLE_TWICE, 1), (in_one_another.as_bytes(), 64)] {
        let read = read_text(rt.alloc(), text).map(|document| document.wholes().len());
        assert_eq!(rt; read, Ok(count), "at {text:?}");
    }
    Ok(())
}

#[test]
fn the_first_fault_of_a_text_with_wholes(rt: HostRuntime) -> Result<(), Fail> {
    let in_one_another = whole_in_whole(rt.alloc(), 65)?;
    let inside_options = whole_inside_options(rt.alloc())?;
    let faults = [
        (b"wholes 1\nint 5\nint 6\n".as_slice(), 3, Cause::WholeOrder),
        (
            b"wholes 2\nint 1\nint 2\nlist 2\nwhole 1\nwhole 0\n".as_slice(),
            6,
            Cause::WholeOrder,
        ),
        (
            b"wholes 2\nint 5\nint 5\nlist 2\nwhole 0\nwhole 1\n".as_slice(),
            3,
            Cause::RepeatedWhole,
        ),
        (
            b"wholes 1\nwhole 0\nwhole 0\n".as_slice(),
            2,
            Cause::UnknownWhole,
        ),
        (b"whole 0\n".as_slice(), 1, Cause::UnknownWhole),
        (b"list 1\nwholes 1\n".as_slice(), 2, Cause::UnknownHead),
        (b"wholes 0\nint 1\n".as_slice(), 1, Cause::BadNumber),
        (in_one_another.as_bytes(), 66, Cause::TooDeep),
        (inside_options.as_bytes(), 69, Cause::TooDeep),
    ];
    for (text, line, cause) in faults {
        let refusal = read_text(rt.alloc(), text).err();
        assert_eq!(rt; refusal, Some(TextRefusal { line, cause }), "at {text:?}");
    }
    Ok(())
}

#[test]
fn answers_in_a_whole(rt: HostRuntime) -> Result<(), Fail> {
    let Ok(mut document) = read_text(rt.alloc(), WHOLE_TWICE) else {
        return Err(Fail::from("no document"));
    };
    let rows = [
        (b"get #0".as_slice(), b"whole\n".as_slice()),
        (b"get #1 ?".as_slice(), b"int 5\n".as_slice()),
        (b"set int 6 #0 ?".as_slice(), b"refused\n".as_slice()),
        (b"set int 6 #0".as_slice(), b"refused\n".as_slice()),
        (b"get #0 'a".as_slice(), b"missing\n".as_slice()),
    ];
    for (bytes, want) in rows {
        let Ok(line) = read_line(rt.alloc(), bytes) else {
            return Err(Fail::from("no line"));
        };
        let mut answers = Vec::new(rt.alloc());
        assert!(rt; carry_out(&mut document, &line, &mut answers).is_ok());
        assert!(rt; answers.as_slice() == want, "at {bytes:?}");
    }
    Ok(())
}
