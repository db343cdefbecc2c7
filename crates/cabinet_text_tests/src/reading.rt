//! Tests of texts whose last line has no newline, and of the text of a refusal.

use cabinet_text_grammar::Cause;
use cabinet_text_reading::{TextRefusal, read_text};
use std::test::Fail;

#[test]
fn the_last_line_has_a_newline(rt: HostRuntime) -> Result<(), Fail> {
    let faults = [
        (b"int 5".as_slice(), 1, Cause::NoNewline),
        (b"int 5\nint 5".as_slice(), 2, Cause::NoNewline),
        (b"list 1\nint 7".as_slice(), 2, Cause::NoNewline),
        (b"\xff".as_slice(), 1, Cause::NotUtf8),
        (b"list 2\nint 5\nint \xff".as_slice(), 3, Cause::NotUtf8),
    ];
    for (text, line, cause) in faults {
        let refusal = read_text(rt.alloc(), text).err();
        assert_eq!(rt; refusal, Some(TextRefusal { line, cause }), "at {text:?}");
    }
    Ok(())
}

#[test]
fn a_refusal_prints_its_line_and_its_cause(rt: HostRuntime) -> Result<(), Fail> {
    let refusal = TextRefusal {
        line: 4,
        cause: Cause::KeyRepeated,
    };
    let shown = format!(in rt.alloc(); "{refusal}")?;
    assert!(rt; shown.as_str() == "line 4: KeyRepeated");
    Ok(())
}
