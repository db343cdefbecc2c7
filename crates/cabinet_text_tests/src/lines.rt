//! Tests of bytes that are no line.

use cabinet_text_nodes::LineRefusal;
use cabinet_text_reading::read_line;
use std::test::Fail;

#[test]
fn a_line_has_no_newline(rt: HostRuntime) -> Result<(), Fail> {
    let refusal = match read_line(rt.alloc(), b"get\n") {
        Ok(_) => return Err(Fail::from("a line")),
        Err(refusal) => refusal,
    };
    let shown = format!(in rt.alloc(); "{refusal}")?;
    assert!(rt; shown.as_str() == "the bytes are no line");
    Ok(())
}
