//! Tests of saving and of answers where writing fails.
use archive_core_serializing::Buffer;
use archive_shape_layout::{Error, Positional};
use cabinet::{Document, Line, Node, SaveRefusal, open, read_text, save, to_bytes};
use cabinet_doubles::FailingWriter;
use cabinet_doubles::archives::{COFFEE_AND_TEA, TWO_WHOLES};
use std::test::Fail;

#[test]
fn a_document_is_saved_and_made_bytes_as_one_image(rt: HostRuntime) -> Result<(), Fail> {
    let text = b"ordered 2\n'coffee\nint 300\n'tea\nint 250\n";
    let document = read_text(rt.alloc(), text).map_err(|_| "no document")?;
    let mut archive = Vec::new(rt.alloc());
    save(rt.alloc(), &document, &mut archive)?;
    assert!(rt; archive.as_slice() == COFFEE_AND_TEA.as_slice());
    assert!(rt; to_bytes(rt.alloc(), &document)?.as_slice() == COFFEE_AND_TEA.as_slice());
    Ok(())
}

#[test]
fn a_whole_with_two_places_is_saved_once(rt: HostRuntime) -> Result<(), Fail> {
    let text = b"wholes 1\nint 5\nlist 2\nwhole 0\nwhole 0\n";
    let document = read_text(rt.alloc(), text).map_err(|_| "no document")?;
    let mut archive = Vec::new(rt.alloc());
    save(rt.alloc(), &document, &mut archive)?;
    assert!(rt; archive.as_slice() == TWO_WHOLES.as_slice());
    assert!(rt; to_bytes(rt.alloc(), &document)?.as_slice() == TWO_WHOLES.as_slice());
    Ok(())
}

#[test]
fn a_writer_that_fails_is_told_of(rt: HostRuntime) -> Result<(), Fail> {
    let document = Document::new(Node::Int(5))?;
    let mut writer = FailingWriter::new(rt.alloc(), 0, 0);
    assert!(rt; writer.pos() == 0);
    let refusal = save(rt.alloc(), &document, &mut writer);
    assert!(rt; refusal == Err(SaveRefusal::Writer(Error::WriterFailed)));
    let mut room = [0u8; 23];
    let refusal = save(rt.alloc(), &document, &mut Buffer::new(&mut room));
    assert!(rt; refusal == Err(SaveRefusal::Writer(Error::BufferOverflow)));
    let mut bytes = *COFFEE_AND_TEA;
    let opened = open(rt.alloc(), &mut bytes).map_err(|_| "refused")?;
    let asked = opened.ask(&Line::Get(Vec::new(rt.alloc())), &mut writer);
    assert!(rt; asked == Err(Error::WriterFailed));
    Ok(())
}
