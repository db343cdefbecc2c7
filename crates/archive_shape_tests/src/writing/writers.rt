//! Tests of writers.
use archive_doubles::FailingWriter;
use archive_shape_layout::{
    Error, Positional, Writer, write_all_pieces, write_three_pieces, write_two_pieces,
};

#[test]
fn a_vector_is_a_writer(rt: HostRuntime) {
    let mut bytes = Vec::new(rt.alloc());
    assert!(rt;
        bytes.write(&[1]) == Ok(())
            && write_two_pieces(&mut bytes, &[2], &[3, 4]) == Ok(())
            && write_three_pieces(&mut bytes, &[], &[5], &[6]) == Ok(())
            && write_all_pieces(&mut bytes, &[&[7], &[8], &[], &[9]]) == Ok(())
            && !Vec::<u8>::counts()
    );
    assert!(rt; bytes.as_slice() == [1, 2, 3, 4, 5, 6, 7, 8, 9].as_slice() && bytes.pos() == 9);
}

#[test]
fn a_failed_write_keeps_a_prefix(rt: HostRuntime) {
    let mut writer = FailingWriter::new(rt.alloc(), 2, 1);
    let result = write_all_pieces(&mut writer, &[&[1, 2], &[3, 4], &[5, 6], &[7, 8]]);
    assert!(rt; result == Err(Error::WriterFailed) && writer.failures == 1);
    assert!(rt; writer.bytes() == [1, 2, 3, 4, 5].as_slice());
}
