//! Tests of sessions in which documents grow, where memory is ample.

use cabinet::{edit_in, read_text, to_bytes};
use cabinet_doubles::SliceSource;
use std::alloc::Global;

/// A document's text, the lines of a session, their answers, and the text of the document after them.
type Row<'a> = (&'a [u8], &'a [u8], &'a [u8], &'a [u8]);

/// Returns the archive of the document that has a text.
fn archive_of(alloc: Global, text: &[u8]) -> Option<Vec<u8>> {
    let document = read_text(alloc, text).ok()?;
    to_bytes(alloc, &document).ok()
}

/// Returns whether a session gives the answers of its row and leaves the archive of its last text.
fn is_edited(alloc: Global, row: Row<'_>) -> bool {
    let (text, lines, answers, after) = row;
    let (Some(archive), Some(expected)) = (archive_of(alloc, text), archive_of(alloc, after)) else {
        return false;
    };
    let mut source = SliceSource::new(lines, 100, 7);
    let mut written = Vec::new(alloc);
    match edit_in(alloc, archive.as_slice(), &mut source, &mut written) {
        Ok(edited) => {
            written.as_slice() == answers
                && edited.outcome.is_ok()
                && edited
                    .archive
                    .is_ok_and(|new| new.as_slice() == expected.as_slice())
        }
        Err(_) => false,
    }
}

#[test]
fn keys_are_put_in_the_order_of_their_map(rt: HostRuntime) {
    let lines = b"put int 2 'b\nput int 1 'a\nput int 3 'c\nkeys\n".as_slice();
    let ordered = b"ordered 3\n'a\nint 1\n'b\nint 2\n'c\nint 3\n".as_slice();
    let kept = b"kept 3\n'b\nint 2\n'a\nint 1\n'c\nint 3\n".as_slice();
    let ascending = b"ok\nok\nok\nkeys 3 'a 'b 'c\n".as_slice();
    let as_put = b"ok\nok\nok\nkeys 3 'b 'a 'c\n".as_slice();
    assert!(rt; is_edited(rt.alloc(), (b"ordered 0\n", lines, ascending, ordered)));
    assert!(rt; is_edited(rt.alloc(), (b"kept 0\n", lines, as_put, kept)));
}

#[test]
fn elements_are_inserted_put_and_removed(rt: HostRuntime) {
    let lines =
        b"insert shared 'x #0\nput list 0 #2\nremove #1\nput none #3\nput text 'long\\senough #1\nremove\nadd\n";
    let answers = b"ok\nok\nok\nmissing\nok\nrefused\nbad\n";
    let after = b"list 2\nshared 'x\ntext 'long\\senough\n";
    assert!(rt; is_edited(rt.alloc(), (b"list 1\nint 1\n", lines, answers, after)));
}
