//! Tests that each call is done where memory is ample.

use cabinet::calls::{Status, ask, build, check, load, set};
use std::alloc::Global;

/// The text of the document that the tests have, and its text after an edit.
const FIVE: &[u8] = b"int 5\n";

const SIX: &[u8] = b"int 6\n";

/// Returns whether the archive of the text is put into 24 bytes, and is accepted.
fn is_built(alloc: Global, archive: &mut [u8; 24]) -> bool {
    let (mut written, mut line) = (0, 0);
    let status = build(alloc, FIVE, archive.as_mut_slice(), &mut written, &mut line);
    status == Status::Ok
        && (written, line) == (24, 0)
        && check(alloc, archive.as_slice()) == Status::Ok
}

/// Returns whether a question about bytes is answered.
fn is_asked(alloc: Global, archive: &mut [u8]) -> bool {
    let mut answer = [0; 8];
    let mut written = 0;
    match cabinet::check(alloc, archive) {
        Ok(()) => {
            let status = ask(alloc, archive, b"get", answer.as_mut_slice(), &mut written);
            status == Status::Ok && written == 6 && answer.starts_with(FIVE)
        }
        Err(_) => false,
    }
}

/// Returns whether an edit of bytes is done.
fn is_set(alloc: Global, archive: &mut [u8]) -> bool {
    match cabinet::check(alloc, archive) {
        Ok(()) => set(alloc, archive, b"set int 6") == Status::Ok,
        Err(_) => false,
    }
}

/// Returns whether bytes are loaded as the document that the edit has made.
fn is_loaded(alloc: Global, archive: &[u8]) -> bool {
    let mut text = [0; 8];
    let mut written = 0;
    load(alloc, archive, text.as_mut_slice(), &mut written) == Status::Ok
        && written == 6
        && text.starts_with(SIX)
}

#[test]
fn each_call_is_done_with_ample_memory(rt: HostRuntime) {
    let alloc = rt.alloc();
    let mut archive = [0; 24];
    assert!(rt; is_built(alloc, &mut archive));
    assert!(rt; is_asked(alloc, archive.as_mut_slice()));
    assert!(rt; is_set(alloc, archive.as_mut_slice()));
    assert!(rt; is_loaded(alloc, archive.as_slice()));
}
