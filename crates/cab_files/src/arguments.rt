//! The words that a program was given.

use cabinet::Fault;
use std::alloc::Global;
use std::env::{Args, FillError};
use std::io::ErrorKind;
use std::rt::Env;
use std::{env, str};

/// The number of bytes of the longest path that the system takes, and the zero after it.
const LONGEST_PATH: usize = 4096;

/// Returns a copy of a text, or an empty one if memory for it is refused.
fn copy_or_empty(alloc: Global, text: &str) -> String {
    match String::from_str(alloc, text) {
        Ok(copy) => copy,
        Err(_) => String::new(alloc),
    }
}

/// Returns the fault for memory that was refused for the words: the file whose path is the word at `path` is not read.
/// Memory for this word alone may be there; if it is refused too, or the path is too long for the system, the path is
/// empty in the fault.
fn unread<R: Env + AllocGlobal>(rt: &R, path: usize) -> Fault {
    let mut buffer = [0; LONGEST_PATH];
    let len = match rt.arg(path, &mut buffer) {
        Ok(len) => len,
        Err(FillError::NotPresent) => return Fault::Usage,
        Err(FillError::TooLong) => 0,
    };
    match str::from_utf8(&buffer[..len]) {
        Ok(word) => Fault::CannotRead(copy_or_empty(rt.alloc(), word)),
        Err(_) => Fault::Usage,
    }
}

/// Returns the words that the program was given, after its name. `path` is the place of the path of the file that the
/// program reads, where the program's name has the place 0.
pub fn words<R: Env + AllocGlobal>(rt: &R, path: usize) -> Result<Args, Fault> {
    match env::args(rt) {
        Ok(mut words) => {
            let _ = words.next();
            Ok(words)
        }
        Err(refusal) if refusal.kind() == ErrorKind::InvalidData => Err(Fault::Usage),
        Err(_) => Err(unread(rt, path)),
    }
}
