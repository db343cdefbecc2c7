//! Tests of lists that are read back.
use super::list::{ArchivedList, List};
use crate::reading_back::read_back;
use crate::writing::is_archived_as;

#[test]
fn list_of_lists_is_read_back(rt: HostRuntime) {
    let alloc = rt.alloc();
    let bytes = b"\0\0\0\0\0\0\0\0\x01\0\0\0\xf4\xff\xff\xff\x01\0\0\0\xf4\xff\xff\xff";
    let read = read_back::<List, ArchivedList>(alloc, bytes, 16, 2);
    assert!(rt; matches!(&read, Ok(list) if is_archived_as(alloc, list, bytes)));
}
