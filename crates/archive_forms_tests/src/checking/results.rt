//! Tests of the check of results.
use super::check_alone;
use archive_forms_values::ArchivedResult;
use archive_shape::{ArchivedChar, Error};

#[test]
fn results_at_the_greater_alignment(rt: HostRuntime) {
    let rows = [
        (*b"\0\x02\0\0\x01\0\0\0", Ok(())),
        (*b"\0\0\0\0\x02\0\0\0", Err(Error::InvalidTag)),
        (*b"\x01\0\0\0\x02\0\0\0", Ok(())),
        (*b"\x01\0\0\0\0\xd8\0\0", Err(Error::InvalidTag)),
        (*b"\x02\0\0\0\x01\0\0\0", Err(Error::InvalidTag)),
    ];
    for (bytes, result) in rows {
        assert!(rt;
            check_alone::<ArchivedResult<bool, ArchivedChar>>(rt.alloc(), &bytes, 0, 0) == result
        );
    }
}
