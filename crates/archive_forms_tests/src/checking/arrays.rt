//! Tests of the check of arrays.
use super::check_alone;
use archive_forms_values::ArchivedOption;
use archive_shape::Error;

#[test]
fn arrays_refuse_the_first_bad_element(rt: HostRuntime) {
    let rows = [
        (*b"\x01\x07\0\x09\x01\x08", Ok(())),
        (*b"\x01\x07\x02\x09\x01\x08", Err(Error::InvalidTag)),
        (*b"\x01\x07\0\x09\x02\x08", Err(Error::InvalidTag)),
    ];
    for (bytes, result) in rows {
        assert!(rt; check_alone::<[ArchivedOption<u8>; 3]>(rt.alloc(), &bytes, 0, 0) == result);
    }
}
