//! Tests of shares, which keep the position of each shared value.
use archive_core_serializing::Share;
use archive_shape::{Error, Sharing, SharingState};
use std::test::Fail;

#[test]
fn key_is_begun_once_and_ends_once(rt: HostRuntime) -> Result<(), Fail> {
    let mut share = Share::with_capacity(rt.alloc(), 8)?;
    assert!(rt;
        share.start_sharing(1) == Ok(SharingState::Started)
            && share.start_sharing(1) == Ok(SharingState::Pending)
            && share.finish_sharing(1, 8) == Ok(())
            && share.start_sharing(1) == Ok(SharingState::Finished(8))
            && share.finish_sharing(1, 8) == Err(Error::AlreadyFinished)
            && share.finish_sharing(2, 8) == Err(Error::NotStarted)
            && share.start_sharing(2) == Ok(SharingState::Started)
    );
    share.clear();
    assert!(rt; share.start_sharing(1) == Ok(SharingState::Started));
    Ok(())
}
