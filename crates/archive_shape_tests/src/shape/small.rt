//! Tests of whether bytes may be copied.
use archive_shape::CopyOptimization;

#[test]
fn copy_is_enabled_or_not(rt: HostRuntime) {
    let enabled = CopyOptimization::<u8>::enable().is_enabled();
    let disabled = CopyOptimization::<bool>::disable().is_enabled();
    let allowed = CopyOptimization::<u8>::enable_if(true).is_enabled();
    assert!(rt; enabled && !disabled && allowed);
}
