//! Tests of validators of shared positions.
use archive_core_validation::{
    ArchiveContext, ArchiveValidator, SharedContext, SharedValidator, ValidationState, Validator,
    Visits,
};
use archive_shape::{Error, Pointee, Shape};
use std::alloc::Global;
use std::test::Fail;

/// Returns what a slice of elements of this shape is.
fn slice(alloc: Global, shape: Shape) -> Result<Pointee, Error> {
    Ok(Pointee::Slice(Box::new(alloc, shape)?))
}

/// Returns the state of the second start of a position that was visited as three truth values, as a slice of `len`
/// elements of a shape.
fn meet_again(
    alloc: Global,
    ends: bool,
    len: usize,
    shape: Shape,
) -> Result<ValidationState, Error> {
    let mut visits = SharedValidator::new(alloc);
    visits.start_shared(8, 3, slice(alloc, Shape::Truth)?)?;
    if ends {
        visits.finish_shared(8)?;
    }
    visits.start_shared(8, len, slice(alloc, shape)?)
}

#[test]
fn position_of_another_shape_or_length(rt: HostRuntime) {
    let alloc = rt.alloc();
    let other_length = Err(Error::MetadataMismatch);
    for (ends, state) in [
        (false, ValidationState::Pending),
        (true, ValidationState::Finished),
    ] {
        assert!(rt;
            meet_again(alloc, ends, 3, Shape::Character) == Err(Error::TypeMismatch)
                && meet_again(alloc, ends, 2, Shape::Truth) == other_length
                && meet_again(alloc, ends, 3, Shape::Truth) == Ok(state)
                && meet_again(alloc, ends, 4, Shape::Truth) == other_length
        );
    }
}

#[test]
fn position_is_started_once_and_finished_once(rt: HostRuntime) -> Result<(), Fail> {
    let mut visits = SharedValidator::with_capacity(rt.alloc(), 100)?;
    assert!(rt;
        visits.finish_shared(8) == Err(Error::NotStarted)
            && visits.start_shared(8, 3, Pointee::Text) == Ok(ValidationState::Started)
            && visits.start_shared(8, 3, Pointee::Text) == Ok(ValidationState::Pending)
            && visits.finish_shared(8) == Ok(())
            && visits.start_shared(8, 3, Pointee::Text) == Ok(ValidationState::Finished)
    );
    Ok(())
}

#[test]
fn validator_with_shared_positions(rt: HostRuntime) -> Result<(), Fail> {
    let alloc = rt.alloc();
    let archive = ArchiveValidator::new(alloc, b"\0\0\0\0\0\0\0\0\0\0\0\0");
    let mut validator = Validator::new(archive, SharedValidator::new(alloc));
    let range = validator.push_subtree_range(8, 12)?;
    assert!(rt;
        validator.start_shared(4, 3, Pointee::Text) == Ok(ValidationState::Started)
            && validator.start_shared(4, 3, Pointee::Text) == Ok(ValidationState::Pending)
            && validator.finish_shared(4) == Ok(())
            && validator.start_shared(4, 3, Pointee::Text) == Ok(ValidationState::Finished)
            && validator.check_subtree_ptr(4, 4, 4) == Ok(())
    );
    assert!(rt;
        validator.pop_subtree_range(range) == Ok(())
            && validator.pop_subtree_range(range) == Err(Error::RangePoppedTooManyTimes)
            && validator.finish_shared(4) == Err(Error::AlreadyFinished)
    );
    Ok(())
}
