//! Tests of pools, which keep the result of each shared value.
use archive_core::HighDeserializer;
use archive_core_serializing::{ExactClone, Pool, RcValue};
use archive_shape::{Error, Pooling, PoolingState};
use std::alloc::Global;
use std::rc::Rc;
use std::test::Fail;

/// Returns a pool that keeps `value` as the result of position 1.
fn pool_of_one_position<T: ExactClone>(alloc: Global, value: T) -> Result<Pool<T>, Error> {
    let mut pool = Pool::new(alloc);
    pool.start_pooling(1)?;
    pool.finish_pooling(1, value)?;
    Ok(pool)
}

#[test]
fn position_is_begun_once_and_ends_once(rt: HostRuntime) -> Result<(), Fail> {
    let mut pool: HighDeserializer<usize> = Pool::with_capacity(rt.alloc(), 8)?;
    assert!(rt;
        pool.start_pooling(1) == Ok(PoolingState::Started)
            && pool.start_pooling(1) == Ok(PoolingState::Pending)
            && pool.finish_pooling(1, 8) == Ok(())
            && pool.start_pooling(1) == Ok(PoolingState::Finished(8))
            && pool.finish_pooling(1, 9) == Err(Error::AlreadyFinished)
            && pool.finish_pooling(2, 8) == Err(Error::NotStarted)
            && pool.start_pooling(2) == Ok(PoolingState::Started)
    );
    pool.clear();
    assert!(rt; pool.start_pooling(1) == Ok(PoolingState::Started));
    Ok(())
}

/// Returns the handle that a pool keeps for position 1.
fn told(pool: &mut Pool<RcValue<u64>>) -> Result<Option<Rc<u64>>, Error> {
    match pool.start_pooling(1)? {
        PoolingState::Finished(value) => Ok(Some(value.into_rc())),
        _ => Ok(None),
    }
}

#[test]
fn pool_of_handles_tells_one_to_the_same_value(rt: HostRuntime) -> Result<(), Fail> {
    let alloc = rt.alloc();
    let shared = Rc::new(alloc, 7u64)?;
    let mut pool = pool_of_one_position(alloc, RcValue::new(shared.clone()?))?;
    let first = told(&mut pool)?;
    let second = told(&mut pool)?;
    assert!(rt; matches!(&first, Some(rc) if **rc == 7));
    assert!(rt; matches!(&second, Some(rc) if Rc::ptr_eq(rc, &shared)));
    assert!(rt; Rc::strong_count(&shared) == 4);
    Ok(())
}
