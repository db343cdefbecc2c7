//! Tests of shared values that are read once.
use archive_core::{Error, Pool, Pooling, PoolingExt, Unpool};

#[test]
fn a_pool_has_a_value_made_once_and_an_unpool_each_time(rt: HostRuntime) {
    let mut pool = Pool::<usize>::new(rt.alloc());
    let refuse = |_: &mut Pool<usize>, _: usize| -> Result<usize, Error> { Err(Error::InvalidTag) };
    assert!(rt;
        pool.deserialize_shared(8, |_, pos| Ok(pos / 2)) == Ok(4)
            && pool.deserialize_shared(8, refuse) == Ok(4)
            && pool.deserialize_shared(9, refuse) == Err(Error::InvalidTag)
    );
    let mut pool = Unpool;
    for value in [3, 4, 5] {
        let made: Result<usize, Error> = pool.deserialize_shared(8, |_, _| Ok(value));
        assert!(rt; made == Ok(value));
    }
}

#[test]
fn a_step_leaves_its_position_begun(rt: HostRuntime) {
    let mut begun = Pool::<usize>::new(rt.alloc());
    let made = begun.deserialize_shared(8, |inner: &mut Pool<usize>, pos| {
        inner.deserialize_shared(pos, |_, _| Ok(1))
    });
    assert!(rt; made == Err(Error::CyclicSharedPointer));
    let mut finished = Pool::<usize>::new(rt.alloc());
    let made = finished.deserialize_shared(8, |inner: &mut Pool<usize>, pos| {
        inner.finish_pooling(pos, 1)?;
        Ok(2)
    });
    assert!(rt; made == Err(Error::AlreadyFinished));
}
