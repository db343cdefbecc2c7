//! `SharedPool`, which keeps counted pointers to what was read.
ghost use Rattle.std.specs.Ordering.{nat_cmp};
ghost use Rattle.std.specs.BTreeMap.{get};
ghost use Rattle.archive_forms.specs.Keeping.{pool_of};

use crate::deserializing::{Deserializer, Keeps, ReadBehind};
use archive_shape::Error;
use std::alloc::Global;
use std::collections::BTreeMap;
use std::marker::PhantomData;

/// Keeps counted pointers of type `P`, where `A` is the type that the archived ones lead to, beside a deserializer for
/// the values that these lead to.
///
/// Each call takes a time that grows with the logarithm of the number of positions, for any positions.
#[derive(Drop)]
pub struct SharedPool<P, A, D> {
    /// The deserializer for the values that the pointers lead to.
    pub inside: D,
    pointers: BTreeMap<usize, P>,
    of: PhantomData<A>,
}

impl<P: Clone + Drop, A: ReadBehind<P>, D: Deserializer> Deserializer for SharedPool<P, A, D> {
    ghost is_of = { pool_of A.is_read D.is_of };

    fn new(alloc: Global) -> Self {
        SharedPool {
            inside: D::new(alloc),
            pointers: BTreeMap::new(alloc),
            of: PhantomData,
        }
    }
}

impl<P: Clone + Drop, A: ReadBehind<P>, D: Deserializer> Keeps<P, A> for SharedPool<P, A, D> {
    ghost kept = { λ pool pos. get nat_cmp pool.pointers pos };

    fn clone_kept(&self, pos: usize) -> Result<Option<P>, Error> {
        match self.pointers.get(&pos) {
            None => Ok(None),
            Some(pointer) => match pointer.clone() {
                Ok(copy) => Ok(Some(copy)),
                Err(_) => Err(Error::OutOfMemory),
            },
        }
    }

    fn keep(&mut self, pos: usize, pointer: P) -> Result<(), Error> {
        match self.pointers.insert(pos, pointer) {
            Ok(_) => Ok(()),
            Err(_) => Err(Error::OutOfMemory),
        }
    }

    ghost kept_is_read = { λ pool bytes pos pointer of is. of.0 pos pointer is };
}
