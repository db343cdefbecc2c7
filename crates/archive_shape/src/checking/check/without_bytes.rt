//! The checks of the unit type and of `PhantomData`, whose values have no bytes.
use crate::checking::{ArchiveContext, CheckBytes, Error};
use std::alloc::Global;
use std::marker::PhantomData;

impl<C: ArchiveContext> CheckBytes<C> for () {
    fn check(_alloc: Global, _bytes: &[u8], _pos: usize, _context: &mut C) -> Result<(), Error> {
        Ok(())
    }
}

impl<C: ArchiveContext, T> CheckBytes<C> for PhantomData<T> {
    fn check(alloc: Global, bytes: &[u8], pos: usize, context: &mut C) -> Result<(), Error> {
        <() as CheckBytes<C>>::check(alloc, bytes, pos, context)
    }
}
