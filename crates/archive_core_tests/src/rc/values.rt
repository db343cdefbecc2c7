//! The shared values that the tests use.
ghost use Rattle.std.specs.Prelude.{◌≡◌, IfOk};

use archive_core::{Error, Shared};
use std::alloc::{AllocError, Global};
use std::rc::{Rc, RcSlice, RcStr};

/// Returns a number under a key.
pub fn number(alloc: Global, key: usize, number: u32) -> Result<Shared<Rc<u32>>, Error>
    ensures { IfOk result (λ x. (x.key ≡ key) × (x.value.value ≡ number)) }
{
    match Rc::new(alloc, number) {
        Ok(value) => Ok(Shared { key, value }),
        Err(_) => Err(Error::OutOfMemory),
    }
}

/// Returns numbers under a key.
pub fn numbers(
    alloc: Global,
    key: usize,
    numbers: &[u32],
) -> Result<Shared<RcSlice<u32>>, AllocError> {
    let value = RcSlice::from_slice(alloc, numbers)?;
    Ok(Shared { key, value })
}

/// Returns a text under a key.
pub fn text(alloc: Global, key: usize, text: &str) -> Result<Shared<RcStr>, AllocError> {
    let value = RcStr::from_str(alloc, text)?;
    Ok(Shared { key, value })
}

/// Returns a list of the number 5 under each of the keys.
pub fn fives(alloc: Global, keys: &[usize]) -> Result<Vec<Shared<Rc<u32>>>, Error> {
    let mut list = Vec::new(alloc);
    for key in keys {
        list.push(number(alloc, *key, 5)?)?;
    }
    Ok(list)
}
