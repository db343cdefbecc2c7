//! Tests of values that are equal and have different keys.
ghost use Rattle.std.specs.Prelude.{◌≡◌, ◌≢◌, IfOk, MatchResult};
ghost use Rattle.archive_shape_layout.specs.declared.error.Error.TheVariants.{OutOfMemory};

use crate::archives::archived_and_read;
use crate::rc::values::number;
use archive_core::{Error, Shared};
use std::alloc::Global;
use std::rc::Rc;
use std::test::Fail;

type Pair = (Shared<Rc<u32>>, Shared<Rc<u32>>);

/// Archives one number under two keys, and reads the numbers back.
fn equal_numbers(alloc: Global, n: u32) -> Result<Result<Pair, Error>, Error>
    ensures { IfOk result (λ read. MatchResult read
        (λ pair. (pair.0.value.value ≡ n) × (pair.1.value.value ≡ n)) (λ e. e ≢ OutOfMemory → ⊥)) }
{
    let first = match number(alloc, 7, n) {
        Ok(first) => first,
        Err(e) => return Err(e),
    };
    let second = match number(alloc, 8, n) {
        Ok(second) => second,
        Err(e) => return Err(e),
    };
    archived_and_read(alloc, &(first, second))
}

#[test]
fn equal_numbers_of_two_keys_are_read_back(rt: HostRuntime) -> Result<(), Fail> {
    let (first, second) = equal_numbers(rt.alloc(), 5)??;
    assert!(rt; (*first.value, *second.value) == (5, 5) && (first.key, second.key) == (0, 4));
    Ok(())
}
