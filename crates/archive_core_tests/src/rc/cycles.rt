//! Archives of values that lead to themselves are accepted if their flavor allows cycles, and otherwise refused.
ghost use Rattle.std.specs.Prelude.{true};

use crate::rc::cyclic::ArchivedLoop;
use archive_core::{ArchivedRc, Error, Flavor, RcFlavor, access};

/// A flavor that allows cycles.
struct AnyWay;

impl Flavor for AnyWay {
    ghost ALLOW_CYCLES = { true };

    const ALLOW_CYCLES: bool = true;
}

/// At 0 a pointer to the value at 0, and at 4 another pointer to it.
const LOOP: [u8; 8] = *b"\0\0\0\0\xfc\xff\xff\xff";

#[test]
fn a_value_inside_itself_is_accepted_only_where_cycles_are_allowed(rt: HostRuntime) {
    let root = access::<ArchivedRc<ArchivedLoop<AnyWay>, AnyWay>>(rt.alloc(), &LOOP);
    assert!(rt; root.is_ok());
    let root = access::<ArchivedRc<ArchivedLoop<RcFlavor>, RcFlavor>>(rt.alloc(), &LOOP);
    assert!(rt; root.err() == Some(Error::CyclicSharedPointer));
}
