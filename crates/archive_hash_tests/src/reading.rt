//! Tests of reading archived hash tables.
ghost use Rattle.std.specs.Prelude.{◌≡◌, [], IfOk};
ghost use Rattle.archive_forms_values.specs.Parts.{HasValue};

use archive_core_validation::{HighValidator, access};
use archive_forms_values::native_of;
use archive_hash_maps::ArchivedHashTable;
use archive_hash_probing::{Group1, Group8, Group16, Scan};
use archive_shape::{ArchivedU32, CheckBytes, Error, Ref, Steps};
use std::alloc::Global;

/// A table of the number 7 in the second of two places: the bucket of each place, the second place's first; sixteen
/// controls for the places and fifteen more; a byte of padding; and the table, whose controls begin 32 bytes before it.
pub(crate) const ONE_OF_TWO: [u8; 52] = [
    7, 0, 0, 0, 0, 0, 0, 0, 0xff, 0x55, 0xff, 0x55, 0xff, 0xff, 0xff, 0xff, 0xff, 0xff, 0xff, 0xff,
    0xff, 0xff, 0xff, 0xff, 0xff, 0xff, 0xff, 0xff, 0xff, 0xff, 0xff, 0xff, 0xff, 0xff, 0xff, 0xff,
    0xff, 0xff, 0xff, 0, 0xe0, 0xff, 0xff, 0xff, 1, 0, 0, 0, 2, 0, 0, 0,
];

/// The hash of the text `a`.
pub(crate) const HASH_OF_A: u64 = 0xaa44_c3c5_b8e2_2aff;

/// Checks bytes and returns their root.
pub(crate) fn root_of<T: CheckBytes<HighValidator>>(
    alloc: Global,
    bytes: &[u8],
) -> Result<Ref<'_, T>, Error>
    requires { T.knows [] }
    ensures { IfOk result (λ r. (r.bytes ≡ bytes.entry) × HasValue T.shape T.knows bytes.now r.pos) }
{
    access::<T>(alloc, bytes)
}

/// Returns whether a search for a hash takes one stride and no comparison, and finds this number or none.
fn finds<S: Scan>(alloc: Global, hash: u64, number: Option<u32>) -> bool {
    let Ok(root) = root_of::<ArchivedHashTable<ArchivedU32>>(alloc, &ONE_OF_TWO) else {
        return false;
    };
    let is_first = |item: Ref<'_, ArchivedU32>| item.pos() == 0;
    let (item, steps) = ArchivedHashTable::get_counted::<S, _>(root, hash, &is_first);
    let found = match item {
        Some(item) => Some(native_of(item)),
        None => None,
    };
    let expected = Steps {
        comparisons: 0,
        strides: 1,
    };
    steps == expected && found == number
}

#[test]
fn items_are_found_at_every_width(rt: HostRuntime) {
    let alloc = rt.alloc();
    assert!(rt;
        finds::<Group1>(alloc, HASH_OF_A, Some(7))
            && finds::<Group8>(alloc, HASH_OF_A, Some(7))
            && finds::<Group16>(alloc, HASH_OF_A, Some(7))
            && finds::<Group16>(alloc, 0, None)
    );
}
