//! Finds the places of the items of a table by their hashes.
ghost use Rattle.std.specs.Prelude.{◌<◌, ◌^◌, length};
ghost use Rattle.archive_hash_writing.specs.Calls.{FitsHashes};

use archive_hash_maps::checking::control_count;
use archive_hash_probing::{Scan, write_controls};
use archive_shape::Error;
use std::alloc::Global;

/// The controls of a table, and the place of each of its items.
#[derive(Drop)]
pub(crate) struct Fitted {
    pub(crate) controls: Vec<u8>,
    pub(crate) places: Vec<u32>,
}

/// Puts each hash at its first fit, in a table that has more places than there are hashes.
pub(crate) fn fit<G: Scan>(alloc: Global, capacity: usize, hashes: &[u64]) -> Result<Fitted, Error>
    requires small { capacity < 2 ^ 32 }
    requires room { length hashes.now < capacity }
    ensures { FitsHashes capacity hashes.now result }
{
    let Ok(mut controls) = vec![in alloc; 255u8; control_count(capacity)] else {
        return Err(Error::OutOfMemory);
    };
    let Ok(mut places) = vec![in alloc; 0u32; hashes.len()] else {
        return Err(Error::OutOfMemory);
    };
    write_controls::<G>(
        controls.as_mut_slice(),
        capacity,
        hashes,
        places.as_mut_slice(),
    );
    Ok(Fitted { controls, places })
}
