//! Tests of values with several hash tables: their archives are accepted, and read back.
ghost use Rattle.std.specs.Prelude.{◌≡◌, length, IfOk, MatchResult};
ghost use Rattle.archive_shape_layout.specs.Content.{Names};
ghost use Rattle.archive_shape_layout.specs.Holds.{root_position};
ghost use Rattle.archive_shape_layout.specs.declared.error.Error.TheVariants.{OutOfMemory};
ghost use Rattle.archive_core_validation.specs.Depth.{unlimited};
ghost use Rattle.archive_core_validation.specs.Access.{IsAccepted};

use crate::reading::root_of;
use crate::writing::{ArchivedNumbers, Numbers, decimals};
use archive_core::{Archive, ReadBack, from_bytes, to_bytes};
use archive_forms_values::ArchivedVec;
use archive_shape::{Error, Portable};
use std::alloc::Global;

/// Archives maps, each as a table of its own. The archive is accepted, whatever places their keys have.
fn archived(alloc: Global, maps: &Vec<Numbers>) -> Result<Vec<u8>, Error>
    ensures accepted { IfOk result (λ bytes. (names : Names)
        → IsAccepted names bytes.items ⟦<ArchivedVec<ArchivedNumbers> as Portable>⟧.shape
        (root_position (length bytes.items) ⟦<ArchivedVec<ArchivedNumbers> as Portable>⟧.shape)
        unlimited) }
{
    to_bytes(alloc, maps)
}

/// Archives maps, and reads them back. What was archived is refused only for want of memory.
fn archived_and_read(
    alloc: Global,
    maps: &Vec<Numbers>,
) -> Result<Result<Vec<Numbers>, Error>, Error>
    ensures read { IfOk result (λ read. MatchResult read
        (⟦<ArchivedVec<ArchivedNumbers> as ReadBack<Vec<Numbers>>>⟧.reads
        (⟦<Vec<Numbers> as Archive>⟧.spelling.plain maps.now))
        (λ e. e ≡ OutOfMemory)) }
{
    let bytes = to_bytes(alloc, maps)?;
    let archive = bytes.as_slice();
    Ok(from_bytes::<Vec<Numbers>>(alloc, archive))
}

/// Returns maps of so many numbers each.
fn maps_of(alloc: Global, counts: &[u32]) -> Option<Vec<Numbers>> {
    let mut maps = Vec::new(alloc);
    for count in counts {
        if maps.push(decimals(alloc, *count)?).is_err() {
            return None;
        }
    }
    Some(maps)
}

/// Returns the number of maps that are accessed in the archive of maps of so many numbers each.
fn accessed(alloc: Global, counts: &[u32]) -> Option<usize> {
    let maps = maps_of(alloc, counts)?;
    let Ok(bytes) = archived(alloc, &maps) else {
        return None;
    };
    let archive = bytes.as_slice();
    match root_of::<ArchivedVec<ArchivedNumbers>>(alloc, archive) {
        Ok(root) => Some(ArchivedVec::len(root)),
        Err(_) => None,
    }
}

/// Returns whether maps of so many numbers each are read back from one archive.
fn are_read_back(alloc: Global, counts: &[u32]) -> bool {
    let Some(maps) = maps_of(alloc, counts) else {
        return false;
    };
    let Ok(Ok(read)) = archived_and_read(alloc, &maps) else {
        return false;
    };
    for (one, other) in read.iter().zip(maps.iter()) {
        if one.map != other.map {
            return false;
        }
    }
    read.len() == maps.len()
}

#[test]
fn several_tables_are_accepted_and_read_back(rt: HostRuntime) {
    let alloc = rt.alloc();
    for counts in [[3, 5], [0, 17], [40, 0]] {
        assert!(rt; accessed(alloc, &counts) == Some(2) && are_read_back(alloc, &counts));
    }
}
