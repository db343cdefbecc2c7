//! Writes the data of the items of a table, by ascending place.
ghost use Rattle.std.specs.Prelude.{◌-◌, ◌^◌, ◌<◌, map};
ghost use Rattle.archive_shape_canonical.specs.FirstFit.{present};
ghost use Rattle.archive_forms_laws.specs.Serializing.{HasState};
ghost use Rattle.archive_forms_writing.specs.Steps.{StepTakes, StepWrites};
ghost use Rattle.archive_hash_writing.specs.Standing.{standing};
ghost use Rattle.archive_hash_writing.specs.Calls.{LaysPresent};

use archive_forms_writing::ArchiveWith;
use archive_shape::{Allocator, Error, Writer};
use std::marker::PhantomData;

/// Writes the data of the items in a table by `step`, and returns their resolvers. There are `count` items.
pub(crate) fn serialize_present_each<
    'a,
    T,
    A: ArchiveWith<T>,
    S: Writer + Allocator,
    F: Fn(&T, &mut S) -> Result<(A::Resolver, PhantomData<A::Archived>), Error>,
>(
    with: &A,
    table: &[Option<&'a T>],
    count: usize,
    serializer: &mut S,
    step: F,
) -> Result<Vec<A::Resolver>, Error>
    requires room { S.failures serializer.old < 2 ^ 64 - 1 }
    requires state { HasState S.pos S.known serializer.old }
    requires takes { StepTakes F.Fn S.Writer step (present (map standing table.now)) }
    requires writes { StepWrites F.Fn (λ q. q.0) (A.spelling with.now) S.Writer step }
    ensures { LaysPresent (A.spelling with.now) S.Writer table.now serializer.old serializer.new result }
{
    let Ok(mut all) = Vec::with_capacity(serializer.memory(), count) else {
        return Err(Error::OutOfMemory);
    };
    for place in table {
        if let Some(item) = *place {
            let resolver = step(item, serializer)?.0;
            if all.push(resolver).is_err() {
                return Err(Error::OutOfMemory);
            }
        }
    }
    Ok(all)
}
