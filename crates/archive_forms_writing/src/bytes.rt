//! The writing of a value as a whole archive.
ghost use Rattle.std.specs.Prelude.{◌-◌, ◌^◌, ◌<◌, OnOk};
ghost use Rattle.archive_forms_laws.specs.Pointers.{box_spelling};
ghost use Rattle.archive_forms_laws.specs.Serializing.{HasState, Serializes, SerializesBy};
ghost use Rattle.archive_forms_writing.specs.Root.{MakesArchive};

use crate::{Serialize, serialize_element, serialize_one_each};
use archive_shape::{Allocator, Error, Writer};
use std::marker::PhantomData;

/// Writes the data of a value and then its own bytes, as the root at the end of an archive. Returns the root's
/// position.
pub fn serialize_using<T: Serialize<S>, S: Writer + Allocator>(
    value: &T,
    serializer: &mut S,
) -> Result<usize, Error>
    requires room { S.failures serializer.old < 2 ^ 64 - 1 }
    requires state { HasState S.pos S.known serializer.old }
    ensures writes { Serializes (box_spelling T.Archived.shape T.spelling) S.Writer value.now
        serializer.old serializer.new result }
    ensures archive { OnOk result (MakesArchive T.Archived.shape T.Archived.knows T.spelling S.Writer value.now serializer.old serializer.new) }
{
    serialize_one_each::<T, S, _>(
        value,
        serializer,
        |item: &T, s: &mut S| -> Result<(T::Resolver, PhantomData<T::Archived>), Error>
            requires room { S.failures s.old < 2 ^ 64 - 1 }
            requires state { HasState S.pos S.known s.old }
            ensures { SerializesBy (λ q. q.0) T.spelling S.Writer item.now s.old s.new result }
        { serialize_element(item, s) },
    )
}
