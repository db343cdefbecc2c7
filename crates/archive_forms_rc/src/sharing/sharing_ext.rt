//! `SharingExt`, which writes one value for each key.
ghost use Rattle.std.specs.Prelude.{◌-◌, ◌^◌, ◌<◌};
ghost use Rattle.archive_forms_laws.specs.Shared.{shared_spelling};
ghost use Rattle.archive_forms_laws.specs.Serializing.{HasState, Serializes};
ghost use Rattle.archive_forms_rc.specs.Counted.{rc_of};

use crate::RcResolver;
use archive_forms_writing::SerializeUnsized;
use archive_shape::{Allocator, Error, Writer};

/// A serializer that shared values can be written with.
pub trait SharingExt: Writer + Allocator {
    /// Returns the position of the value of a key. If no value was written under the key, the value is written first:
    /// its data, then the value, and after a value without bytes one zero byte, so that no two values have the same
    /// position.
    ///
    /// Returns `CyclicSharedPointer` if the value lies inside itself.
    fn serialize_shared<U: SerializeUnsized<Self>>(
        &mut self,
        key: usize,
        value: &U,
    ) -> Result<usize, Error>
        requires room { Self.failures self.old < 2 ^ 64 - 1 }
        requires state { HasState Self.pos Self.known self.old }
        ensures { Serializes (shared_spelling U.Archived.pointee U.count (λ _. key) U.pointed)
            Self.Writer value.now self.old self.new result };
}

/// Writes what a counted pointer to a borrowed value leads to, unless it was written under the key before. Returns the
/// resolver of the pointer.
pub fn serialize_rc_from_ref<U: SerializeUnsized<S>, S: SharingExt>(
    key: usize,
    value: &U,
    serializer: &mut S,
) -> Result<RcResolver, Error>
    requires room { S.failures serializer.old < 2 ^ 64 - 1 }
    requires state { HasState S.pos S.known serializer.old }
    ensures { Serializes (rc_of (shared_spelling U.Archived.pointee U.count (λ _. key) U.pointed))
        S.Writer value.now serializer.old serializer.new result }
{
    let pos = serializer.serialize_shared(key, value)?;
    Ok(RcResolver { pos })
}
