//! The archiving of texts.
ghost use Rattle.std.specs.Prelude.{◌-◌, ◌^◌, ◌<◌, ⊤, refl};
ghost use Rattle.std.specs.String.{string_bytes};
ghost use Rattle.archive_shape_layout.specs.Shape.Shape.{text};
ghost use Rattle.archive_forms_laws.specs.Texts.{text_spelling};
ghost use Rattle.archive_forms_laws.specs.Serializing.{HasState, Serializes, CanResolveAt, ResolvesAt};
ghost use Rattle.archive_forms_laws.proofs.Texts.{text_spells};
ghost use Rattle.archive_forms_laws.proofs.Views.{kept_spells, seen_spells};
ghost use Rattle.archive_forms_writing.specs.Owned.{str_spelling, string_spelling};

use crate::{Archive, Serialize};
use archive_forms_values::{ArchivedString, ArchivedStringRepr, StringResolver};
use archive_shape::{Allocator, Error, Place, Writer};

impl Archive for String {
    type Archived = ArchivedString;

    type Resolver = StringResolver;

    ghost spelling = { string_spelling };

    fn resolve(&self, resolver: StringResolver, out: Place<'_, ArchivedString>) -> Result<(), Error>
        requires { CanResolveAt string_spelling text self.now resolver out }
        ensures { ResolvesAt string_spelling text self.now resolver out.entry out.exit result }
    {
        let Place {
            out,
            start,
            pos,
            ..
        } = out;
        ArchivedString::resolve_from_str(self.as_str(), resolver, Place::within(out, start, pos))
    }

    ghost spells = { λ fit. seen_spells fit text (λ _. ⊤) string_bytes str_spelling
        (kept_spells fit text (λ _. ⊤) _ _ (λ r. refl) text_spelling (text_spells fit (λ _. ⊤))) };
}

/// Writes the bytes of a text that is not stored inline, and returns their position. A text of at most eight bytes is
/// stored inline, and nothing is written.
///
/// Returns `StringTooLong` for more than `ArchivedStringRepr::OUT_OF_LINE_CAPACITY` bytes, and then `PositionTooLarge`
/// if the position is more than 2^32 - 1.
pub fn serialize_from_str<S: Writer>(
    value: &str,
    serializer: &mut S,
) -> Result<StringResolver, Error>
    requires room { S.failures serializer.old < 2 ^ 64 - 1 }
    requires state { HasState S.pos S.known serializer.old }
    ensures { Serializes str_spelling S.Writer value.now serializer.old serializer.new result }
{
    let len = value.len();
    if len <= ArchivedStringRepr::INLINE_CAPACITY {
        return Ok(StringResolver { pos: 0 });
    }
    if len > ArchivedStringRepr::OUT_OF_LINE_CAPACITY {
        return Err(Error::StringTooLong);
    }
    let pos = serializer.pos();
    if pos > u32::MAX as usize {
        return Err(Error::PositionTooLarge);
    }
    serializer.write(value.as_bytes())?;
    Ok(StringResolver { pos })
}

impl<S: Writer + Allocator> Serialize<S> for String {
    fn serialize(&self, serializer: &mut S) -> Result<StringResolver, Error> {
        serialize_from_str(self.as_str(), serializer)
    }
}
