//! `SharingExt` for `Serializer`: shared values are written once for each key.
ghost use Rattle.std.specs.Prelude.{◌-◌, ◌^◌, ◌<◌};
ghost use Rattle.archive_shape.specs.Bytes.{zeros};
ghost use Rattle.archive_shape_layout.specs.Writing.{Writes};
ghost use Rattle.archive_forms_laws.specs.Shared.{shared_padding};

use crate::Serializer;
use archive_forms_rc::SharingExt;
use archive_forms_writing::SerializeUnsized;
use archive_shape::{Allocator, Error, Sharing, SharingState, Writer};

/// Writes a zero byte after a value that begins at `start`, if the value has no bytes.
pub fn pad_empty<W: Writer>(writer: &mut W, start: usize) -> Result<(), Error>
    requires { W.failures writer.old < 2 ^ 64 - 1 }
    ensures { Writes W.Writer writer.old writer.new
        (zeros (shared_padding start (W.pos writer.old))) result }
{
    if writer.pos() == start {
        writer.write(&[0])
    } else {
        Ok(())
    }
}

impl<W: Writer, A: Allocator, S: Sharing> SharingExt for Serializer<W, A, S> {
    fn serialize_shared<U: SerializeUnsized<Serializer<W, A, S>>>(
        &mut self,
        key: usize,
        value: &U,
    ) -> Result<usize, Error> {
        match self.sharing.start_sharing(key)? {
            SharingState::Started => {}
            SharingState::Pending => return Err(Error::CyclicSharedPointer),
            SharingState::Finished(pos) => return Ok(pos),
        }
        let pos = value.serialize_unsized(self)?;
        pad_empty(&mut self.writer, pos)?;
        self.sharing.finish_sharing(key, pos)?;
        Ok(pos)
    }
}
