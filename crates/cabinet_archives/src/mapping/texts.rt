//! The regions of texts, and those of tables.
ghost use Rattle.std.specs.Prelude.{◌≡◌, ◌-◌, ◌^◌, ◌<◌, ⊤, false, IfOk};
ghost use Rattle.archive_shape_layout.specs.Shape.Shape.{text, shared, table};
ghost use Rattle.archive_shape_layout.specs.Shape.Pointee.{str};
ghost use Rattle.archive_shape_layout.specs.Content.Part.{at};
ghost use Rattle.archive_shape_layout.specs.Writing.{Writes};
ghost use Rattle.archive_forms_rc.specs.Pointers.{HasCounted};
ghost use Rattle.archive_forms_values.specs.Parts.{HasValue};
ghost use Rattle.archive_hash_maps.specs.Tables.{Buckets, IsTableAt};
ghost use Rattle.cabinet_archives.specs.Failing.{FailsByWriter};
ghost use Rattle.cabinet_archives.specs.Mapped.{Mapped, listed_table};
ghost use Rattle.cabinet_archives.specs.MapLines.{tallied, written};
ghost use Rattle.cabinet_archives.specs.MapPaths.{path_of};
ghost use Rattle.cabinet_archives.specs.declared.mapping.region.RegionKind.{RegionKind};

use crate::mapping::lines::write_region;
use crate::mapping::path::Path;
use crate::mapping::region::RegionKind;
use crate::mapping::tally::Tally;
use archive_forms_rc::{ArchivedRcStr, RcFlavor};
use archive_forms_values::{ArchivedString, ArchivedStringRepr, target_of};
use archive_hash_maps::walking::buckets_at;
use archive_shape::{Portable, Ref};
use archive_shape_layout::{Error, Writer};

/// Writes of the bytes of a text or a key, if they are out of line.
pub(crate) fn write_text<W: Writer>(
    string: Ref<'_, ArchivedString>,
    kind: RegionKind,
    path: &Path<'_>,
    tally: &mut Tally,
    writer: &mut W,
) -> Result<(), Error>
    requires there { HasValue text (λ _. ⊤) string.bytes.now string.pos }
    requires room { W.failures writer.old < 2 ^ 64 - 1 }
    ensures mapped { Mapped W.Writer string.entry.bytes.now (record { kind = kind; path = path_of path.now }) (at string.entry.pos text)
        tally.old tally.new writer.old writer.new result }
    ensures counted { FailsByWriter W.Writer writer.old writer.new result }
{
    if ArchivedStringRepr::is_inline(&string.bytes[string.pos..string.pos + 8]) {
        return Ok(());
    }
    let start = ArchivedString::start_of(string);
    let len = ArchivedString::len(string);
    write_region(start, len, kind, path, tally, writer)
}

/// Writes of the bytes of a shared text, at the first visit.
pub(crate) fn write_shared<W: Writer>(
    pointer: Ref<'_, ArchivedRcStr<RcFlavor>>,
    path: &Path<'_>,
    tally: &mut Tally,
    writer: &mut W,
) -> Result<(), Error>
    requires there { HasCounted false str (λ _. ⊤) pointer.bytes.now pointer.pos }
    requires room { W.failures writer.old < 2 ^ 64 - 1 }
    ensures mapped { (k : RegionKind) → Mapped W.Writer pointer.entry.bytes.now (record { kind = k; path = path_of path.now }) (at pointer.entry.pos (shared false str))
        tally.old tally.new writer.old writer.new result }
    ensures counted { FailsByWriter W.Writer writer.old writer.new result }
{
    let len = ArchivedRcStr::get(pointer).len();
    let start = target_of(pointer.bytes, pointer.pos);
    if start < tally.end {
        return Ok(());
    }
    write_region(start, len, RegionKind::Shared, path, tally, writer)
}

/// Writes of the places and the controls of a table, if it has any.
pub(crate) fn write_table<T: Portable, W: Writer>(
    bytes: &[u8],
    pos: usize,
    path: &Path<'_>,
    tally: &mut Tally,
    writer: &mut W,
) -> Result<(), Error>
    requires there { HasValue (table T.shape) T.knows bytes.now pos }
    requires room { W.failures writer.old < 2 ^ 64 - 1 }
    ensures mapped { (b : Buckets) → IsTableAt bytes.now T.shape pos b
        → Writes W.Writer writer.old writer.new (written tally.old (listed_table T.shape b (path_of path.now))) result
        × IfOk result (λ _. tally.new ≡ tallied tally.old (listed_table T.shape b (path_of path.now))) }
    ensures counted { FailsByWriter W.Writer writer.old writer.new result }
{
    let _len = bytes.len();
    let size = T::SIZE;
    let Some(buckets) = buckets_at::<T>(bytes, pos) else {
        return Ok(());
    };
    let items = buckets.capacity * size;
    write_region(
        buckets.target - items,
        items + buckets.controls.len(),
        RegionKind::Table,
        path,
        tally,
        writer,
    )
}
