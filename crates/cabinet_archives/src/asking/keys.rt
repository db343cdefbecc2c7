//! Writes the keys of ordered and kept maps in the bytes of archives.
ghost use Rattle.std.specs.Prelude.{◌≡◌, ◌-◌, ◌^◌, ◌<◌, ℕ, List, length};
ghost use Rattle.std.specs.Iterator.{IsFinite};
ghost use Rattle.std.specs.List.{filter};
ghost use Rattle.archive_shape_layout.specs.Content.{members};
ghost use Rattle.archive_shape_layout.specs.Content.Part.{at};
ghost use Rattle.archive_shape_layout.specs.Writing.{Writes};
ghost use Rattle.archive_forms_values.specs.Parts.{HasValue};
ghost use Rattle.cabinet_text_grammar.specs.Answering.{keys_are, lies_within, spelled_keys, spelled_answer};
ghost use Rattle.cabinet_documents.specs.Table.{item_keys};
ghost use Rattle.cabinet_archives.specs.Kept.{index_shape};
ghost use Rattle.cabinet_archives.specs.Keyed.{OfMap, knows_pairs};
ghost use Rattle.cabinet_archives.specs.Keys.{YieldsTexts};
ghost use Rattle.cabinet_archives.specs.Failing.{FailsByWriter};
ghost use Rattle.cabinet_archives.specs.Ordered.{map_shape};
ghost use Rattle.cabinet_archives.specs.Sound.{IsSoundPart};

use crate::maps::{KeptMap, OrderedMap};
use archive_forms_values::ArchivedString;
use archive_shape::Ref;
use archive_shape_layout::{Error, Writer};
use cabinet_text_nodes::{write_key, write_keys_head};

/// Writes each of the keys.
fn write_each<'a, W: Writer, I: Iterator<Item = Ref<'a, ArchivedString>>>(
    keys: I,
    writer: &mut W,
) -> Result<(), Error>
    requires ends { I.can_next keys × IsFinite (I.remaining keys) }
    requires yields { (ts : List (List ℕ)) × YieldsTexts I.next_gives keys ts }
    requires room { W.failures writer.old < 2 ^ 64 - 1 }
    ensures written { (ts : List (List ℕ)) × YieldsTexts I.next_gives keys ts
        × Writes W.Writer writer.old writer.new (spelled_keys ts) result }
    ensures counted { FailsByWriter W.Writer writer.old writer.new result }
{
    for key in keys {
        write_key(ArchivedString::as_str(key), writer)?;
    }
    Ok(())
}

/// Writes the answer that lists keys, of which there are `count`.
fn write_keys<'a, W: Writer, I: Iterator<Item = Ref<'a, ArchivedString>>>(
    count: usize,
    keys: I,
    writer: &mut W,
) -> Result<(), Error>
    requires ends { I.can_next keys × IsFinite (I.remaining keys) }
    requires yields { (ts : List (List ℕ)) × YieldsTexts I.next_gives keys ts }
    requires counted { (ts : List (List ℕ)) → YieldsTexts I.next_gives keys ts → length ts ≡ count }
    requires room { W.failures writer.old < 2 ^ 64 - 1 }
    ensures written { (ts : List (List ℕ)) × YieldsTexts I.next_gives keys ts
        × Writes W.Writer writer.old writer.new (spelled_answer (keys_are ts)) result }
    ensures counted { FailsByWriter W.Writer writer.old writer.new result }
{
    write_keys_head(count as u64, writer)?;
    write_each(keys, writer)?;
    writer.write(b"\n")
}

/// Writes the answer that lists the keys of an ordered map. Does not allocate.
pub(crate) fn write_ordered_keys<W: Writer>(
    map: Ref<'_, OrderedMap>,
    writer: &mut W,
) -> Result<(), Error>
    requires there { HasValue map_shape knows_pairs map.bytes.now map.pos }
    requires room { W.failures writer.old < 2 ^ 64 - 1 }
    ensures written { OfMap map_shape map.entry.bytes.now map.entry.pos
        (λ v. Writes W.Writer writer.old writer.new (spelled_answer (keys_are (item_keys (members v)))) result) }
    ensures counted { FailsByWriter W.Writer writer.old writer.new result }
{
    write_keys(OrderedMap::len(map), OrderedMap::keys(map), writer)
}

/// Writes the answer that lists the keys of a kept map, in the map's order. Does not allocate.
pub(crate) fn write_kept_keys<W: Writer>(map: Ref<'_, KeptMap>, writer: &mut W) -> Result<(), Error>
    requires there { HasValue index_shape knows_pairs map.bytes.now map.pos }
    requires room { W.failures writer.old < 2 ^ 64 - 1 }
    ensures written { OfMap index_shape map.entry.bytes.now map.entry.pos
        (λ v. Writes W.Writer writer.old writer.new (spelled_answer (keys_are (item_keys (members v)))) result) }
    ensures counted { FailsByWriter W.Writer writer.old writer.new result }
{
    write_keys(KeptMap::len(map), KeptMap::keys(map), writer)
}

/// Writes each key that is at or above the first bound and below the second.
fn write_each_within<W: Writer>(
    map: Ref<'_, OrderedMap>,
    low: &str,
    high: &str,
    writer: &mut W,
) -> Result<(), Error>
    requires there { HasValue map_shape knows_pairs map.bytes.now map.pos }
    requires sound { IsSoundPart map.bytes.now (at map.pos map_shape) }
    requires room { W.failures writer.old < 2 ^ 64 - 1 }
    ensures written { OfMap map_shape map.entry.bytes.now map.entry.pos (λ v. Writes W.Writer writer.old writer.new
        (spelled_keys (filter (lies_within low.now high.now) (item_keys (members v)))) result) }
    ensures counted { FailsByWriter W.Writer writer.old writer.new result }
{
    for (key, _) in OrderedMap::range(map, low..high) {
        write_key(ArchivedString::as_str(key), writer)?;
    }
    Ok(())
}

/// Writes the answer that lists the keys at or above the first bound and below the second. Reads the nodes of the tree
/// on the way to the bounds and between them, and does not allocate.
pub(crate) fn write_keys_within<W: Writer>(
    map: Ref<'_, OrderedMap>,
    low: &str,
    high: &str,
    writer: &mut W,
) -> Result<(), Error>
    requires there { HasValue map_shape knows_pairs map.bytes.now map.pos }
    requires sound { IsSoundPart map.bytes.now (at map.pos map_shape) }
    requires room { W.failures writer.old < 2 ^ 64 - 1 }
    ensures written { OfMap map_shape map.entry.bytes.now map.entry.pos (λ v. Writes W.Writer writer.old writer.new
        (spelled_answer (keys_are (filter (lies_within low.now high.now) (item_keys (members v))))) result) }
    ensures counted { FailsByWriter W.Writer writer.old writer.new result }
{
    let _all = OrderedMap::len(map);
    let count = OrderedMap::range(map, low..high).count();
    write_keys_head(count as u64, writer)?;
    write_each_within(map, low, high, writer)?;
    writer.write(b"\n")
}
