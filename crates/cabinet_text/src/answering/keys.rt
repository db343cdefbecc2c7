//! Writes the keys of maps.
ghost use Rattle.std.specs.Prelude.{◌≡◌, ◌-◌, ◌^◌, ◌<◌, [], length};
ghost use Rattle.std.specs.List.{filter};
ghost use Rattle.archive_shape_layout.specs.Writing.{Writes};
ghost use Rattle.cabinet_text_grammar.specs.Answering.{keys_in, keys_are, lies_within, spelled_keys, spelled_answer};
ghost use Rattle.cabinet_text_nodes.specs.View.{node_pairs};

use archive_shape_layout::{Error, Writer};
use cabinet_text_nodes::{Node, write_key, write_keys_head};
use std::collections::BTreeMap;

/// Writes each key of an ordered map.
fn write_each<W: Writer>(map: &BTreeMap<String, Node>, writer: &mut W) -> Result<(), Error>
    requires { W.failures writer.old < 2 ^ 64 - 1 }
    ensures { Writes W.Writer writer.old writer.new
        (spelled_keys (keys_in (node_pairs [] map.now.entries))) result }
{
    for (key, _) in map {
        write_key(key.as_str(), writer)?;
    }
    Ok(())
}

/// Writes each key of a kept map.
fn write_each_kept<W: Writer>(pairs: &[(String, Node)], writer: &mut W) -> Result<(), Error>
    requires { W.failures writer.old < 2 ^ 64 - 1 }
    ensures { Writes W.Writer writer.old writer.new
        (spelled_keys (keys_in (node_pairs [] pairs.now))) result }
{
    for (key, _) in pairs {
        write_key(key.as_str(), writer)?;
    }
    Ok(())
}

/// Writes the answer that lists the keys of an ordered map.
pub(crate) fn write_keys<W: Writer>(
    map: &BTreeMap<String, Node>,
    writer: &mut W,
) -> Result<(), Error>
    requires { W.failures writer.old < 2 ^ 64 - 1 }
    ensures { Writes W.Writer writer.old writer.new
        (spelled_answer (keys_are (keys_in (node_pairs [] map.now.entries)))) result }
{
    write_keys_head(map.len() as u64, writer)?;
    write_each(map, writer)?;
    writer.write(b"\n")
}

/// Writes the answer that lists the keys of a kept map.
pub(crate) fn write_kept_keys<W: Writer>(
    pairs: &[(String, Node)],
    writer: &mut W,
) -> Result<(), Error>
    requires { W.failures writer.old < 2 ^ 64 - 1 }
    ensures { Writes W.Writer writer.old writer.new
        (spelled_answer (keys_are (keys_in (node_pairs [] pairs.now)))) result }
{
    write_keys_head(pairs.len() as u64, writer)?;
    write_each_kept(pairs, writer)?;
    writer.write(b"\n")
}

/// Returns whether a key is at or above the first bound and below the second.
fn is_within(key: &str, low: &str, high: &str) -> bool
    ensures { result ≡ lies_within low.now high.now key.now }
{
    key >= low && key < high
}

/// Returns the number of keys that are at or above the first bound and below the second.
fn count_within(map: &BTreeMap<String, Node>, low: &str, high: &str) -> usize
    ensures { result ≡ length (filter (lies_within low.now high.now)
        (keys_in (node_pairs [] map.now.entries))) }
{
    let mut count = 0;
    for (key, _) in map {
        if is_within(key.as_str(), low, high) {
            count += 1;
        }
    }
    count
}

/// Writes each key that is at or above the first bound and below the second.
fn write_each_within<W: Writer>(
    map: &BTreeMap<String, Node>,
    low: &str,
    high: &str,
    writer: &mut W,
) -> Result<(), Error>
    requires { W.failures writer.old < 2 ^ 64 - 1 }
    ensures { Writes W.Writer writer.old writer.new
        (spelled_keys (filter (lies_within low.now high.now) (keys_in (node_pairs [] map.now.entries)))) result }
{
    for (key, _) in map {
        if is_within(key.as_str(), low, high) {
            write_key(key.as_str(), writer)?;
        }
    }
    Ok(())
}

/// Writes the answer that lists the keys at or above the first bound and below the second.
pub(crate) fn write_keys_within<W: Writer>(
    map: &BTreeMap<String, Node>,
    low: &str,
    high: &str,
    writer: &mut W,
) -> Result<(), Error>
    requires { W.failures writer.old < 2 ^ 64 - 1 }
    ensures { Writes W.Writer writer.old writer.new (spelled_answer (keys_are (filter (lies_within low.now high.now) (keys_in (node_pairs [] map.now.entries))))) result }
{
    write_keys_head(count_within(map, low, high) as u64, writer)?;
    write_each_within(map, low, high, writer)?;
    writer.write(b"\n")
}
