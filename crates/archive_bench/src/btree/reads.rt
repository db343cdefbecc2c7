//! Sums over the entries of archived maps, and over what is found in them, called from outside.
ghost use Rattle.std.specs.Prelude.{All};
ghost use Rattle.archive_forms_values.specs.Parts.{HasValue};
ghost use Rattle.archive_btree_maps.specs.Refs.{IsThere};
ghost use Rattle.archive_bench.specs.BtreeTexts.{text_shape, number_shape, map_shape, known, map_known};

use archive_btree_maps::{ArchivedBTreeMap, Range};
use archive_forms_values::{ArchivedString, native_of};
use archive_shape::{ArchivedU64, Ref};
use std::ops::Bound;

/// An archived map from texts to numbers.
type Texts = ArchivedBTreeMap<ArchivedString, ArchivedU64, 5>;

/// Returns the sum of the number of an entry and the number of bytes of its key.
fn weight(key: Ref<'_, ArchivedString>, value: Ref<'_, ArchivedU64>) -> u64
    requires key { HasValue text_shape known key.bytes.now key.pos }
    requires value { HasValue number_shape known value.bytes.now value.pos }
{
    native_of(value).wrapping_add(ArchivedString::as_str(key).len() as u64)
}

/// Returns the sum of all numbers of a map, and of the numbers of bytes of their keys.
fn sum_entries(root: Ref<'_, Texts>) -> u64
    requires { HasValue map_shape map_known root.bytes.now root.pos }
{
    let mut sum = 0u64;
    for (key, value) in ArchivedBTreeMap::iter(root) {
        sum = sum.wrapping_add(weight(key, value));
    }
    sum
}

/// Returns the sum of all numbers of the map at `pos`, and of the numbers of bytes of their keys.
#[unsafe(no_mangle)]
pub extern "C" fn archive_btree_bench_sum_walked(bytes: &[u8], pos: usize) -> u64
    requires { HasValue map_shape map_known bytes.now pos }
{
    sum_entries(Ref::<Texts>::new(bytes, pos))
}

/// Returns the number that a key leads to, or 0 if there is no such key.
fn number_at(root: Ref<'_, Texts>, query: &str) -> u64
    requires { HasValue map_shape map_known root.bytes.now root.pos }
{
    match ArchivedBTreeMap::get(root, &query) {
        Some(value) => native_of(value),
        None => 0,
    }
}

/// Returns the sum of the numbers that texts lead to in the map at `pos`. The texts lie one after the other in
/// `queries`, and `ends` has the position at which each ends. Bytes that are not UTF-8 have no texts.
#[unsafe(no_mangle)]
pub extern "C" fn archive_btree_bench_sum_found(
    bytes: &[u8],
    pos: usize,
    queries: &[u8],
    ends: &[usize],
) -> u64
    requires { HasValue map_shape map_known bytes.now pos }
{
    let Ok(queries) = str::from_utf8(queries) else {
        return 0;
    };
    let mut start = 0;
    let mut sum = 0u64;
    for end in ends {
        if let Some(query) = queries.get(start..*end) {
            sum = sum.wrapping_add(number_at(Ref::<Texts>::new(bytes, pos), query));
        }
        start = *end;
    }
    sum
}

/// Returns the sum of the numbers of a range, and of the numbers of bytes of their keys.
fn sum_range(entries: Range<'_, ArchivedString, ArchivedU64>) -> u64
    requires { All (IsThere text_shape number_shape known known) entries }
{
    let mut sum = 0u64;
    for (key, value) in entries {
        sum = sum.wrapping_add(weight(key, value));
    }
    sum
}

/// Returns the sum over ranges of the map at `pos`: each from a text on, and below the one after it. The texts lie one
/// after the other, and each ends at one of these positions. Bytes that are not UTF-8 have no texts.
#[unsafe(no_mangle)]
pub extern "C" fn archive_btree_bench_sum_ranges(
    bytes: &[u8],
    pos: usize,
    bounds: &[u8],
    ends: &[usize],
) -> u64
    requires { HasValue map_shape map_known bytes.now pos }
{
    let Ok(bounds) = str::from_utf8(bounds) else {
        return 0;
    };
    let mut start = 0;
    let mut sum = 0u64;
    for pair in ends.chunks_exact(2) {
        let (low, high) = (bounds.get(start..pair[0]), bounds.get(pair[0]..pair[1]));
        if let (Some(low), Some(high)) = (low, high) {
            let range = (Bound::Included(low), Bound::Excluded(high));
            let entries = ArchivedBTreeMap::range(Ref::<Texts>::new(bytes, pos), range);
            sum = sum.wrapping_add(sum_range(entries));
        }
        start = pair[1];
    }
    sum
}
