//! Sums over the entries of archived maps, and over what is found in them, called from outside.
ghost use Rattle.archive_forms_values.specs.Parts.{HasValue};
ghost use Rattle.archive_bench.specs.HashTexts.{text_shape, number_shape, entry_shape, map_shape, known, entry_known};

use archive_forms_values::{ArchivedString, Entry, native_of};
use archive_hash_maps::{ArchivedHashMap, ArchivedHashTable};
use archive_hash_probing::{FxHasher64, Group1, Group8, Group16, Scan, hash_text};
use archive_shape::{ArchivedU64, Ref};

/// An archived hash map from texts to numbers.
type Texts = ArchivedHashMap<ArchivedString, ArchivedU64, FxHasher64>;

/// Returns the sum of the number of an entry and the number of bytes of its key.
fn weight(key: Ref<'_, ArchivedString>, value: Ref<'_, ArchivedU64>) -> u64
    requires key { HasValue text_shape known key.bytes.now key.pos }
    requires value { HasValue number_shape known value.bytes.now value.pos }
{
    native_of(value).wrapping_add(ArchivedString::as_str(key).len() as u64)
}

/// Returns the sum of all numbers of a map, and of the numbers of bytes of their keys.
fn sum_entries(root: Ref<'_, Texts>) -> u64
    requires { HasValue map_shape entry_known root.bytes.now root.pos }
{
    let mut sum = 0u64;
    for (key, value) in ArchivedHashMap::iter(root) {
        sum = sum.wrapping_add(weight(key, value));
    }
    sum
}

/// Returns the sum of all numbers of the map at `pos`, and of the numbers of bytes of their keys.
#[unsafe(no_mangle)]
pub extern "C" fn archive_hash_bench_sum_walked(bytes: &[u8], pos: usize) -> u64
    requires { HasValue map_shape entry_known bytes.now pos }
{
    sum_entries(Ref::<Texts>::new(bytes, pos))
}

/// Returns whether the key of an entry is a text.
fn has_key(entry: Ref<'_, Entry<ArchivedString, ArchivedU64>>, query: &str) -> bool
    requires { HasValue entry_shape entry_known entry.bytes.now entry.pos }
{
    ArchivedString::as_str(Entry::key(entry)) == query
}

/// Returns the number of an entry.
fn number_of(entry: Ref<'_, Entry<ArchivedString, ArchivedU64>>) -> u64
    requires { HasValue entry_shape entry_known entry.bytes.now entry.pos }
{
    native_of(Entry::value(entry))
}

/// Returns the number that a key leads to, or 0 if there is no such key.
fn number_at<S: Scan>(root: Ref<'_, Texts>, query: &str) -> u64
    requires { HasValue map_shape entry_known root.bytes.now root.pos }
{
    let is_asked = |entry: Ref<'_, Entry<ArchivedString, ArchivedU64>>| -> bool
        requires { HasValue entry_shape entry_known entry.bytes.now entry.pos }
    { has_key(entry, query) };
    let table = ArchivedHashMap::table(root);
    match ArchivedHashTable::get_with_scan::<S, _>(table, hash_text(query), &is_asked) {
        Some(entry) => number_of(entry),
        None => 0,
    }
}

/// Returns the sum of the numbers that texts lead to in the map at `pos`. The texts lie one after the other in
/// `queries`, and `ends` has the position at which each ends. Bytes that are not UTF-8 have no texts.
fn sum_found<S: Scan>(bytes: &[u8], pos: usize, queries: &[u8], ends: &[usize]) -> u64
    requires { HasValue map_shape entry_known bytes.now pos }
{
    let Ok(queries) = str::from_utf8(queries) else {
        return 0;
    };
    let mut start = 0;
    let mut sum = 0u64;
    for end in ends {
        if let Some(query) = queries.get(start..*end) {
            sum = sum.wrapping_add(number_at::<S>(Ref::<Texts>::new(bytes, pos), query));
        }
        start = *end;
    }
    sum
}

/// Returns what `sum_found` does, by a scan of one control.
#[unsafe(no_mangle)]
pub extern "C" fn archive_hash_bench_sum_found_1(
    bytes: &[u8],
    pos: usize,
    queries: &[u8],
    ends: &[usize],
) -> u64
    requires { HasValue map_shape entry_known bytes.now pos }
{
    sum_found::<Group1>(bytes, pos, queries, ends)
}

/// Returns what `sum_found` does, by a scan of eight controls.
#[unsafe(no_mangle)]
pub extern "C" fn archive_hash_bench_sum_found_8(
    bytes: &[u8],
    pos: usize,
    queries: &[u8],
    ends: &[usize],
) -> u64
    requires { HasValue map_shape entry_known bytes.now pos }
{
    sum_found::<Group8>(bytes, pos, queries, ends)
}

/// Returns what `sum_found` does, by a scan of sixteen controls.
#[unsafe(no_mangle)]
pub extern "C" fn archive_hash_bench_sum_found_16(
    bytes: &[u8],
    pos: usize,
    queries: &[u8],
    ends: &[usize],
) -> u64
    requires { HasValue map_shape entry_known bytes.now pos }
{
    sum_found::<Group16>(bytes, pos, queries, ends)
}
