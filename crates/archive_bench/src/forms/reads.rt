//! Sums over all elements of archived vectors, called from outside.
ghost use Rattle.std.specs.Prelude.{⊤, false};
ghost use Rattle.std.specs.Int.{w32};
ghost use Rattle.archive_shape_layout.specs.Shape.Shape.{number, option, vector, text};
ghost use Rattle.archive_forms_laws.specs.Views.{natural_of};
ghost use Rattle.archive_forms_values.specs.Parts.{HasValue};
ghost use Rattle.archive_bench.specs.FormsSums.{IsOf, number_or_zero as number_in, weight as weight_of, sum_of};

use archive_forms_values::{ArchivedOption, ArchivedString, ArchivedVec, native_of};
use archive_shape::{ArchivedU32, Ref};

/// Reads a number.
fn number_of(place: Ref<'_, ArchivedU32>) -> u64
    requires { HasValue (number w32 false) (λ _. ⊤) place.bytes.now place.pos }
    ensures { IsOf natural_of (number w32 false) place.entry.bytes.now place.entry.pos result }
{
    u64::from(native_of(place))
}

/// Returns the number of an option, or 0 if there is none.
fn number_or_zero(place: Ref<'_, ArchivedOption<ArchivedU32>>) -> u64
    requires { HasValue (option (number w32 false)) (λ _. ⊤) place.bytes.now place.pos }
    ensures { IsOf number_in (option (number w32 false)) place.entry.bytes.now place.entry.pos result }
{
    match ArchivedOption::as_ref(place) {
        Some(number) => number_of(number),
        None => 0,
    }
}

/// Returns the sum of the numbers in a vector of options.
#[unsafe(no_mangle)]
pub extern "C" fn archive_forms_bench_sum_options(bytes: &[u8], pos: usize) -> u64
    requires { HasValue (vector (option (number w32 false))) (λ _. ⊤) bytes.now pos }
    ensures { IsOf (sum_of number_in) (vector (option (number w32 false))) bytes.now pos result }
{
    let vector = Ref::<ArchivedVec<ArchivedOption<ArchivedU32>>>::new(bytes, pos);
    let options = ArchivedVec::as_slice(vector);
    let mut total = 0u64;
    for i in 0..options.len() {
        let option = options.get(i).unwrap();
        total = total.wrapping_add(number_or_zero(option));
    }
    total
}

/// Returns the sum of the length of a text and its last byte.
fn weight(place: Ref<'_, ArchivedString>) -> u64
    requires { HasValue text (λ _. ⊤) place.bytes.now place.pos }
    ensures { IsOf weight_of text place.entry.bytes.now place.entry.pos result }
{
    let bytes = ArchivedString::as_str(place).as_bytes();
    let len = bytes.len() as u64;
    match bytes.last() {
        Some(byte) => len.wrapping_add(u64::from(*byte)),
        None => len,
    }
}

/// Returns the sum of the lengths and of the last bytes of the texts in a vector.
#[unsafe(no_mangle)]
pub extern "C" fn archive_forms_bench_sum_texts(bytes: &[u8], pos: usize) -> u64
    requires { HasValue (vector text) (λ _. ⊤) bytes.now pos }
    ensures { IsOf (sum_of weight_of) (vector text) bytes.now pos result }
{
    let vector = Ref::<ArchivedVec<ArchivedString>>::new(bytes, pos);
    let texts = ArchivedVec::as_slice(vector);
    let mut total = 0u64;
    for i in 0..texts.len() {
        let text = texts.get(i).unwrap();
        total = total.wrapping_add(weight(text));
    }
    total
}

/// Returns the sum of the numbers in a vector.
fn sum_list(list: Ref<'_, ArchivedVec<ArchivedU32>>) -> u64
    requires { HasValue (vector (number w32 false)) (λ _. ⊤) list.bytes.now list.pos }
    ensures { IsOf (sum_of natural_of) (vector (number w32 false)) list.entry.bytes.now
        list.entry.pos result }
{
    let numbers = ArchivedVec::as_slice(list);
    let mut total = 0u64;
    for i in 0..numbers.len() {
        let number = numbers.get(i).unwrap();
        total = total.wrapping_add(number_of(number));
    }
    total
}

/// Returns the sum of the numbers in a vector of vectors.
#[unsafe(no_mangle)]
pub extern "C" fn archive_forms_bench_sum_lists(bytes: &[u8], pos: usize) -> u64
    requires { HasValue (vector (vector (number w32 false))) (λ _. ⊤) bytes.now pos }
    ensures { IsOf (sum_of (sum_of natural_of)) (vector (vector (number w32 false)))
        bytes.now pos result }
{
    let vector = Ref::<ArchivedVec<ArchivedVec<ArchivedU32>>>::new(bytes, pos);
    let lists = ArchivedVec::as_slice(vector);
    let mut total = 0u64;
    for i in 0..lists.len() {
        let list = lists.get(i).unwrap();
        total = total.wrapping_add(sum_list(list));
    }
    total
}
