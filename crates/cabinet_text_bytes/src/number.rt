//! Reads and writes numbers in decimal, in their shortest form.
ghost use Rattle.std.specs.Prelude.{◌≡◌, ℕ, ◌<◌, ◌≤◌, drop};
ghost use Rattle.std.specs.Fmt.{decimal, signed_decimal};
ghost use Rattle.cabinet_text_bytes.specs.Calls.{ReadsDigits, ReadsCount, ReadsBelowZero, ReadsNumber};

use crate::spelling::after_prefix;
use std::marker::Model;

/// The length of the longest number: a sign and the twenty digits of the greatest number.
const MAX_LEN: usize = 21;

/// The distance of the least `i64` from zero.
const MIN_MAGNITUDE: u64 = 1 << 63;

/// A number as it is written in decimal, without heap memory.
#[derive(Debug, Drop)]
pub struct Decimal {
    bytes: [u8; MAX_LEN],
    start: usize,
}

impl Model for Decimal {
    ghost use Rattle.std.specs.Prelude.{ℕ, List, drop, ◌≤◌};

    ghost Value = { List ℕ };

    ghost view = { λ d. drop d.start d.bytes };

    ghost invariant = { λ d. d.start ≤ 20 };
}

/// Writes a number's digits at the end of the bytes, and returns the index at which they begin.
fn put_digits(bytes: &mut [u8; MAX_LEN], number: u64) -> usize
    ensures digits { drop result bytes.new ≡ decimal number }
    ensures before { 0 < result }
    ensures within { result ≤ 20 }
{
    let mut start = MAX_LEN - 1;
    let mut rest = number;
    while rest >= 10 {
        bytes[start] = b'0' + (rest % 10) as u8;
        start -= 1;
        rest /= 10;
    }
    bytes[start] = b'0' + rest as u8;
    start
}

impl Decimal {
    /// Writes a signed number in decimal.
    pub fn new(number: i64) -> Decimal
        ensures { result ≡ signed_decimal number }
    {
        let mut bytes = [0; MAX_LEN];
        let mut start = put_digits(&mut bytes, number.unsigned_abs());
        if number < 0 {
            start -= 1;
            bytes[start] = b'-';
        }
        Decimal { bytes, start }
    }

    /// Writes an unsigned number in decimal.
    pub fn unsigned(number: u64) -> Decimal
        ensures { result ≡ decimal number }
    {
        let mut bytes = [0; MAX_LEN];
        let start = put_digits(&mut bytes, number);
        Decimal { bytes, start }
    }

    /// Returns the bytes of the number in ASCII.
    pub fn as_bytes(&self) -> &[u8]
        ensures { result.now ≡ self.now }
    {
        &self.bytes[self.start..]
    }
}

/// Returns the value of digits, or `None` if a byte is no digit or the value has more than 64 bits.
fn value_of(digits: &[u8]) -> Option<u64>
    ensures { ReadsDigits digits.now result }
{
    let mut value: u64 = 0;
    for byte in digits {
        if !byte.is_ascii_digit() {
            return None;
        }
        let Some(tens) = value.checked_mul(10) else {
            return None;
        };
        let Some(next) = tens.checked_add(u64::from(*byte - b'0')) else {
            return None;
        };
        value = next;
    }
    Some(value)
}

/// Reads a count that is written in decimal in its shortest form.
pub fn read_count(digits: &[u8]) -> Option<u64>
    ensures { ReadsCount digits.now result }
{
    if digits.is_empty() {
        return None;
    }
    if digits[0] == b'0' && digits.len() > 1 {
        return None;
    }
    value_of(digits)
}

/// Returns the number at a distance below zero, or `None` if the distance is 0 or the number does not fit in 64 bits.
fn below_zero(distance: u64) -> Option<i64>
    ensures { ReadsBelowZero distance result }
{
    if distance == 0 || distance > MIN_MAGNITUDE {
        return None;
    }
    Some(-1 - (distance - 1) as i64)
}

/// Reads a number of 64 bits that is written in decimal in its shortest form.
pub fn read_number(bytes: &[u8]) -> Option<i64>
    ensures { ReadsNumber bytes.now result }
{
    if let Some(digits) = after_prefix(bytes, b"-".as_slice()) {
        let Some(distance) = read_count(digits) else {
            return None;
        };
        return below_zero(distance);
    }
    let Some(count) = read_count(bytes) else {
        return None;
    };
    if count < MIN_MAGNITUDE {
        Some(count as i64)
    } else {
        None
    }
}
