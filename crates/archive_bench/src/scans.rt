//! Loops over a buffer, called from outside.
ghost use Rattle.std.specs.Prelude.{◌≡◌, ◌+◌, ◌*◌, ◌/◌, ◌%◌, ◌^◌, ◌≤◌, ◌+ℤ◌, pos, length, fold};
ghost use Rattle.std.specs.Int.{w64, int_wrap};
ghost use Rattle.std.specs.List.{All, sum_by};
ghost use Rattle.archive_bench.specs.Sums.{i64_at, u32_at, target_at, sum_below, signed_sum_below};
ghost use Rattle.archive_bench.specs.Writes.{with_i64, with_i64s};

use crate::access::{read_i64, read_u32, seal_i64, target, write_i64};

/// Returns the sum of the `i64`s side by side.
#[unsafe(no_mangle)]
pub extern "C" fn archive_bench_sum_i64(bytes: &[u8]) -> i64
    ensures { result ≡ int_wrap w64
        (signed_sum_below (λ i. i64_at bytes.now (i * 8)) (length bytes.now / 8)) }
{
    let count = bytes.len() / 8;
    let mut total = 0i64;
    for i in 0..count {
        total = total.wrapping_add(read_i64(bytes, i * 8));
    }
    total
}

/// Returns the sum of the `u32`s side by side.
#[unsafe(no_mangle)]
pub extern "C" fn archive_bench_sum_u32(bytes: &[u8]) -> u64
    ensures { result ≡ sum_below (λ i. u32_at bytes.now (i * 4)) (length bytes.now / 4) % 2 ^ 64 }
{
    let count = bytes.len() / 4;
    let mut total = 0u64;
    for i in 0..count {
        total = total.wrapping_add(u64::from(read_u32(bytes, i * 4)));
    }
    total
}

/// Returns the sum of the positions that relative pointers side by side point to.
#[unsafe(no_mangle)]
pub extern "C" fn archive_bench_sum_targets(bytes: &[u8]) -> usize
    ensures { result ≡ sum_below (λ i. target_at bytes.now (i * 4)) (length bytes.now / 4) % 2 ^ 64 }
{
    let count = bytes.len() / 4;
    let mut total = 0usize;
    for i in 0..count {
        total = total.wrapping_add(target(bytes, i * 4));
    }
    total
}

/// Writes a number, the next one and so on side by side.
#[unsafe(no_mangle)]
pub extern "C" fn archive_bench_fill_i64(bytes: &mut [u8], first: i64)
    ensures { bytes.new ≡ with_i64s bytes.old first (length bytes.old / 8) }
{
    let count = bytes.len() / 8;
    for i in 0..count {
        write_i64(bytes, i * 8, first.wrapping_add(i as i64));
    }
}

/// Returns the sum of the `i64`s at positions.
#[unsafe(no_mangle)]
pub extern "C" fn archive_bench_read_i64(bytes: &[u8], positions: &[u32]) -> i64
    requires { All (λ p. p + 8 ≤ length bytes.now) positions.now }
    ensures { result ≡ int_wrap w64
        (fold (λ total p. total +ℤ i64_at bytes.now p) (pos 0) positions.now) }
{
    let mut total = 0i64;
    for p in positions {
        total = total.wrapping_add(read_i64(bytes, *p as usize));
    }
    total
}

/// Returns the sum of the `u32`s at positions.
#[unsafe(no_mangle)]
pub extern "C" fn archive_bench_read_u32(bytes: &[u8], positions: &[u32]) -> u64
    requires { All (λ p. p + 4 ≤ length bytes.now) positions.now }
    ensures { result ≡ sum_by (λ p. u32_at bytes.now p) positions.now % 2 ^ 64 }
{
    let mut total = 0u64;
    for p in positions {
        total = total.wrapping_add(u64::from(read_u32(bytes, *p as usize)));
    }
    total
}

/// Returns the sum of the positions that the relative pointers at positions point to.
#[unsafe(no_mangle)]
pub extern "C" fn archive_bench_read_target(bytes: &[u8], positions: &[u32]) -> usize
    requires { All (λ p. p + 4 ≤ length bytes.now) positions.now }
    ensures { result ≡ sum_by (λ p. target_at bytes.now p) positions.now % 2 ^ 64 }
{
    let mut total = 0usize;
    for p in positions {
        total = total.wrapping_add(target(bytes, *p as usize));
    }
    total
}

/// Writes a number at each position, as an archived value is resolved.
#[unsafe(no_mangle)]
pub extern "C" fn archive_bench_write_i64(bytes: &mut [u8], positions: &[u32], number: i64)
    requires { All (λ p. p + 8 ≤ length bytes.old) positions.now }
    ensures { bytes.new ≡ fold (λ written p. with_i64 written p number) bytes.old positions.now }
{
    for p in positions {
        write_i64(bytes, *p as usize, number);
    }
}

/// Writes a number at each position, through a seal, over the one that lies there.
#[unsafe(no_mangle)]
pub extern "C" fn archive_bench_seal_i64(bytes: &mut [u8], positions: &[u32], number: i64)
    requires { All (λ p. p + 8 ≤ length bytes.old) positions.now }
    ensures { bytes.new ≡ fold (λ written p. with_i64 written p number) bytes.old positions.now }
{
    for p in positions {
        seal_i64(bytes, *p as usize, number);
    }
}
