//! Reads and writes of one number at a position.
ghost use Rattle.std.specs.Prelude.{◌≡◌, ◌+◌, ◌≤◌, length};
ghost use Rattle.archive_bench.specs.Sums.{i64_at, u32_at, target_at};
ghost use Rattle.archive_bench.specs.Writes.{with_i64};

use archive_shape::{ArchivedI32, ArchivedI64, ArchivedU32, Place, Ref, RelPtr, Seal};

/// The relative pointers that are timed.
type Pointer = RelPtr<ArchivedI64, ArchivedI32>;

/// Reads the `i64` at a position.
pub fn read_i64(bytes: &[u8], pos: usize) -> i64
    requires { pos + 8 ≤ length bytes.now }
    ensures { result ≡ i64_at bytes.now pos }
{
    Ref::<ArchivedI64>::new(bytes, pos).to_native()
}

/// Reads the `u32` at a position.
pub fn read_u32(bytes: &[u8], pos: usize) -> u32
    requires { pos + 4 ≤ length bytes.now }
    ensures { result ≡ u32_at bytes.now pos }
{
    Ref::<ArchivedU32>::new(bytes, pos).to_native()
}

/// Returns the position that the relative pointer at a position points to, or 0 if there is none.
pub fn target(bytes: &[u8], pos: usize) -> usize
    requires { pos + 4 ≤ length bytes.now }
    ensures { result ≡ target_at bytes.now pos }
{
    Pointer::target(Ref::new(bytes, pos)).unwrap_or(0)
}

/// Writes a number at a position as an archived value is resolved.
pub fn write_i64(bytes: &mut [u8], pos: usize, number: i64)
    requires { pos + 8 ≤ length bytes.old }
    ensures { bytes.new ≡ with_i64 bytes.old pos number }
{
    let archived = ArchivedI64::from_native(number);
    Place::<ArchivedI64>::within(bytes, pos, pos).write(archived.to_native());
}

/// Writes a number through a seal, over the one at a position.
pub fn seal_i64(bytes: &mut [u8], pos: usize, number: i64)
    requires { pos + 8 ≤ length bytes.old }
    ensures { bytes.new ≡ with_i64 bytes.old pos number }
{
    let archived = ArchivedI64::from_native(number);
    Seal::<ArchivedI64>::new(bytes, pos).write(archived.to_native());
}
