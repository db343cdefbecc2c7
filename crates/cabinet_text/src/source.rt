//! The source that the lines of a session are read from.
ghost use Rattle.std.specs.Prelude.{◌≡◌, ℕ, ◌+◌, ◌-◌, ◌^◌, ◌<◌, ◌≤◌, ◌++◌, List, Bool, [], length, take, IsTrue, IfOk, OnOk, OnErr};

use thiserror::Error;

/// The error of a failed read: the source gave no bytes, and its count of failures rose by one.
#[derive(Debug, Drop, Error)]
#[error("the source failed")]
pub struct SourceFailed;

/// A source that bytes are read from.
pub trait Source {
    /// Whether the bytes that the source gives are observable: if they are not, as for a file, `left` states nothing.
    ghost OBSERVABLE: { Bool };

    /// The bytes that have not been read yet.
    ghost left: { Self → List ℕ };

    /// The number of reads that failed.
    ghost failures: { Self → ℕ };

    /// Reads bytes into the front of the buffer, and returns their number. 0 means the end of the source, unless the
    /// buffer is empty.
    fn read(&mut self, buffer: &mut [u8]) -> Result<usize, SourceFailed>
        requires { failures self.old < 2 ^ 64 - 1 }
        ensures count { IfOk result (λ n. n ≤ length buffer.new) }
        ensures bytes { IsTrue OBSERVABLE → IfOk result
            (λ n. left self.old ≡ take n buffer.new ++ left self.new) }
        ensures end { IsTrue OBSERVABLE → IfOk result (λ n. n ≡ 0 → 0 < length buffer.old
            → left self.old ≡ []) }
        ensures quiet { OnOk result (failures self.new ≡ failures self.old) }
        ensures kept { IsTrue OBSERVABLE → OnErr result (left self.new ≡ left self.old) }
        ensures counted { OnErr result (failures self.new ≡ failures self.old + 1) };
}
