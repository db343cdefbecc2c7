//! The traits of writers, and their implementations for `Vec<u8>` and for references.
ghost use Rattle.std.specs.Prelude.{◌≡◌, ℕ, ◌-◌, ◌^◌, ◌<◌, List, Bool, true, false, vec_len};
ghost use Rattle.archive_shape_layout.specs.Progress.{Progress};
ghost use Rattle.archive_shape_layout.specs.Progress.Progress.{unmet};
ghost use Rattle.archive_shape_layout.specs.Writing.{Appends};
ghost use Rattle.archive_shape_layout.specs.declared.error.Error.{Error};
ghost use Rattle.archive_shape_layout.specs.declared.error.Error.TheVariants.{OutOfMemory};

use crate::Error;

/// A value that has a position in the bytes that it writes.
pub trait Positional {
    ghost pos: { Self → ℕ };

    /// Returns the number of bytes before the next one that is written.
    fn pos(&self) -> usize
        ensures { result ≡ pos self.now };
}

/// A registry of the shared values that were written, by their keys. One that keeps none knows of no key.
pub trait Registry {
    /// The progress of each key.
    ghost known: { Self → ℕ → Progress ℕ };
}

/// A writer, to which bytes are appended.
pub trait Writer: Positional + Registry {
    /// Whether contracts can name what the writer holds. Where they cannot, as of a file, `contents` says nothing.
    ghost OBSERVABLE: { Bool };

    /// Whether the writer keeps a count of its failures.
    ghost COUNTS: { Bool };

    /// All bytes that were written.
    ghost contents: { Self → List ℕ };

    /// The number of writes that failed.
    ghost failures: { Self → ℕ };

    /// The error of the last write that failed.
    ghost last_error: { Self → Error };

    /// Returns whether the writer keeps a count of its failures. One that keeps none fails only with `OutOfMemory`.
    fn counts() -> bool
        ensures { result ≡ COUNTS };

    /// Appends the bytes. Where the write fails, a prefix of them may have been written.
    fn write(&mut self, bytes: &[u8]) -> Result<(), Error>
        requires { failures self.old < 2 ^ 64 - 1 }
        ensures { Appends OBSERVABLE COUNTS contents Self.pos failures last_error Self.known self.old self.new bytes.now result };
}

impl Positional for Vec<u8> {
    ghost pos = { vec_len };

    fn pos(&self) -> usize {
        self.len()
    }
}

impl Registry for Vec<u8> {
    ghost known = { λ _ _. unmet };
}

impl Registry for () {
    ghost known = { λ _ _. unmet };
}

impl Writer for Vec<u8> {
    ghost OBSERVABLE = { true };

    ghost COUNTS = { false };

    ghost contents = { λ v. v.items };

    ghost failures = { λ _. 0 };

    ghost last_error = { λ _. OutOfMemory };

    fn counts() -> bool {
        false
    }

    fn write(&mut self, bytes: &[u8]) -> Result<(), Error> {
        self.extend_from_slice(bytes)?;
        Ok(())
    }
}

impl<T: Positional> Positional for &T {
    ghost pos = { λ r. T.pos r.now };

    fn pos(&self) -> usize {
        T::pos(*self)
    }
}

impl<T: Positional> Positional for &mut T {
    ghost pos = { λ r. T.pos r.now };

    fn pos(&self) -> usize {
        (**self).pos()
    }
}

impl<T: Registry> Registry for &mut T {
    ghost known = { λ r. T.known r.now };
}

impl<T: Writer> Writer for &mut T {
    ghost OBSERVABLE = { T.OBSERVABLE };

    ghost COUNTS = { T.COUNTS };

    ghost contents = { λ r. T.contents r.now };

    ghost failures = { λ r. T.failures r.now };

    ghost last_error = { λ r. T.last_error r.now };

    fn counts() -> bool {
        T::counts()
    }

    fn write(&mut self, bytes: &[u8]) -> Result<(), Error> {
        (**self).write(bytes)
    }
}
