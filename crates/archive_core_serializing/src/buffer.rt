//! `Buffer`, a writer over memory of a fixed length.
ghost use Rattle.std.specs.Prelude.{◌≡◌, ◌+◌, ◌-◌, ◌^◌, ◌<◌, ◌≤◌, length, take, true, MatchResult};
ghost use Rattle.archive_shape_layout.specs.Progress.Progress.{unmet};
ghost use Rattle.archive_shape_layout.specs.Writing.{Appends};
ghost use Rattle.archive_shape_layout.specs.declared.error.Error.TheVariants.{BufferOverflow};
ghost use Rattle.archive_core_serializing.specs.Filling.{IsFilled, IsOverfull};

use archive_shape::{Error, Positional, Registry, Writer};

/// A writer over borrowed memory. Its first `len` bytes were written.
#[derive(Drop)]
pub struct Buffer<'a> {
    pub out: &'a mut [u8],
    pub len: usize,
    /// The number of writes that failed.
    pub failures: u64,
    ghost fits: { len ≤ length out.now },
}

impl<'a> Buffer<'a> {
    /// Creates a writer over this memory that has written nothing.
    pub fn new(out: &'a mut [u8]) -> Self
        ensures same_reference { result.out.ghost_name ≡ out.entry.ghost_name }
        ensures bytes { result.out.now ≡ out.old }
        ensures len { result.len ≡ 0 }
        ensures failures { result.failures ≡ 0 }
    {
        Buffer {
            out,
            len: 0,
            failures: 0,
        }
    }

    /// Returns the bytes that were written.
    pub fn bytes(&self) -> &[u8]
        ensures { result.now ≡ take self.now.len self.now.out.now }
    {
        &self.out[..self.len]
    }
}

impl<'a> From<&'a mut [u8]> for Buffer<'a> {
    ghost from_gives = { λ out r. (r.out.ghost_name ≡ out.ghost_name) × (r.out.now ≡ out.now) × (r.len ≡ 0) × (r.failures ≡ 0) };

    fn from(out: &'a mut [u8]) -> Buffer<'a> {
        Buffer::new(out)
    }
}

impl<'a, const N: usize> From<&'a mut [u8; N]> for Buffer<'a> {
    ghost from_gives = { λ out r. (r.out.now ≡ out.now) × (r.len ≡ 0) × (r.failures ≡ 0) };

    fn from(out: &'a mut [u8; N]) -> Buffer<'a> {
        Buffer::new(out)
    }
}

impl Positional for Buffer<'_> {
    ghost pos = { λ b. b.len };

    fn pos(&self) -> usize {
        self.len
    }
}

impl Registry for Buffer<'_> {
    ghost known = { λ _ _. unmet };
}

impl Writer for Buffer<'_> {
    ghost OBSERVABLE = { true };

    ghost COUNTS = { true };

    ghost contents = { λ b. take b.len b.out.now };

    ghost failures = { λ b. b.failures };

    ghost last_error = { λ _. BufferOverflow };

    fn counts() -> bool
        ensures { result ≡ true }
    {
        true
    }

    /// Appends the bytes. Returns `BufferOverflow` if they are more than the remaining bytes, and then writes none of
    /// them.
    fn write(&mut self, bytes: &[u8]) -> Result<(), Error>
        requires { self.old.failures < 2 ^ 64 - 1 }
        ensures same_reference { self.new.out.ghost_name ≡ self.old.out.ghost_name }
        ensures appends { Appends true true (λ b. take b.len b.out.now) (λ b. b.len) (λ b. b.failures)
            (λ _. BufferOverflow) (λ _ _. unmet) self.old self.new bytes.now result }
        ensures fills { MatchResult result
            (λ _. IsFilled self.old.out.now self.old.len bytes.now self.new.out.now self.new.len)
            (IsOverfull self.old.out.now self.old.len bytes.now self.new.out.now self.new.len) }
    {
        let start = self.len;
        if bytes.len() > self.out.len() - start {
            self.failures += 1;
            return Err(Error::BufferOverflow);
        }
        let end = start + bytes.len();
        self.out[start..end].copy_from_slice(bytes);
        self.len = end;
        Ok(())
    }
}
