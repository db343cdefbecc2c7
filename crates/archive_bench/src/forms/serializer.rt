//! A serializer that keeps the written bytes in memory.
ghost use Rattle.std.specs.Prelude.{◌≡◌, ℕ, [], true, false, vec_len};
ghost use Rattle.archive_shape_layout.specs.Progress.Progress.{unmet};
ghost use Rattle.archive_shape_layout.specs.declared.error.Error.TheVariants.{OutOfMemory};

use archive_shape::{Allocator, Error, Positional, Registry, Writer};
use std::alloc::Global;

/// A serializer that keeps the written bytes in memory, and knows no key.
#[derive(Drop)]
pub struct MemorySerializer {
    bytes: Vec<u8>,
    alloc: Global,
}

impl MemorySerializer {
    /// Returns a serializer without bytes, which allocates from `alloc`.
    pub fn new(alloc: Global) -> Self
        ensures pos { vec_len result.bytes ≡ 0 }
        ensures bytes { result.bytes.items ≡ [] }
    {
        MemorySerializer {
            bytes: Vec::new(alloc),
            alloc,
        }
    }

    /// Returns the bytes that were written.
    pub fn bytes(&self) -> &[u8]
        ensures { result.now ≡ self.now.bytes.items }
    {
        self.bytes.as_slice()
    }
}

impl Positional for MemorySerializer {
    ghost pos = { λ s. vec_len s.bytes };

    fn pos(&self) -> usize {
        self.bytes.len()
    }
}

impl Registry for MemorySerializer {
    ghost known = { λ _ _. unmet };
}

impl Writer for MemorySerializer {
    ghost OBSERVABLE = { true };

    ghost COUNTS = { false };

    ghost contents = { λ s. s.bytes.items };

    ghost failures = { λ _. 0 };

    ghost last_error = { λ _. OutOfMemory };

    fn counts() -> bool {
        false
    }

    fn write(&mut self, bytes: &[u8]) -> Result<(), Error> {
        self.bytes.write(bytes)
    }
}

impl Allocator for MemorySerializer {
    ghost memory = { λ s. s.alloc };

    fn memory(&self) -> Global {
        self.alloc
    }
}
