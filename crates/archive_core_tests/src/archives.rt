//! Tests of values as whole archives.
ghost use Rattle.std.specs.Prelude.{◌≡◌, ◌≢◌, false, IfOk, MatchResult};
ghost use Rattle.archive_shape_layout.specs.Content.{Names};
ghost use Rattle.archive_shape_layout.specs.declared.error.Error.TheVariants.{OutOfMemory};
ghost use Rattle.archive_shape_canonical.specs.Settled.{Fit};
ghost use Rattle.archive_forms_laws.specs.State.{Keys};
ghost use Rattle.archive_forms_laws.specs.Unshared.{holds_shared};

mod equal;
mod own_struct;
mod parts;
mod written;

use archive_core::laws::{fault_refuses, read_back_is_written, written_is_accepted};
use archive_core::{
    Archive, CheckBytes, Deserialize, Error, HighSerializer, HighValidator, Serialize, access,
    deserialize, from_bytes, to_bytes,
};
use std::alloc::{AllocError, Global};
use std::boxed::BoxedSlice;

/// The archive of `hello`: its eleven bytes, a zero, a tag with padding, and the box.
const HELLO: [u8; 24] = *b"Hello world\0\x01\0\0\0\xf0\xff\xff\xff\x0b\0\0\0";

/// Returns a box of bytes, in an option.
fn hello(alloc: Global) -> Result<Option<BoxedSlice<u8>>, AllocError> {
    let mut bytes = Vec::new(alloc);
    bytes.extend_from_slice(b"Hello world")?;
    Ok(Some(bytes.into_boxed_slice()))
}

/// Accesses the root of an archive, and then reads it back.
fn accessed_and_read<T: Archive>(alloc: Global, bytes: &[u8]) -> Result<T, Error>
where
    T::Archived: CheckBytes<HighValidator> + Deserialize<T>,
    requires { (names : Names) × T.Archived.knows names }
{
    let root = access::<T::Archived>(alloc, bytes)?;
    deserialize::<T, T::Archived>(alloc, &root)
}

/// Archives a value and reads it back. What was archived is accepted, and read back as the value is, whichever of its
/// keys denote equal values; where no value of the type holds a shared pointer, there are no keys to know.
pub(crate) fn archived_and_read<T: Serialize<HighSerializer<Vec<u8>, Global>>>(
    alloc: Global,
    value: &T,
) -> Result<Result<T, Error>, Error>
where
    T::Archived: CheckBytes<HighValidator> + Deserialize<T>,
    requires named { (names : Names) × T.Archived.knows names }
    ensures read { (fit : Fit) (keys : Keys) → T.spelling.suits fit keys value.now
        → IfOk result (λ read. MatchResult read (T.Archived.reads (T.spelling.plain value.now))
        (λ e. e ≢ OutOfMemory → ⊥)) }
    ensures unshared { holds_shared T.Archived.shape ≡ false
        → IfOk result (λ read. MatchResult read (T.Archived.reads (T.spelling.plain value.now))
        (λ e. e ≡ OutOfMemory)) }
{
    let bytes = match to_bytes(alloc, value) {
        Ok(bytes) => bytes,
        Err(e) => return Err(e),
    };
    written_is_accepted::<T>();
    read_back_is_written::<T>();
    fault_refuses();
    let archive = bytes.as_slice();
    Ok(from_bytes::<T>(alloc, archive))
}
