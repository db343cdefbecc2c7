//! The own bytes of the entries of a node, whose data is written.
ghost use Rattle.std.specs.Prelude.{◌≡◌, ℕ, ◌+◌, ◌*◌, ◌^◌, ◌<◌, ◌≤◌, length, MatchResult};
ghost use Rattle.archive_shape_layout.specs.Shape.{size_of};
ghost use Rattle.archive_shape.specs.Bytes.{HasBytes, zeros, overwrite};
ghost use Rattle.archive_forms_laws.specs.State.{State};
ghost use Rattle.archive_forms_laws.specs.Spelling.{state_after};
ghost use Rattle.archive_forms_laws.specs.Serializing.{CanResolve, Resolves};
ghost use Rattle.archive_forms_laws.specs.Regions.{resolvers};
ghost use Rattle.archive_btree_spelling.specs.Written.{slots, AllSlots, AnySlot, key_own, value_own};
ghost use Rattle.archive_btree_writing.specs.Nodes.{borrowed, borrowed_entry};

use archive_forms_writing::{Archive, ArchiveWith, ByArchive};
use archive_shape::{Error, Place, Portable};

/// Writes the own bytes of a value, whose data is written, at `start` of a buffer, which is zero there and will lie at
/// position `pos` of the archive.
fn resolve_slot<T, A: ArchiveWith<T>>(
    with: &A,
    value: &T,
    resolver: A::Resolver,
    start: usize,
    pos: usize,
    buffer: &mut [u8],
) -> Result<(), Error>
    requires { CanResolve (A.spelling with.now) A.Archived.shape value.now resolver buffer.old start pos }
    ensures { Resolves (A.spelling with.now) A.Archived.shape value.now resolver pos start
        buffer.old buffer.new result }
{
    with.resolve_with(value, resolver, Place::within(buffer, start, pos))
}

/// Writes the own bytes of the keys of entries, whose data is written, side by side from `start` of a buffer on, which
/// is zero there and will lie at position `pos` of the archive.
pub(crate) fn resolve_keys<'a, K: Archive, V, A: ArchiveWith<V>, const E: usize>(
    entries: &[(&'a K, &'a V)],
    kept: &[(K::Resolver, A::Resolver)],
    start: usize,
    pos: usize,
    buffer: &mut [u8],
) -> Result<(), Error>
    requires made { (with : A) × (st : State) × (kept.now ≡ resolvers
        (borrowed_entry E K.Archived.shape A.Archived.shape K.spelling (A.spelling with)) entries.now st) }
    requires room { start + length entries.now * size_of K.Archived.shape ≤ length buffer.old }
    requires stands { pos + length entries.now * size_of K.Archived.shape < 2 ^ 64 }
    requires blank { HasBytes buffer.old start (zeros (length entries.now * size_of K.Archived.shape)) }
    ensures { (with : A) (st : State)
        → let w = borrowed_entry E K.Archived.shape A.Archived.shape K.spelling (A.spelling with) in
        kept.now ≡ resolvers w entries.now st
        → let keys = borrowed K.spelling in
        let vals = borrowed (A.spelling with) in
        MatchResult result
        (λ _. AllSlots (state_after w) (size_of K.Archived.shape) (λ x then here. keys.own_fits x.0 (keys.resolver x.0 then) here) entries.now st pos
        × (buffer.new ≡ overwrite buffer.old start (slots (state_after w) (size_of K.Archived.shape) (key_own E K.Archived.shape A.Archived.shape keys vals) entries.now st pos)))
        (λ e. AnySlot (state_after w) (size_of K.Archived.shape) (λ x then here. keys.own_refused x.0 (keys.resolver x.0 then) here e) entries.now st pos) }
{
    let _len = buffer.len();
    let size = K::Archived::SIZE;
    let mut offset = 0;
    for (i, entry) in entries.iter().enumerate() {
        resolve_slot(
            &ByArchive,
            entry.0,
            kept[i].0,
            start + offset,
            pos + offset,
            buffer,
        )?;
        offset += size;
    }
    Ok(())
}

/// Writes the own bytes of the values of entries, as `resolve_keys` does of the keys.
pub(crate) fn resolve_values<'a, K: Archive, V, A: ArchiveWith<V>, const E: usize>(
    with: &A,
    entries: &[(&'a K, &'a V)],
    kept: &[(K::Resolver, A::Resolver)],
    start: usize,
    pos: usize,
    buffer: &mut [u8],
) -> Result<(), Error>
    requires made { (st : State) × (kept.now ≡ resolvers
        (borrowed_entry E K.Archived.shape A.Archived.shape K.spelling (A.spelling with.now)) entries.now st) }
    requires room { start + length entries.now * size_of A.Archived.shape ≤ length buffer.old }
    requires stands { pos + length entries.now * size_of A.Archived.shape < 2 ^ 64 }
    requires blank { HasBytes buffer.old start (zeros (length entries.now * size_of A.Archived.shape)) }
    ensures { (st : State)
        → let w = borrowed_entry E K.Archived.shape A.Archived.shape K.spelling (A.spelling with.now) in
        kept.now ≡ resolvers w entries.now st
        → let keys = borrowed K.spelling in
        let vals = borrowed (A.spelling with.now) in
        MatchResult result
        (λ _. AllSlots (state_after w) (size_of A.Archived.shape) (λ x then here. vals.own_fits x.1 (vals.resolver x.1 (state_after keys x.0 then)) here) entries.now st pos
        × (buffer.new ≡ overwrite buffer.old start (slots (state_after w) (size_of A.Archived.shape) (value_own E K.Archived.shape A.Archived.shape keys vals) entries.now st pos)))
        (λ e. AnySlot (state_after w) (size_of A.Archived.shape) (λ x then here. vals.own_refused x.1 (vals.resolver x.1 (state_after keys x.0 then)) here e) entries.now st pos) }
{
    let _len = buffer.len();
    let size = A::Archived::SIZE;
    let mut offset = 0;
    for (i, entry) in entries.iter().enumerate() {
        resolve_slot(
            with,
            entry.1,
            kept[i].1,
            start + offset,
            pos + offset,
            buffer,
        )?;
        offset += size;
    }
    Ok(())
}
