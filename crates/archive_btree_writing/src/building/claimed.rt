//! Entries whose number is claimed before they come.
ghost use Rattle.std.specs.Prelude.{◌≡◌, ℕ, ◌+◌, ◌-◌, ◌^◌, ◌<◌, min, List, [], ◌∷◌, length, Option, Some, None, MatchResult};
ghost use Rattle.std.specs.Iterator.{Drains, IsFinite};
ghost use Rattle.archive_shape_layout.specs.declared.error.Error.TheVariants.{IteratorLengthMismatch};

use archive_shape_layout::Error;

/// An iterator over entries with the number of entries that was claimed.
#[derive(Drop)]
pub(crate) struct Claimed<I> {
    pub entries: I,

    /// The number of entries that are claimed to come in all.
    pub claimed: usize,

    /// The number of entries that came.
    pub taken: usize,
}

/// Takes the next entry. Returns `IteratorLengthMismatch` if the iterator has ended.
pub(crate) fn take_entry<T: Copy, I: Iterator<Item = T>>(
    source: &mut Claimed<I>,
) -> Result<T, Error>
    requires calls { I.can_next source.old.entries × IsFinite (I.remaining source.old.entries) }
    requires wanted { source.old.taken < source.old.claimed }
    ensures taken { MatchResult result
        (λ x. I.next_gives source.old.entries (Some x) source.new.entries
        × (source.new.claimed ≡ source.old.claimed)
        × (source.new.taken ≡ source.old.taken + 1)
        × (I.can_next source.new.entries × IsFinite (I.remaining source.new.entries)))
        (λ e. I.next_gives source.old.entries None source.new.entries
        × (e ≡ IteratorLengthMismatch source.old.claimed source.old.taken)) }
{
    match source.entries.next() {
        Some(entry) => {
            source.taken += 1;
            Ok(entry)
        }
        None => Err(Error::IteratorLengthMismatch {
            expected: source.claimed,
            actual: source.taken,
        }),
    }
}

/// Checks that no entry comes after those that were claimed. If one does, all are counted, up to `usize::MAX`, and the
/// error is `IteratorLengthMismatch`.
pub(crate) fn finish<T: Copy, I: Iterator<Item = T>>(source: Claimed<I>) -> Result<(), Error>
    requires calls { I.can_next source.entries × IsFinite (I.remaining source.entries) }
    requires taken { source.taken ≡ source.claimed }
    ensures { (rest : List T) × Drains I.next_gives source.entries rest
        × MatchResult result (λ _. rest ≡ [])
        (λ e. (0 < length rest) × (e ≡ IteratorLengthMismatch source.claimed (min (source.claimed + length rest) (2 ^ 64 - 1)))) }
{
    let Claimed {
        mut entries,
        claimed,
        ..
    } = source;
    let None = entries.next() else {
        let mut actual = claimed.saturating_add(1);
        for _ in entries {
            actual = actual.saturating_add(1);
        }
        return Err(Error::IteratorLengthMismatch {
            expected: claimed,
            actual,
        });
    };
    Ok(())
}
