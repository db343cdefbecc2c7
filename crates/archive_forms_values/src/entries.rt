//! Iterators over the entries of archived maps, their keys and their values.
ghost use Rattle.std.specs.Prelude.{◌≡◌, ℕ, List, IfSome, length, map};
ghost use Rattle.std.specs.Iterator.{YieldsFirst, UpTo, item_count};
ghost use Rattle.std.specs.Iterator.SizeHint.{IsExactHint, IsWithinCount};
ghost use Rattle.archive_forms_values.specs.Entries.{entry_from};

use archive_shape::Ref;
use std::iter::FusedIterator;
use std::marker::{Model, PhantomData};

/// The positions of entries, for each that of its key and that of its value, from which the first is taken.
pub trait EntryPositions: Drop {
    /// The positions that are left.
    ghost left: { Self → List (ℕ × ℕ) };

    /// Takes the positions of the first entry that is left.
    fn next_entry(&mut self) -> Option<(usize, usize)>
        ensures { YieldsFirst left self.old result self.new };

    /// Returns the number of entries that are left.
    fn entries_left(&self) -> usize
        ensures { result ≡ length (left self.now) };
}

/// An iterator over entries: each key with its value. Its model is the list of the entries that are left.
#[derive(Drop)]
pub struct EntryIter<'a, K, V, P: EntryPositions> {
    bytes: &'a [u8],
    positions: P,
    of: PhantomData<(K, V)>,
}

impl<'a, K, V, P: EntryPositions> Model for EntryIter<'a, K, V, P> {
    ghost use Rattle.std.specs.Prelude.{List, map};
    ghost use Rattle.archive_shape.specs.declared.references.refs.Ref.{Ref};

    ghost Value = { List (Ref K × Ref V) };

    ghost use Rattle.archive_forms_values.specs.Entries.{entry_from};

    ghost view = { λ it. map (entry_from it.bytes) (P.left it.positions) };
}

impl<'a, K, V, P: EntryPositions> EntryIter<'a, K, V, P> {
    /// Returns an iterator over the entries at the positions that are left.
    pub fn new(bytes: &'a [u8], positions: P) -> Self
        ensures { result ≡ map (entry_from bytes.entry) (P.left positions) }
    {
        EntryIter {
            bytes,
            positions,
            of: PhantomData,
        }
    }
}

impl<'a, K, V, P: EntryPositions> Iterator for EntryIter<'a, K, V, P> {
    type Item = (Ref<'a, K>, Ref<'a, V>);

    ghost next_gives = { YieldsFirst (λ xs. xs) };

    ghost remaining = { item_count (λ xs. xs) };

    fn next(&mut self) -> Option<(Ref<'a, K>, Ref<'a, V>)> {
        let (key, value) = self.positions.next_entry()?;
        Some((Ref::new(self.bytes, key), Ref::new(self.bytes, value)))
    }

    fn size_hint(&self) -> (usize, Option<usize>)
        ensures lower { IsWithinCount result.0 (item_count (λ xs. xs) self.now) }
        ensures upper { IfSome result.1 (UpTo (item_count (λ xs. xs) self.now)) }
        ensures exact { IsExactHint result (length self.now) }
    {
        let left = self.positions.entries_left();
        (left, Some(left))
    }
}

impl<'a, K, V, P: EntryPositions> ExactSizeIterator for EntryIter<'a, K, V, P> {
    fn len(&self) -> usize {
        self.positions.entries_left()
    }
}

impl<'a, K, V, P: EntryPositions> FusedIterator for EntryIter<'a, K, V, P> {}

/// An iterator over the keys of entries. Its model is the list of the keys that are left.
#[derive(Drop)]
pub struct EntryKeys<'a, K, V, P: EntryPositions> {
    entries: EntryIter<'a, K, V, P>,
}

impl<'a, K, V, P: EntryPositions> Model for EntryKeys<'a, K, V, P> {
    ghost use Rattle.std.specs.Prelude.{List, map};
    ghost use Rattle.archive_shape.specs.declared.references.refs.Ref.{Ref};

    ghost Value = { List (Ref K) };

    ghost view = { λ it. map (λ e. e.0) it.entries };
}

impl<'a, K, V, P: EntryPositions> EntryKeys<'a, K, V, P> {
    /// Returns an iterator over the keys of entries.
    pub fn new(entries: EntryIter<'a, K, V, P>) -> Self
        ensures { result ≡ map (λ e. e.0) entries.entry }
    {
        EntryKeys { entries }
    }
}

impl<'a, K, V, P: EntryPositions> Iterator for EntryKeys<'a, K, V, P> {
    type Item = Ref<'a, K>;

    ghost next_gives = { YieldsFirst (λ xs. xs) };

    ghost remaining = { item_count (λ xs. xs) };

    fn next(&mut self) -> Option<Ref<'a, K>> {
        let (key, _) = self.entries.next()?;
        Some(key)
    }

    fn size_hint(&self) -> (usize, Option<usize>)
        ensures lower { IsWithinCount result.0 (item_count (λ xs. xs) self.now) }
        ensures upper { IfSome result.1 (UpTo (item_count (λ xs. xs) self.now)) }
        ensures exact { IsExactHint result (length self.now) }
    {
        self.entries.size_hint()
    }
}

impl<'a, K, V, P: EntryPositions> ExactSizeIterator for EntryKeys<'a, K, V, P> {
    fn len(&self) -> usize {
        self.entries.len()
    }
}

impl<'a, K, V, P: EntryPositions> FusedIterator for EntryKeys<'a, K, V, P> {}

/// An iterator over the values of entries. Its model is the list of the values that are left.
#[derive(Drop)]
pub struct EntryValues<'a, K, V, P: EntryPositions> {
    entries: EntryIter<'a, K, V, P>,
}

impl<'a, K, V, P: EntryPositions> Model for EntryValues<'a, K, V, P> {
    ghost use Rattle.std.specs.Prelude.{List, map};
    ghost use Rattle.archive_shape.specs.declared.references.refs.Ref.{Ref};

    ghost Value = { List (Ref V) };

    ghost view = { λ it. map (λ e. e.1) it.entries };
}

impl<'a, K, V, P: EntryPositions> EntryValues<'a, K, V, P> {
    /// Returns an iterator over the values of entries.
    pub fn new(entries: EntryIter<'a, K, V, P>) -> Self
        ensures { result ≡ map (λ e. e.1) entries.entry }
    {
        EntryValues { entries }
    }
}

impl<'a, K, V, P: EntryPositions> Iterator for EntryValues<'a, K, V, P> {
    type Item = Ref<'a, V>;

    ghost next_gives = { YieldsFirst (λ xs. xs) };

    ghost remaining = { item_count (λ xs. xs) };

    fn next(&mut self) -> Option<Ref<'a, V>> {
        let (_, value) = self.entries.next()?;
        Some(value)
    }

    fn size_hint(&self) -> (usize, Option<usize>)
        ensures lower { IsWithinCount result.0 (item_count (λ xs. xs) self.now) }
        ensures upper { IfSome result.1 (UpTo (item_count (λ xs. xs) self.now)) }
        ensures exact { IsExactHint result (length self.now) }
    {
        self.entries.size_hint()
    }
}

impl<'a, K, V, P: EntryPositions> ExactSizeIterator for EntryValues<'a, K, V, P> {
    fn len(&self) -> usize {
        self.entries.len()
    }
}

impl<'a, K, V, P: EntryPositions> FusedIterator for EntryValues<'a, K, V, P> {}
