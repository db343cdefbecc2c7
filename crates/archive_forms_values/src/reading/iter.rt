//! Iterators over at most one item.
ghost use Rattle.std.specs.Prelude.{◌≡◌, IfSome, length};
ghost use Rattle.std.specs.Option.{option_to_list};
ghost use Rattle.std.specs.Iterator.{YieldsFirst, YieldsLast, UpTo, item_count};
ghost use Rattle.std.specs.Iterator.SizeHint.{IsExactHint, IsWithinCount};

use std::iter::FusedIterator;
use std::marker::Model;

/// An iterator over at most one item. Its model is the item that is left.
#[derive(Drop)]
pub struct Iter<P> {
    item: Option<P>,
}

impl<P> Model for Iter<P> {
    ghost use Rattle.std.specs.Prelude.{Option};

    ghost Value = { Option P };

    ghost view = { λ it. it.item };
}

impl<P> Iter<P> {
    /// Creates an iterator over `item`, or over nothing.
    pub const fn new(item: Option<P>) -> Self
        ensures { result ≡ item }
    {
        Iter { item }
    }
}

impl<P: Drop> Iterator for Iter<P> {
    type Item = P;

    ghost next_gives = { YieldsFirst option_to_list };

    ghost remaining = { item_count option_to_list };

    fn next(&mut self) -> Option<P> {
        self.item.take()
    }

    fn size_hint(&self) -> (usize, Option<usize>)
        ensures lower { IsWithinCount result.0 (item_count option_to_list self.now) }
        ensures upper { IfSome result.1 (UpTo (item_count option_to_list self.now)) }
        ensures exact { IsExactHint result (length (option_to_list self.now)) }
    {
        let len = self.len();
        (len, Some(len))
    }
}

impl<P: Drop> DoubleEndedIterator for Iter<P> {
    ghost next_back_gives = { YieldsLast option_to_list };

    fn next_back(&mut self) -> Option<P> {
        self.next()
    }
}

impl<P: Drop> ExactSizeIterator for Iter<P> {
    fn len(&self) -> usize {
        if self.item.is_some() { 1 } else { 0 }
    }
}

impl<P: Drop> FusedIterator for Iter<P> {}
