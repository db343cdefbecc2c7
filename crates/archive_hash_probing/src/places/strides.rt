//! The positions at which the strides of a hash begin.
ghost use Rattle.std.specs.Prelude.{◌≡◌, ◌+◌, ◌*◌, ◌%◌, ◌^◌, ◌<◌, ◌≤◌};
ghost use Rattle.std.specs.Iterator.{YieldsFirst, item_count};
ghost use Rattle.archive_shape_canonical.specs.Strides.{strides};
ghost use Rattle.archive_hash_probing.specs.Stops.{strides_left, IsStop};
ghost use Rattle.archive_hash_probing.specs.Calls.{PassesStride};

use std::iter::FusedIterator;
use std::marker::Model;

/// The next stop of a sequence, a position at which a stride may begin.
#[derive(Clone, Copy, Debug)]
struct Stop {
    position: usize,
    /// The number of stops that were passed.
    passed: usize,
    /// The number of stops.
    count: usize,
}

/// Passes a stop. The next one is `16 * n` positions further, modulo `16 * count`, where `n` stops are then passed.
fn pass_stop(stop: Stop) -> Stop
    requires stop { IsStop stop.count stop.passed stop.position }
    requires left { stop.passed < stop.count }
    ensures position { result.position ≡ (stop.position + 16 * (stop.passed + 1)) % (16 * stop.count) }
    ensures passed { result.passed ≡ stop.passed + 1 }
    ensures count { result.count ≡ stop.count }
{
    let ring = 16 * stop.count;
    let passed = stop.passed + 1;
    let further = stop.position + 16 * passed;
    Stop {
        position: if further < ring {
            further
        } else {
            further - ring
        },
        passed,
        count: stop.count,
    }
}

/// Passes stops up to the first at which a stride begins, and returns its position.
fn pass_stride(stop: &mut Stop, end: usize) -> Option<usize>
    requires { IsStop stop.old.count stop.old.passed stop.old.position }
    ensures stop { IsStop stop.new.count stop.new.passed stop.new.position }
    ensures gives { PassesStride end stop.old result stop.new }
{
    while stop.passed < stop.count {
        let position = stop.position;
        *stop = pass_stop(*stop);
        if position < end {
            return Some(position);
        }
    }
    None
}

/// An iterator over the positions at which the strides of a hash begin among the controls of a table, in order. Each
/// stride shows sixteen controls. The model is the positions that are left.
#[derive(Clone, Debug, Drop)]
pub struct Strides {
    stop: Stop,
    /// The number of places, rounded up to a multiple of sixteen.
    end: usize,
}

impl Model for Strides {
    ghost use Rattle.std.specs.Prelude.{ℕ, List};

    ghost Value = { List ℕ };

    ghost use Rattle.archive_hash_probing.specs.Stops.{strides_left, IsStop};

    ghost view = { λ s. strides_left s.end s.stop.count s.stop.passed s.stop.position };

    ghost invariant = { λ s. IsStop s.stop.count s.stop.passed s.stop.position };
}

impl Strides {
    /// Creates the iterator for the strides of a hash in a table of `capacity` places.
    pub fn new(hash: u64, capacity: usize) -> Self
        requires some { 0 < capacity }
        requires small { capacity < 2 ^ 32 }
        ensures { result ≡ strides hash capacity }
    {
        let sixteens = capacity.div_ceil(16);
        Strides {
            stop: Stop {
                position: (hash % capacity as u64) as usize,
                passed: 0,
                count: sixteens.next_power_of_two(),
            },
            end: 16 * sixteens,
        }
    }
}

impl Iterator for Strides {
    type Item = usize;

    ghost next_gives = { YieldsFirst (λ xs. xs) };

    ghost remaining = { item_count (λ xs. xs) };

    fn next(&mut self) -> Option<usize> {
        pass_stride(&mut self.stop, self.end)
    }
}

impl FusedIterator for Strides {}
