//! What calls did: all that they were asked for, or what they do when memory is refused.

/// What a call did.
#[derive(Clone, Copy, PartialEq, Eq)]
pub enum Outcome {
    /// All that it was asked for.
    Done,
    /// It told that memory was refused, and left what it must leave then.
    Refused,
    /// Something else.
    Wrong,
}

impl Outcome {
    /// Returns the outcome of a call that succeeded, by whether it did what it was asked for.
    pub fn succeeded(is_right: bool) -> Outcome {
        if is_right {
            Outcome::Done
        } else {
            Outcome::Wrong
        }
    }

    /// Returns the outcome of a call that told that memory was refused, by whether it left what it must leave.
    pub fn refused(stands: bool) -> Outcome {
        if stands {
            Outcome::Refused
        } else {
            Outcome::Wrong
        }
    }

    /// Returns the outcome of two calls together.
    pub fn and(self, other: Outcome) -> Outcome {
        match (self, other) {
            (Outcome::Wrong, _) | (_, Outcome::Wrong) => Outcome::Wrong,
            (Outcome::Refused, _) | (_, Outcome::Refused) => Outcome::Refused,
            (Outcome::Done, Outcome::Done) => Outcome::Done,
        }
    }
}

/// How many calls had each outcome.
#[derive(Clone, Copy)]
pub struct Tally {
    pub done: u32,
    pub refused: u32,
    pub wrong: u32,
}

impl Tally {
    /// Returns the tally of no calls.
    pub fn new() -> Tally {
        Tally {
            done: 0,
            refused: 0,
            wrong: 0,
        }
    }

    /// Returns the tally of one call.
    pub fn of(outcome: Outcome) -> Tally {
        let mut tally = Tally::new();
        tally.count(outcome);
        tally
    }

    /// Counts a call.
    pub fn count(&mut self, outcome: Outcome) {
        let number = match outcome {
            Outcome::Done => &mut self.done,
            Outcome::Refused => &mut self.refused,
            Outcome::Wrong => &mut self.wrong,
        };
        *number = number.saturating_add(1);
    }
}
