//! The connections that have no seat yet, and which of them gives way if there are too many.
ghost use Rattle.std.specs.Prelude.{◌≡◌, ◌+◌, ◌^◌, ◌<◌, ◌≤◌, ◌∷◌, [], ◌++◌, MatchOption, None, length};
ghost use Rattle.std.specs.Option.{option_to_list};

use crate::connection::Connection;
use std::alloc::Global;
use std::collections::VecDeque;
use std::time::Instant;

/// A connection whose first line is waited for, or that is refused and may still read why: the number of its challenge, and since when it waits or reads.
#[derive(Drop)]
pub(crate) struct Arrival {
    pub(crate) connection: Connection,
    pub(crate) number: u64,
    pub(crate) since: Option<Instant>,
    pub(crate) is_refused: bool,
}

/// The connections in the order in which they came, how many there may be, and how many have come.
#[derive(Drop)]
pub(crate) struct Arrivals {
    waiting: VecDeque<Arrival>,
    most: usize,
    come: u64,
}

impl Arrivals {
    pub(crate) fn new(alloc: Global, most: usize) -> Arrivals
        ensures none { result.waiting.items ≡ [] }
        ensures most { result.most ≡ most }
    {
        Arrivals {
            waiting: VecDeque::new(alloc),
            most,
            come: 0,
        }
    }

    pub(crate) fn len(&self) -> usize
        ensures { result ≡ length self.now.waiting.items }
    {
        self.waiting.len()
    }

    /// The number of the next connection.
    pub(crate) fn next_number(&mut self) -> u64
        ensures number { result ≡ self.old.come }
        ensures next { self.old.come + 1 < 2 ^ 64 → self.new.come ≡ self.old.come + 1 }
        ensures others { self.new.waiting.items ≡ self.old.waiting.items }
    {
        let number = self.come;
        self.come = number.saturating_add(1);
        number
    }

    /// Takes out the one that has waited longest. Whether a byte of it has come makes no difference: one byte is as cheap as none, and a client with the secret
    /// sends nothing before it has its challenge.
    pub(crate) fn take_first(&mut self) -> Option<Arrival>
        ensures first { self.old.waiting.items
            ≡ option_to_list result ++ self.new.waiting.items }
    {
        self.waiting.pop_front()
    }

    /// Makes room for one more: if there is none, the one that has waited longest gives way.
    pub(crate) fn make_room(&mut self) -> Option<Arrival>
        ensures full { self.old.most ≤ length self.old.waiting.items
            → self.old.waiting.items ≡ option_to_list result ++ self.new.waiting.items }
        ensures room { length self.old.waiting.items < self.old.most
            → (result ≡ None) × (self.new.waiting.items ≡ self.old.waiting.items) }
    {
        if self.waiting.len() < self.most {
            return None;
        }
        self.take_first()
    }

    /// Adds one after the others. Without memory it is given back.
    pub(crate) fn add(&mut self, arrival: Arrival) -> Option<Arrival>
        ensures { MatchOption result
            (self.new.waiting.items ≡ self.old.waiting.items ++ arrival ∷ [])
            (λ back. (back ≡ arrival) × (self.new.waiting.items ≡ self.old.waiting.items)) }
    {
        match self.waiting.push_back(arrival) {
            Ok(()) => None,
            Err(failed) => Some(failed.value),
        }
    }
}
