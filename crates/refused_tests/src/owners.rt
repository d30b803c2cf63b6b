//! What holds a workbench for two callers, with the lock and without.
use crate::nest::{BEFORE, Given, Which, bench_for};
use crate::told::{bench_told, reply_word};
use fb_bench::{Bench, Limits};
use fb_jobs::Key;
use fb_shared::bench::Identity;
use fb_shared::{Closed, Locked, NotClosed, NotResumed, Receipt, Seat, Shared, SharedRefused};
use std::alloc::{AllocError, Global};
use std::sync::Wait;
use std::test::Fail;

/// What holds a workbench for two callers, and their seats.
pub(crate) type Hall<T> = (T, Vec<Seat>);

/// The receipt of a call, or why it is refused.
pub(crate) type Made = Result<Receipt, SharedRefused>;

/// The result of a call: the number, caller and turn of its receipt and the sort of its reply, or why it was refused.
pub(crate) type Outcome = Result<(u64, u32, u64, &'static str), SharedRefused>;

/// What comes of a close.
pub(crate) type Close<T> = Result<Closed, NotClosed<T>>;

/// The seat of a session that has ended, and its receipts.
#[derive(Drop)]
pub(crate) struct Session {
    pub(crate) seat: Seat,
    pub(crate) receipts: Vec<Receipt>,
}

/// What holds a workbench for two callers.
pub(crate) trait Owner: Drop {
    /// An empty workbench, and the seats of its callers. If it rolls, a full history begins again by itself.
    fn empty(alloc: Global, limits: Limits, rolls: bool) -> Result<Hall<Self>, AllocError>;

    /// A workbench with the calls that it has, and the seats of its callers.
    fn resumed(alloc: Global, bench: Bench) -> Result<Hall<Self>, NotResumed>;

    /// The receipt of one of the five calls.
    fn receipt<R: Wait>(&mut self, rt: &R, which: Which, seat: &mut Seat, given: &Given) -> Made;

    /// The result of one of the five calls.
    fn answer<R: Wait>(&mut self, rt: &R, which: Which, seat: &mut Seat, given: &Given) -> Outcome {
        let receipt = self.receipt(rt, which, seat, given)?;
        let word = reply_word(receipt.reply());
        Ok((receipt.number(), receipt.caller(), receipt.turn(), word))
    }

    /// Gives a key back that the session has held, unless memory is refused.
    fn gives_back<R: Wait>(&mut self, rt: &R, session: &mut Session, key: Key) -> bool;

    /// Ends the calls.
    fn closed(self, alloc: Global, seats: Vec<Seat>, receipts: &[Receipt]) -> Close<Self>;

    /// In words, all that can be read of it.
    fn shown(&self, alloc: Global) -> Result<String, AllocError>;
}

impl Owner for Locked {
    fn empty(alloc: Global, limits: Limits, _rolls: bool) -> Result<Hall<Locked>, AllocError> {
        Locked::new(alloc, limits, 2)
    }

    fn resumed(alloc: Global, bench: Bench) -> Result<Hall<Locked>, NotResumed> {
        Locked::resume(alloc, bench, 2)
    }

    fn receipt<R: Wait>(&mut self, _rt: &R, which: Which, seat: &mut Seat, given: &Given) -> Made {
        match which {
            Which::Commit => self.commit(seat, &given.changes),
            Which::Take => Ok(self.take(seat)?.0),
            Which::Deliver => self.deliver(seat, &given.finished),
            Which::GiveBack => self.give_back(seat, given.key),
            Which::Ask => self.ask(seat, given.key),
        }
    }

    fn gives_back<R: Wait>(&mut self, _rt: &R, session: &mut Session, key: Key) -> bool {
        let Session { seat, receipts } = session;
        self.return_held(seat, receipts, key, BEFORE + 1) != Err(SharedRefused::Memory)
    }

    fn closed(self, alloc: Global, seats: Vec<Seat>, receipts: &[Receipt]) -> Close<Locked> {
        self.close(alloc, seats, receipts)
    }

    fn shown(&self, alloc: Global) -> Result<String, AllocError> {
        let mut shown = bench_told(alloc, self.bench())?;
        let (first, second) = (self.book(1), self.book(2));
        write!(shown, "\n{first} {second}")?;
        Ok(shown)
    }
}

// Nothing can be read of it but its seats.
impl Owner for Shared {
    fn empty(alloc: Global, limits: Limits, rolls: bool) -> Result<Hall<Shared>, AllocError> {
        if rolls {
            Shared::rolling(alloc, limits, u64::MAX, 2, Identity { high: 1, low: 2 })
        } else {
            Shared::new(alloc, limits, 2)
        }
    }

    fn resumed(alloc: Global, bench: Bench) -> Result<Hall<Shared>, NotResumed> {
        Shared::resume(alloc, bench, 2)
    }

    fn receipt<R: Wait>(&mut self, rt: &R, which: Which, seat: &mut Seat, given: &Given) -> Made {
        match which {
            Which::Commit => self.commit(rt, seat, &given.changes),
            Which::Take => Ok(self.take(rt, seat)?.0),
            Which::Deliver => self.deliver(rt, seat, &given.finished),
            Which::GiveBack => self.give_back(rt, seat, given.key),
            Which::Ask => self.ask(rt, seat, given.key),
        }
    }

    fn gives_back<R: Wait>(&mut self, rt: &R, session: &mut Session, key: Key) -> bool {
        let Session { seat, receipts } = session;
        self.give_back_held(rt, seat, receipts, key, BEFORE + 1) != Err(SharedRefused::Memory)
    }

    fn closed(self, alloc: Global, seats: Vec<Seat>, receipts: &[Receipt]) -> Close<Shared> {
        self.close(alloc, seats, receipts)
    }

    fn shown(&self, alloc: Global) -> Result<String, AllocError> {
        Ok(String::new(alloc))
    }
}

/// The seats of two callers, which are the last ones.
pub(crate) fn both_of(seats: Vec<Seat>) -> Option<(Seat, Seat)> {
    let mut seats = seats;
    let second = seats.pop()?;
    let first = seats.pop()?;
    Some((first, second))
}

/// Both seats, to close with.
pub(crate) fn pair(alloc: Global, first: Seat, second: Seat) -> Option<Vec<Seat>> {
    let mut seats = Vec::new(alloc);
    seats.push(first).ok()?;
    seats.push(second).ok()?;
    Some(seats)
}

/// A workbench that has its calls, and the seats of its callers.
pub(crate) fn taken_over<T: Owner>(alloc: Global, bench: Bench) -> Result<Hall<T>, Fail> {
    Ok(T::resumed(alloc, bench).ok().ok_or("not resumed")?)
}

/// A workbench on which such a call can be made, and the seats of its callers.
pub(crate) fn owner_for<T: Owner>(alloc: Global, which: Which) -> Result<Hall<T>, Fail> {
    taken_over::<T>(alloc, bench_for(alloc, which)?)
}
