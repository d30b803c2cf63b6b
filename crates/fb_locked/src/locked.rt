//! What is under the lock, and the calls on it.
ghost use Rattle.std.specs.Prelude.{◌≡◌, ◌≤◌, ◌+◌, true, false, IfOk, IfErr, OnOk, OnErr, None, Some, vec_len, vec_capacity};
ghost use Rattle.fb_bench.specs.{History.Machine.{ToCommit, ToTake, ToDeliver, ToGiveBack, ToAsk}, Records.{listed}, Requests.{call_for, reply_in, job_of}};
ghost use Rattle.fb_bench.specs.History.BenchView.{IsOrigin, IsReplay, all_turns, new_bench};
ghost use Rattle.fb_locked.specs.{Book.{SeatFits}, Calls.{Answers, AnswersInto, Performs, PerformsInto}, Refusals.{refusal_of, IsRefusalOf}};
ghost use Rattle.fb_locked.specs.Seats.{locked_after, next_receipt, AreFirstSeats, AreSeatsAt};

use crate::seat::{Receipt, Seat};
use fb_bench::jobs::{Finished, Job, Key};
use fb_bench::library::Change;
use fb_bench::{Answered, Bench, Limits, Record, Request, Taken};
use std::alloc::{AllocError, Global};
use std::marker::Model;
use std::sync::Arc;

/// Why a call is not recorded. It then changes nothing.
#[derive(Clone, Copy, PartialEq, Eq, Debug)]
pub enum SharedRefused {
    /// The seat's number of calls is not that of its caller's book.
    SeatDiffers { turns: u64, book: u64 },
    /// The seat has seen a number beyond that of the last call, which is `len`.
    Behind { seen: u64, len: u64 },
    /// The history has the number of calls that the limits allow.
    HistoryFull,
    Memory,
}

/// What is under the lock: a workbench, for how many callers seats were made, and the stop mark. The book of a caller is the
/// number of its calls, those before the start of the history included. Records from before a roll stay in `past` until they are
/// dropped, some at each later call.
#[derive(Drop)]
pub struct Locked {
    pub(crate) alloc: Global,
    pub(crate) bench: Bench,
    pub(crate) callers: u32,
    pub(crate) stopped: bool,
    pub(crate) past: Vec<Arc<Record>>,
}

impl Model for Locked {
    ghost use Rattle.fb_locked.specs.Seats.{LockedView};

    ghost Value = { LockedView };

    ghost view = { λ it. record { bench = it.bench; callers = it.callers; stopped = it.stopped } };
}

// Works around the borrow checker: both types that a `Request` can borrow must occur in a function that makes one.
impl Locked {
    /// An empty workbench, with the seats of callers 1 to `callers`.
    pub fn new(
        alloc: Global,
        limits: Limits,
        callers: u32,
    ) -> Result<(Locked, Vec<Seat>), AllocError>
        ensures locked { IfOk result
            (λ made. made.0
            ≡ record {
              bench = new_bench limits.units limits.history;
              callers = callers;
              stopped = false;
            }) }
        ensures seats { IfOk result (λ made. AreFirstSeats callers made.1.items) }
    {
        let bench = Bench::new(alloc, limits);
        let seats = first_seats(alloc, &bench, callers)?;
        let locked = Locked::of(alloc, bench, callers);
        Ok((locked, seats))
    }

    /// The workbench, with seats for this number of callers, and no stop mark.
    pub(crate) fn of(alloc: Global, bench: Bench, callers: u32) -> Locked
        ensures { result ≡ record { bench = bench; callers = callers; stopped = false } }
    {
        Locked {
            alloc,
            bench,
            callers,
            stopped: false,
            past: Vec::new(alloc),
        }
    }

    /// The workbench. Each of its stored answers is the machine's at its place.
    pub fn bench(&self) -> &Bench
        ensures { result.now ≡ self.now.bench }
    {
        &self.bench
    }

    /// How many recorded calls a caller has made, those before the start included.
    pub fn book(&self, caller: u32) -> u64
        ensures { result ≡ all_turns self.now.bench caller }
    {
        self.bench.turns_of(caller)
    }

    /// Makes the workers stop.
    pub fn stop(&mut self)
        ensures { self.new ≡ record self.old { stopped = true } }
    {
        self.stopped = true;
    }

    /// The first cause against a call with this seat.
    pub(crate) fn admit(&self, seat: &Seat) -> Result<(), SharedRefused>
        ensures ok { OnOk result (refusal_of self.now seat.now ≡ None) }
        ensures fits { OnOk result (SeatFits self.now seat.now) }
        ensures err { IfErr result (λ refused. refusal_of self.now seat.now ≡ Some refused) }
        ensures cause { IfErr result (IsRefusalOf seat.now) }
        ensures begins { IsOrigin self.now.bench.origin }
        ensures replayed { IsReplay self.now.bench }
    {
        // For the proof: each recorded answer is the machine's, from a start that a workbench may have.
        self.bench.start();
        self.bench.len();
        let turns = seat.turns();
        let book = self.book(seat.caller());
        if book != turns {
            return Err(SharedRefused::SeatDiffers { turns, book });
        }
        let seen = seat.seen();
        let len = self.bench.last_number();
        if len < seen {
            return Err(SharedRefused::Behind { seen, len });
        }
        if self.bench.is_full() {
            return Err(SharedRefused::HistoryFull);
        }
        Ok(())
    }

    /// Makes a call with a seat, and gives its receipt and the answer.
    pub fn perform(
        &mut self,
        seat: &mut Seat,
        request: &Request<'_>,
    ) -> Result<(Receipt, Answered), SharedRefused>
        ensures performs { Performs self.old seat.old (call_for request.now)
            (λ made. made.0) result self.new seat.new }
        ensures answers { Answers seat.old (call_for request.now)
            (λ made. made.0) result seat.new }
        ensures answer { IfOk result (λ made. reply_in made.1 ≡ made.0.entry.reply) }
    {
        self.admit(seat)?;
        let Ok((receipt, answer)) = self.make_call(seat.caller(), request) else {
            return Err(SharedRefused::Memory);
        };
        seat.turns = receipt.turn();
        seat.seen = receipt.number();
        Ok((receipt, answer))
    }

    /// Makes a call of this caller.
    fn make_call(
        &mut self,
        caller: u32,
        request: &Request<'_>,
    ) -> Result<(Receipt, Answered), AllocError>
        ensures step { OnOk result (self.new ≡ locked_after self.old caller (call_for request.now)) }
        ensures receipt { IfOk result
            (λ made. made.0 ≡ next_receipt self.old.bench caller (call_for request.now)) }
        ensures answer { IfOk result (λ made. reply_in made.1 ≡ made.0.entry.reply) }
        ensures err { OnErr result (self.new ≡ self.old) }
    {
        match self.bench.perform(caller, request) {
            Ok((record, answer)) => {
                let number = self.bench.last_number();
                Ok((Receipt { number, record }, answer))
            }
            Err(_) => Err(AllocError),
        }
    }

    /// As `perform`, with its receipt after those that are kept. Lack of room for it refuses the call if nothing else does.
    pub fn perform_into(
        &mut self,
        seat: &mut Seat,
        receipts: &mut Vec<Receipt>,
        request: &Request<'_>,
    ) -> Result<Answered, SharedRefused>
        ensures performs { PerformsInto self.old seat.old (call_for request.now) result
            receipts.old.items self.new seat.new receipts.new.items }
        ensures answers { AnswersInto seat.old (call_for request.now) result
            receipts.old.items seat.new receipts.new.items }
        ensures one { OnOk result (vec_len receipts.new ≡ vec_len receipts.old + 1) }
        ensures room { vec_capacity receipts.old ≤ vec_capacity receipts.new }
    {
        if receipts.reserve(1).is_err() {
            self.admit(seat)?;
            return Err(SharedRefused::Memory);
        }
        let (receipt, answer) = self.perform(seat, request)?;
        receipts.push_reserved(receipt);
        Ok(answer)
    }

    /// Changes the texts, or gives the first reason against that.
    pub fn commit(&mut self, seat: &mut Seat, changes: &[Change]) -> Result<Receipt, SharedRefused>
        ensures performs { Performs self.old seat.old (ToCommit (listed changes.now))
            (λ receipt. receipt) result self.new seat.new }
        ensures answers { Answers seat.old (ToCommit (listed changes.now))
            (λ receipt. receipt) result seat.new }
    {
        let _finished: Option<&Finished> = None;
        Ok(self.perform(seat, &Request::Commit(changes))?.0)
    }

    /// Hands out a job for the least key that is pending and not handed out.
    pub fn take(&mut self, seat: &mut Seat) -> Result<(Receipt, Option<Job>), SharedRefused>
        ensures performs { Performs self.old seat.old ToTake
            (λ made. made.0) result self.new seat.new }
        ensures answers { Answers seat.old ToTake (λ made. made.0) result seat.new }
        ensures job { IfOk result (λ made. made.1 ≡ job_of made.0.entry.reply) }
    {
        let _changes: &[Change] = &[];
        let _finished: Option<&Finished> = None;
        let (receipt, answer) = self.perform(seat, &Request::Take)?;
        Ok((receipt, job_from(answer)))
    }

    /// Accepts a result, if its key waits for one and all that it has read is unchanged.
    pub fn deliver(
        &mut self,
        seat: &mut Seat,
        finished: &Finished,
    ) -> Result<Receipt, SharedRefused>
        ensures performs { Performs self.old seat.old (ToDeliver finished.now)
            (λ receipt. receipt) result self.new seat.new }
        ensures answers { Answers seat.old (ToDeliver finished.now)
            (λ receipt. receipt) result seat.new }
    {
        let _changes: &[Change] = &[];
        Ok(self.perform(seat, &Request::Deliver(finished))?.0)
    }

    /// Clears the mark that a key is handed out.
    pub fn give_back(&mut self, seat: &mut Seat, key: Key) -> Result<Receipt, SharedRefused>
        ensures performs { Performs self.old seat.old (ToGiveBack key)
            (λ receipt. receipt) result self.new seat.new }
        ensures answers { Answers seat.old (ToGiveBack key) (λ receipt. receipt) result seat.new }
    {
        let _changes: &[Change] = &[];
        let _finished: Option<&Finished> = None;
        Ok(self.perform(seat, &Request::GiveBack(key))?.0)
    }

    /// What is known of a key.
    pub fn ask(&mut self, seat: &mut Seat, key: Key) -> Result<Receipt, SharedRefused>
        ensures performs { Performs self.old seat.old (ToAsk key)
            (λ receipt. receipt) result self.new seat.new }
        ensures answers { Answers seat.old (ToAsk key) (λ receipt. receipt) result seat.new }
    {
        let _changes: &[Change] = &[];
        let _finished: Option<&Finished> = None;
        Ok(self.perform(seat, &Request::Ask(key))?.0)
    }
}

/// The job that is handed out.
pub(crate) fn job_from(answer: Answered) -> Option<Job>
    ensures { result ≡ job_of (reply_in answer) }
{
    match answer {
        Answered::Take(Taken::Job(job)) => Some(job),
        _ => None,
    }
}

/// The seats of callers 1 to `callers`, as the calls of the workbench leave them.
pub(crate) fn first_seats(
    alloc: Global,
    bench: &Bench,
    callers: u32,
) -> Result<Vec<Seat>, AllocError>
    ensures { IfOk result (λ seats. AreSeatsAt bench.now callers seats.items) }
{
    let mut seats = Vec::new(alloc);
    for index in 0..callers {
        let turns = bench.turns_of(index + 1);
        seats.push(Seat {
            caller: index + 1,
            turns,
            seen: bench.last_number(),
        })?;
    }
    Ok(seats)
}
