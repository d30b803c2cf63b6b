//! Workers under the lock: what a look for a job finds, how a job is settled, and why a worker ends.
ghost use Rattle.std.specs.Prelude.{◌≡◌, ◌+◌, IfSome, Some, None, is_some, vec_len, vec_capacity};
ghost use Rattle.fb_bench.specs.Requests.{job_of};
ghost use Rattle.fb_locked.specs.Ends.{end_of, end_before_take, calls_workers, GivesUp, LookNames, Looks, NamesSeat, SettlesJob, WaitsRightly};
ghost use Rattle.fb_locked.specs.{Runs.{AddsLook, Holds, LeavesRoom, Works}, declared.look.WorkEnd.TheVariants.{Memory}};

use crate::locked::{Locked, SharedRefused, job_from};
use crate::seat::{Receipt, Seat};
use fb_bench::Request;
use fb_bench::jobs::{Finished, Job};
use fb_bench::library::Change;

/// Why a worker ended.
#[derive(Clone, Copy, PartialEq, Eq, Debug)]
pub enum WorkEnd {
    /// All its turns are used. A turn of a worker is one look for a job.
    TurnsOver,
    /// The workers must stop.
    Stopped,
    /// Its seat's number of calls is not that of its caller's book.
    SeatDiffers { turns: u64, book: u64 },
    /// Its seat has seen a number beyond that of the last call, which is `len`.
    Behind { seen: u64, len: u64 },
    /// The history has the number of calls that the limits allow.
    HistoryFull,
    Memory,
}

impl WorkEnd {
    /// The end of a worker whose call is refused.
    pub fn of(refused: SharedRefused) -> WorkEnd
        ensures { result ≡ end_of refused }
    {
        match refused {
            SharedRefused::SeatDiffers { turns, book } => WorkEnd::SeatDiffers { turns, book },
            SharedRefused::Behind { seen, len } => WorkEnd::Behind { seen, len },
            SharedRefused::HistoryFull => WorkEnd::HistoryFull,
            SharedRefused::Memory => WorkEnd::Memory,
        }
    }
}

/// What a look for a job found.
pub enum Look {
    Ended(WorkEnd),
    Nothing,
    Taken(Job),
}

impl Locked {
    /// The first thing that ends a worker before it takes.
    fn end_of_work(&self, seat: &Seat) -> Option<WorkEnd>
        ensures first { result ≡ end_before_take self.now seat.now }
        ensures names { IfSome result (NamesSeat seat.now) }
    {
        if self.stopped {
            return Some(WorkEnd::Stopped);
        }
        match self.admit(seat) {
            Ok(()) => None,
            Err(refused) => Some(WorkEnd::of(refused)),
        }
    }

    /// A look of a worker for a job. If it takes one, there is room for the receipt by which that is settled.
    pub fn look(&mut self, seat: &mut Seat, receipts: &mut Vec<Receipt>) -> Look
        ensures looks { Looks self.old seat.old result receipts.old.items self.new seat.new
            receipts.new.items }
        ensures adds { AddsLook result seat.old receipts.old.items receipts.new.items seat.new }
        ensures names { LookNames seat.new result }
        ensures room { LeavesRoom result (vec_len receipts.new) (vec_capacity receipts.new) }
        ensures waits { WaitsRightly result self.new }
    {
        // Works around the borrow checker: both types that a `Request` can borrow must occur in a function that makes one.
        let _changes: &[Change] = &[];
        let _finished: Option<&Finished> = None;
        if let Some(end) = self.end_of_work(seat) {
            return Look::Ended(end);
        }
        if !self.bench.has_work() {
            return Look::Nothing;
        }
        if receipts.reserve(2).is_err() {
            return Look::Ended(WorkEnd::Memory);
        }
        match self.perform_into(seat, receipts, &Request::Take) {
            Err(refused) => Look::Ended(WorkEnd::of(refused)),
            Ok(answer) => match job_from(answer) {
                Some(job) => Look::Taken(job),
                None => unreachable!(),
            },
        }
    }

    /// Settles a job that was taken: its result is delivered, or its key given back if there is no result, or no memory to
    /// deliver it. It gives what ends the worker; a result that is not accepted does not.
    pub fn settle(
        &mut self,
        seat: &mut Seat,
        receipts: &mut Vec<Receipt>,
        job: &Job,
        finished: Option<&Finished>,
    ) -> Option<WorkEnd>
        requires { IfSome finished (λ it. it.now ≡ job.now) }
        ensures settles { SettlesJob self.old seat.old job.now (is_some finished.entry) result
            receipts.old.items self.new seat.new receipts.new.items }
        ensures works { Works (Holds job.now) 1
            seat.old receipts.old.items receipts.new.items seat.new result }
        ensures names { IfSome result (NamesSeat seat.new) }
    {
        // As above.
        let _changes: &[Change] = &[];
        match finished {
            None => Some(self.give_up(seat, receipts, job)),
            Some(finished) => match self.perform_into(seat, receipts, &Request::Deliver(finished)) {
                Ok(answer) => {
                    drop(answer);
                    None
                }
                Err(SharedRefused::Memory) => Some(self.give_up(seat, receipts, job)),
                Err(refused) => Some(WorkEnd::of(refused)),
            },
        }
    }

    /// Gives the key of a job back, if it can.
    fn give_up(&mut self, seat: &mut Seat, receipts: &mut Vec<Receipt>, job: &Job) -> WorkEnd
        ensures end { result ≡ Memory }
        ensures gives { GivesUp Memory self.old seat.old job.now
            receipts.old.items self.new seat.new receipts.new.items }
        ensures works { Works (Holds job.now) 1
            seat.old receipts.old.items receipts.new.items seat.new (Some Memory) }
    {
        // As above.
        let _changes: &[Change] = &[];
        let _finished: Option<&Finished> = None;
        let _answer = self.perform_into(seat, receipts, &Request::GiveBack(job.key()));
        WorkEnd::Memory
    }

    /// Whether a worker that waits has to look again.
    pub fn calls_workers(&self) -> bool
        ensures { result ≡ calls_workers self.now }
    {
        self.stopped || self.bench.has_work() || self.bench.is_full()
    }
}
