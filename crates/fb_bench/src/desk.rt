//! Desks: the recorded calls, as one session makes them.
ghost use Rattle.std.specs.Prelude.{◌≡◌};
ghost use Rattle.fb_bench.specs.Refusals.{refused_as};

use crate::answers::{Answered, Taken};
use crate::bench::Bench;
use crate::request::Request;
use fb_entries::jobs::{Finished, Key};
use fb_entries::library::Change;
use fb_history::{
    Asked, CheckpointRefused, Committed, Delivered, GivenBack, Limits, Reading, Refused, Showing,
};
use std::alloc::{AllocError, Global};

/// Why a desk does not record a call.
#[derive(Clone, Copy, PartialEq, Eq, Debug)]
pub enum DeskError {
    /// The history has the number of calls that the limits allow.
    HistoryFull,
    /// The history is not the one that this desk has seen: it is shorter, or has another number of calls of the desk's caller.
    Behind,
    /// Memory was refused, and nothing has changed.
    Memory,
}

impl From<Refused> for DeskError {
    ghost from_gives = { λ refused error. error ≡ refused_as refused };

    fn from(refused: Refused) -> DeskError {
        match refused {
            Refused::HistoryFull => DeskError::HistoryFull,
            Refused::Memory => DeskError::Memory,
        }
    }
}

/// Why a desk does not make the present state the start of its history.
#[derive(Clone, Copy, PartialEq, Eq, Debug)]
pub enum DeskCheckpointError {
    /// This number of units is present, more than the new limit.
    UnitsOver(u64),
    /// The last number and the new limit of the history together are no `u64`.
    NumbersOver,
    /// Others have seats at the same workbench.
    NotAlone,
    /// Memory was refused, and nothing has changed.
    Memory,
}

/// The recorded calls and the checkpoint, as one session makes them. A desk defines how it makes any call and a checkpoint; the calls by name follow from that.
// Works around the borrow checker: both types that a `Request` can borrow must occur in a function that makes one.
pub trait Desk {
    ghost use Rattle.std.specs.Prelude.{Bool, IfOk, Option};
    ghost use Rattle.fb_history.specs.{declared.reading.Reading.{Reading}, Reads.{Showing}, Limits.{Bounds}, Machine.{Call, ToCommit, ToTake, ToDeliver, ToGiveBack, ToAsk, OfCommit, OfDeliver, OfGiveBack}};
    ghost use Rattle.fb_bench.specs.{Records.{listed}, Requests.{call_for, reply_in}};
    ghost use Rattle.fb_bench.specs.Calls.{Answer, CheckpointAnswer, Fits, Serves, ServesCheckpoint, ServesRead, ServesRound, take_reply, ask_reply};

    /// In the first state of a desk the call may get this answer, and the second state is the one after it.
    ghost step: { Self → Call → Answer → Self → Type 0 };

    /// In the first state of a desk the checkpoint may get this answer, and the second state is the one after it.
    ghost checkpoint_step: { Self → Bounds → CheckpointAnswer → Self → Type 0 };

    /// In the first state of a desk a read may show this, or nothing if the history is not the one that the desk has seen, and the second state is the one after
    /// it.
    ghost read_step: { Self → Reading → Option Showing → Self → Type 0 };

    /// Whether the desk answers reads.
    ghost has_reads: { Bool };

    /// Makes any call. The answer is of the call's kind.
    fn perform(&mut self, request: &Request<'_>) -> Result<Answered, DeskError>
        ensures fits { IfOk result (λ answer. Fits (call_for request.now) (reply_in answer)) }
        ensures step { Serves step self.old (call_for request.now) reply_in result self.new };

    /// Whether it answers reads.
    fn answers_reads(&self) -> bool
        ensures { result ≡ has_reads };

    /// Reads, without a record. If there are no events yet, it waits for them for up to this number of milliseconds. None if the history is not the one that
    /// this desk has seen.
    fn read(&mut self, reading: &Reading, wait: u64) -> Result<Option<Showing>, AllocError>
        ensures { ServesRead read_step self.old reading.now result self.new };

    /// Makes the present state what the history begins from, with new limits, and gives the number of all calls so far.
    fn checkpoint(&mut self, limits: Limits) -> Result<u64, DeskCheckpointError>
        ensures step { ServesCheckpoint checkpoint_step self.old limits result self.new };

    /// Changes the texts, or gives the first reason against that.
    fn commit(&mut self, changes: &[Change]) -> Result<Committed, DeskError>
        ensures { Serves step self.old (ToCommit (listed changes.now)) OfCommit result self.new }
    {
        let _finished: Option<&Finished> = None;
        match self.perform(&Request::Commit(changes))? {
            Answered::Commit(committed) => Ok(committed),
            _ => unreachable!(),
        }
    }

    /// Hands out a job for the least key that is pending and not handed out.
    fn take(&mut self) -> Result<Taken, DeskError>
        ensures { Serves step self.old ToTake take_reply result self.new }
    {
        let _changes: &[Change] = &[];
        let _finished: Option<&Finished> = None;
        match self.perform(&Request::Take)? {
            Answered::Take(taken) => Ok(taken),
            _ => unreachable!(),
        }
    }

    /// Accepts a result, if its key waits for one and all that it has read is unchanged.
    fn deliver(&mut self, finished: &Finished) -> Result<Delivered, DeskError>
        ensures { Serves step self.old (ToDeliver finished.now) OfDeliver result self.new }
    {
        let _changes: &[Change] = &[];
        match self.perform(&Request::Deliver(finished))? {
            Answered::Deliver(delivered) => Ok(delivered),
            _ => unreachable!(),
        }
    }

    /// Takes a job, runs it and delivers its result: the answer to the delivery, or None if there is nothing to take.
    fn work_once(&mut self, alloc: Global) -> Result<Option<Delivered>, DeskError>
        ensures { ServesRound step self.old result self.new }
    {
        let Taken::Job(job) = self.take()? else {
            return Ok(None);
        };
        let Ok(finished) = job.run(alloc) else {
            return Err(DeskError::Memory);
        };
        Ok(Some(self.deliver(&finished)?))
    }

    /// Clears the mark that a key is handed out.
    fn give_back(&mut self, key: Key) -> Result<GivenBack, DeskError>
        ensures { Serves step self.old (ToGiveBack key) OfGiveBack result self.new }
    {
        let _changes: &[Change] = &[];
        let _finished: Option<&Finished> = None;
        match self.perform(&Request::GiveBack(key))? {
            Answered::GiveBack(returned) => Ok(returned),
            _ => unreachable!(),
        }
    }

    /// What is known of a key.
    fn ask(&mut self, key: Key) -> Result<Asked, DeskError>
        ensures { Serves step self.old (ToAsk key) ask_reply result self.new }
    {
        let _changes: &[Change] = &[];
        let _finished: Option<&Finished> = None;
        match self.perform(&Request::Ask(key))? {
            Answered::Ask(asked) => Ok(asked),
            _ => unreachable!(),
        }
    }
}

/// A workbench as the desk of one caller. It never refuses a call as `Behind`.
#[derive(Drop)]
pub struct Solo<'a> {
    pub bench: &'a mut Bench,
    pub caller: u32,
}

impl<'a> Solo<'a> {
    /// The desk of this caller, which records in the workbench.
    pub fn new(bench: &'a mut Bench, caller: u32) -> Solo<'a>
        ensures same_reference { result.bench.ghost_name ≡ bench.entry.ghost_name }
        ensures bench { result.bench.now ≡ bench.old }
        ensures caller { result.caller ≡ caller }
    {
        Solo { bench, caller }
    }
}

impl Desk for Solo<'_> {
    ghost use Rattle.std.specs.Prelude.{◌≡◌, Err, IfOk, false};
    ghost use Rattle.fb_history.specs.BenchView.{IsFull};
    ghost use Rattle.fb_bench.specs.{Calls.{Fits, NoRead, Serves, ServesCheckpoint, ServesRound}, Requests.{call_for, reply_in}};
    ghost use Rattle.fb_bench.specs.Solo.{IsOpenCheckpoint, IsOpenCall, SoloCheckpoint, SoloCall};

    ghost step = { SoloCall };

    ghost checkpoint_step = { SoloCheckpoint };

    ghost read_step = { NoRead };

    ghost has_reads = { false };

    fn answers_reads(&self) -> bool {
        false
    }

    /// It answers no reads.
    fn read(&mut self, _reading: &Reading, _wait: u64) -> Result<Option<Showing>, AllocError> {
        Err(AllocError)
    }

    fn perform(&mut self, request: &Request<'_>) -> Result<Answered, DeskError>
        ensures fits { IfOk result (λ answer. Fits (call_for request.now) (reply_in answer)) }
        ensures step { Serves SoloCall self.old (call_for request.now) reply_in result self.new }
        ensures open { IsOpenCall self.old.bench.now result }
    {
        let (_record, answer) = self.bench.perform(self.caller, request)?;
        Ok(answer)
    }

    fn work_once(&mut self, _alloc: Global) -> Result<Option<Delivered>, DeskError>
        ensures round { ServesRound SoloCall self.old result self.new }
        ensures full { IsFull self.old.bench.now.log → result ≡ Err DeskError.HistoryFull }
        ensures open { IsOpenCall self.new.bench.now result }
    {
        let has_worked = self.bench.work_once(self.caller)?;
        Ok(has_worked.then_some(Delivered::Accepted))
    }

    fn checkpoint(&mut self, limits: Limits) -> Result<u64, DeskCheckpointError>
        ensures step { ServesCheckpoint SoloCheckpoint self.old limits result self.new }
        ensures open { IsOpenCheckpoint self.old.bench.now limits result }
    {
        match self.bench.checkpoint(limits) {
            Ok(before) => Ok(before),
            Err(CheckpointRefused::UnitsOver(count)) => {
                Err(DeskCheckpointError::UnitsOver(count))
            }
            Err(CheckpointRefused::NumbersOver) => Err(DeskCheckpointError::NumbersOver),
            Err(CheckpointRefused::Memory) => Err(DeskCheckpointError::Memory),
        }
    }
}
