//! The desk of a session.
ghost use Rattle.std.specs.Prelude.{◌≡◌, []};
ghost use Rattle.fb_host.specs.HostSessions.{session_of};

use crate::leases::Leases;
use crate::pace::{Pace, Turn};
use crate::receipt_store::ReceiptStore;
use crate::session_receipts::SessionReceipts;
use fb_locked::bench::{
    Answered, Delivered, Desk, DeskCheckpointError, DeskError, GivenBack, Limits, Reading, Request,
    Showing, Taken,
};
use fb_locked::jobs::{Finished, Key};
use fb_locked::library::Change;
use fb_serve::{CallerState, Held, forget, hold};
use fb_shared::{Seated, Shared};
use std::alloc::AllocError;
use std::marker::Model;
use std::sync::Wait;
use std::time::{Clock, Duration};

/// A shared workbench as the desk of one seat, whose receipts go to the store. It never answers that the history is full: only lack of memory keeps a full one
/// from beginning again.
#[derive(Drop)]
pub struct SessionDesk<'a, R: Wait> {
    pub(crate) seated: Seated<'a, R>,
    pub(crate) shared: &'a Shared,
    pub(crate) session_receipts: SessionReceipts,
    pub(crate) held: Vec<Held>,
    pub(crate) store: &'a ReceiptStore,
    pub(crate) leases: &'a Leases,
    pub(crate) pace: &'a Pace,
}

impl<'a, R: Wait> Model for SessionDesk<'a, R> {
    ghost use Rattle.fb_host.specs.HostSessions.{SessionView, session_of};

    ghost Value = { SessionView };

    ghost view = { λ it. session_of it.shared.now.workbench it.seated.seat it.session_receipts.all };
}

impl<'a, R: Wait> SessionDesk<'a, R> {
    /// The desk of this caller, of which nothing was asked yet.
    pub(crate) fn new(
        rt: &'a R,
        shared: &'a Shared,
        store: &'a ReceiptStore,
        leases: &'a Leases,
        pace: &'a Pace,
        state: CallerState,
    ) -> SessionDesk<'a, R>
        ensures { result ≡ session_of shared.now.workbench state.seat [] }
    {
        let CallerState {
            seat,
            held,
            receipts,
        } = state;
        SessionDesk {
            seated: Seated {
                rt,
                shared,
                seat,
                receipts,
            },
            shared,
            session_receipts: SessionReceipts::new(),
            held,
            store,
            leases,
            pace,
        }
    }
}

impl<R: Wait + Clock> Desk for SessionDesk<'_, R> {
    ghost use Rattle.std.specs.Prelude.{◌≡◌, Err, IfOk, None, Ok, true};
    ghost use Rattle.fb_locked.specs.Bench.{Calls.{Fits, Serves, ServesCheckpoint, ServesRead}, Requests.{call_for, reply_in}};
    ghost use Rattle.fb_shared.specs.UnderLock.{IsBehind};
    ghost use Rattle.fb_host.specs.HostSessions.{IsHostCall, IsHostCheckpoint, IsHostRead};

    ghost step = { IsHostCall };

    ghost checkpoint_step = { IsHostCheckpoint };

    ghost read_step = { IsHostRead };

    ghost has_reads = { true };

    fn answers_reads(&self) -> bool {
        true
    }

    #[tactic(auto, using(fb_shared::proofs::Refusals::behind_named))]
    fn perform(&mut self, request: &Request<'_>) -> Result<Answered, DeskError>
        ensures fits { IfOk result (λ answer. Fits (call_for request.now) (reply_in answer)) }
        ensures step { Serves IsHostCall self.old (call_for request.now) reply_in result
            self.new }
        ensures behind { result ≡ Err DeskError.Behind → IsBehind self.old.seated.seat }
    {
        let (rt, shared, caller) = (self.seated.rt, self.shared, self.seated.seat.caller());
        let turn = self.pace.await_turn(rt, shared, caller, request);
        let counting = self.pace.begin_count(rt, shared, request);
        if self.held.reserve(1).is_err() {
            let is_behind = self.shared.is_behind(self.seated.rt, &self.seated.seat);
            return Err(if is_behind {
                DeskError::Behind
            } else {
                DeskError::Memory
            });
        }
        let answer = match self.seated.perform(request) {
            Ok(answer) => answer,
            Err(DeskError::HistoryFull) => return Err(DeskError::Memory),
            Err(refused) => return Err(refused),
        };
        if let Some(counting) = counting {
            counting.end(shared, caller);
        }
        match self.seated.receipts.last() {
            Some(receipt) => {
                self.session_receipts = self.session_receipts.then(receipt);
                let number = receipt.number();
                note(&mut self.held, request, &answer, number);
                lease(rt, self.leases, caller, request, &answer, number);
            }
            None => unreachable!(),
        }
        end_turn(shared, turn, &answer);
        let start = shared.last_roll();
        self.store.add(rt, start, &mut self.seated.receipts);
        Ok(answer)
    }

    fn checkpoint(&mut self, limits: Limits) -> Result<u64, DeskCheckpointError>
        ensures step { ServesCheckpoint IsHostCheckpoint self.old limits result self.new }
        ensures alone { result ≡ Err DeskCheckpointError.NotAlone }
    {
        self.seated.checkpoint(limits)
    }

    #[tactic(auto, using(crate::proofs::SessionLemmas::reads_as, crate::proofs::SessionLemmas::reads_behind))]
    fn read(&mut self, reading: &Reading, wait: u64) -> Result<Option<Showing>, AllocError>
        ensures step { ServesRead IsHostRead self.old reading.now result self.new }
        ensures behind { result ≡ Ok None → IsBehind self.old.seated.seat }
    {
        let rt = self.seated.rt;
        let shared = self.shared;
        let seat = &mut self.seated.seat;
        match reading {
            Reading::Events(after) => shared.watch(rt, seat, *after, Duration::from_millis(wait)),
            _ => shared.read(rt, seat, reading),
        }
    }
}

/// Ends the turn of a call with this answer.
fn end_turn(shared: &Shared, turn: Option<Turn<'_>>, answer: &Answered) {
    let lets_go = matches!(answer, Answered::GiveBack(GivenBack::Returned));
    if let Some(turn) = turn {
        turn.end(shared, lets_go);
    }
}

/// Notes which keys are held after a call of this number.
fn note(held: &mut Vec<Held>, request: &Request<'_>, answer: &Answered, number: u64) {
    if let Some(it) = taken(answer, number) {
        hold(held, it);
    }
    if let Some(key) = settled(request, answer) {
        forget(held, &key);
    }
}

/// Notes for how long a key is out, or that it is settled, after a call of this number.
fn lease<R: Wait + Clock>(
    rt: &R,
    leases: &Leases,
    caller: u32,
    request: &Request<'_>,
    answer: &Answered,
    number: u64,
) {
    if let Some(it) = taken(answer, number) {
        leases.add(rt, caller, it);
    }
    if let Some(key) = settled(request, answer) {
        leases.settle(rt, key, number);
    }
}

/// The key that was taken, by a call of this number.
fn taken(answer: &Answered, number: u64) -> Option<Held> {
    match answer {
        Answered::Take(Taken::Job(job)) => Some(Held {
            key: job.key(),
            since: number,
        }),
        _ => None,
    }
}

/// The key that is settled by a request with this answer.
fn settled(request: &Request<'_>, answer: &Answered) -> Option<Key> {
    match answer {
        Answered::Deliver(Delivered::Accepted) | Answered::GiveBack(GivenBack::Returned) => {
            key_of(request)
        }
        _ => None,
    }
}

/// The key that a request would settle.
fn key_of(request: &Request<'_>) -> Option<Key> {
    match request {
        Request::Deliver(finished) => Some(finished.key()),
        Request::GiveBack(key) => Some(*key),
        Request::Commit(_) | Request::Take | Request::Ask(_) => None,
    }
}
