//! Workers, which take jobs, run them and deliver the results.
ghost use Rattle.std.specs.Prelude.{◌≡◌, ◌⊎◌, ◌*◌, IfOk, IfSome, Some};
ghost use Rattle.fb_locked.specs.{Ends.{NamesSeat, LookNames}, Runs.{AddsLook, Works, Empty, Holds}, declared.look.WorkEnd.TheVariants.{TurnsOver}};
ghost use Rattle.fb_shared.specs.UnderLock.{HasLooked, IsLookOf, MayLook};

use crate::shared::Shared;
use fb_locked::jobs::{Finished, Job};
use fb_locked::{Look, Receipt, Seat, WorkEnd};
use std::alloc::{AllocError, Global};
use std::sync::Wait;

/// How a job is run. No lock is held meanwhile.
pub trait Gate {
    /// The result of the job, which this worker has taken.
    fn run(&self, alloc: Global, worker: u32, job: &Job) -> Result<Finished, AllocError>
        ensures { IfOk result (λ finished. finished ≡ job.now) };
}

/// Runs the job at once.
#[derive(Clone, Copy)]
pub struct Plain;

impl Gate for Plain {
    fn run(&self, alloc: Global, _worker: u32, job: &Job) -> Result<Finished, AllocError> {
        job.run(alloc)
    }
}

/// Takes jobs, runs each by the gate with no lock held, and delivers the result, at most as often as there are turns. A turn is one look for a
/// job; if there is nothing to take it waits for a change. Before each take the first of these ends it: no turn left, the stop
/// mark, a seat that differs, a seat that has seen more than there is, a full history. A result that is not accepted does not
/// end it; lack of memory does, and then it gives the key back if it can.
pub fn work_on<R: Wait, G: Gate>(
    rt: &R,
    alloc: Global,
    shared: &Shared,
    seat: &mut Seat,
    receipts: &mut Vec<Receipt>,
    gate: &G,
    turns: u64,
) -> WorkEnd
    ensures works { Works Empty (2 * turns) seat.old receipts.old.items receipts.new.items seat.new
        (Some result) }
    ensures names { NamesSeat seat.new result }
    ensures idle { turns ≡ 0 → result ≡ TurnsOver }
    ensures over { result ≡ TurnsOver → (turns ≡ 0) ⊎ MayLook seat.old }
{
    // For the proof: the label names the loop there, as in `invariant-looks`.
    'looks: for _ in 0..turns {
        if let Some(end) = work_turn(rt, alloc, shared, seat, receipts, gate) {
            shared.count_rest();
            return end;
        }
    }
    WorkEnd::TurnsOver
}

/// One look for a job and, if there is one, its run.
#[tactic(auto, using(crate::proofs::Holds::ended_looked, crate::proofs::Holds::has_looked))]
fn work_turn<R: Wait, G: Gate>(
    rt: &R,
    alloc: Global,
    shared: &Shared,
    seat: &mut Seat,
    receipts: &mut Vec<Receipt>,
    gate: &G,
) -> Option<WorkEnd>
    ensures works { Works Empty 2 seat.old receipts.old.items receipts.new.items seat.new result }
    ensures names { IfSome result (NamesSeat seat.new) }
    ensures looked { HasLooked seat.old result }
{
    match take_job(rt, shared, seat, receipts) {
        Look::Ended(end) => Some(end),
        Look::Nothing => None,
        Look::Taken(job) => finish(rt, alloc, shared, seat, receipts, gate, &job),
    }
}

/// Takes a job under one hold of the lock; if there is none, it waits for a change.
#[tactic(auto, using(crate::proofs::Holds::looked))]
fn take_job<R: Wait>(rt: &R, shared: &Shared, seat: &mut Seat, receipts: &mut Vec<Receipt>) -> Look
    ensures adds { AddsLook result seat.old receipts.old.items receipts.new.items seat.new }
    ensures names { LookNames seat.new result }
    ensures looked { IsLookOf seat.old result }
{
    let mut hold = shared.hold(rt);
    let look = hold.state.look(seat, receipts);
    if matches!(&look, Look::Nothing) {
        hold.wait(rt);
    } else {
        hold.end();
    }
    look
}

/// Runs a job that was taken, with no lock held, and settles it under another hold.
fn finish<R: Wait, G: Gate>(
    rt: &R,
    alloc: Global,
    shared: &Shared,
    seat: &mut Seat,
    receipts: &mut Vec<Receipt>,
    gate: &G,
    job: &Job,
) -> Option<WorkEnd>
    ensures works { Works (Holds job.now) 1
        seat.old receipts.old.items receipts.new.items seat.new result }
    ensures names { IfSome result (NamesSeat seat.new) }
{
    match gate.run(alloc, seat.caller(), job) {
        Ok(finished) => settle(rt, shared, seat, receipts, job, Some(&finished)),
        Err(_) => settle(rt, shared, seat, receipts, job, None),
    }
}

/// Delivers a result, or gives the key of the job back if there is none, or no memory for it.
fn settle<R: Wait>(
    rt: &R,
    shared: &Shared,
    seat: &mut Seat,
    receipts: &mut Vec<Receipt>,
    job: &Job,
    finished: Option<&Finished>,
) -> Option<WorkEnd>
    requires { IfSome finished (λ it. it.now ≡ job.now) }
    ensures works { Works (Holds job.now) 1
        seat.old receipts.old.items receipts.new.items seat.new result }
    ensures names { IfSome result (NamesSeat seat.new) }
{
    let mut hold = shared.hold(rt);
    let end = hold.state.settle(seat, receipts, job, finished);
    hold.end();
    end
}
