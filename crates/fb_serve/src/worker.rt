//! A worker, which begins again after it found no memory.
ghost use Rattle.std.specs.Prelude.{◌≡◌, ◌<◌, Contains, Some, vec_capacity, vec_len};
ghost use Rattle.fb_shared.specs.{Locked.Jobs.Reads.{PlainJob}, Locked.Seats.{ReceiptView}};
ghost use Rattle.fb_serve.specs.{AddedReceipts.{AddsRun}, Unsettled.{IsLastTake}};

use crate::caller_state::{CallerState, Held, give_back_held, hold};
use fb_shared::bench::Reply;
use fb_shared::{Plain, Receipt, Shared, WorkEnd, work_on};
use std::alloc::Global;
use std::sync::Wait;
use std::thread;
use std::time::{Clock, Duration};

/// How many milliseconds a worker without memory pauses.
const PAUSE: u64 = 100;

/// Pauses before the next try.
pub fn pause<R: Clock>(rt: &R) {
    thread::sleep(rt, Duration::from_millis(PAUSE));
}

/// A worker looks for a job as often as there are turns. If it finds no memory, it gives back the key that it has taken, pauses, and begins again.
pub fn keep_working<R: Wait + Clock>(
    rt: &R,
    alloc: Global,
    shared: &Shared,
    state: &mut CallerState,
    turns: u64,
) -> WorkEnd
    // The receipts of its calls, one after another, are added at the end, and lead to the seat as it is then.
    ensures { AddsRun state.old.seat state.old.receipts.items
        state.new.seat state.new.receipts.items }
{
    for _ in 0..turns {
        match look_once(rt, alloc, shared, state) {
            WorkEnd::TurnsOver => {}
            WorkEnd::Memory => pause(rt),
            end => return end,
        }
    }
    WorkEnd::TurnsOver
}

/// Looks once, and gives back the keys that it then still has.
fn look_once<R: Wait>(rt: &R, alloc: Global, shared: &Shared, state: &mut CallerState) -> WorkEnd
    ensures { AddsRun state.old.seat state.old.receipts.items
        state.new.seat state.new.receipts.items }
{
    let end = work_on(
        rt,
        alloc,
        shared,
        &mut state.seat,
        &mut state.receipts,
        &Plain,
        1,
    );
    hold_unsettled(state);
    give_back_held(rt, shared, state);
    end
}

/// Holds the key of a job that was taken and not settled.
fn hold_unsettled(state: &mut CallerState)
    ensures seat { state.new.seat ≡ state.old.seat }
    ensures receipts { state.new.receipts.items ≡ state.old.receipts.items }
    ensures held { (last : ReceiptView) (job : PlainJob)
        → IsLastTake state.old.receipts.items last job
        → vec_len state.old.held < vec_capacity state.old.held
        → Contains state.new.held.items (record { key = job.key; since = last.number }) }
{
    if let Some(it) = unsettled(&state.receipts) {
        hold(&mut state.held, it);
    }
}

/// The key of the last receipt, if it is of a take: no result was delivered for that key, and it was not given back.
fn unsettled(receipts: &[Receipt]) -> Option<Held>
    ensures { (last : ReceiptView) (job : PlainJob) → IsLastTake receipts.now last job
        → result ≡ Some (record { key = job.key; since = last.number }) }
{
    let receipt = receipts.last()?;
    match receipt.reply() {
        Reply::Job(wanted) => Some(Held {
            key: *wanted.key,
            since: receipt.number(),
        }),
        _ => None,
    }
}
