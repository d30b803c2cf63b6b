//! A worker that waits, and the calls that wake it: each call that fills a history, with a seat and at its desk, and each way to give a
//! key back.
use crate::desks::some_result;
use crate::setup::{
    Hall, comes_to, committed, desk_of, faults_of, new_shared, pause, puts, work_beside,
};
use fb_jobs::Finished;
use fb_shared::bench::Desk;
use fb_shared::{Plain, Seat, Shared, WorkEnd};
use std::alloc::Global;
use std::sync::Wait;
use std::sync::atomic::AtomicU64;
use std::test::Fail;
use std::thread::join;
use std::time::Clock;

/// A call beside a worker that waits.
#[derive(Clone, Copy, Debug)]
enum Call {
    Commit,
    Take,
    Deliver,
    GiveBack,
    GiveBackHeld,
    Ask,
}

/// A call, whether it is made at the desk of the seat, and whether the seat has taken the job of A before.
type Row = (Call, bool, bool);

const ROWS: [Row; 13] = [
    (Call::Commit, false, false),
    (Call::Take, false, false),
    (Call::Deliver, false, false),
    (Call::GiveBack, false, false),
    (Call::Ask, false, false),
    (Call::Commit, true, false),
    (Call::Take, true, false),
    (Call::Deliver, true, false),
    (Call::GiveBack, true, false),
    (Call::Ask, true, false),
    (Call::GiveBack, false, true),
    (Call::GiveBack, true, true),
    (Call::GiveBackHeld, false, true),
];

// an empty workbench with room for one record, or one whose only job is taken, with room for three more records
fn workbench_of<R: Wait>(rt: &R, alloc: Global, is_taken: bool) -> Result<Hall<Shared>, Fail> {
    if !is_taken {
        return new_shared(alloc, 1);
    }
    let (shared, mut first, second) = committed(rt, alloc, 5, &["A"])?;
    shared.take(rt, &mut first)?;
    Ok((shared, first, second))
}

// makes the call with a seat
fn call_with<R: Wait>(
    rt: &R,
    alloc: Global,
    shared: &Shared,
    seat: &mut Seat,
    finished: &Finished,
    call: Call,
) -> Option<()> {
    let key = faults_of("A").ok()?;
    let mut receipts = Vec::new(alloc);
    match call {
        Call::Commit => drop(shared.commit(rt, seat, &puts(alloc, 0, &["A"])?).ok()?),
        Call::Take => drop(shared.take(rt, seat).ok()?),
        Call::Deliver => drop(shared.deliver(rt, seat, finished).ok()?),
        Call::GiveBack => drop(shared.give_back(rt, seat, key).ok()?),
        Call::GiveBackHeld => shared.give_back_held(rt, seat, &mut receipts, key, 2).ok()?,
        Call::Ask => drop(shared.ask(rt, seat, key).ok()?),
    }
    Some(())
}

// makes the call at a desk
fn call_at<D: Desk>(alloc: Global, desk: &mut D, finished: &Finished, call: Call) -> Option<()> {
    let key = faults_of("A").ok()?;
    match call {
        Call::Commit => drop(desk.commit(&puts(alloc, 0, &["A"])?).ok()?),
        Call::Take => drop(desk.take().ok()?),
        Call::Deliver => drop(desk.deliver(finished).ok()?),
        Call::GiveBack | Call::GiveBackHeld => drop(desk.give_back(key).ok()?),
        Call::Ask => drop(desk.ask(key).ok()?),
    }
    Some(())
}

// makes the call of a row
fn call_of<R: Wait>(
    rt: &R,
    alloc: Global,
    shared: &Shared,
    mut seat: Seat,
    row: Row,
) -> Option<()> {
    let (call, at_desk, _is_taken) = row;
    let finished = some_result(rt, alloc)?;
    if !at_desk {
        return call_with(rt, alloc, shared, &mut seat, &finished, call);
    }
    let mut desk = desk_of(rt, alloc, shared, seat);
    call_at(alloc, &mut desk, &finished, call)
}

// whether the call of a row ends the worker that waits, which is stopped else
fn wakes<R: Wait + Clock>(
    rt: &R,
    alloc: Global,
    shared: &Shared,
    seat: Seat,
    ended: &AtomicU64,
    row: Row,
) -> bool {
    pause(rt, 20);
    let called = call_of(rt, alloc, shared, seat, row);
    let is_woken = called.is_some() && comes_to(rt, ended, 1);
    shared.stop(rt);
    is_woken
}

// A worker ends with a full history: after the job that was given back, or without a call.
#[test]
fn each_call_wakes_a_worker_that_waits(rt: HostRuntime) -> Result<(), Fail> {
    let alloc: Global = rt.alloc();
    for row in ROWS {
        let (call, at_desk, is_taken) = row;
        let (shared, caller, worker) = workbench_of(&rt, alloc, is_taken)?;
        let ended = AtomicU64::new(0);
        let told = join(
            &rt,
            || work_beside(&rt, alloc, &shared, worker, &Plain, 1_000_000, &ended),
            || wakes(&rt, alloc, &shared, caller, &ended, row),
        );
        let calls = if is_taken { 2 } else { 0 };
        let wanted = ((WorkEnd::HistoryFull, calls), true);
        assert_eq!(rt; told, wanted, "{call:?} {at_desk} {is_taken}");
    }
    Ok(())
}
