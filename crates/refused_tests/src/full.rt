//! A full history, of one thread and with seats, with the lock and without: each of the five calls is refused for it, and before that for a seat
//! that has seen more than there is.
use crate::nest::{BEFORE, CALLS, Given, begun, given_for};
use crate::owners::{Owner, both_of, pair, taken_over};
use crate::told::bench_told;
use crate::ways::{Way, made};
use fb_bench::{Bench, Limits, Refused};
use fb_shared::{Locked, Plain, Receipt, Seat, Shared, SharedRefused, WorkEnd, work_on};
use std::alloc::Global;
use std::sync::Wait;
use std::test::Fail;

/// What a full workbench has recorded.
#[derive(Clone, Copy)]
enum Recorded {
    /// A nest that is half done.
    Nest,
    /// One question, with four units at most.
    Question,
}

/// What is recorded, and how many calls those are.
type Row = (&'static str, Recorded, u64);

const ROWS: &[Row] = &[
    ("a nest", Recorded::Nest, BEFORE),
    ("a question", Recorded::Question, 1),
];

// a workbench with one question, and with room for so many records
fn questioned(alloc: Global, given: &Given, history: u64) -> Result<Bench, Fail> {
    let limits = Limits::new(4, history).ok_or("limits")?;
    let mut bench = Bench::new(alloc, limits);
    bench.ask(1, given.key)?;
    Ok(bench)
}

// a workbench with these calls, and with room for so many records
fn bench_of(alloc: Global, given: &Given, recorded: Recorded, history: u64) -> Result<Bench, Fail> {
    match recorded {
        Recorded::Nest => begun(alloc, history),
        Recorded::Question => questioned(alloc, given, history),
    }
}

const WAYS: &[Way] = &[Way::Alone, Way::AsRequest, Way::AtDesk];

// whether each call is refused that is made in this way
fn are_refused_alone(bench: &mut Bench, way: Way, given: &Given) -> bool {
    let mut are_refused = true;
    for (which, _, _) in CALLS {
        are_refused = made(way, *which, bench, given) == Err(Refused::HistoryFull) && are_refused;
    }
    are_refused
}

// whether a workbench is full, each call is refused in each way, and it then shows what it did before
fn is_full_alone(alloc: Global, given: &Given, row: &Row) -> Result<bool, Fail> {
    let (_, recorded, count) = *row;
    let mut bench = bench_of(alloc, given, recorded, count)?;
    let before = bench_told(alloc, &bench)?;
    let mut are_refused = true;
    for way in WAYS {
        are_refused = are_refused_alone(&mut bench, *way, given) && are_refused;
    }
    let after = bench_told(alloc, &bench)?;
    Ok(are_refused && bench.len() as u64 == count && after.as_str() == before.as_str())
}

#[test]
fn a_full_history_refuses_the_calls_of_one_thread(rt: HostRuntime) -> Result<(), Fail> {
    let given = given_for(rt.alloc())?;
    for row in ROWS {
        assert!(rt; is_full_alone(rt.alloc(), &given, row)?, "{}", row.0);
    }
    Ok(())
}

// whether each call is refused for this, and the seat is as it was
fn are_refused<R: Wait, T: Owner>(
    rt: &R,
    owner: &mut T,
    seat: &mut Seat,
    given: &Given,
    wanted: SharedRefused,
) -> bool {
    let before = (seat.turns(), seat.seen());
    let mut are_refused = true;
    for (which, _, _) in CALLS {
        are_refused = owner.answer(rt, *which, seat, given) == Err(wanted) && are_refused;
    }
    are_refused && (seat.turns(), seat.seen()) == before
}

// the receipt of a call behind all that a full workbench has
fn receipt_elsewhere(alloc: Global, given: &Given, recorded: Recorded) -> Result<Receipt, Fail> {
    let bench = bench_of(alloc, given, recorded, 100)?;
    let (mut owner, mut seats) = taken_over::<Locked>(alloc, bench)?;
    let mut seat = seats.pop().ok_or("no seat")?;
    Ok(owner.ask(&mut seat, given.key)?)
}

// whether the calls with both seats are refused where a history is full, the second of which has seen one call more, and it shows what it did before
fn is_full<R: Wait, T: Owner>(
    rt: &R,
    alloc: Global,
    given: &Given,
    row: &Row,
) -> Result<bool, Fail> {
    let (_, recorded, len) = *row;
    let seen = len.saturating_add(1);
    let elsewhere = receipt_elsewhere(alloc, given, recorded)?;
    let bench = bench_of(alloc, given, recorded, len)?;
    let before = bench_told(alloc, &bench)?;
    let (mut owner, seats) = taken_over::<T>(alloc, bench)?;
    let (mut first, mut second) = both_of(seats).ok_or("no two seats")?;
    second.show(&elsewhere);
    let (full, behind) = (
        SharedRefused::HistoryFull,
        SharedRefused::Behind { seen, len },
    );
    let are_full = are_refused(rt, &mut owner, &mut first, given, full);
    let are_behind = are_refused(rt, &mut owner, &mut second, given, behind);
    let seats = pair(alloc, first, second).ok_or("no seats")?;
    let Ok(closed) = owner.closed(alloc, seats, &[]) else {
        return Ok(false);
    };
    let after = bench_told(alloc, &closed.bench)?;
    Ok(are_full && are_behind && after.as_str() == before.as_str())
}

#[test]
fn a_full_history_refuses_all_calls(rt: HostRuntime) -> Result<(), Fail> {
    let given = given_for(rt.alloc())?;
    for row in ROWS {
        let is_alone = is_full::<_, Locked>(&rt, rt.alloc(), &given, row)?;
        let is_locked = is_full::<_, Shared>(&rt, rt.alloc(), &given, row)?;
        assert_eq!(rt; (is_alone, is_locked), (true, true), "{}", row.0);
    }
    Ok(())
}

// how a worker ends, and the turns and the greatest number of its seat then
fn worked<R: Wait>(rt: &R, alloc: Global, shared: &Shared, seat: &mut Seat) -> (WorkEnd, u64, u64) {
    let mut receipts = Vec::new(alloc);
    let end = work_on(rt, alloc, shared, seat, &mut receipts, &Plain, 1);
    (end, seat.turns(), seat.seen())
}

// With the second seat of a workbench with one question that is full, before and after it has seen more than there is.
#[test]
fn a_full_history_ends_a_worker(rt: HostRuntime) -> Result<(), Fail> {
    let alloc: Global = rt.alloc();
    let given = given_for(alloc)?;
    let elsewhere = receipt_elsewhere(alloc, &given, Recorded::Question)?;
    let (shared, mut seats) = taken_over::<Shared>(alloc, questioned(alloc, &given, 1)?)?;
    let mut seat = seats.pop().ok_or("no seat")?;
    let full = worked(&rt, alloc, &shared, &mut seat);
    assert_eq!(rt; full, (WorkEnd::HistoryFull, 0, 1));
    seat.show(&elsewhere);
    let behind = worked(&rt, alloc, &shared, &mut seat);
    assert_eq!(rt; behind, (WorkEnd::Behind { seen: 2, len: 1 }, 0, 2));
    Ok(())
}
