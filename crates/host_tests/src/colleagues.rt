//! Two seats at a workbench whose worker never comes: the one that has reached 256 keys waits, and its colleague waits for nobody.
use crate::refused::{is_right, say_lines};
use fb_host::{COMMIT_WAIT, Identity, Pace, ReceiptStore};
use fb_serve::CallerState;
use fb_shared::{Seat, Shared};
use fb_wire::bench::Limits;
use std::alloc::{AllocError, Global};
use std::sync::Wait;
use std::test::Fail;
use std::thread::join;
use std::time::Clock;

// A change that puts a new unit.
fn change(alloc: Global, unit: &str, number: usize) -> Result<String, AllocError> {
    format!(in alloc;
        r#"{{"put":"{unit}{number}","base":0,"text":"FUNCTION_BLOCK {unit}{number} END_FUNCTION_BLOCK"}}"#
    )
}

// A commit of this number of new units, from this one on.
fn commit(alloc: Global, unit: &str, first: usize, count: usize) -> Result<String, AllocError> {
    let mut line = String::from_str(alloc, r#"{"op":"commit","changes":["#)?;
    for number in first..first.saturating_add(count) {
        let mark = if number == first { "" } else { "," };
        line.push_str(mark)?;
        line.push_str(change(alloc, unit, number)?.as_str())?;
    }
    line.push_str("]}\n")?;
    Ok(line)
}

// This number of commits, each with this number of new units.
fn commits(alloc: Global, unit: &str, times: usize, count: usize) -> Result<String, AllocError> {
    let mut lines = String::new(alloc);
    for number in 0..times {
        let first = number.saturating_mul(count);
        lines.push_str(commit(alloc, unit, first, count)?.as_str())?;
    }
    Ok(lines)
}

// The replies to commits from the first of these numbers to the last.
fn replies(alloc: Global, first: usize, last: usize) -> Result<String, AllocError> {
    let mut lines = String::new(alloc);
    for number in first..=last {
        lines.push_str(format!(in alloc; "{{\"commit\":{number}}}\n")?.as_str())?;
    }
    Ok(lines)
}

// Whether a session of this seat is answered so.
fn is_answered<R: Wait + Clock>(
    rt: &R,
    alloc: Global,
    shared: &Shared,
    store: &ReceiptStore,
    pace: &Pace,
    seat: Seat,
    lines: &str,
    replies: &str,
) -> bool {
    let state = CallerState::new(alloc, seat);
    match say_lines(rt, alloc, shared, store, pace, state, lines, 0) {
        Ok((_, said)) => is_right(&said, replies),
        Err(_) => false,
    }
}

// The seat, after commits that reach as many keys as a seat may reach without a rest.
fn reach_many<R: Wait + Clock>(
    rt: &R,
    alloc: Global,
    shared: &Shared,
    store: &ReceiptStore,
    pace: &Pace,
    seat: Seat,
) -> Result<Seat, Fail> {
    let lines = commits(alloc, "A", 16, 16)?;
    let state = CallerState::new(alloc, seat);
    let (state, said) = say_lines(rt, alloc, shared, store, pace, state, &lines, 0)?;
    let CallerState {
        seat,
        held: _,
        receipts: _,
    } = state;
    if !is_right(&said, &replies(alloc, 1, 16)?) {
        return Err(Fail::from("other replies"));
    }
    Ok(seat)
}

// If the colleague waited, each would wait for the other for ten minutes.
#[test]
fn a_colleague_waits_for_nobody(rt: HostRuntime) -> Result<(), Fail> {
    let alloc: Global = rt.alloc();
    let limits = Limits::new(1_000, 1_000).ok_or("limits")?;
    let identity = Identity { high: 7, low: 8 };
    let (shared, mut seats) = Shared::rolling(alloc, limits, u64::MAX, 2, identity)?;
    let store = ReceiptStore::new(alloc);
    let pace = Pace::new(alloc, 2, 1, COMMIT_WAIT)?;
    let colleague = seats.pop().ok_or("no seat")?;
    let busy = seats.pop().ok_or("no seat")?;
    let busy = reach_many(&rt, alloc, &shared, &store, &pace, busy)?;
    let (few, few_replies) = (commits(alloc, "B", 12, 1)?, replies(alloc, 17, 28)?);
    let (last, last_reply) = (commits(alloc, "C", 1, 1)?, replies(alloc, 29, 29)?);
    let (waits, goes_on) = join(
        &rt,
        || is_answered(&rt, alloc, &shared, &store, &pace, busy, &last, &last_reply),
        || {
            let goes_on = is_answered(
                &rt,
                alloc,
                &shared,
                &store,
                &pace,
                colleague,
                &few,
                &few_replies,
            );
            // The host closes, and nobody waits any longer.
            shared.end_watches(&rt);
            goes_on
        },
    );
    assert!(rt; waits && goes_on, "{waits}, {goes_on}");
    Ok(())
}
