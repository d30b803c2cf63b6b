//! A session of a host of which each allocation is refused in turn, also those of a history that begins again. Another session then continues with its seat,
//! and is given each key that the first has taken; and the workbench closes with the receipts of all calls since the start.
use fb_host::{
    COMMIT_WAIT, Identity, KEY_TIMEOUT, Leases, Pace, ReceiptStore, SessionResult, give_back_all,
    run_host_session,
};
use fb_serve::CallerState;
use fb_shared::Shared;
use fb_wire::bench::Limits;
use fb_wire::{IntoWrite, MemoryFeed, RunEnd};
use refusing::{each_refused, refuse, report, was_refused};
use std::alloc::{AllocError, Global};
use std::io::Print;
use std::sync::Wait;
use std::test::Fail;
use std::time::{Clock, Instant};

/// What is tried, what a session says before, what two sessions then say one after another, the replies of the first to it, and the end of those of the
/// second.
#[derive(Clone, Copy)]
struct Talk {
    about: &'static str,
    before: &'static str,
    requests: &'static str,
    replies: &'static str,
    last: &'static str,
}

// The calls of these lines are more than the history holds.
const LINES: Talk = Talk {
    about: " of three lines",
    before: "",
    requests: r#"{"op":"commit","changes":[{"put":"A","base":0,"text":"FUNCTION_BLOCK A END_FUNCTION_BLOCK"}]}
{"op":"work","turns":9}
{"op":"ask","kind":"faults","unit":"A"}
"#,
    replies: "{\"commit\":1}\n{\"accepted\":1}\n{\"faults\":[]}\n",
    last: "{\"faults\":[]}\n",
};

const JOBS: &str = r#"{"job":1,"kind":"faults","unit":"A"}
{"job":2,"kind":"faults","unit":"B"}
{"job":3,"kind":"faults","unit":"C"}
{"job":4,"kind":"faults","unit":"D"}
{"job":5,"kind":"faults","unit":"E"}
{"job":6,"kind":"faults","unit":"F"}
"#;

// More keys than a session has room for from its start.
const TAKES: Talk = Talk {
    about: " that takes six keys",
    before: r#"{"op":"commit","changes":[{"put":"A","base":0,"text":"FUNCTION_BLOCK A END_FUNCTION_BLOCK"},{"put":"B","base":0,"text":"FUNCTION_BLOCK B END_FUNCTION_BLOCK"},{"put":"C","base":0,"text":"FUNCTION_BLOCK C END_FUNCTION_BLOCK"},{"put":"D","base":0,"text":"FUNCTION_BLOCK D END_FUNCTION_BLOCK"},{"put":"E","base":0,"text":"FUNCTION_BLOCK E END_FUNCTION_BLOCK"},{"put":"F","base":0,"text":"FUNCTION_BLOCK F END_FUNCTION_BLOCK"}]}
"#,
    requests: "{\"op\":\"take\"}\n{\"op\":\"take\"}\n{\"op\":\"take\"}\n{\"op\":\"take\"}\n{\"op\":\"take\"}\n{\"op\":\"take\"}\n",
    replies: JOBS,
    last: JOBS,
};

// Each read, and nothing else.
const READS: Talk = Talk {
    about: " that reads",
    before: r#"{"op":"commit","changes":[{"put":"A","base":0,"text":"FUNCTION_BLOCK A END_FUNCTION_BLOCK"}]}
"#,
    requests: r#"{"op":"status"}
{"op":"units"}
{"op":"text","unit":"A"}
{"op":"peek","kind":"faults","unit":"A"}
{"op":"watch","after":0,"wait":0}
"#,
    replies: SHOWN,
    last: SHOWN,
};

const SHOWN: &str =
    r#"{"status":{"calls":1,"commits":1,"keys":1,"pending":1,"session":1,"units":1,"workbench":"00000000000000070000000000000008"}}
{"at":1,"units":[["A",1]]}
{"at":1,"base":1,"text":"FUNCTION_BLOCK A END_FUNCTION_BLOCK"}
{"answer":"pending"}
{"at":1,"events":[["commit",1,1,["A"],[]]]}
"#;

/// How a session ended, what it replied, and whether an allocation was refused.
#[derive(Drop)]
pub(crate) struct Session {
    end: RunEnd,
    output: Vec<u8>,
    is_refused: bool,
}

/// A session says the lines, of which the allocation of this number is refused; what it still holds goes back. What it writes has room.
pub(crate) fn say_lines<R: Wait + Clock>(
    rt: &R,
    alloc: Global,
    shared: &Shared,
    store: &ReceiptStore,
    pace: &Pace,
    state: CallerState,
    requests: &str,
    number: u32,
) -> Result<(CallerState, Session), AllocError> {
    let mut output = Vec::with_capacity(alloc, 1000)?;
    let mut feed = MemoryFeed::new(requests.as_bytes(), 8192, u64::MAX);
    let mut sink = IntoWrite::new(&mut output);
    let leases = Leases::new(alloc, KEY_TIMEOUT);
    refuse(alloc, number);
    let SessionResult {
        end,
        mut state,
        session_receipts: _,
    } = run_host_session(
        rt, alloc, shared, store, &leases, pace, state, &mut feed, &mut sink, 1000,
    );
    let is_refused = was_refused(alloc);
    give_back_all(rt, shared, store, pace, &mut state);
    let session = Session {
        end,
        output,
        is_refused,
    };
    Ok((state, session))
}

/// Whether a session whose replies are these may end so.
pub(crate) fn is_right(session: &Session, replies: &str) -> bool {
    match session.end {
        RunEnd::End => session.output.as_slice() == replies.as_bytes(),
        RunEnd::Memory => replies.as_bytes().starts_with(session.output.as_slice()),
        _ => false,
    }
}

// Whether the workbench closes, and each record since its start has its receipt.
fn is_closed<R: Wait>(
    rt: &R,
    alloc: Global,
    shared: Shared,
    store: ReceiptStore,
    state: CallerState,
) -> Result<bool, Fail> {
    let receipts = store.into_receipts(shared.before(rt));
    let CallerState {
        seat,
        held: _,
        receipts: _,
    } = state;
    let mut seats = Vec::new(alloc);
    seats.push(seat)?;
    match shared.close(alloc, seats, &receipts) {
        Ok(closed) => Ok(closed.bench.len() == receipts.len()),
        Err(_) => Ok(false),
    }
}

// Sessions with one seat, the first of the two without the allocation of this number.
fn tried<R: Wait + Clock>(rt: &R, alloc: Global, talk: Talk, number: u32) -> Result<Session, Fail> {
    let limits = Limits::new(8, 2).ok_or("limits")?;
    let (shared, mut seats) = Shared::rolling(
        alloc,
        limits,
        u64::MAX,
        1,
        Identity { high: 7, low: 8 },
    )?;
    let store = ReceiptStore::new(alloc);
    let pace = Pace::new(alloc, 1, 0, COMMIT_WAIT)?;
    let state = CallerState::new(alloc, seats.pop().ok_or("no seat")?);
    let (state, _) = say_lines(rt, alloc, &shared, &store, &pace, state, talk.before, 0)?;
    let (state, first) = say_lines(
        rt,
        alloc,
        &shared,
        &store,
        &pace,
        state,
        talk.requests,
        number,
    )?;
    let (state, last) = say_lines(rt, alloc, &shared, &store, &pace, state, talk.requests, 0)?;
    let is_done = last.end == RunEnd::End && last.output.ends_with(talk.last.as_bytes());
    let is_closed = is_closed(rt, alloc, shared, store, state)?;
    if !is_done || !is_closed || !is_right(&first, talk.replies) {
        return Err(Fail::from("another end"));
    }
    Ok(first)
}

// Whether an allocation of a session was refused, and whether the session ended for lack of memory.
fn session_without<R: Wait + Clock>(
    rt: &R,
    alloc: Global,
    talk: Talk,
    number: u32,
) -> Result<(bool, bool), Fail> {
    let session = tried(rt, alloc, talk, number)?;
    Ok((session.is_refused, session.end == RunEnd::Memory))
}

// Refuses each allocation of a session in turn, and prints what was found.
fn try_session<R: Wait + Clock + Print>(rt: &R, alloc: Global, talk: Talk) -> Result<(), Fail> {
    let found = each_refused(|number| session_without(rt, alloc, talk, number))?;
    Ok(report(rt, "run_host_session", talk.about, found)?)
}

#[test]
fn each_allocation_of_a_session(rt: HostRuntime) -> Result<(), Fail> {
    try_session(&rt, rt.alloc(), LINES)
}

#[test]
fn each_allocation_of_a_session_that_takes_keys(rt: HostRuntime) -> Result<(), Fail> {
    try_session(&rt, rt.alloc(), TAKES)
}

#[test]
fn each_allocation_of_a_session_that_reads(rt: HostRuntime) -> Result<(), Fail> {
    try_session(&rt, rt.alloc(), READS)
}

// Nine commits of a session.
const NINE: &str =
    r#"{"op":"commit","changes":[{"put":"A","base":0,"text":"FUNCTION_BLOCK A (* 0 *) END_FUNCTION_BLOCK"}]}
{"op":"commit","changes":[{"put":"A","base":1,"text":"FUNCTION_BLOCK A (* 1 *) END_FUNCTION_BLOCK"}]}
{"op":"commit","changes":[{"put":"A","base":2,"text":"FUNCTION_BLOCK A (* 2 *) END_FUNCTION_BLOCK"}]}
{"op":"commit","changes":[{"put":"A","base":3,"text":"FUNCTION_BLOCK A (* 3 *) END_FUNCTION_BLOCK"}]}
{"op":"commit","changes":[{"put":"A","base":4,"text":"FUNCTION_BLOCK A (* 4 *) END_FUNCTION_BLOCK"}]}
{"op":"commit","changes":[{"put":"A","base":5,"text":"FUNCTION_BLOCK A (* 5 *) END_FUNCTION_BLOCK"}]}
{"op":"commit","changes":[{"put":"A","base":6,"text":"FUNCTION_BLOCK A (* 6 *) END_FUNCTION_BLOCK"}]}
{"op":"commit","changes":[{"put":"A","base":7,"text":"FUNCTION_BLOCK A (* 7 *) END_FUNCTION_BLOCK"}]}
{"op":"commit","changes":[{"put":"A","base":8,"text":"FUNCTION_BLOCK A (* 8 *) END_FUNCTION_BLOCK"}]}
"#;

const NINE_REPLIES: &str = r#"{"commit":1}
{"commit":2}
{"commit":3}
{"commit":4}
{"commit":5}
{"commit":6}
{"commit":7}
{"commit":8}
{"commit":9}
"#;

// A key that is given back and taken again.
const AGAIN: &str =
    r#"{"op":"commit","changes":[{"put":"A","base":0,"text":"FUNCTION_BLOCK A END_FUNCTION_BLOCK"}]}
{"op":"take"}
{"op":"give_back","kind":"faults","unit":"A"}
{"op":"take"}
"#;

const AGAIN_REPLIES: &str = r#"{"commit":1}
{"job":1,"kind":"faults","unit":"A"}
{"returned":true}
{"job":2,"kind":"faults","unit":"A"}
"#;

// What a session is answered to these lines with a worker that never comes, perhaps while the host closes.
fn answered_without_workers<R: Wait + Clock>(
    rt: &R,
    alloc: Global,
    is_closing: bool,
    lines: &str,
) -> Result<Session, Fail> {
    let limits = Limits::new(8, 100).ok_or("limits")?;
    let (shared, mut seats) = Shared::rolling(
        alloc,
        limits,
        u64::MAX,
        1,
        Identity { high: 7, low: 8 },
    )?;
    let store = ReceiptStore::new(alloc);
    let pace = Pace::new(alloc, 1, 1, COMMIT_WAIT)?;
    let state = CallerState::new(alloc, seats.pop().ok_or("no seat")?);
    if is_closing {
        shared.end_watches(rt);
    }
    let (_state, session) = say_lines(rt, alloc, &shared, &store, &pace, state, lines, 0)?;
    Ok(session)
}

#[test]
fn a_commit_does_not_hold_up_the_close(rt: HostRuntime) -> Result<(), Fail> {
    let session = answered_without_workers(&rt, rt.alloc(), true, NINE)?;
    assert!(rt; is_right(&session, NINE_REPLIES));
    Ok(())
}

#[test]
fn a_take_waits_a_second_for_a_worker(rt: HostRuntime) -> Result<(), Fail> {
    let begun = Instant::now(&rt)?;
    let session = answered_without_workers(&rt, rt.alloc(), false, AGAIN)?;
    let passed = begun.elapsed(&rt)?.as_millis();
    assert!(rt; is_right(&session, AGAIN_REPLIES));
    assert!(rt; 990 <= passed && passed < 20_000, "{passed}");
    Ok(())
}
