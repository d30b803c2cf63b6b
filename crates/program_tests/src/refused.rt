//! Words, runs, sessions and workers of which each allocation is refused in turn, and a worker whose history is full.
use crate::play::exchanges_in;
use crate::program::{asked_by, line_of, words_of};
use fb_program::{Outcome, run, settings};
use fb_serve::{CallerState, Session, keep_working, run_session};
use fb_shared::{Receipt, Seat, Shared, WorkEnd};
use fb_wire::bench::Limits;
use fb_wire::{IntoWrite, MemoryFeed, RunEnd};
use refusing::{each_refused, refuse, report, was_refused};
use std::alloc::{AllocError, Global};
use std::sync::Wait;
use std::test::Fail;
use std::time::Clock;

// Words that find no memory are read again.
fn words_without(alloc: Global, line: &str, number: u32) -> Result<(bool, bool), Fail> {
    let wanted = asked_by(alloc, line)?;
    let words = words_of(alloc, line)?;
    refuse(alloc, number);
    let found = settings(alloc, &words);
    let is_refused = was_refused(alloc);
    let asked = match &found {
        Ok(settings) => Some(line_of(alloc, settings)?),
        Err(_) => asked_by(alloc, line)?,
    };
    if asked.is_none() || asked != wanted {
        return Err(Fail::from("another answer"));
    }
    Ok((is_refused, found.is_err()))
}

#[test]
fn words_are_read(rt: HostRuntime) -> Result<(), Fail> {
    for (way, line) in [
        (" of a script", "script --history 5"),
        (" of a server", "serve --port 7 --workers=3"),
        (" of a host", "host --port 7 --secret a/b"),
    ] {
        let found = each_refused(|number| words_without(rt.alloc(), line, number))?;
        report(&rt, "settings", way, found)?;
    }
    Ok(())
}

// Whether this is whole lines from the beginning of the replies.
fn is_prefix(output: &[u8], replies: &str) -> bool {
    let is_whole = output.is_empty() || output.last() == Some(&b'\n');
    is_whole && replies.as_bytes().starts_with(output)
}

const RUN: &str = r#"commit => {"commit":1}
{"op":"work","turns":1} => {"accepted":1}
{"op":"ask","kind":"faults","unit":"A"} => {"faults":[]}"#;

// Whether a run may end so for lack of memory: silently at its words, and else with a message after whole lines.
fn is_short(status: u8, output: &[u8], errors: &[u8], replies: &str) -> bool {
    let is_said = errors == "bench61499: out of memory\n".as_bytes();
    let is_silent = errors.is_empty() && output.is_empty();
    status == 1 && is_prefix(output, replies) && (is_said || is_silent)
}

// What a run writes has room.
fn run_without(alloc: Global, number: u32) -> Result<(bool, bool), Fail> {
    let (requests, replies) = exchanges_in(alloc, RUN)?;
    let words = words_of(alloc, "script --history 5")?;
    let mut output = Vec::with_capacity(alloc, 1000)?;
    let mut errors = Vec::with_capacity(alloc, 1000)?;
    let mut reader = MemoryFeed::new(requests.as_bytes(), 8192, u64::MAX);
    let mut writer = IntoWrite::new(&mut output);
    refuse(alloc, number);
    let outcome = run(alloc, &words, &mut reader, &mut writer, &mut errors, 1000);
    let is_refused = was_refused(alloc);
    let Outcome::Ended(status) = outcome else {
        return Err(Fail::from("a server"));
    };
    let is_whole = status == 0 && errors.is_empty() && output.as_slice() == replies.as_bytes();
    if !is_whole && !is_short(status, &output, &errors, &replies) {
        return Err(Fail::from("another end"));
    }
    Ok((is_refused, !is_whole))
}

#[test]
fn runs(rt: HostRuntime) -> Result<(), Fail> {
    let found = each_refused(|number| run_without(rt.alloc(), number))?;
    report(&rt, "run", " of a script", found)?;
    Ok(())
}

// Has a session send these lines and reach its end, and adds its receipts. It gives the seat and the replies.
fn talk<R: Wait>(
    rt: &R,
    alloc: Global,
    shared: &Shared,
    seat: Seat,
    receipts: &mut Vec<Receipt>,
    lines: &str,
) -> Result<(Seat, String), Fail> {
    let mut output = Vec::new(alloc);
    let mut feed = MemoryFeed::new(lines.as_bytes(), 8192, u64::MAX);
    let mut sink = IntoWrite::new(&mut output);
    let Session {
        end,
        seat,
        receipts: mut more,
    } = run_session(rt, alloc, shared, seat, &mut feed, &mut sink, 1000);
    receipts.append(&mut more)?;
    let replies = String::from_utf8(output)?;
    if end != RunEnd::End {
        return Err(Fail::from(replies));
    }
    Ok((seat, replies))
}

// No line names a job of another line, so that it can be sent again in another session.
const SESSION: &str = r#"commit => {"commit":1}
{"op":"take"} => {"job":1,"kind":"faults","unit":"A"}
{"op":"give_back","kind":"faults","unit":"A"} => {"returned":true}
{"op":"ask","kind":"net","unit":"A"} => {"refused":"NoSuchKey"}
{"op":"work","turns":1} => {"accepted":1}
{"op":"ask","kind":"faults","unit":"A"} => {"faults":[]}
"#;

// What is sent if the work has taken and not delivered.
const GIVE_BACK: &str =
    "{\"op\":\"give_back\",\"kind\":\"faults\",\"unit\":\"A\"} => {\"returned\":true}\n";

// How many calls have receipts after this number of answered lines. The work takes and delivers.
const CALLS: &[usize] = &[0, 1, 2, 3, 4, 6, 7];

// How a session continues after this number of answered lines and of calls: those of these lines, of one more, or some of one more. It gives
// the first line, and how many lines are left out after it.
fn rest_after(answered: usize, calls: usize) -> (&'static str, usize) {
    let next = answered.saturating_add(1);
    if CALLS.get(answered) == Some(&calls) {
        ("", answered)
    } else if CALLS.get(next) == Some(&calls) {
        ("", next)
    } else {
        (GIVE_BACK, answered)
    }
}

fn rest_of(alloc: Global, answered: usize, calls: usize) -> Result<String, AllocError> {
    let (first, lines) = rest_after(answered, calls);
    let mut rest = first.to_string(alloc)?;
    for line in SESSION.lines().skip(lines) {
        writeln!(rest, "{line}")?;
    }
    Ok(rest)
}

fn is_end(end: RunEnd, output: &[u8], replies: &str) -> bool {
    match end {
        RunEnd::End => output == replies.as_bytes(),
        RunEnd::Memory => is_prefix(output, replies),
        _ => false,
    }
}

// If a session ends for lack of memory another one continues with its seat, and the workbench closes with the receipts of both. What a session
// writes has room.
fn session_without<R: Wait>(rt: &R, alloc: Global, number: u32) -> Result<(bool, bool), Fail> {
    let (requests, replies) = exchanges_in(alloc, SESSION)?;
    let limits = Limits::new(4, 100).ok_or("limits")?;
    let (shared, mut seats) = Shared::new(alloc, limits, 1)?;
    let seat = seats.pop().ok_or("no seat")?;
    let mut output = Vec::with_capacity(alloc, 1000)?;
    let mut feed = MemoryFeed::new(requests.as_bytes(), 8192, u64::MAX);
    let mut sink = IntoWrite::new(&mut output);
    refuse(alloc, number);
    let session = run_session(rt, alloc, &shared, seat, &mut feed, &mut sink, 1000);
    let is_refused = was_refused(alloc);
    let Session {
        end,
        seat,
        mut receipts,
    } = session;
    let answered = output.iter().filter(|byte| **byte == b'\n').count();
    let rest = rest_of(alloc, answered, receipts.len())?;
    let (requests, wanted) = exchanges_in(alloc, &rest)?;
    let (seat, told) = talk(rt, alloc, &shared, seat, &mut receipts, &requests)?;
    seats.push(seat)?;
    let is_closed = shared.close(alloc, seats, &receipts).is_ok();
    let is_told = told.as_str() == wanted.as_str();
    if !is_told || !is_closed || !is_end(end, &output, &replies) {
        return Err(Fail::from("another end"));
    }
    Ok((is_refused, end == RunEnd::Memory))
}

#[test]
fn each_allocation_of_a_session(rt: HostRuntime) -> Result<(), Fail> {
    let found = each_refused(|number| session_without(&rt, rt.alloc(), number))?;
    report(&rt, "run_session", " of six lines", found)?;
    Ok(())
}

// A commit of two units.
const COMMIT: &str =
    "{\"op\":\"commit\",\"changes\":[{\"put\":\"A\",\"base\":0,\"text\":\"FUNCTION_BLOCK A END_FUNCTION_BLOCK\"},{\"put\":\"B\",\"base\":0,\"text\":\"FUNCTION_BLOCK B END_FUNCTION_BLOCK\"}]}\n";

// How many keys wait for a worker after it, and how many looks it makes.
const KEYS: u64 = 2;

// A workbench with this history, the state of a worker at it, and the seat of a session that has committed two units, with its receipts.
fn committed<R: Wait>(
    rt: &R,
    alloc: Global,
    history: u64,
) -> Result<(Shared, CallerState, Seat, Vec<Receipt>), Fail> {
    let limits = Limits::new(4, history).ok_or("limits")?;
    let (shared, mut seats) = Shared::new(alloc, limits, 2)?;
    let state = CallerState::new(alloc, seats.pop().ok_or("no seat")?);
    let seat = seats.pop().ok_or("no seat")?;
    let mut receipts = Vec::new(alloc);
    let (seat, _) = talk(rt, alloc, &shared, seat, &mut receipts, COMMIT)?;
    Ok((shared, state, seat, receipts))
}

// A worker begins again, so that of two jobs one is left at most: a session then finds how many.
fn worker_without<R: Wait + Clock>(
    rt: &R,
    alloc: Global,
    number: u32,
) -> Result<(bool, bool), Fail> {
    let (shared, mut state, seat, mut receipts) = committed(rt, alloc, 100)?;
    refuse(alloc, number);
    let _end = keep_working(rt, alloc, &shared, &mut state, KEYS);
    let is_refused = was_refused(alloc);
    let work = "{\"op\":\"work\",\"turns\":9}\n";
    let (seat, left) = talk(rt, alloc, &shared, seat, &mut receipts, work)?;
    let CallerState {
        seat: second,
        held: _,
        receipts: mut more,
    } = state;
    receipts.append(&mut more)?;
    let mut seats = Vec::new(alloc);
    seats.push(seat)?;
    seats.push(second)?;
    if Shared::close(shared, alloc, seats, &receipts).is_err() {
        return Err(Fail::from("not closed"));
    }
    match left.as_str() {
        "{\"accepted\":0}\n" => Ok((is_refused, false)),
        "{\"accepted\":1}\n" => Ok((is_refused, true)),
        _ => Err(Fail::from(left)),
    }
}

#[test]
fn each_allocation_of_a_worker(rt: HostRuntime) -> Result<(), Fail> {
    let found = each_refused(|number| worker_without(&rt, rt.alloc(), number))?;
    report(&rt, "keep_working", " of two jobs", found)?;
    Ok(())
}

/// A history that is full once the worker has taken its second job, and the number of that call.
const ROOM: u64 = 4;

// There is no room for the second result of a worker. The key of its second job can't be given back either, so it stays held. That of its
// first is settled.
#[test]
fn a_key_that_is_not_given_back_stays_held(rt: HostRuntime) -> Result<(), Fail> {
    let (shared, mut state, _seat, _receipts) = committed(&rt, rt.alloc(), ROOM)?;
    let end = keep_working(&rt, rt.alloc(), &shared, &mut state, KEYS);
    let since: Vec<u64> = state.held.iter().map(|it| it.since).collect(rt.alloc())?;
    assert_eq!(rt; (end, state.receipts.len()), (WorkEnd::HistoryFull, 3));
    assert_eq!(rt; since.as_slice(), [ROOM].as_slice());
    Ok(())
}
