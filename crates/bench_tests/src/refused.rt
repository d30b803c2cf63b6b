//! Conversations of which each allocation is refused in turn. One that ends for lack of memory has made the calls of the lines that it answered, and none,
//! some or all of one more. If no line names a job of another line, it continues with the lines that were not answered.
use crate::conversation::{ALWAYS, new_bench, said};
use crate::cuts::{Conversation, LATE, LATE_CALLS, behind, conversation_of, is_prefix, lines_in};
use fb_wire::bench::Bench;
use fb_wire::{IntoWrite, MemoryFeed, RunEnd, run_script};
use refusing::{each_refused, refuse, report, was_refused};
use std::alloc::Global;
use std::test::Fail;

// No line names a job of another line, so that it can be said again in another run.
const LINES: &str = r#"
{"op":"commit","changes":[{"put":"C","base":0,"text":"FUNCTION_BLOCK C FBS S:E_SPLIT; END_FBS END_FUNCTION_BLOCK"},{"put":"E_SPLIT","base":0,"text":"FUNCTION_BLOCK E_SPLIT EVENT_INPUT EI; END_EVENT EVENT_OUTPUT EO1; EO2; END_EVENT END_FUNCTION_BLOCK"}]} => {"commit":1}
{"op":"take"} => {"job":1,"kind":"faults","unit":"C"}
{"op":"give_back","kind":"faults","unit":"C"} => {"returned":true}
{"op":"ask","kind":"net","unit":"C"} => {"refused":"NoSuchKey"}
{"op":"ask"} => {"refused":"BadRequest"}
{"op":"work","turns":1} => {"accepted":1}
{"op":"ask","kind":"faults","unit":"C"} => {"faults":[]}
{"op":"ask","kind":"faults","unit":"E_SPLIT"} => {"answer":"pending"}
{"op":"commit","changes":[{"put":"E_SPLIT","base":0,"text":""}]} => {"current":1,"refused":"StaleBase","unit":"E_SPLIT"}
"#;

// How many calls are recorded once so many of the lines are answered. The work takes and delivers.
const CALLS: &[usize] = &[0, 1, 2, 3, 4, 4, 6, 7, 8, 9];

// What is said where the work has taken and not delivered, and the reply to it.
const GIVE_BACK: &str = "{\"op\":\"give_back\",\"kind\":\"faults\",\"unit\":\"C\"}\n";

const RETURNED: &str = "{\"returned\":true}\n";

// Whether a run that was cut goes on as the whole one, from the first line on that has not made its calls. A key that was taken and not
// delivered is given back.
fn goes_on(
    alloc: Global,
    bench: &mut Bench,
    conversation: &Conversation,
    answered: usize,
) -> Result<bool, Fail> {
    let next = answered.saturating_add(1);
    let calls = bench.len();
    let lines = if conversation.calls.get(answered) == Some(&calls) {
        answered
    } else if conversation.calls.get(next) == Some(&calls) {
        next
    } else if said(alloc, bench, 1, GIVE_BACK)?.as_str() == RETURNED {
        answered
    } else {
        return Ok(false);
    };
    let requests = behind(conversation.requests.as_str(), lines);
    let rest = said(alloc, bench, 1, requests)?;
    Ok(rest.as_str() == behind(conversation.replies.as_str(), lines))
}

// Whether so many calls are recorded where so many lines are answered: theirs, and none, some or all of one more.
fn are_calls(conversation: &Conversation, answered: usize, calls: usize) -> bool {
    let next = answered.saturating_add(1);
    match conversation.calls.get(answered) {
        Some(least) => {
            let most = conversation.calls.get(next).unwrap_or(least);
            *least <= calls && calls <= *most
        }
        None => false,
    }
}

// Whether a run that ended so is the whole one, or has ended for want of memory behind whole replies, with the first calls of the whole run.
// Then it goes on if it can.
fn is_right(
    alloc: Global,
    bench: &mut Bench,
    conversation: &Conversation,
    can_go_on: bool,
    output: &[u8],
    end: RunEnd,
) -> Result<bool, Fail> {
    let is_whole = output.is_empty() || output.last() == Some(&b'\n');
    let is_said = conversation.replies.as_bytes().starts_with(output);
    if !is_whole || !is_said || !is_prefix(bench, &conversation.whole) {
        return Ok(false);
    }
    let answered = lines_in(output);
    match end {
        RunEnd::End => Ok(
            output.len() == conversation.replies.len() && bench.len() == conversation.whole.len(),
        ),
        RunEnd::Memory => Ok(
            are_calls(conversation, answered, bench.len())
                && (!can_go_on || goes_on(alloc, bench, conversation, answered)?),
        ),
        _ => Ok(false),
    }
}

// Whether the allocation of this number is refused in a run, and whether the run ends for lack of memory. What it writes has room.
fn tried(
    alloc: Global,
    conversation: &Conversation,
    can_go_on: bool,
    number: u32,
) -> Result<(bool, bool), Fail> {
    let mut output = Vec::with_capacity(alloc, 1000)?;
    let mut bench = new_bench(alloc, 10, 1000)?;
    let mut feed = MemoryFeed::new(conversation.requests.as_bytes(), 8192, ALWAYS);
    let mut sink = IntoWrite::new(&mut output);
    refuse(alloc, number);
    let end = run_script(alloc, &mut feed, &mut sink, &mut bench, 1, 1000);
    let is_refused = was_refused(alloc);
    let is_short = end == RunEnd::Memory;
    let is_right = is_right(alloc, &mut bench, conversation, can_go_on, &output, end)?;
    if !is_right || (is_short && !is_refused) {
        return Err(Fail::from("another end"));
    }
    Ok((is_refused, is_short))
}

#[test]
fn each_allocation_of_a_run(rt: HostRuntime) -> Result<(), Fail> {
    let lines = conversation_of(rt.alloc(), LINES, CALLS)?;
    let found = each_refused(|number| tried(rt.alloc(), &lines, true, number))?;
    report(&rt, "run_script", " of nine lines", found)?;
    let late = conversation_of(rt.alloc(), LATE, LATE_CALLS)?;
    let found = each_refused(|number| tried(rt.alloc(), &late, false, number))?;
    report(&rt, "run_script", " of a late result", found)?;
    Ok(())
}
