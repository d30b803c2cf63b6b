//! Conversations with a workbench, and whether its replies are those wanted.
//!
//! A conversation is a text of lines `REQUEST => REPLY`, of remarks after `// ` and of empty lines. The requests `plant` and `misplaced`
//! mean commits that several conversations begin with, and `each KIND UNIT UNIT` for a question about each unit, all with this reply.
//! It has a heading: `== TITLE`, or `== TITLE / UNITS / CALLS` where its workbench has other limits than the program's own. A conversation
//! in steps has each of them after an `@`: `@2 REQUEST => REPLY` is a run of caller 2, to which the lines after it belong and whose jobs
//! have numbers from 1, and `@LOOK => TOLD` looks at the workbench.
ghost use Rattle.std.specs.Prelude.{◌<◌};

use fb_wire::bench::{Bench, Limits};
use fb_wire::{Feed, MemoryFeed, MemorySink, RunEnd, Sink, run_script};
use std::alloc::{AllocError, Global};
use std::process::Abort;
use std::test::Fail;

// A type, a subapplication of its instances, and a system that holds the subapplication and maps it to two resources.
const PLANT: &str =
    r#"{"op":"commit","changes":[{"put":"TN","base":0,"text":"FUNCTION_BLOCK TN EVENT_INPUT I; END_EVENT EVENT_OUTPUT O; END_EVENT VAR_INPUT DT:TIME; END_VAR END_FUNCTION_BLOCK"},{"put":"SA","base":0,"text":"SUBAPPLICATION SA FBS F:TN; G:TN(DT:=T#250ms); H:TN; END_FBS EVENT_CONNECTIONS F.O TO G.I; G.O TO H.I; END_CONNECTIONS END_SUBAPPLICATION"},{"put":"Y","base":0,"text":"SYSTEM Y APPLICATION APP SUBAPPS SUB:SA; END_SUBAPPS END_APPLICATION DEVICE D:DT RESOURCE R1:RT END_RESOURCE RESOURCE R2:RT END_RESOURCE END_DEVICE MAPPINGS APP.SUB ON D.R1; APP.SUB.F ON D.R2; END_MAPPINGS END_SYSTEM"}]}"#;

// The same system with a mapping of what it does not hold, in the place of one.
const MISPLACED: &str =
    r#"{"op":"commit","changes":[{"put":"Y","base":1,"text":"SYSTEM Y APPLICATION APP SUBAPPS SUB:SA; END_SUBAPPS END_APPLICATION DEVICE D:DT RESOURCE R1:RT END_RESOURCE RESOURCE R2:RT END_RESOURCE END_DEVICE MAPPINGS APP.Z ON D.R1; APP.SUB.F ON D.R2; END_MAPPINGS END_SYSTEM"}]}"#;

/// A number that nothing reaches.
pub(crate) const ALWAYS: u64 = u64::MAX;

/// How many bytes a read or a write of a stream moves, and how many of them are good.
pub(crate) type Pace = (usize, u64);

pub(crate) const WIDE: Pace = (100, ALWAYS);

/// How a run ended, what it wrote, whether a read reached the end, and whether a read or a write has failed.
#[derive(Drop)]
pub(crate) struct Run {
    pub(crate) end: RunEnd,
    pub(crate) output: Vec<u8>,
    pub(crate) read_ended: bool,
    pub(crate) read_failed: bool,
    pub(crate) write_failed: bool,
}

pub(crate) fn new_bench(alloc: Global, units: u64, history: u64) -> Result<Bench, Fail> {
    let limits = Limits::new(units, history).ok_or("limits")?;
    Ok(Bench::new(alloc, limits))
}

/// A run of this caller of at most this number of turns, with these reads and writes.
pub(crate) fn run_over(
    alloc: Global,
    bench: &mut Bench,
    caller: u32,
    input: &[u8],
    (read, good_reads): Pace,
    (write, good_writes): Pace,
    turns: u64,
) -> Result<Run, AllocError> {
    let mut feed = MemoryFeed::new(input, read.max(1), good_reads);
    let mut sink = MemorySink::new(alloc, write.max(1), good_writes);
    let end = run_script(alloc, &mut feed, &mut sink, bench, caller, turns);
    Ok(Run {
        end,
        output: sink.as_slice().to_vec(alloc)?,
        read_ended: feed.ended(),
        read_failed: feed.failed(),
        write_failed: sink.failed(),
    })
}

/// The request in a line of a conversation, and the reply to it.
fn exchange_in(line: &str) -> Option<(&str, &str)> {
    match line.split_once(" => ") {
        Some(("plant", reply)) => Some((PLANT, reply)),
        Some(("misplaced", reply)) => Some((MISPLACED, reply)),
        exchange => exchange,
    }
}

// The questions in words such as `faults A B`, each with this reply.
fn ask_each(
    requests: &mut String,
    replies: &mut String,
    words: &str,
    reply: &str,
) -> Result<(), Fail> {
    let (kind, units) = words.split_once(' ').ok_or("units")?;
    for unit in units.split(' ') {
        writeln!(
            requests,
            r#"{{"op":"ask","kind":"{kind}","unit":"{unit}"}}"#
        )?;
        writeln!(replies, "{reply}")?;
    }
    Ok(())
}

/// The request lines of a conversation, and the replies to them.
pub(crate) fn exchanges_in(alloc: Global, text: &str) -> Result<(String, String), Fail> {
    let (mut requests, mut replies) = (String::new(alloc), String::new(alloc));
    for line in text.split('\n') {
        if let Some((request, reply)) = exchange_in(line) {
            if let Some(words) = request.strip_prefix("each ") {
                ask_each(&mut requests, &mut replies, words, reply)?;
            } else {
                writeln!(requests, "{request}")?;
                writeln!(replies, "{reply}")?;
            }
        } else if !line.is_empty() && !line.starts_with("// ") {
            return Err(Fail::from("a line of no kind"));
        }
    }
    Ok((requests, replies))
}

/// The replies to a caller with these requests, in a run that reaches its end.
pub(crate) fn said(
    alloc: Global,
    bench: &mut Bench,
    caller: u32,
    requests: &str,
) -> Result<String, Fail> {
    let input = requests.as_bytes();
    let run = run_over(alloc, bench, caller, input, WIDE, WIDE, 1_000_000)?;
    match run.end {
        RunEnd::End => Ok(String::from_utf8(run.output)?),
        _ => Err(Fail::from("the run did not come to its end")),
    }
}

/// The replies to a caller that says the requests of a conversation, and those that are wanted.
fn exchanged(
    alloc: Global,
    bench: &mut Bench,
    caller: u32,
    text: &str,
) -> Result<(String, String), Fail> {
    let (requests, replies) = exchanges_in(alloc, text)?;
    Ok((said(alloc, bench, caller, requests.as_str())?, replies))
}

// How many lines at the front are the same in both texts, where these differ.
fn alike(a: &str, b: &str) -> Option<usize> {
    if a == b {
        return None;
    }
    let place = a.split('\n').zip(b.split('\n')).position(|(a, b)| a != b);
    Some(place.unwrap_or(0))
}

/// Compares the replies to a caller that says the requests of a conversation with those that are there.
pub(crate) fn converse(
    rt: &impl Abort,
    alloc: Global,
    bench: &mut Bench,
    caller: u32,
    text: &str,
) -> Result<(), Fail> {
    let (told, wanted) = exchanged(alloc, bench, caller, text)?;
    assert!(rt; !wanted.is_empty(), "no lines");
    assert_eq!(rt; alike(told.as_str(), wanted.as_str()), None, "{told}");
    Ok(())
}

// The title of a conversation that stands behind `== `, a new workbench for it, and its lines.
fn opened(alloc: Global, conversation: &str) -> Result<(&str, Bench, &str), Fail> {
    let (heading, text) = conversation.split_once('\n').ok_or("a line")?;
    let (title, limits) = heading
        .split_once(" / ")
        .unwrap_or((heading, "1024 / 100000"));
    let (units, history) = limits.split_once(" / ").ok_or("limits")?;
    let bench = new_bench(alloc, units.parse()?, history.parse()?)?;
    Ok((title, bench, text))
}

/// Has caller 1 say each of these conversations to a workbench of its own. One alone may have no lines, by its title.
pub(crate) fn compare(rt: &impl Abort, alloc: Global, text: &str) -> Result<(), Fail> {
    let conversations = text.strip_prefix("\n== ").ok_or("a heading")?;
    for conversation in conversations.split("\n== ") {
        let (title, mut bench, text) = opened(alloc, conversation)?;
        let (told, wanted) = exchanged(alloc, &mut bench, 1, text)?;
        assert_eq!(rt; wanted.is_empty(), title == "no lines", "{conversation}");
        assert_eq!(rt;
            alike(told.as_str(), wanted.as_str()),
            None,
            "{conversation}"
        );
    }
    Ok(())
}

/// What is looked at in conversations in steps.
pub(crate) trait Look {
    /// What a look shows.
    fn look(alloc: Global, bench: &mut Bench, look: &str) -> Result<String, Fail>;
}

// What is told at a step, and what is wanted.
fn step_told<L: Look>(
    alloc: Global,
    bench: &mut Bench,
    step: &str,
) -> Result<(String, String), Fail> {
    match step.split_once(' ') {
        Some(("1", lines)) => exchanged(alloc, bench, 1, lines),
        Some(("2", lines)) => exchanged(alloc, bench, 2, lines),
        _ => {
            let (look, wanted) = step.trim_end().split_once(" => ").ok_or("a look")?;
            Ok((L::look(alloc, bench, look)?, wanted.to_string(alloc)?))
        }
    }
}

fn go_through<L: Look>(
    rt: &impl Abort,
    alloc: Global,
    title: &str,
    bench: &mut Bench,
    steps: &str,
) -> Result<(), Fail> {
    let mut place = 0u32;
    for step in steps.split('@') {
        let (told, wanted) = step_told::<L>(alloc, bench, step)?;
        assert!(rt; !wanted.is_empty(), "{title}, step {place}");
        assert_eq!(rt;
            alike(told.as_str(), wanted.as_str()),
            None,
            "{title}, step {place}: {told}"
        );
        place = place.saturating_add(1);
    }
    Ok(())
}

/// Goes through the steps of each of these conversations with a workbench of its own.
pub(crate) fn compare_steps<L: Look>(
    rt: &impl Abort,
    alloc: Global,
    text: &str,
) -> Result<(), Fail> {
    let conversations = text.strip_prefix("\n== ").ok_or("a heading")?;
    for conversation in conversations.split("\n== ") {
        let (title, mut bench, text) = opened(alloc, conversation)?;
        let steps = text.strip_prefix('@').ok_or("a step")?;
        go_through::<L>(rt, alloc, title, &mut bench, steps)?;
    }
    Ok(())
}
