//! Jobs with what they read, results that come from another workbench, and calls that are made as requests.
use crate::conversation::{Look, compare_steps, converse, new_bench};
use fb_library::Change;
use fb_library::parse::Source;
use fb_text::Name;
use fb_wire::bench::{Answered, Bench, Call, Delivered, Request, Shown, Taken, TextChange};
use fb_wire::jobs::{Finished, Job, Key, Kind};
use std::alloc::{AllocError, Global};
use std::process::Abort;
use std::test::Fail;

pub(crate) fn key_of(kind: Kind, unit: &str) -> Result<Key, Fail> {
    let unit = Name::read(unit)?;
    Ok(Key { kind, unit })
}

/// The key in words such as `faults A`.
pub(crate) fn key_in(words: &str) -> Result<Key, Fail> {
    match words.split_once(' ') {
        Some(("faults", unit)) => key_of(Kind::Faults, unit),
        Some(("net", unit)) => key_of(Kind::Net, unit),
        Some(("deploy", unit)) => key_of(Kind::Deploy, unit),
        _ => Err(Fail::from("a key")),
    }
}

/// What is known of a key, in a word.
pub(crate) fn shown(bench: &Bench, key: &Key) -> &'static str {
    let shown = bench.peek(key);
    match &shown {
        Shown::NoSuchKey => "none",
        Shown::Pending => "pending",
        Shown::Value(_) => "value",
    }
}

// The job for a key, which is one of the next eight.
fn job_for(bench: &mut Bench, key: Key) -> Result<Job, Fail> {
    for _ in 0..8u8 {
        if let Taken::Job(job) = bench.take(1)? {
            if job.key() == key {
                return Ok(job);
            }
        }
    }
    Err(Fail::from("no such job"))
}

/// What jobs of a workbench show. The result of a job is delivered, and accepted.
pub(crate) struct Jobs;

impl Look for Jobs {
    fn look(alloc: Global, bench: &mut Bench, look: &str) -> Result<String, Fail> {
        let (what, key) = look.split_once(' ').ok_or("a look")?;
        let key = key_in(key)?;
        match what {
            "shown" => Ok(shown(bench, &key).to_string(alloc)?),
            "next" => next_told(alloc, bench, key),
            _ => job_told(alloc, bench, what, key),
        }
    }
}

// The nets that the next job takes along, which is for this key.
fn next_told(alloc: Global, bench: &mut Bench, key: Key) -> Result<String, Fail> {
    if let Taken::Job(job) = bench.take(1)? {
        if job.key() == key {
            return Ok(hints_told(alloc, &job)?);
        }
    }
    Err(Fail::from("another job"))
}

// What a job for the key and its result have read, the nets that it takes along, or those that its result has found.
fn job_told(alloc: Global, bench: &mut Bench, what: &str, key: Key) -> Result<String, Fail> {
    let job: Job = job_for(bench, key)?;
    let finished = job.run(alloc)?;
    if bench.deliver(1, &finished)? != Delivered::Accepted {
        return Err(Fail::from("not accepted"));
    }
    match what {
        "reads" => Ok(reads_told(alloc, &job, &finished)?),
        "along" => Ok(hints_told(alloc, &job)?),
        "finds" => Ok(found_told(alloc, &finished)?),
        _ => Err(Fail::from("a look of no kind")),
    }
}

// The names that were read with their revisions, and which of them have no source.
fn reads_told(alloc: Global, job: &Job, finished: &Finished) -> Result<String, AllocError> {
    let is_same = job.key() == finished.key();
    let mut told = String::from_str(alloc, if is_same { "" } else { "another key, " })?;
    for (whose, reads) in [("job", job.reads()), (", result", finished.reads())] {
        told.push_str(whose)?;
        for read in reads {
            let absent = if read.source.is_none() { " absent" } else { "" };
            write!(told, " {} {}{absent}", read.name.as_str(), read.revision)?;
        }
    }
    Ok(told)
}

fn hints_told(alloc: Global, job: &Job) -> Result<String, AllocError> {
    let mut told = String::from_str(alloc, "nets")?;
    for hint in job.hints() {
        write!(told, " {}", hint.unit.as_str())?;
    }
    Ok(told)
}

fn found_told(alloc: Global, finished: &Finished) -> Result<String, AllocError> {
    let mut told = String::from_str(alloc, "nets")?;
    for found in finished.found() {
        write!(told, " {}", found.unit.as_str())?;
    }
    Ok(told)
}

const CONVERSATIONS: &str = r#"
== A job reads one text / 4 / 100
@1 {"op":"commit","changes":[{"put":"A","base":0,"text":"FUNCTION_BLOCK A EVENT_INPUT"}]} => {"commit":1}
@shown faults A => pending
@reads faults A => job A 1, result A 1
@1 {"op":"ask","kind":"faults","unit":"A"} => {"faults":[["SYNTAX",28,28]]}

== A job reads a text and one that is absent / 4 / 100
@1 {"op":"commit","changes":[{"put":"S","base":0,"text":"SUBAPPLICATION S FBS X:T; END_FBS END_SUBAPPLICATION"}]} => {"commit":1}
@shown net S => pending
@reads net S => job S 1 T 0 absent, result S 1 T 0 absent
@1 {"op":"ask","kind":"net","unit":"S"} => {"net":{"blocked":["S","T"]}}

== A job reads all that a system rests on / 4 / 100
@1 plant => {"commit":1}
@shown deploy Y => pending
@reads deploy Y => job SA 1 TN 1 Y 1, result SA 1 TN 1 Y 1
@1 {"op":"ask","kind":"deploy","unit":"Y"} => {"deploy":{"cuts":[["event","APP.SUB.F.O","APP.SUB.G.I"]],"resources":[["D.R1",["CREATE FB APP.SUB.G TN","CREATE FB APP.SUB.H TN","WRITE APP.SUB.G.DT T#250ms","CREATE CONNECTION APP.SUB.G.O APP.SUB.H.I","START D.R1"]],["D.R2",["CREATE FB APP.SUB.F TN","START D.R2"]]]}}
"#;

#[test]
fn jobs_of_one_text(rt: HostRuntime) -> Result<(), Fail> {
    compare_steps::<Jobs>(&rt, rt.alloc(), CONVERSATIONS)
}

const EMPTY: &str = r#"
== An empty text has the key of its faults alone / 4 / 100
@1 {"op":"commit","changes":[{"put":"B","base":0,"text":""}]} => {"commit":1}
@shown faults A => none
@shown net A => none
@shown net B => none
@shown deploy A => none
@shown deploy B => none
@shown faults B => pending
"#;

#[test]
fn keys_of_an_empty_text(rt: HostRuntime) -> Result<(), Fail> {
    compare_steps::<Jobs>(&rt, rt.alloc(), EMPTY)
}

// Keys that follow each other: by kind, and then by unit.
const KEYS: &[&str] = &[
    "faults A", "faults B", "net A", "net B", "deploy A", "deploy B",
];

#[test]
fn keys_in_order(rt: HostRuntime) -> Result<(), Fail> {
    for place in 1..KEYS.len() {
        let (first, next) = (key_in(KEYS[place - 1])?, key_in(KEYS[place])?);
        assert!(rt; first < next, "{place}");
    }
    Ok(())
}

const PLAIN: &str = "FUNCTION_BLOCK A END_FUNCTION_BLOCK";

// It has another name in it, mentions as little as the plain text does, or rests on B.
const OTHERS: [&str; 3] = [
    "FUNCTION_BLOCK B END_FUNCTION_BLOCK",
    "FUNCTION_BLOCK A EVENT_INPUT E; END_EVENT END_FUNCTION_BLOCK",
    "FUNCTION_BLOCK A FBS X:B; END_FBS END_FUNCTION_BLOCK",
];

/// Adds a change that puts a unit, which has this revision.
pub(crate) fn put(
    alloc: Global,
    changes: &mut Vec<Change>,
    unit: &str,
    base: u64,
    text: &str,
) -> Result<(), Fail> {
    let source = Source::read(alloc, Name::read(unit)?, text)?;
    changes.push(Change::Put { base, source })?;
    Ok(())
}

// A new workbench with this text of A.
fn bench_with(rt: &impl Abort, alloc: Global, text: &str) -> Result<Bench, Fail> {
    let mut bench = new_bench(alloc, 4, 100)?;
    let commit = format!(in alloc;
        r#"{{"op":"commit","changes":[{{"put":"A","base":0,"text":"{text}"}}]}} => {{"commit":1}}"#
    )?;
    converse(rt, alloc, &mut bench, 1, commit.as_str())?;
    Ok(bench)
}

// The result of a new workbench for the faults of A, which has this text.
fn result_with(rt: &impl Abort, alloc: Global, text: &str) -> Result<Finished, Fail> {
    let mut bench = bench_with(rt, alloc, text)?;
    let job: Job = job_for(&mut bench, key_in("faults A")?)?;
    Ok(job.run(alloc)?)
}

const TAKEN_IN: &str = r#"
{"op":"take"} => {"job":1,"kind":"faults","unit":"A"}
{"op":"deliver","job":1} => {"delivered":"accepted"}
{"op":"deliver","job":1} => {"refused":"NotPending"}
{"op":"ask","kind":"faults","unit":"A"} => {"faults":[]}
"#;

// A result of another workbench, which holds another text at the same revision, is stale.
#[test]
fn a_result_of_another_text(rt: HostRuntime) -> Result<(), Fail> {
    let mut bench: Bench = bench_with(&rt, rt.alloc(), PLAIN)?;
    for text in OTHERS {
        let strange = result_with(&rt, rt.alloc(), text)?;
        let is_stale = bench.deliver(1, &strange)? == Delivered::Stale(Name::read("A")?);
        assert!(rt; is_stale, "{text}");
    }
    converse(&rt, rt.alloc(), &mut bench, 1, TAKEN_IN)?;
    assert_eq!(rt; shown(&bench, &key_in("faults A")?), "value");
    Ok(())
}

// The changes that a workbench has recorded first, with their texts read anew.
fn recorded(alloc: Global, bench: &Bench) -> Result<Vec<Change>, Fail> {
    let record = bench.record(1).ok_or("a record")?;
    let mut changes = Vec::new(alloc);
    if let Call::Commit(recorded) = record.call() {
        for change in recorded.iter() {
            match change {
                TextChange::Put { unit, base, text } => {
                    put(alloc, &mut changes, unit.as_str(), *base, text.as_str())?;
                }
                TextChange::Remove { unit, base } => changes.push(Change::Remove {
                    unit: *unit,
                    base: *base,
                })?,
            }
        }
    }
    Ok(changes)
}

const KNOWN: &str = r#"
{"op":"ask","kind":"faults","unit":"A"} => {"faults":[]}
"#;

// Whether a call of caller 3 is its call of this number, and hands out a job or not.
fn is_made(
    bench: &mut Bench,
    request: &Request<'_>,
    turn: u64,
    has_job: bool,
) -> Result<bool, Fail> {
    let (record, answer) = bench.perform(3, request)?;
    let is_job = matches!(&answer, Answered::Take(Taken::Job(_)));
    Ok(record.turn() == turn && is_job == has_job)
}

// Whether each call is made as a request, with a result of another workbench.
fn are_made<'a>(
    bench: &mut Bench,
    changes: &'a [Change],
    finished: &'a Finished,
    key: Key,
) -> Result<bool, Fail> {
    let requests = [
        Request::Commit(changes),
        Request::Take,
        Request::Deliver(finished),
        Request::GiveBack(key),
        Request::Ask(key),
    ];
    for place in 0..requests.len() {
        if !is_made(bench, &requests[place], place as u64 + 1, place == 1)? {
            return Ok(false);
        }
    }
    Ok(true)
}

// Each call is made as a request, with what another workbench has committed and worked out.
#[test]
fn calls_as_requests(rt: HostRuntime) -> Result<(), Fail> {
    let other = bench_with(&rt, rt.alloc(), PLAIN)?;
    let changes = recorded(rt.alloc(), &other)?;
    let finished = result_with(&rt, rt.alloc(), PLAIN)?;
    let key = key_in("faults A")?;
    let mut bench: Bench = new_bench(rt.alloc(), 4, 100)?;
    assert!(rt; are_made(&mut bench, &changes, &finished, key)?);
    converse(&rt, rt.alloc(), &mut bench, 2, KNOWN)?;
    assert_eq!(rt; shown(&bench, &key), "value");
    Ok(())
}
