//! What a workbench shows after the calls of its callers: its records, keys, revisions and what is known of a key.
use crate::conversation::{Look, compare_steps};
use crate::jobs::{key_of, shown};
use fb_text::Name;
use fb_wire::bench::{Bench, Call, Limits, Reply};
use fb_wire::jobs::Kind;
use std::alloc::{AllocError, Global};
use std::test::Fail;

/// What a workbench shows by itself.
struct Calls;

impl Look for Calls {
    fn look(alloc: Global, bench: &mut Bench, look: &str) -> Result<String, Fail> {
        let (what, of) = look.split_once(' ').unwrap_or((look, ""));
        match what {
            "keys" => Ok(keys_told(alloc, bench)?),
            "start" => Ok(start_told(alloc, bench)?),
            "records" => records_told(alloc, bench, of),
            "began" => began_told(alloc, bench, of),
            "revision" => Ok(bench.revision(&Name::read(of)?).to_string(alloc)?),
            "checkpoint" => checkpoint_told(alloc, bench, of),
            _ => Err(Fail::from("a look of no kind")),
        }
    }
}

// How many keys are pending; then all keys in order, with what is known of each, and whether it is handed out.
fn keys_told(alloc: Global, bench: &Bench) -> Result<String, AllocError> {
    let mut told = format!(in alloc; "{} pending", bench.pending_count())?;
    for place in 0..bench.key_count() {
        if let Some(key) = bench.key_at(place) {
            let shown = shown(bench, &key);
            let out = if bench.is_out(&key) { " out" } else { "" };
            write!(told, ", {:?} {} {shown}{out}", key.kind, key.unit.as_str())?;
        }
    }
    Ok(told)
}

// How many calls came before the start and how many since; what the history begins with, the turns of callers 1 to 3 among it.
fn start_told(alloc: Global, bench: &Bench) -> Result<String, AllocError> {
    let (start, before, since) = (bench.start(), bench.before(), bench.len());
    let (units, commits) = (start.library().len(), start.commits());
    let turns = (start.turns(1), start.turns(2), start.turns(3));
    format!(in alloc; "calls {before} + {since}, units {units}, commits {commits}, turns {turns:?}")
}

// The callers of the records of these numbers, their turns, and whether they asked and were given a value.
fn records_told(alloc: Global, bench: &Bench, numbers: &str) -> Result<String, Fail> {
    let mut told = String::new(alloc);
    for number in numbers.split(' ') {
        told.push_str(if told.is_empty() { "" } else { ", " })?;
        match bench.record(number.parse()?) {
            None => told.push_str("none")?,
            Some(record) => {
                let is_ask = matches!(record.call(), Call::Ask(_));
                let is_value = is_ask && matches!(record.reply(), Reply::Value(_));
                let reply = if is_value { "value" } else { "another" };
                write!(
                    told,
                    "caller {} turn {} {reply}",
                    record.caller(),
                    record.turn()
                )?;
            }
        }
    }
    Ok(told)
}

// Of which of these units the faults were pending at the start, and of which they were handed out.
fn began_told(alloc: Global, bench: &Bench, units: &str) -> Result<String, Fail> {
    let mut told = String::new(alloc);
    for unit in units.split(' ') {
        let key = key_of(Kind::Faults, unit)?;
        let start = bench.start();
        let pending = if start.is_pending(&key) {
            " pending"
        } else {
            ""
        };
        let out = if start.is_out(&key) { " out" } else { "" };
        let comma = if told.is_empty() { "" } else { ", " };
        write!(told, "{comma}{unit}{pending}{out}")?;
    }
    Ok(told)
}

fn checkpoint_told(alloc: Global, bench: &mut Bench, limits: &str) -> Result<String, Fail> {
    let (units, history) = limits.split_once(' ').ok_or("limits")?;
    let limits = Limits::new(units.parse()?, history.parse()?).ok_or("limits")?;
    let found = bench.checkpoint(limits);
    Ok(format!(in alloc; "{found:?}")?)
}

const CONVERSATIONS: &str = r#"
== A commit on an old base is refused / 4 / 100
@1 {"op":"commit","changes":[{"put":"A","base":0,"text":"FUNCTION_BLOCK A END_FUNCTION_BLOCK"}]} => {"commit":1}
{"op":"commit","changes":[{"put":"A","base":1,"text":"FUNCTION_BLOCK A END_FUNCTION_BLOCK"}]} => {"commit":2}
{"op":"take"} => {"job":1,"kind":"faults","unit":"A"}
{"op":"deliver","job":1} => {"delivered":"accepted"}
{"op":"commit","changes":[{"put":"A","base":1,"text":"FUNCTION_BLOCK A FBS X:B; END_FBS END_FUNCTION_BLOCK"}]} => {"current":2,"refused":"StaleBase","unit":"A"}
@2 {"op":"ask","kind":"faults","unit":"A"} => {"faults":[]}
@keys => 0 pending, Faults A value
@records 6 0 7 => caller 2 turn 1 value, none, none

== No call is recorded past the limit / 1 / 3
@2 {"op":"ask","kind":"faults","unit":"A"} => {"refused":"NoSuchKey"}
{"op":"ask","kind":"faults","unit":"A"} => {"refused":"NoSuchKey"}
{"op":"ask","kind":"faults","unit":"A"} => {"refused":"NoSuchKey"}
@1 {"op":"ask","kind":"faults","unit":"A"} => {"refused":"HistoryFull"}
{"op":"take"} => {"refused":"HistoryFull"}
@start => calls 0 + 3, units 0, commits 0, turns (0, 0, 0)

== A unit too many is refused / 1 / 100
@1 {"op":"commit","changes":[{"put":"A","base":0,"text":"FUNCTION_BLOCK A END_FUNCTION_BLOCK"}]} => {"commit":1}
{"op":"commit","changes":[{"put":"B","base":0,"text":"FUNCTION_BLOCK A END_FUNCTION_BLOCK"}]} => {"refused":"TooManyUnits"}
{"op":"commit","changes":[{"put":"B","base":0,"text":"FUNCTION_BLOCK A END_FUNCTION_BLOCK"},{"remove":"A","base":1}]} => {"commit":2}
@revision A => 0
@revision B => 2

== A key that is given back is taken again / 4 / 100
@1 {"op":"commit","changes":[{"put":"A","base":0,"text":"FUNCTION_BLOCK A END_FUNCTION_BLOCK"}]} => {"commit":1}
@keys => 1 pending, Faults A pending
@1 {"op":"take"} => {"job":1,"kind":"faults","unit":"A"}
@2 {"op":"take"} => {"job":0}
@keys => 1 pending, Faults A pending out
@2 {"op":"ask","kind":"faults","unit":"A"} => {"answer":"pending"}
@keys => 1 pending, Faults A pending out
@2 {"op":"give_back","kind":"faults","unit":"A"} => {"returned":true}
@keys => 1 pending, Faults A pending
@1 {"op":"take"} => {"job":1,"kind":"faults","unit":"A"}
{"op":"deliver","job":1} => {"delivered":"accepted"}
{"op":"deliver","job":1} => {"refused":"NotPending"}
@keys => 0 pending, Faults A value
@2 {"op":"give_back","kind":"faults","unit":"A"} => {"returned":false}
@keys => 0 pending, Faults A value

== A type is added, changed and removed while jobs run for it and for a unit that uses it / 4 / 100
@1 {"op":"commit","changes":[{"put":"A","base":0,"text":"FUNCTION_BLOCK A FBS X:B; END_FBS END_FUNCTION_BLOCK"}]} => {"commit":1}
{"op":"take"} => {"job":1,"kind":"faults","unit":"A"}
{"op":"commit","changes":[{"put":"B","base":0,"text":"FUNCTION_BLOCK A END_FUNCTION_BLOCK"}]} => {"commit":2}
{"op":"deliver","job":1} => {"refused":"Stale","unit":"B"}
{"op":"take"} => {"job":2,"kind":"faults","unit":"A"}
{"op":"take"} => {"job":3,"kind":"faults","unit":"B"}
{"op":"deliver","job":3} => {"delivered":"accepted"}
{"op":"deliver","job":2} => {"delivered":"accepted"}
{"op":"deliver","job":2} => {"refused":"NotPending"}
@2 {"op":"ask","kind":"faults","unit":"A"} => {"faults":[]}
{"op":"ask","kind":"faults","unit":"B"} => {"faults":[["NAME_DIFFERS",15,16]]}
@keys => 0 pending, Faults A value, Faults B value
@1 {"op":"commit","changes":[{"put":"B","base":2,"text":"FUNCTION_BLOCK A END_FUNCTION_BLOCK"}]} => {"commit":3}
@2 {"op":"ask","kind":"faults","unit":"A"} => {"answer":"pending"}
@keys => 2 pending, Faults A pending, Faults B pending
@1 {"op":"take"} => {"job":1,"kind":"faults","unit":"A"}
{"op":"take"} => {"job":2,"kind":"faults","unit":"B"}
{"op":"commit","changes":[{"remove":"B","base":3}]} => {"commit":4}
{"op":"deliver","job":1} => {"refused":"Stale","unit":"B"}
{"op":"deliver","job":2} => {"refused":"NoSuchKey"}
{"op":"take"} => {"job":3,"kind":"faults","unit":"A"}
{"op":"deliver","job":3} => {"delivered":"accepted"}
@2 {"op":"ask","kind":"faults","unit":"A"} => {"faults":[["UNKNOWN_TYPE",23,24]]}
@keys => 0 pending, Faults A value
@2 {"op":"ask","kind":"faults","unit":"B"} => {"refused":"NoSuchKey"}
{"op":"take"} => {"job":0}

== A text that is put again is another revision / 4 / 100
@1 {"op":"commit","changes":[{"put":"A","base":0,"text":"FUNCTION_BLOCK A END_FUNCTION_BLOCK"}]} => {"commit":1}
{"op":"take"} => {"job":1,"kind":"faults","unit":"A"}
{"op":"commit","changes":[{"put":"A","base":1,"text":"FUNCTION_BLOCK A FBS X:B; END_FBS END_FUNCTION_BLOCK"}]} => {"commit":2}
{"op":"commit","changes":[{"put":"A","base":2,"text":"FUNCTION_BLOCK A END_FUNCTION_BLOCK"}]} => {"commit":3}
{"op":"deliver","job":1} => {"refused":"Stale","unit":"A"}
@2 {"op":"ask","kind":"faults","unit":"A"} => {"answer":"pending"}
@keys => 1 pending, Faults A pending

== Refused commits are recorded / 4 / 100
@1 {"op":"commit","changes":[]} => {"refused":"NoChange"}
{"op":"commit","changes":[{"remove":"A","base":1}]} => {"refused":"NoSuchUnit","unit":"A"}
{"op":"commit","changes":[{"remove":"A","base":1},{"put":"A","base":0,"text":"FUNCTION_BLOCK A END_FUNCTION_BLOCK"}]} => {"refused":"SameUnitTwice","unit":"A"}
{"op":"commit","changes":[{"put":"A","base":0,"text":"FUNCTION_BLOCK A END_FUNCTION_BLOCK"},{"put":"A","base":0,"text":"FUNCTION_BLOCK A END_FUNCTION_BLOCK"},{"put":"A","base":0,"text":"FUNCTION_BLOCK A END_FUNCTION_BLOCK"},{"put":"A","base":0,"text":"FUNCTION_BLOCK A END_FUNCTION_BLOCK"},{"put":"A","base":0,"text":"FUNCTION_BLOCK A END_FUNCTION_BLOCK"},{"put":"A","base":0,"text":"FUNCTION_BLOCK A END_FUNCTION_BLOCK"},{"put":"A","base":0,"text":"FUNCTION_BLOCK A END_FUNCTION_BLOCK"},{"put":"A","base":0,"text":"FUNCTION_BLOCK A END_FUNCTION_BLOCK"},{"put":"A","base":0,"text":"FUNCTION_BLOCK A END_FUNCTION_BLOCK"},{"put":"A","base":0,"text":"FUNCTION_BLOCK A END_FUNCTION_BLOCK"},{"put":"A","base":0,"text":"FUNCTION_BLOCK A END_FUNCTION_BLOCK"},{"put":"A","base":0,"text":"FUNCTION_BLOCK A END_FUNCTION_BLOCK"},{"put":"A","base":0,"text":"FUNCTION_BLOCK A END_FUNCTION_BLOCK"},{"put":"A","base":0,"text":"FUNCTION_BLOCK A END_FUNCTION_BLOCK"},{"put":"A","base":0,"text":"FUNCTION_BLOCK A END_FUNCTION_BLOCK"},{"put":"A","base":0,"text":"FUNCTION_BLOCK A END_FUNCTION_BLOCK"},{"put":"A","base":0,"text":"FUNCTION_BLOCK A END_FUNCTION_BLOCK"}]} => {"refused":"TooManyChanges"}
@start => calls 0 + 4, units 0, commits 0, turns (0, 0, 0)

== Keys of all three kinds; the plan of a system is taken, given back and delivered, and then the system is removed / 4 / 100
@1 plant => {"commit":1}
{"op":"work","turns":5} => {"accepted":5}
{"op":"take"} => {"job":1,"kind":"deploy","unit":"Y"}
@keys => 1 pending, Faults SA value, Faults TN value, Faults Y value, Net SA value, Net Y value, Deploy Y pending out
@2 {"op":"give_back","kind":"deploy","unit":"Y"} => {"returned":true}
{"op":"give_back","kind":"deploy","unit":"Y"} => {"returned":false}
{"op":"give_back","kind":"net","unit":"TN"} => {"returned":false}
{"op":"take"} => {"job":1,"kind":"deploy","unit":"Y"}
{"op":"deliver","job":1} => {"delivered":"accepted"}
{"op":"deliver","job":1} => {"refused":"NotPending"}
{"op":"commit","changes":[{"remove":"Y","base":1}]} => {"commit":2}
{"op":"deliver","job":1} => {"refused":"NoSuchKey"}
{"op":"ask","kind":"net","unit":"Y"} => {"refused":"NoSuchKey"}
@keys => 0 pending, Faults SA value, Faults TN value, Net SA value

== Two callers make six calls, and after a checkpoint another one. Records, turns and commits go on / 4 / 100
@start => calls 0 + 0, units 0, commits 0, turns (0, 0, 0)
@began A => A
@checkpoint 4 100 => Ok(0)
@1 {"op":"commit","changes":[{"put":"A","base":0,"text":"FUNCTION_BLOCK A END_FUNCTION_BLOCK"}]} => {"commit":1}
@2 {"op":"ask","kind":"faults","unit":"A"} => {"answer":"pending"}
{"op":"take"} => {"job":1,"kind":"faults","unit":"A"}
{"op":"deliver","job":1} => {"delivered":"accepted"}
{"op":"ask","kind":"faults","unit":"A"} => {"faults":[]}
{"op":"give_back","kind":"faults","unit":"A"} => {"returned":false}
@start => calls 0 + 6, units 0, commits 0, turns (0, 0, 0)
@checkpoint 4 100 => Ok(6)
@start => calls 6 + 0, units 1, commits 1, turns (1, 5, 0)
@records 6 7 => none, none
@began A => A
@revision A => 1
@keys => 0 pending, Faults A value
@2 {"op":"ask","kind":"faults","unit":"A"} => {"faults":[]}
@records 7 8 => caller 2 turn 6 value, none
@start => calls 6 + 1, units 1, commits 1, turns (1, 5, 0)
@checkpoint 1 1 => Ok(7)
@records 7 => none
@start => calls 7 + 0, units 1, commits 1, turns (1, 6, 0)
@checkpoint 4 100 => Ok(7)
@start => calls 7 + 0, units 1, commits 1, turns (1, 6, 0)

== What was pending or out at the start is still told when it is settled. A refused checkpoint changes nothing / 4 / 100
@1 {"op":"commit","changes":[{"put":"A","base":0,"text":"FUNCTION_BLOCK A END_FUNCTION_BLOCK"},{"put":"B","base":0,"text":""}]} => {"commit":1}
{"op":"take"} => {"job":1,"kind":"faults","unit":"A"}
@checkpoint 1 2 => Err(UnitsOver(2))
@start => calls 0 + 2, units 0, commits 0, turns (0, 0, 0)
@began A => A
@checkpoint 2 3 => Ok(2)
@start => calls 2 + 0, units 2, commits 1, turns (2, 0, 0)
@began A B C => A pending out, B pending, C
@1 {"op":"take"} => {"job":1,"kind":"faults","unit":"B"}
{"op":"deliver","job":1} => {"delivered":"accepted"}
{"op":"commit","changes":[{"remove":"A","base":1}]} => {"commit":2}
{"op":"take"} => {"refused":"HistoryFull"}
@keys => 0 pending, Faults B value
@revision A => 0
@start => calls 2 + 3, units 2, commits 1, turns (2, 0, 0)
@began A B => A pending out, B pending
@checkpoint 1 1 => Ok(5)
@start => calls 5 + 0, units 1, commits 2, turns (5, 0, 0)
@began A B => A, B
"#;

#[test]
fn conversations(rt: HostRuntime) -> Result<(), Fail> {
    compare_steps::<Calls>(&rt, rt.alloc(), CONVERSATIONS)
}

#[test]
fn limits_have_ranges() {
    prove!(Limits::new(0, 1).is_none());
    prove!(Limits::new(1, 0).is_none());
    prove!(Limits::new(1, 1_000_001).is_some());
    prove!(Limits::new(16_384, 10_000_000).is_some());
    prove!(Limits::new(1, 10_000_001).is_none());
    prove!(Limits::new(16_385, 1).is_none());
}
