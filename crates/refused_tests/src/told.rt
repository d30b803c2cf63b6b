//! In words, all that can be read of a workbench.
use fb_bench::{Bench, Call, Committed, GivenBack, Reply, Shown};
use fb_jobs::{Key, Value};
use std::alloc::{AllocError, Global};

fn call_word(call: &Call) -> &'static str {
    match call {
        Call::Commit(_) => "commit",
        Call::Take => "take",
        Call::Deliver(_) => "deliver",
        Call::GiveBack(_) => "give back",
        Call::Ask(_) => "ask",
    }
}

/// The result of a commit.
pub(crate) fn committed_word(answer: &Committed) -> &'static str {
    match answer {
        Committed::Done(_) => "done",
        _ => "not done",
    }
}

/// The result of a key that is given back.
pub(crate) fn returned_word(answer: &GivenBack) -> &'static str {
    match answer {
        GivenBack::Returned => "returned",
        GivenBack::NothingOut => "nothing out",
    }
}

/// The result of a call.
pub(crate) fn reply_word(reply: &Reply) -> &'static str {
    match reply {
        Reply::Committed(answer) => committed_word(answer),
        Reply::Job(_) => "job",
        Reply::Nothing => "nothing",
        Reply::Accepted => "accepted",
        Reply::NotAccepted(_) => "not accepted",
        Reply::GivenBack(answer) => returned_word(answer),
        Reply::Value(_) => "value",
        Reply::Pending => "pending",
        Reply::NoSuchKey => "no key",
    }
}

fn say_records(told: &mut String, bench: &Bench) -> Result<(), AllocError> {
    for number in 0..bench.last_number() {
        if let Some(record) = bench.record(number + 1) {
            let (caller, turn) = (record.caller(), record.turn());
            let (call, reply) = (call_word(record.call()), reply_word(record.reply()));
            write!(told, "\n{caller}.{turn} {call}: {reply}")?;
        }
    }
    Ok(())
}

fn shown_word(shown: &Shown<'_>) -> &'static str {
    match shown {
        Shown::Value(Value::Faults(_)) => "faults",
        Shown::Value(Value::Net(_)) => "net",
        Shown::Value(Value::Deploy(_)) => "plan",
        Shown::Pending => "pending",
        Shown::NoSuchKey => "no key",
    }
}

// What is known of a key, what was known of it at the start, and how many units are near its own.
fn say_key(told: &mut String, alloc: Global, bench: &Bench, key: &Key) -> Result<(), AllocError> {
    let (kind, unit) = (key.kind, key.unit);
    let (is_out, revision) = (bench.is_out(key), bench.revision(&unit));
    let shown = shown_word(&bench.peek(key));
    let start = bench.start();
    let (was_pending, was_out) = (start.is_pending(key), start.is_out(key));
    let near = bench.index().near_of(alloc, &[key.unit])?.len();
    write!(told, "\n{kind:?} {unit} {revision} {is_out} {shown}")?;
    write!(told, " {was_pending} {was_out} {near}")
}

fn say_keys(told: &mut String, alloc: Global, bench: &Bench) -> Result<(), AllocError> {
    for place in 0..bench.key_count() {
        if let Some(key) = bench.key_at(place) {
            say_key(told, alloc, bench, &key)?;
        }
    }
    let pending = bench.pending_count();
    write!(told, "\n{pending} pending")
}

// How much there is, and how much there was at the start.
fn say_counts(told: &mut String, bench: &Bench) -> Result<(), AllocError> {
    let (len, last) = (bench.len(), bench.last_number());
    let (is_full, has_work) = (bench.is_full(), bench.has_work());
    let (first, second) = (bench.turns_of(1), bench.turns_of(2));
    let (pages, start) = (bench.pages().len(), bench.start());
    let (before, commits) = (bench.before(), start.commits());
    let (units, turns) = (start.library().len(), start.turns(1));
    write!(told, "{len} {last} {is_full} {has_work} {first} {second}")?;
    write!(told, " {pages}\nfrom {before} {commits} {units} {turns}")
}

/// All that a workbench shows of itself.
pub(crate) fn bench_told(alloc: Global, bench: &Bench) -> Result<String, AllocError> {
    let mut told = String::new(alloc);
    say_counts(&mut told, bench)?;
    say_records(&mut told, bench)?;
    say_keys(&mut told, alloc, bench)?;
    Ok(told)
}
