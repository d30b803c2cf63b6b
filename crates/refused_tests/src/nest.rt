//! A nest of subapplications of which half the values are known, and what is handed to the five calls on its workbench.
use fb_bench::{Bench, Limits, Taken};
use fb_jobs::{Finished, Key, Kind};
use fb_shared::library::Change;
use fb_shared::parse::Source;
use fb_text::Name;
use std::alloc::Global;
use std::test::Fail;

// Subapplications in one another, and a system that maps the outer one.
const NEST: &[&str] = &[
    "FUNCTION_BLOCK T EVENT_INPUT I; END_EVENT END_FUNCTION_BLOCK",
    "SUBAPPLICATION INNER EVENT_INPUT E; END_EVENT FBS X:T; END_FBS EVENT_CONNECTIONS E TO X.I; END_CONNECTIONS END_SUBAPPLICATION",
    "SUBAPPLICATION OUTER SUBAPPS Y:INNER; END_SUBAPPS END_SUBAPPLICATION",
    "SYSTEM Z APPLICATION APP SUBAPPS SUB:OUTER; END_SUBAPPS END_APPLICATION DEVICE D:DT RESOURCE R:RT END_RESOURCE END_DEVICE MAPPINGS APP.SUB ON D.R; END_MAPPINGS END_SYSTEM",
];

/// Two blocks without faults.
pub(crate) const PLAIN: &[&str] = &[
    "FUNCTION_BLOCK A END_FUNCTION_BLOCK",
    "FUNCTION_BLOCK B END_FUNCTION_BLOCK",
];

// The innermost type without its event.
const CHANGED: &[&str] = &["FUNCTION_BLOCK T END_FUNCTION_BLOCK"];

/// This number of calls come before: the commit, and two for each of the five jobs. The nets of the outer subapplication and of the system, and
/// the plan, are left.
pub(crate) const BEFORE: u64 = 11;

const JOBS: u32 = 5;

/// Changes that put units with these texts, which are at this revision. The name of a unit is the second word of its text.
pub(crate) fn puts(alloc: Global, base: u64, texts: &[&str]) -> Result<Vec<Change>, Fail> {
    let mut changes = Vec::new(alloc);
    for text in texts {
        let unit = text.split_whitespace().nth(1).ok_or("no name")?;
        let source = Source::read(alloc, Name::read(unit)?, text)?;
        changes.push(Change::Put { base, source })?;
    }
    Ok(changes)
}

// The result of the next job of a workbench.
fn result_of(alloc: Global, bench: &mut Bench) -> Result<Finished, Fail> {
    match bench.take(1)? {
        Taken::Job(job) => Ok(job.run(alloc)?),
        Taken::Nothing => Err(Fail::from("no job")),
    }
}

/// Takes a job, runs it and delivers the result.
pub(crate) fn work(alloc: Global, bench: &mut Bench) -> Result<(), Fail> {
    let finished = result_of(alloc, bench)?;
    bench.deliver(1, &finished)?;
    Ok(())
}

/// A workbench with the nest half done, and with room for this number of records.
pub(crate) fn begun(alloc: Global, history: u64) -> Result<Bench, Fail> {
    let limits = Limits::new(5, history).ok_or("limits")?;
    let mut bench = Bench::new(alloc, limits);
    bench.commit(1, &puts(alloc, 0, NEST)?)?;
    for _ in 0..JOBS {
        work(alloc, &mut bench)?;
    }
    Ok(bench)
}

/// One of the five calls.
#[derive(Clone, Copy)]
pub(crate) enum Which {
    Commit,
    Take,
    Deliver,
    GiveBack,
    Ask,
}

/// The five calls, each with its function and what it is of.
pub(crate) const CALLS: &[(Which, &str, &str)] = &[
    (Which::Commit, "::commit", " of a commit"),
    (Which::Take, "::take", " of a take"),
    (Which::Deliver, "::deliver", " of a result"),
    (Which::GiveBack, "::give_back", " of a key given back"),
    (Which::Ask, "::ask", " of a question"),
];

/// A workbench for such a call, where a key is handed out if it must be given back.
pub(crate) fn bench_for(alloc: Global, which: Which) -> Result<Bench, Fail> {
    let mut bench = begun(alloc, 100)?;
    if let Which::GiveBack = which {
        bench.take(2)?;
    }
    Ok(bench)
}

/// What is handed to the calls: a change of the innermost type, the result of the next job, and its key.
#[derive(Drop)]
pub(crate) struct Given {
    pub(crate) changes: Vec<Change>,
    pub(crate) finished: Finished,
    pub(crate) key: Key,
}

/// What is handed to the calls.
pub(crate) fn given_for(alloc: Global) -> Result<Given, Fail> {
    let mut bench = begun(alloc, 100)?;
    let finished = result_of(alloc, &mut bench)?;
    let changes = puts(alloc, 1, CHANGED)?;
    let key = Key {
        kind: Kind::Net,
        unit: Name::read("OUTER")?,
    };
    Ok(Given {
        changes,
        finished,
        key,
    })
}
