//! A subapplication of 4,096 instances. A commit, a take and a result of it make fewer than a thousand allocations, since they compute and copy
//! no value; the job that composes its flat network makes more, one for the path of each instance at least.
use crate::nest::{puts, work};
use fb_bench::{Bench, Committed, Delivered, Limits, Taken};
use fb_jobs::{Finished, Job};
use refusing::{Refusals, refuse, report, was_refused};
use std::alloc::Global;
use std::test::Fail;

const INSTANCES: u32 = 4096;

const THOUSANDTH: u32 = 1000;

// The type of the instances, and a subapplication that holds the large one.
const TYPE: &[&str] = &["FUNCTION_BLOCK T END_FUNCTION_BLOCK"];

const OUTER: &[&str] = &["SUBAPPLICATION R SUBAPPS X:S; END_SUBAPPS END_SUBAPPLICATION"];

fn large_text(alloc: Global) -> Result<String, Fail> {
    let mut text = String::new(alloc);
    text.push_str("SUBAPPLICATION S FBS ")?;
    for number in 0..INSTANCES {
        write!(text, "N{number}:T;")?;
    }
    text.push_str(" END_FBS END_SUBAPPLICATION")?;
    Ok(text)
}

// Commits, which makes no thousand allocations, and does the first job then.
fn commit(alloc: Global, bench: &mut Bench, texts: &[&str]) -> Result<(), Fail> {
    let changes = puts(alloc, 0, texts)?;
    refuse(alloc, THOUSANDTH);
    let is_done = matches!(bench.commit(1, &changes), Ok(Committed::Done(_)));
    if was_refused(alloc) || !is_done {
        return Err(Fail::from("a commit"));
    }
    work(alloc, bench)
}

// the job of a take that makes no thousand allocations
fn take(alloc: Global, bench: &mut Bench) -> Result<Job, Fail> {
    refuse(alloc, THOUSANDTH);
    let taken = bench.take(1);
    if was_refused(alloc) {
        return Err(Fail::from("a take"));
    }
    match taken? {
        Taken::Job(job) => Ok(job),
        Taken::Nothing => Err(Fail::from("no job")),
    }
}

// Runs a job of which that allocation is refused, and then with ample memory. Whether it was refused: just then the job finds no memory.
fn run(alloc: Global, job: &Job) -> Result<(bool, Finished), Fail> {
    refuse(alloc, THOUSANDTH);
    let is_memory = job.run(alloc).is_err();
    let is_refused = was_refused(alloc);
    if is_memory != is_refused {
        return Err(Fail::from("a job"));
    }
    Ok((is_refused, job.run(alloc)?))
}

// Does the next job. Its delivery makes no thousand allocations. Whether the job was refused one.
fn settle(alloc: Global, bench: &mut Bench) -> Result<bool, Fail> {
    let job = take(alloc, bench)?;
    let (is_refused, finished) = run(alloc, &job)?;
    refuse(alloc, THOUSANDTH);
    let is_accepted = matches!(bench.deliver(1, &finished), Ok(Delivered::Accepted));
    if was_refused(alloc) || !is_accepted {
        return Err(Fail::from("a result"));
    }
    Ok(is_refused)
}

// Whether the job for the net of the large subapplication was refused an allocation, and how many nets that for the outer one takes along.
fn worked(alloc: Global) -> Result<(bool, usize), Fail> {
    let limits = Limits::new(3, 100).ok_or("limits")?;
    let mut bench = Bench::new(alloc, limits);
    commit(alloc, &mut bench, TYPE)?;
    let text = large_text(alloc)?;
    commit(alloc, &mut bench, &[text.as_str()])?;
    let is_refused = settle(alloc, &mut bench)?;
    commit(alloc, &mut bench, OUTER)?;
    Ok((is_refused, take(alloc, &mut bench)?.hints().len()))
}

#[test]
fn a_thousand_allocations(rt: HostRuntime) -> Result<(), Fail> {
    let (is_refused, hints) = worked(rt.alloc())?;
    let found = Refusals {
        allocations: u32::from(is_refused),
        memory: u32::from(is_refused),
    };
    report(&rt, "the 1,000th of Job::run", " of 4,096 instances", found)?;
    assert_eq!(rt; hints, 1);
    Ok(())
}
