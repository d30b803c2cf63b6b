//! Jobs that are made and run, of which each allocation is refused in turn.
use crate::hints::job_taking;
use crate::setup::{NESTED, job_for, key_of, library_of, make};
use crate::told::{finished_told, job_told};
use fb_jobs::{Finished, Job, Key, Kind, has_key};
use fb_library::Library;
use refusing::{Trial, try_call};
use std::alloc::Global;
use std::io::Print;
use std::test::Fail;

/// A key of a library.
#[derive(Clone, Copy)]
struct Wanted<'a> {
    library: &'a Library,
    key: Key,
}

/// A job that is made for such a key.
#[derive(Drop)]
struct Made<'a> {
    wanted: &'a Wanted<'a>,
    job: Option<Job>,
}

impl<'a> Trial for Made<'a> {
    type Setting = &'a Wanted<'a>;

    fn new(_alloc: Global, wanted: &'a Wanted<'a>) -> Result<Made<'a>, Fail> {
        Ok(Made { wanted, job: None })
    }

    fn call(&mut self, alloc: Global) -> bool {
        let wanted = self.wanted;
        if !has_key(wanted.library, wanted.key) {
            return true;
        }
        self.job = make(alloc, wanted.library, wanted.key).ok();
        self.job.is_some()
    }

    fn told(&self, alloc: Global) -> Result<String, Fail> {
        match &self.job {
            Some(job) => Ok(job_told(alloc, job)?),
            None => Ok(String::new(alloc)),
        }
    }
}

/// A job that is run.
#[derive(Drop)]
struct Run<'a> {
    job: &'a Job,
    finished: Option<Finished>,
}

impl<'a> Trial for Run<'a> {
    type Setting = &'a Job;

    fn new(_alloc: Global, job: &'a Job) -> Result<Run<'a>, Fail> {
        Ok(Run {
            job,
            finished: None,
        })
    }

    fn call(&mut self, alloc: Global) -> bool {
        self.finished = self.job.run(alloc).ok();
        self.finished.is_some()
    }

    fn told(&self, alloc: Global) -> Result<String, Fail> {
        match &self.finished {
            Some(finished) => Ok(finished_told(alloc, finished)?),
            None => Ok(String::new(alloc)),
        }
    }
}

/// A key, and what its job is for.
type Row = (Kind, &'static str, &'static str);

const KEYS: &[Row] = &[
    (Kind::Faults, "T", " for faults"),
    (Kind::Net, "T", " for a net"),
    (Kind::Deploy, "Z", " for a plan"),
];

fn try_making(
    rt: &impl Print,
    alloc: Global,
    library: &Library,
    key: Key,
    about: &str,
) -> Result<(), Fail> {
    let wanted = Wanted { library, key };
    try_call::<Made<'_>>(rt, alloc, "Job::make", about, &wanted)
}

fn try_row(rt: &impl Print, alloc: Global, library: &Library, row: &Row) -> Result<(), Fail> {
    let (kind, unit, about) = *row;
    try_making(rt, alloc, library, key_of(kind, unit)?, about)?;
    let job = job_for(alloc, library, key_of(kind, unit)?)?;
    try_call::<Run<'_>>(rt, alloc, "Job::run", about, &job)
}

// Runs a job for the net of T that takes that of M along.
fn try_taking(rt: &impl Print, alloc: Global, library: &Library) -> Result<(), Fail> {
    let job = job_taking(alloc, library, "T", "M")?.ok_or("not taken")?;
    try_call::<Run<'_>>(rt, alloc, "Job::run", " for a net with a kept one", &job)
}

#[test]
fn jobs_are_made_and_run(rt: HostRuntime) -> Result<(), Fail> {
    let library = library_of(rt.alloc(), NESTED)?;
    for row in KEYS {
        try_row(&rt, rt.alloc(), &library, row)?;
    }
    try_taking(&rt, rt.alloc(), &library)
}
