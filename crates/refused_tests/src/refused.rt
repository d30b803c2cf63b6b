//! The calls of a workbench of one thread, of which each allocation is refused in turn.
use crate::nest::{CALLS, Given, Which, bench_for, given_for};
use crate::told::bench_told;
use crate::ways::{Answer, Way, made};
use fb_bench::{Bench, CheckpointRefused, Limits, Refused};
use refusing::{Trial, try_call};
use std::alloc::Global;
use std::io::Print;
use std::test::Fail;

/// A call, the workbench that it is made on, and what it answered.
#[derive(Drop)]
struct Recorded<'a> {
    which: Which,
    way: Way,
    given: &'a Given,
    bench: Bench,
    answer: Option<Result<Answer, Refused>>,
}

impl<'a> Trial for Recorded<'a> {
    type Setting = (Which, Way, &'a Given);

    fn new(alloc: Global, setting: (Which, Way, &'a Given)) -> Result<Recorded<'a>, Fail> {
        let (which, way, given) = setting;
        Ok(Recorded {
            which,
            way,
            given,
            bench: bench_for(alloc, which)?,
            answer: None,
        })
    }

    fn call(&mut self, _alloc: Global) -> bool {
        let answer = made(self.way, self.which, &mut self.bench, self.given);
        if answer == Err(Refused::Memory) {
            return false;
        }
        self.answer = Some(answer);
        true
    }

    fn told(&self, alloc: Global) -> Result<String, Fail> {
        let (mut told, answer) = (bench_told(alloc, &self.bench)?, self.answer);
        write!(told, "\n{answer:?}")?;
        Ok(told)
    }
}

// Tries each of the five calls in this way: by a function of its own, or by the one for all of them.
fn try_all(rt: &impl Print, alloc: Global, owner: &str, way: Way) -> Result<(), Fail> {
    let (given, is_alone) = (given_for(alloc)?, matches!(way, Way::Alone));
    for (which, function, about) in CALLS {
        let about = if is_alone { function } else { about };
        try_call::<Recorded<'_>>(rt, alloc, owner, about, (*which, way, &given))?;
    }
    Ok(())
}

#[test]
fn calls_alone(rt: HostRuntime) -> Result<(), Fail> {
    try_all(&rt, rt.alloc(), "Bench", Way::Alone)
}

#[test]
fn calls_as_requests(rt: HostRuntime) -> Result<(), Fail> {
    try_all(&rt, rt.alloc(), "Bench::perform", Way::AsRequest)
}

#[test]
fn calls_at_a_desk(rt: HostRuntime) -> Result<(), Fail> {
    try_all(&rt, rt.alloc(), "Solo::perform", Way::AtDesk)
}

/// A workbench with pending keys, one of which is handed out, and the number of calls before its checkpoint.
#[derive(Drop)]
struct Checked {
    bench: Bench,
    limits: Limits,
    before: Option<u64>,
}

impl Trial for Checked {
    type Setting = Limits;

    fn new(alloc: Global, limits: Limits) -> Result<Checked, Fail> {
        Ok(Checked {
            bench: bench_for(alloc, Which::GiveBack)?,
            limits,
            before: None,
        })
    }

    fn call(&mut self, _alloc: Global) -> bool {
        match self.bench.checkpoint(self.limits) {
            Ok(before) => {
                self.before = Some(before);
                true
            }
            Err(refused) => refused != CheckpointRefused::Memory,
        }
    }

    fn told(&self, alloc: Global) -> Result<String, Fail> {
        let (mut told, before) = (bench_told(alloc, &self.bench)?, self.before);
        write!(told, "\n{before:?}")?;
        Ok(told)
    }
}

#[test]
fn a_checkpoint_is_made(rt: HostRuntime) -> Result<(), Fail> {
    let limits = Limits::new(5, 200).ok_or("limits")?;
    try_call::<Checked>(&rt, rt.alloc(), "Bench::checkpoint", "", limits)
}
