//! What makes a workbench for two callers, resumes it and closes it, of which each allocation is refused in turn.
use crate::nest::{PLAIN, Which, bench_for, puts};
use crate::owners::{Hall, Owner, both_of, pair, taken_over};
use crate::told::bench_told;
use fb_bench::{Bench, Limits};
use fb_jobs::{Key, Kind};
use fb_shared::{CloseError, Locked, NotClosed, NotResumed, Receipt, ResumeError, Shared};
use fb_text::Name;
use refusing::{Trial, try_call};
use std::alloc::Global;
use std::test::Fail;

// What is shown of a workbench and its seats, where there is one.
fn shown_of<T: Owner>(alloc: Global, hall: &Option<Hall<T>>) -> Result<String, Fail> {
    let Some((owner, seats)) = hall else {
        return Ok(String::new(alloc));
    };
    let (mut shown, seats) = (owner.shown(alloc)?, seats.as_slice());
    write!(shown, "\n{seats:?}")?;
    Ok(shown)
}

/// An empty workbench that is made, whose history begins again by itself or not.
#[derive(Drop)]
struct Made<T: Owner> {
    limits: Limits,
    rolls: bool,
    made: Option<Hall<T>>,
}

impl<T: Owner> Trial for Made<T> {
    type Setting = (Limits, bool);

    fn new(_alloc: Global, setting: (Limits, bool)) -> Result<Made<T>, Fail> {
        let (limits, rolls) = setting;
        Ok(Made {
            limits,
            rolls,
            made: None,
        })
    }

    fn call(&mut self, alloc: Global) -> bool {
        self.made = T::empty(alloc, self.limits, self.rolls).ok();
        self.made.is_some()
    }

    fn told(&self, alloc: Global) -> Result<String, Fail> {
        shown_of(alloc, &self.made)
    }
}

#[test]
fn workbenches_are_made(rt: HostRuntime) -> Result<(), Fail> {
    let limits = Limits::new(5, 100).ok_or("limits")?;
    try_call::<Made<Locked>>(&rt, rt.alloc(), "Locked::new", "", (limits, false))?;
    try_call::<Made<Shared>>(&rt, rt.alloc(), "Shared::new", "", (limits, false))?;
    try_call::<Made<Shared>>(&rt, rt.alloc(), "Shared::rolling", "", (limits, true))
}

/// A workbench that comes under a lock with the calls that it has, and then its owner with the seats.
#[derive(Drop)]
struct Resumed<T: Owner> {
    bench: Option<Bench>,
    made: Option<Hall<T>>,
}

impl<T: Owner> Trial for Resumed<T> {
    type Setting = Which;

    fn new(alloc: Global, which: Which) -> Result<Resumed<T>, Fail> {
        let bench = Some(bench_for(alloc, which)?);
        Ok(Resumed { bench, made: None })
    }

    fn call(&mut self, alloc: Global) -> bool {
        let Some(bench) = self.bench.take() else {
            return true;
        };
        match T::resumed(alloc, bench) {
            Ok(made) => {
                self.made = Some(made);
                true
            }
            Err(NotResumed { fault, bench }) => {
                self.bench = Some(bench);
                fault != ResumeError::Memory
            }
        }
    }

    fn told(&self, alloc: Global) -> Result<String, Fail> {
        match &self.bench {
            Some(bench) => Ok(bench_told(alloc, bench)?),
            None => shown_of(alloc, &self.made),
        }
    }
}

#[test]
fn workbenches_are_resumed(rt: HostRuntime) -> Result<(), Fail> {
    let which = Which::GiveBack;
    try_call::<Resumed<Locked>>(&rt, rt.alloc(), "Locked::resume", "", which)?;
    try_call::<Resumed<Shared>>(&rt, rt.alloc(), "Shared::resume", "", which)
}

/// A workbench that must be closed with these receipts. Or how many records it had, and how many of them the callers 1 and 2 have.
#[derive(Drop)]
struct Over<T: Owner> {
    receipts: Vec<Receipt>,
    made: Option<Hall<T>>,
    counts: Option<(usize, Option<u64>, Option<u64>)>,
}

// A workbench after a commit of the first caller and a question of the second, and the receipts of both.
fn bench_after(alloc: Global) -> Result<(Bench, Vec<Receipt>), Fail> {
    let (kind, unit) = (Kind::Faults, Name::read("A")?);
    let limits = Limits::new(5, 100).ok_or("limits")?;
    let (mut locked, seats) = Locked::new(alloc, limits, 2)?;
    let (mut first, mut second) = both_of(seats).ok_or("no two seats")?;
    let mut receipts = Vec::with_capacity(alloc, 2)?;
    receipts.push(locked.commit(&mut first, &puts(alloc, 0, PLAIN)?)?)?;
    receipts.push(locked.ask(&mut second, Key { kind, unit })?)?;
    let seats = pair(alloc, first, second).ok_or("no seats")?;
    let closed = locked.close(alloc, seats, &receipts).ok().ok_or("open")?;
    Ok((closed.bench, receipts))
}

impl<T: Owner> Trial for Over<T> {
    type Setting = ();

    fn new(alloc: Global, _setting: ()) -> Result<Over<T>, Fail> {
        let (bench, receipts) = bench_after(alloc)?;
        Ok(Over {
            receipts,
            made: Some(taken_over::<T>(alloc, bench)?),
            counts: None,
        })
    }

    fn call(&mut self, alloc: Global) -> bool {
        let Some((owner, seats)) = self.made.take() else {
            return true;
        };
        match owner.closed(alloc, seats, self.receipts.as_slice()) {
            Ok(closed) => {
                let counts = &closed.counts;
                let (first, second) = (counts.get(&1).copied(), counts.get(&2).copied());
                self.counts = Some((closed.bench.len(), first, second));
                true
            }
            Err(
                NotClosed {
                    fault,
                    owner,
                    seats,
                },
            ) => {
                self.made = Some((owner, seats));
                fault != CloseError::Memory
            }
        }
    }

    fn told(&self, alloc: Global) -> Result<String, Fail> {
        let (mut told, counts) = (shown_of(alloc, &self.made)?, self.counts);
        write!(told, " {counts:?}")?;
        Ok(told)
    }
}

#[test]
fn workbenches_are_closed(rt: HostRuntime) -> Result<(), Fail> {
    try_call::<Over<Locked>>(&rt, rt.alloc(), "Locked::close", "", ())?;
    try_call::<Over<Shared>>(&rt, rt.alloc(), "Shared::close", "", ())
}
