//! The calls with two seats, with the lock and without, and at the desk of a seat, of which each allocation is refused in turn.
use crate::nest::{CALLS, Given, Which, given_for};
use crate::owners::{Outcome, Owner, both_of, owner_for};
use crate::ways::{Answer, made_at};
use fb_bench::DeskError;
use fb_shared::{Locked, Seat, Seated, Shared, SharedRefused};
use refusing::{Trial, try_call};
use std::alloc::Global;
use std::io::Print;
use std::sync::Wait;
use std::test::Fail;

/// A call, the workbench that it is made on, the seats, and its result.
#[derive(Drop)]
struct Called<'a, R: Wait, T: Owner> {
    rt: &'a R,
    which: Which,
    given: &'a Given,
    owner: T,
    first: Seat,
    second: Seat,
    outcome: Option<Outcome>,
}

impl<'a, R: Wait, T: Owner> Trial for Called<'a, R, T> {
    type Setting = (&'a R, Which, &'a Given);

    fn new(alloc: Global, setting: (&'a R, Which, &'a Given)) -> Result<Called<'a, R, T>, Fail> {
        let (rt, which, given) = setting;
        let (owner, seats) = owner_for::<T>(alloc, which)?;
        let (first, second) = both_of(seats).ok_or("no two seats")?;
        Ok(Called {
            rt,
            which,
            given,
            owner,
            first,
            second,
            outcome: None,
        })
    }

    fn call(&mut self, _alloc: Global) -> bool {
        let (rt, which, given) = (self.rt, self.which, self.given);
        let outcome = self.owner.answer(rt, which, &mut self.first, given);
        if outcome == Err(SharedRefused::Memory) {
            return false;
        }
        self.outcome = Some(outcome);
        true
    }

    fn told(&self, alloc: Global) -> Result<String, Fail> {
        let mut told = self.owner.shown(alloc)?;
        let (first, second, outcome) = (&self.first, &self.second, self.outcome);
        write!(told, "\n{first:?} {second:?} {outcome:?}")?;
        Ok(told)
    }
}

// Tries each of the five calls, whose functions are those of this owner.
fn try_all<R: Wait + Print, T: Owner>(rt: &R, alloc: Global, owner: &str) -> Result<(), Fail> {
    let given = given_for(alloc)?;
    for (which, function, _) in CALLS {
        try_call::<Called<'_, R, T>>(rt, alloc, owner, function, (rt, *which, &given))?;
    }
    Ok(())
}

#[test]
fn calls_with_no_lock(rt: HostRuntime) -> Result<(), Fail> {
    try_all::<_, Locked>(&rt, rt.alloc(), "Locked")
}

#[test]
fn calls_under_the_lock(rt: HostRuntime) -> Result<(), Fail> {
    try_all::<_, Shared>(&rt, rt.alloc(), "Shared")
}

/// A call, the workbench that it is made on, the seat, which is there between the calls, what it answered, and how many receipts it left.
#[derive(Drop)]
struct OfSeated<'a, R: Wait> {
    rt: &'a R,
    which: Which,
    given: &'a Given,
    owner: Shared,
    seat: Option<Seat>,
    answer: Option<Result<Answer, DeskError>>,
    receipts: usize,
}

impl<'a, R: Wait> Trial for OfSeated<'a, R> {
    type Setting = (&'a R, Which, &'a Given);

    fn new(alloc: Global, setting: (&'a R, Which, &'a Given)) -> Result<OfSeated<'a, R>, Fail> {
        let (rt, which, given) = setting;
        let (owner, seats) = owner_for::<Shared>(alloc, which)?;
        let (first, _second) = both_of(seats).ok_or("no two seats")?;
        Ok(OfSeated {
            rt,
            which,
            given,
            owner,
            seat: Some(first),
            answer: None,
            receipts: 0,
        })
    }

    fn call(&mut self, alloc: Global) -> bool {
        let Some(seat) = self.seat.take() else {
            return true;
        };
        let mut desk = Seated {
            rt: self.rt,
            shared: &self.owner,
            seat,
            receipts: Vec::new(alloc),
        };
        let answer = made_at(self.which, &mut desk, self.given);
        let Seated {
            rt: _,
            shared: _,
            seat,
            receipts,
        } = desk;
        self.seat = Some(seat);
        self.receipts = receipts.len();
        if answer == Err(DeskError::Memory) {
            return false;
        }
        self.answer = Some(answer);
        true
    }

    fn told(&self, alloc: Global) -> Result<String, Fail> {
        let (seat, answer, receipts) = (&self.seat, self.answer, self.receipts);
        Ok(format!(in alloc; "{seat:?} {answer:?} {receipts}")?)
    }
}

fn try_desk<R: Wait + Print>(rt: &R, alloc: Global) -> Result<(), Fail> {
    let given = given_for(alloc)?;
    for (which, _, about) in CALLS {
        let setting = (rt, *which, &given);
        try_call::<OfSeated<'_, R>>(rt, alloc, "Seated::perform", about, setting)?;
    }
    Ok(())
}

#[test]
fn calls_at_a_seat(rt: HostRuntime) -> Result<(), Fail> {
    try_desk(&rt, rt.alloc())
}
