//! A history that begins again, and a key that is given back for a session that ended, of which each allocation is refused in turn.
use crate::nest::{BEFORE, Given, Which, begun, given_for};
use crate::owners::{Owner, Session, owner_for, taken_over};
use crate::told::bench_told;
use fb_bench::{CheckpointRefused, Limits};
use fb_shared::bench::Identity;
use fb_shared::{Locked, Seat, Shared};
use refusing::{Trial, try_call};
use std::alloc::Global;
use std::io::Print;
use std::sync::Wait;
use std::test::Fail;

/// A workbench whose history is full, and the limits with which it begins again.
#[derive(Drop)]
struct Rolled {
    locked: Locked,
    limits: Limits,
}

impl Trial for Rolled {
    type Setting = Limits;

    fn new(alloc: Global, limits: Limits) -> Result<Rolled, Fail> {
        let (locked, _seats) = taken_over::<Locked>(alloc, begun(alloc, BEFORE)?)?;
        Ok(Rolled { locked, limits })
    }

    fn call(&mut self, _alloc: Global) -> bool {
        let made = self.locked.make_room(self.limits, false);
        !matches!(made, Err(CheckpointRefused::Memory))
    }

    fn told(&self, alloc: Global) -> Result<String, Fail> {
        Ok(bench_told(alloc, self.locked.bench())?)
    }
}

#[test]
fn a_history_begins_anew(rt: HostRuntime) -> Result<(), Fail> {
    let limits = Limits::new(5, BEFORE).ok_or("limits")?;
    try_call::<Rolled>(&rt, rt.alloc(), "Locked::make_room", "", limits)
}

/// What holds a workbench of which a key is out, and the session that took it.
#[derive(Drop)]
struct Held<'a, R: Wait, T: Owner> {
    rt: &'a R,
    given: &'a Given,
    owner: T,
    session: Session,
}

impl<'a, R: Wait, T: Owner> Trial for Held<'a, R, T> {
    type Setting = (&'a R, &'a Given);

    fn new(alloc: Global, setting: (&'a R, &'a Given)) -> Result<Held<'a, R, T>, Fail> {
        let (rt, given) = setting;
        let (owner, mut seats) = owner_for::<T>(alloc, Which::GiveBack)?;
        let session = Session {
            seat: seats.pop().ok_or("no seat")?,
            receipts: Vec::new(alloc),
        };
        Ok(Held {
            rt,
            given,
            owner,
            session,
        })
    }

    fn call(&mut self, _alloc: Global) -> bool {
        let (rt, given) = (self.rt, self.given);
        self.owner.gives_back(rt, &mut self.session, given.key)
    }

    fn told(&self, alloc: Global) -> Result<String, Fail> {
        let (mut told, seat) = (self.owner.shown(alloc)?, &self.session.seat);
        write!(told, "\n{seat:?} {}", self.session.receipts.len())?;
        Ok(told)
    }
}

fn try_held<R: Wait + Print, T: Owner>(rt: &R, alloc: Global, function: &str) -> Result<(), Fail> {
    let given = given_for(alloc)?;
    try_call::<Held<'_, R, T>>(rt, alloc, function, "", (rt, &given))
}

#[test]
fn a_held_key_is_given_back(rt: HostRuntime) -> Result<(), Fail> {
    try_held::<_, Locked>(&rt, rt.alloc(), "Locked::return_held")
}

/// A shared workbench whose history is full and begins again with the next call, and its seat.
#[derive(Drop)]
struct Anew<'a, R: Wait> {
    rt: &'a R,
    given: &'a Given,
    shared: Shared,
    seat: Seat,
}

impl<'a, R: Wait> Trial for Anew<'a, R> {
    type Setting = (&'a R, &'a Given);

    fn new(alloc: Global, setting: (&'a R, &'a Given)) -> Result<Anew<'a, R>, Fail> {
        let (rt, given) = setting;
        let limits = Limits::new(4, 1).ok_or("limits")?;
        let (shared, mut seats) = Shared::rolling(
            alloc,
            limits,
            u64::MAX,
            1,
            Identity { high: 1, low: 2 },
        )?;
        let mut seat = seats.pop().ok_or("no seat")?;
        shared.ask(rt, &mut seat, given.key)?;
        Ok(Anew {
            rt,
            given,
            shared,
            seat,
        })
    }

    /// Without memory to begin again the history is still full.
    fn call(&mut self, _alloc: Global) -> bool {
        let (rt, given) = (self.rt, self.given);
        self.shared.ask(rt, &mut self.seat, given.key).is_ok()
    }

    fn told(&self, alloc: Global) -> Result<String, Fail> {
        let seat = &self.seat;
        Ok(format!(in alloc; "{seat:?}")?)
    }
}

fn try_anew<R: Wait + Print>(rt: &R, alloc: Global) -> Result<(), Fail> {
    let (given, about) = (given_for(alloc)?, " of a history that begins anew");
    try_call::<Anew<'_, R>>(rt, alloc, "Shared::ask", about, (rt, &given))
}

#[test]
fn a_shared_history_begins_anew(rt: HostRuntime) -> Result<(), Fail> {
    try_held::<_, Shared>(&rt, rt.alloc(), "Shared::give_back_held")?;
    try_anew(&rt, rt.alloc())
}
