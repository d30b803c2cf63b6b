//! A worker of which each allocation is refused in turn: what it recorded stays, its key is given back, and another worker does what is left.
use crate::nest::{PLAIN, puts};
use crate::owners::{both_of, pair};
use fb_bench::{GivenBack, Limits, Reply};
use fb_shared::{Plain, Receipt, Seat, Shared, WorkEnd, work_on};
use refusing::{each_refused, refuse, report, was_refused};
use std::alloc::Global;
use std::sync::Wait;
use std::test::Fail;

// how many jobs were taken, of how many the results were taken in, and how many were given back
fn jobs_of(receipts: &[Receipt]) -> (u64, u64, u64) {
    let (mut taken, mut accepted, mut returned) = (0u64, 0u64, 0u64);
    for receipt in receipts {
        match receipt.reply() {
            Reply::Job(_) => taken = taken.saturating_add(1),
            Reply::Accepted => accepted = accepted.saturating_add(1),
            Reply::GivenBack(GivenBack::Returned) => returned = returned.saturating_add(1),
            _ => {}
        }
    }
    (taken, accepted, returned)
}

// whether no job is out, and another worker does what is left of two
fn is_done_by_another<R: Wait>(
    rt: &R,
    alloc: Global,
    shared: &Shared,
    seat: &mut Seat,
    receipts: &mut Vec<Receipt>,
) -> bool {
    let (taken, accepted, returned) = jobs_of(receipts);
    if taken != accepted.saturating_add(returned) {
        return false;
    }
    let left = 2u64.saturating_sub(accepted);
    let end = work_on(rt, alloc, shared, seat, receipts, &Plain, left);
    end == WorkEnd::TurnsOver && jobs_of(receipts).1 == 2
}

// The first caller commits two units, and a worker has two turns with the second seat, of which the allocation of this number is refused. How the worker
// ends, whether it was refused, and whether another one does what is left and the workbench closes with all receipts.
fn work_anew<R: Wait>(rt: &R, alloc: Global, number: u32) -> Result<(WorkEnd, bool, bool), Fail> {
    let limits = Limits::new(4, 1000).ok_or("limits")?;
    let (shared, seats) = Shared::new(alloc, limits, 2)?;
    let (mut first, mut second) = both_of(seats).ok_or("no two seats")?;
    let mut receipts = Vec::new(alloc);
    receipts.push(shared.commit(rt, &mut first, &puts(alloc, 0, PLAIN)?)?)?;
    refuse(alloc, number);
    let end = work_on(rt, alloc, &shared, &mut second, &mut receipts, &Plain, 2);
    let is_refused = was_refused(alloc);
    let is_done = is_done_by_another(rt, alloc, &shared, &mut first, &mut receipts);
    let seats = pair(alloc, first, second).ok_or("no seats")?;
    let is_closed = shared.close(alloc, seats, &receipts).is_ok();
    Ok((end, is_refused, is_done && is_closed))
}

// Whether an allocation was refused, and whether the worker found no memory. Otherwise it has used its turns.
fn worked_without<R: Wait>(rt: &R, alloc: Global, number: u32) -> Result<(bool, bool), Fail> {
    let (end, is_refused, is_right) = work_anew(rt, alloc, number)?;
    let is_memory = end == WorkEnd::Memory;
    if !is_right || !is_memory && end != WorkEnd::TurnsOver {
        return Err(Fail::from("another end"));
    }
    Ok((is_refused, is_memory))
}

#[test]
fn a_worker_finds_no_memory(rt: HostRuntime) -> Result<(), Fail> {
    let found = each_refused(|number| worked_without(&rt, rt.alloc(), number))?;
    Ok(report(&rt, "work_on", "", found)?)
}
