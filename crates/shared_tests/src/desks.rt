//! A shared workbench as the desk of one seat.
use crate::play::{counts_in, played_shared};
use crate::setup::{committed, desk_of, faults_of, limits, new_shared, pair, puts, work};
use fb_jobs::Finished;
use fb_shared::bench::{
    Asked, Committed, Delivered, Desk, DeskCheckpointError, DeskError, GivenBack, Limits, Taken,
};
use fb_shared::{Plain, Seat, Shared, WorkEnd};
use std::alloc::Global;
use std::sync::Wait;
use std::test::Fail;

#[test]
fn a_desk_keeps_its_receipts(rt: HostRuntime) -> Result<(), Fail> {
    let alloc: Global = rt.alloc();
    let (shared, first, second) = new_shared(alloc, 5)?;
    let mut desk = desk_of(&rt, alloc, &shared, first);
    let changes = puts(alloc, 0, &["A"]).ok_or("changes")?;
    assert!(rt; desk.commit(&changes)? == Committed::Done(1));
    let Taken::Job(job) = desk.take()? else {
        return Err(Fail::from("no job"));
    };
    assert!(rt; desk.deliver(&job.run(alloc)?)? == Delivered::Accepted);
    assert!(rt; desk.give_back(faults_of("A")?)? == GivenBack::NothingOut);
    let asked = desk.ask(faults_of("A")?)?;
    assert!(rt; matches!(&asked, Asked::Value(_)));
    let refused = desk.ask(faults_of("A")?).err();
    assert_eq!(rt; refused, Some(DeskError::HistoryFull));
    let (first, receipts) = (desk.seat, desk.receipts);
    assert_eq!(rt; receipts.len(), 5);
    let counts = counts_in(shared.close(alloc, pair(alloc, first, second)?, &receipts));
    assert_eq!(rt; counts, Some((5, 5, 0)));
    Ok(())
}

// why the five calls are refused at a desk with this seat, if each is for the same cause and none keeps a receipt
fn refusal_of<R: Wait>(
    rt: &R,
    alloc: Global,
    shared: &Shared,
    seat: Seat,
    finished: &Finished,
) -> Option<DeskError> {
    let mut desk = desk_of(rt, alloc, shared, seat);
    let commit = desk.commit(&puts(alloc, 0, &["B"])?).err()?;
    let take = desk.take().err()?;
    let deliver = desk.deliver(finished).err()?;
    let give_back = desk.give_back(faults_of("A").ok()?).err()?;
    let ask = desk.ask(faults_of("A").ok()?).err()?;
    let is_one = take == commit && deliver == commit && give_back == commit && ask == commit;
    (is_one && desk.receipts.is_empty()).then_some(commit)
}

/// A result of a workbench of its own.
pub(crate) fn some_result<R: Wait>(rt: &R, alloc: Global) -> Option<Finished> {
    let (shared, mut seats) = Shared::new(alloc, Limits::new(4, 5)?, 1).ok()?;
    let mut seat = seats.pop()?;
    shared.commit(rt, &mut seat, &puts(alloc, 0, &["A"])?).ok()?;
    let (_receipt, job) = shared.take(rt, &mut seat).ok()?;
    job?.run(alloc).ok()
}

// Where the history is full, where the seat has seen more than there is, and where it differs.
#[test]
fn calls_that_a_desk_refuses(rt: HostRuntime) -> Result<(), Fail> {
    let alloc: Global = rt.alloc();
    let finished = some_result(&rt, alloc).ok_or("a result")?;
    let (owner, first, second, receipts) = played_shared(&rt, alloc, 6)?;
    let (fresh, mut stranger, _other) = new_shared(alloc, 6)?;
    stranger.show(receipts.get(4).ok_or("a receipt")?);
    let full = refusal_of(&rt, alloc, &owner, first, &finished);
    let behind = refusal_of(&rt, alloc, &fresh, stranger, &finished);
    let differs = refusal_of(&rt, alloc, &fresh, second, &finished);
    assert_eq!(rt; full, Some(DeskError::HistoryFull));
    assert_eq!(rt; [behind, differs], [Some(DeskError::Behind); 2]);
    Ok(())
}

#[test]
fn a_desk_over_a_lock_makes_no_checkpoint(rt: HostRuntime) -> Result<(), Fail> {
    let (shared, seat, _second) = new_shared(rt.alloc(), 5)?;
    let mut desk = desk_of(&rt, rt.alloc(), &shared, seat);
    let refused = desk.checkpoint(limits(5)?).err();
    assert_eq!(rt; refused, Some(DeskCheckpointError::NotAlone));
    assert!(rt; desk.receipts.is_empty() && desk.seat.turns() == 0);
    Ok(())
}

#[test]
fn workers_go_on_after_a_refused_checkpoint(rt: HostRuntime) -> Result<(), Fail> {
    let (shared, first, mut second) = committed(&rt, rt.alloc(), 5, &["A"])?;
    let mut desk = desk_of(&rt, rt.alloc(), &shared, first);
    let refused = desk.checkpoint(limits(5)?).err();
    assert_eq!(rt; refused, Some(DeskCheckpointError::NotAlone));
    let (end, receipts) = work(&rt, rt.alloc(), &shared, &mut second, &Plain, 1);
    assert_eq!(rt; (end, receipts.len()), (WorkEnd::TurnsOver, 2));
    Ok(())
}
