//! A workbench that comes under a lock with the calls that it has: after a checkpoint and without one.
use crate::play::{counts_in, played_shared};
use crate::setup::{Hall, faults_of, hall_of, limits, new_shared, pair, puts, word_of, work};
use fb_shared::bench::Bench;
use fb_shared::{
    CloseError, Locked, Plain, Receipt, ResumeError, Seat, Shared, SharedRefused, WorkEnd,
};
use std::alloc::Global;
use std::slice;
use std::sync::Wait;
use std::test::Fail;

// the workbench of the conversation, which was closed, and its receipts
fn played_bench<R: Wait>(rt: &R, alloc: Global) -> Result<(Bench, Vec<Receipt>), Fail> {
    let (owner, first, second, receipts) = played_shared(rt, alloc, 1000)?;
    let closed = owner.close(alloc, pair(alloc, first, second)?, &receipts);
    Ok((closed.ok().ok_or("refused")?.bench, receipts))
}

// the same after a checkpoint
fn kept_bench<R: Wait>(rt: &R, alloc: Global) -> Result<(Bench, Vec<Receipt>), Fail> {
    let (mut bench, receipts) = played_bench(rt, alloc)?;
    let before = bench.checkpoint(limits(1000)?)?;
    let kept = (before == 6).then_some((bench, receipts));
    Ok(kept.ok_or("six calls")?)
}

// Six calls came before the start, and none is recorded since. The faults of A were known there: neither pending nor handed out.
#[test]
fn a_checkpoint_of_a_closed_workbench(rt: HostRuntime) -> Result<(), Fail> {
    let (bench, _receipts) = kept_bench(&rt, rt.alloc())?;
    assert_eq!(rt; (bench.before(), bench.len()), (6, 0));
    assert!(rt; bench.record(6).is_none() && bench.record(7).is_none());
    let (start, key) = (bench.start(), faults_of("A")?);
    let turns = (start.turns(1), start.turns(2), start.turns(3));
    assert_eq!(rt; (start.commits(), turns), (1, (1, 5, 0)));
    assert!(rt; !start.is_pending(&key) && !start.is_out(&key));
    Ok(())
}

// why a workbench comes under a lock in neither way, and how many calls the one has that is handed back
fn refused_resumes(
    alloc: Global,
    bench: Bench,
    callers: u32,
) -> Option<(ResumeError, ResumeError, u64)> {
    let shared = Shared::resume(alloc, bench, callers).err()?;
    let locked = Locked::resume(alloc, shared.bench, callers).err()?;
    Some((shared.fault, locked.fault, locked.bench.last_number()))
}

#[test]
fn a_caller_that_gets_no_seat(rt: HostRuntime) -> Result<(), Fail> {
    let (bench, _receipts) = kept_bench(&rt, rt.alloc())?;
    let few = ResumeError::CallersFew(2);
    assert_eq!(rt; refused_resumes(rt.alloc(), bench, 1), Some((few, few, 6)));
    Ok(())
}

// A workbench on which caller 0 has asked.
#[test]
fn caller_0_never_gets_a_seat(rt: HostRuntime) -> Result<(), Fail> {
    let mut bench = Bench::new(rt.alloc(), limits(1000)?);
    bench.ask(0, faults_of("A")?)?;
    let few = ResumeError::CallersFew(0);
    assert_eq!(rt; refused_resumes(rt.alloc(), bench, 2), Some((few, few, 1)));
    Ok(())
}

// a shared workbench with the calls that it has, and its two seats
fn resumed_shared(alloc: Global, bench: Bench) -> Result<Hall<Shared>, Fail> {
    hall_of(Shared::resume(alloc, bench, 2).ok().ok_or("refused")?)
}

// the same with no lock
fn resumed_locked(alloc: Global, bench: Bench) -> Result<Hall<Locked>, Fail> {
    hall_of(Locked::resume(alloc, bench, 2).ok().ok_or("refused")?)
}

// a workbench after a checkpoint, again with its seats
fn kept_shared<R: Wait>(rt: &R, alloc: Global) -> Result<Hall<Shared>, Fail> {
    let (bench, _receipts) = kept_bench(rt, alloc)?;
    resumed_shared(alloc, bench)
}

// Caller, calls and greatest number seen of a seat.
type Row = (u32, u64, u64);

const ROWS: (Row, Row) = ((1, 1, 6), (2, 5, 6));

fn row_of(seat: &Seat) -> Row {
    (seat.caller(), seat.turns(), seat.seen())
}

// Number, turn and reply of the seventh call of all and the second of its caller.
const NEXT: (u64, u64, &str) = (7, 2, "no faults");

fn next_of(receipt: &Receipt) -> (u64, u64, &'static str) {
    (receipt.number(), receipt.turn(), word_of(receipt.reply()))
}

#[test]
fn numbers_and_turns_go_on_under_the_lock(rt: HostRuntime) -> Result<(), Fail> {
    let alloc: Global = rt.alloc();
    let (shared, mut first, second) = kept_shared(&rt, alloc)?;
    assert_eq!(rt; (row_of(&first), row_of(&second)), ROWS);
    let receipt = shared.ask(&rt, &mut first, faults_of("A")?)?;
    assert_eq!(rt; next_of(&receipt), NEXT);
    let (seats, next) = (pair(alloc, first, second)?, slice::from_ref(&receipt));
    let counts = counts_in(shared.close(alloc, seats, next));
    assert_eq!(rt; counts, Some((1, 2, 5)));
    Ok(())
}

#[test]
fn numbers_and_turns_go_on_with_no_lock(rt: HostRuntime) -> Result<(), Fail> {
    let alloc: Global = rt.alloc();
    let (bench, _receipts) = kept_bench(&rt, alloc)?;
    let (mut locked, mut first, second) = resumed_locked(alloc, bench)?;
    assert_eq!(rt; (row_of(&first), row_of(&second)), ROWS);
    let receipt = locked.ask(&mut first, faults_of("A")?)?;
    assert_eq!(rt; next_of(&receipt), NEXT);
    let (seats, next) = (pair(alloc, first, second)?, slice::from_ref(&receipt));
    let counts = counts_in(locked.close(alloc, seats, next));
    assert_eq!(rt; counts, Some((1, 2, 5)));
    Ok(())
}

// The last receipt of an earlier time.
#[test]
fn an_old_receipt_differs(rt: HostRuntime) -> Result<(), Fail> {
    let alloc: Global = rt.alloc();
    let differs = CloseError::ReceiptDiffers(6);
    let (bench, receipts) = kept_bench(&rt, alloc)?;
    let last = receipts.get(5..).ok_or("a receipt")?;
    let (shared, first, second) = resumed_shared(alloc, bench)?;
    let closed = shared.close(alloc, pair(alloc, first, second)?, last);
    assert_eq!(rt; closed.err().ok_or("closed")?.fault, differs);
    let (bench, receipts) = kept_bench(&rt, alloc)?;
    let last = receipts.get(5..).ok_or("a receipt")?;
    let (locked, first, second) = resumed_locked(alloc, bench)?;
    let closed = locked.close(alloc, pair(alloc, first, second)?, last);
    assert_eq!(rt; closed.err().ok_or("closed")?.fault, differs);
    Ok(())
}

#[test]
fn old_receipts_are_right_without_a_checkpoint(rt: HostRuntime) -> Result<(), Fail> {
    let alloc: Global = rt.alloc();
    let (bench, receipts) = played_bench(&rt, alloc)?;
    let (shared, first, second) = resumed_shared(alloc, bench)?;
    let counts = counts_in(shared.close(alloc, pair(alloc, first, second)?, &receipts));
    assert_eq!(rt; counts, Some((6, 1, 5)));
    let (bench, receipts) = played_bench(&rt, alloc)?;
    let (locked, first, second) = resumed_locked(alloc, bench)?;
    let counts = counts_in(locked.close(alloc, pair(alloc, first, second)?, &receipts));
    assert_eq!(rt; counts, Some((6, 1, 5)));
    Ok(())
}

// A seat that was shown the next receipt of another workbench, and one that is another's.
#[test]
fn seats_that_do_not_fit_a_resumed_workbench(rt: HostRuntime) -> Result<(), Fail> {
    let (other, mut ahead, _second) = kept_shared(&rt, rt.alloc())?;
    let receipt = other.ask(&rt, &mut ahead, faults_of("A")?)?;
    let (shared, mut first, _second): (Shared, Seat, Seat) = kept_shared(&rt, rt.alloc())?;
    first.show(&receipt);
    let refused = shared.ask(&rt, &mut first, faults_of("A")?).err();
    assert_eq!(rt; refused, Some(SharedRefused::Behind { seen: 7, len: 6 }));
    let (_fresh, mut stranger, _second) = new_shared(rt.alloc(), 1000)?;
    let refused = shared.ask(&rt, &mut stranger, faults_of("A")?).err();
    let differs = SharedRefused::SeatDiffers { turns: 0, book: 1 };
    assert_eq!(rt; refused, Some(differs));
    Ok(())
}

#[test]
fn a_worker_works_where_it_is_resumed(rt: HostRuntime) -> Result<(), Fail> {
    let alloc: Global = rt.alloc();
    let mut bench = Bench::new(alloc, limits(1000)?);
    bench.commit(1, &puts(alloc, 0, &["A"]).ok_or("changes")?)?;
    let (shared, _first, mut second) = resumed_shared(alloc, bench)?;
    let (end, receipts) = work(&rt, alloc, &shared, &mut second, &Plain, 1);
    assert_eq!(rt; (end, receipts.len()), (WorkEnd::TurnsOver, 2));
    Ok(())
}
