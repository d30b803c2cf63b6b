//! Seats and receipts with which a workbench does not close.
use crate::play::{counts_in, played_locked, played_shared};
use crate::setup::{ask_often, committed, faults_of, limits, new_locked, new_shared, pair, work};
use fb_shared::bench::Identity;
use fb_shared::{CloseError, Plain, Shared, WorkEnd};
use std::alloc::Global;
use std::test::Fail;

// The first seat alone, then a strange one as the second, and then both seats.
#[test]
fn seats_that_do_not_fit(rt: HostRuntime) -> Result<(), Fail> {
    let alloc: Global = rt.alloc();
    let (_fresh, _first, stranger) = new_shared(alloc, 1000)?;
    let (owner, first, second, receipts) = played_shared(&rt, alloc, 1000)?;
    let refused = owner.close(alloc, vec![in alloc; first]?, &receipts);
    let missing = refused.err().ok_or("closed")?;
    assert_eq!(rt; missing.fault, CloseError::SeatMissing(2));
    let (owner, mut seats) = (missing.owner, missing.seats);
    seats.push(stranger)?;
    let differs = owner.close(alloc, seats, &receipts).err().ok_or("closed")?;
    assert_eq!(rt; differs.fault, CloseError::SeatDiffers(2));
    let (owner, mut seats) = (differs.owner, differs.seats);
    seats.pop();
    seats.push(second)?;
    let counts = counts_in(owner.close(alloc, seats, &receipts));
    assert_eq!(rt; counts, Some((6, 1, 5)));
    Ok(())
}

// The seat of a caller that has made no call is missing too, and workers are not stopped then.
#[test]
fn a_silent_seat_that_is_missing(rt: HostRuntime) -> Result<(), Fail> {
    let alloc: Global = rt.alloc();
    let (shared, first, mut second) = committed(&rt, alloc, 1000, &["A"])?;
    let refused = shared.close(alloc, vec![in alloc; first]?, &[]);
    let missing = refused.err().ok_or("closed")?;
    assert_eq!(rt; missing.fault, CloseError::SeatMissing(2));
    let (end, receipts) = work(&rt, alloc, &missing.owner, &mut second, &Plain, 1);
    assert_eq!(rt; (end, receipts.len()), (WorkEnd::TurnsOver, 2));
    Ok(())
}

// A history that begins again when it is full does so after a refused close too, and the number of calls before that is known without the lock.
#[test]
fn a_refused_close_of_a_history_that_begins_again(rt: HostRuntime) -> Result<(), Fail> {
    let alloc: Global = rt.alloc();
    let (shared, mut seats) = Shared::rolling(
        alloc,
        limits(2)?,
        u64::MAX,
        1,
        Identity { high: 1, low: 2 },
    )?;
    let seat = seats.pop().ok_or("a seat")?;
    let missing = shared.close(alloc, seats, &[]).err().ok_or("closed")?;
    let (seat, _receipts) = ask_often(&rt, alloc, &missing.owner, seat, 5).ok_or("refused")?;
    assert_eq!(rt; missing.fault, CloseError::SeatMissing(1));
    assert_eq!(rt; (seat.turns(), missing.owner.last_roll()), (5, 4));
    Ok(())
}

// The first receipt twice, then a first receipt of another call, and then all receipts once.
#[test]
fn receipts_that_do_not_fit(rt: HostRuntime) -> Result<(), Fail> {
    let alloc: Global = rt.alloc();
    let (_owner, _first, _second, mut others) = played_locked(alloc)?;
    others.truncate(1);
    let (mut locked, mut stranger, _other) = new_locked(alloc, 1000)?;
    let (owner, first, second, mut receipts) = played_shared(&rt, alloc, 1000)?;
    receipts.append(&mut others)?;
    let refused = owner.close(alloc, pair(alloc, first, second)?, &receipts);
    let twice = refused.err().ok_or("closed")?;
    assert_eq!(rt; twice.fault, CloseError::ReceiptTwice(1));
    receipts.pop();
    receipts.push(locked.ask(&mut stranger, faults_of("A")?)?)?;
    let refused = twice.owner.close(alloc, twice.seats, &receipts);
    let differs = refused.err().ok_or("closed")?;
    assert_eq!(rt; differs.fault, CloseError::ReceiptDiffers(1));
    receipts.pop();
    let counts = counts_in(differs.owner.close(alloc, differs.seats, &receipts));
    assert_eq!(rt; counts, Some((6, 1, 5)));
    Ok(())
}
