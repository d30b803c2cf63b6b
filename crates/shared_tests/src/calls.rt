//! The receipts of calls, with the lock and without, and calls that are refused.
use crate::play::{are_played, are_same, counts_in, played_locked, played_shared};
use crate::setup::{faults_of, new_shared, pair};
use fb_shared::SharedRefused;
use std::alloc::Global;
use std::test::Fail;

#[test]
fn receipts_of_a_conversation(rt: HostRuntime) -> Result<(), Fail> {
    let alloc: Global = rt.alloc();
    let (owner, first, second, receipts) = played_shared(&rt, alloc, 1000)?;
    assert!(rt; are_played(&receipts) && second.seen() == 6);
    let counts = counts_in(owner.close(alloc, pair(alloc, first, second)?, &receipts));
    assert_eq!(rt; counts, Some((6, 1, 5)));
    Ok(())
}

#[test]
fn the_lock_changes_no_receipt(rt: HostRuntime) -> Result<(), Fail> {
    let alloc: Global = rt.alloc();
    let (_shared, _first, _second, others) = played_shared(&rt, alloc, 1000)?;
    let (owner, first, second, receipts) = played_locked(alloc)?;
    assert!(rt; are_same(&others, &receipts) && owner.book(2) == 5);
    let counts = counts_in(owner.close(alloc, pair(alloc, first, second)?, &receipts));
    assert_eq!(rt; counts, Some((6, 1, 5)));
    Ok(())
}

// With a full history, with a seat of another workbench, and with one that has seen more than there is.
#[test]
fn calls_that_are_refused(rt: HostRuntime) -> Result<(), Fail> {
    let (owner, _first, mut second, receipts) = played_shared(&rt, rt.alloc(), 6)?;
    let (fresh, mut stranger, _other) = new_shared(rt.alloc(), 6)?;
    stranger.show(receipts.get(4).ok_or("a receipt")?);
    let full = owner.ask(&rt, &mut second, faults_of("A")?).err();
    let differs = fresh.ask(&rt, &mut second, faults_of("A")?).err();
    let behind = fresh.ask(&rt, &mut stranger, faults_of("A")?).err();
    assert_eq!(rt; full, Some(SharedRefused::HistoryFull));
    let seat_differs = SharedRefused::SeatDiffers { turns: 5, book: 0 };
    assert_eq!(rt; differs, Some(seat_differs));
    assert_eq!(rt; behind, Some(SharedRefused::Behind { seen: 5, len: 0 }));
    Ok(())
}
