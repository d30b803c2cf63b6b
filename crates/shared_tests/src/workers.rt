//! How workers end, each by itself.
use crate::play::played_shared;
use crate::setup::{committed, faults_of, new_shared, pause, word_of, work, work_beside};
use fb_shared::{Plain, Shared, WorkEnd};
use std::alloc::Global;
use std::sync::Wait;
use std::sync::atomic::AtomicU64;
use std::test::Fail;
use std::thread::join;
use std::time::Clock;

// After two jobs in as many turns A is known, and the stop ends a worker, though there is a job.
#[test]
fn jobs_in_turns(rt: HostRuntime) -> Result<(), Fail> {
    let alloc: Global = rt.alloc();
    let (shared, mut first, mut second) = committed(&rt, alloc, 1000, &["A", "B", "C"])?;
    let (end, receipts) = work(&rt, alloc, &shared, &mut second, &Plain, 2);
    assert_eq!(rt; (end, receipts.len()), (WorkEnd::TurnsOver, 4));
    let asked = shared.ask(&rt, &mut first, faults_of("A")?)?;
    assert_eq!(rt; word_of(asked.reply()), "no faults");
    shared.stop(&rt);
    let (end, receipts) = work(&rt, alloc, &shared, &mut second, &Plain, 1);
    assert_eq!(rt; (end, receipts.len()), (WorkEnd::Stopped, 0));
    Ok(())
}

// Workers that end before they take: with no turn and with a full history; on another workbench, with a seat that differs and with one that was shown
// what is not there.
#[test]
fn workers_that_take_nothing(rt: HostRuntime) -> Result<(), Fail> {
    let alloc: Global = rt.alloc();
    let (owner, mut first, mut second, receipts) = played_shared(&rt, alloc, 6)?;
    let (over, none) = work(&rt, alloc, &owner, &mut first, &Plain, 0);
    assert_eq!(rt; (over, none.len()), (WorkEnd::TurnsOver, 0));
    let (full, none) = work(&rt, alloc, &owner, &mut first, &Plain, 1);
    assert_eq!(rt; (full, none.len()), (WorkEnd::HistoryFull, 0));
    let (fresh, mut stranger, _other) = new_shared(alloc, 6)?;
    stranger.show(receipts.get(4).ok_or("a receipt")?);
    let (differs, none) = work(&rt, alloc, &fresh, &mut second, &Plain, 1);
    let seat_differs = WorkEnd::SeatDiffers { turns: 5, book: 0 };
    assert_eq!(rt; (differs, none.len()), (seat_differs, 0));
    let (behind, none) = work(&rt, alloc, &fresh, &mut stranger, &Plain, 1);
    let is_behind = WorkEnd::Behind { seen: 5, len: 0 };
    assert_eq!(rt; (behind, none.len()), (is_behind, 0));
    Ok(())
}

// looks each millisecond whether this number of rests is reached, and then stops the workers
fn stop_at_rest<R: Wait + Clock>(rt: &R, shared: &Shared, number: u64) -> bool {
    for _ in 0..10_000u32 {
        if number <= shared.rests() {
            break;
        }
        pause(rt, 1);
    }
    let have_come = number <= shared.rests();
    shared.stop(rt);
    have_come
}

// A call of any kind that leaves nothing to take counts, and a look that finds nothing; those that leave or find a key do not.
#[test]
fn rests_by_calls(rt: HostRuntime) -> Result<(), Fail> {
    let (shared, mut first, mut second) = committed(&rt, rt.alloc(), 1000, &["A", "B"])?;
    shared.take(&rt, &mut first)?;
    assert_eq!(rt; shared.rests(), 0);
    shared.take(&rt, &mut second)?;
    assert_eq!(rt; shared.rests(), 1);
    shared.give_back(&rt, &mut first, faults_of("A")?)?;
    shared.look_for_rest(&rt);
    assert_eq!(rt; shared.rests(), 1);
    shared.take(&rt, &mut second)?;
    shared.ask(&rt, &mut first, faults_of("A")?)?;
    shared.look_for_rest(&rt);
    assert_eq!(rt; shared.rests(), 4);
    Ok(())
}

// The last take, its delivery, and the look after it.
#[test]
fn rests_of_a_worker(rt: HostRuntime) -> Result<(), Fail> {
    let alloc: Global = rt.alloc();
    let (shared, _first, second) = committed(&rt, alloc, 1000, &["A", "B"])?;
    let ended = AtomicU64::new(0);
    let told = join(
        &rt,
        || work_beside(&rt, alloc, &shared, second, &Plain, 10, &ended),
        || stop_at_rest(&rt, &shared, 3),
    );
    assert_eq!(rt; told, ((WorkEnd::Stopped, 4), true));
    Ok(())
}
