//! Workers that wait for something to do, each beside a thread that brings it.
use crate::setup::{Ended, ask_often, comes_to, pause, puts, work_beside};
use fb_jobs::{Finished, Job};
use fb_shared::bench::Limits;
use fb_shared::{Gate, Plain, Seat, Shared, WorkEnd};
use std::alloc::{AllocError, Global};
use std::hint::spin_loop;
use std::process::Abort;
use std::sync::Wait;
use std::sync::atomic::{AtomicBool, AtomicU64, Ordering};
use std::test::Fail;
use std::thread::{Threads, join, map_vec};
use std::time::Clock;

// Counts the jobs that were run, each for a while, and the workers that have ended. Where it is poor, the first job finds no memory.
#[derive(Drop)]
struct Counted {
    is_poor: AtomicBool,
    run: AtomicU64,
    ended: AtomicU64,
}

impl Gate for Counted {
    fn run(&self, alloc: Global, worker: u32, job: &Job) -> Result<Finished, AllocError> {
        for _ in 0..200_000 {
            spin_loop();
        }
        if self.is_poor.swap(false, Ordering::SeqCst) {
            return Err(AllocError);
        }
        let finished = Plain.run(alloc, worker, job);
        self.run.fetch_add(1, Ordering::SeqCst);
        finished
    }
}

/// What happens beside workers that wait, and how they end.
#[derive(Clone, Copy)]
struct Play {
    /// For how many records there is room.
    history: u64,
    /// How many turns each worker has.
    turns: u64,
    /// Whether the first job finds no memory.
    is_poor: bool,
    /// How long the workers wait before anything comes, in milliseconds.
    pause: u64,
    /// They are put one after another, each when the job of the one before was run and a worker waits again.
    units: &'static [&'static str],
    /// How many questions come then.
    questions: u64,
    /// How each worker ends, in any order. The stop comes when all others have ended.
    ends: &'static [Ended],
}

/// A worker with as many turns as it will ever need, and a unit. The delivery fills the history.
const ONE: Play = Play {
    history: 3,
    turns: 1_000_000,
    is_poor: false,
    pause: 20,
    units: &["A"],
    questions: 0,
    ends: &[(WorkEnd::HistoryFull, 2)],
};

/// A worker, and questions that fill the history.
const FILLED: Play = Play {
    units: &[],
    questions: 3,
    ends: &[(WorkEnd::HistoryFull, 0)],
    ..ONE
};

// brings what comes, if each time what must follow does
fn bring<R: Wait + Clock>(
    rt: &R,
    alloc: Global,
    shared: &Shared,
    mut seat: Seat,
    gate: &Counted,
    play: Play,
) -> Option<()> {
    pause(rt, play.pause);
    let mut run = 0u64;
    for unit in play.units {
        run = run.saturating_add(1);
        let changes = puts(alloc, 0, &[*unit])?;
        shared.commit(rt, &mut seat, &changes).ok()?;
        comes_to(rt, &gate.run, run).then_some(())?;
        pause(rt, 20);
    }
    ask_often(rt, alloc, shared, seat, play.questions)?;
    let others = play.ends.iter().filter(|(end, _)| *end != WorkEnd::Stopped);
    comes_to(rt, &gate.ended, others.count() as u64).then_some(())
}

// the same, and then the stop, which ends all workers
fn bring_and_stop<R: Wait + Clock + Abort>(
    rt: &R,
    alloc: Global,
    shared: &Shared,
    seat: Seat,
    gate: &Counted,
    play: Play,
) -> bool {
    let brought = bring(rt, alloc, shared, seat, gate, play);
    shared.stop(rt);
    let are_over = comes_to(rt, &gate.ended, play.ends.len() as u64);
    assert!(rt; are_over, "workers that wait are not stopped");
    brought.is_some()
}

fn are_among(these: &[Ended], others: &[Ended]) -> bool {
    these.iter().all(|ended| others.contains(ended))
}

// plays, and compares how the workers end
fn compare<R: Threads + Wait + Clock + Abort + Sync>(
    rt: &R,
    alloc: Global,
    play: Play,
) -> Result<(), Fail> {
    let limits = Limits::new(16, play.history).ok_or("limits")?;
    let callers = u32::try_from(play.ends.len())?.saturating_add(1);
    let (shared, mut seats) = Shared::new(alloc, limits, callers)?;
    let seat = seats.pop().ok_or("a seat")?;
    let gate = Counted {
        is_poor: AtomicBool::new(play.is_poor),
        run: AtomicU64::new(0),
        ended: AtomicU64::new(0),
    };
    let turns = play.turns;
    let (ended, is_good) = join(
        rt,
        || map_vec(
            rt,
            seats,
            &|seat| work_beside(rt, alloc, &shared, seat, &gate, turns, &gate.ended),
        ),
        || bring_and_stop(rt, alloc, &shared, seat, &gate, play),
    );
    let ended = ended?;
    assert!(rt; is_good && ended.len() == play.ends.len(), "{ended:?}");
    let are_all = are_among(&ended, play.ends) && are_among(play.ends, &ended);
    assert!(rt; are_all, "{ended:?}");
    Ok(())
}

#[test]
fn a_worker_goes_on_until_the_stop(rt: HostRuntime) -> Result<(), Fail> {
    let play = Play {
        history: 1000,
        units: &["A", "B", "C", "D", "E", "F", "G", "H"],
        ends: &[(WorkEnd::Stopped, 16)],
        ..ONE
    };
    compare(&rt, rt.alloc(), play)
}

// A worker that looked again and again in place of waiting would have no turn left for the job.
#[test]
fn a_worker_that_waits_takes_no_turns(rt: HostRuntime) -> Result<(), Fail> {
    let play = Play {
        turns: 10,
        pause: 200,
        ..ONE
    };
    compare(&rt, rt.alloc(), play)
}

#[test]
fn a_full_history_ends_a_worker_that_waits(rt: HostRuntime) -> Result<(), Fail> {
    compare(&rt, rt.alloc(), FILLED)
}

// The delivery of the one fills the history while the other waits.
#[test]
fn a_delivery_ends_a_worker_that_waits(rt: HostRuntime) -> Result<(), Fail> {
    let play = Play {
        ends: &[(WorkEnd::HistoryFull, 2), (WorkEnd::HistoryFull, 0)],
        ..ONE
    };
    compare(&rt, rt.alloc(), play)
}

// The one finds no memory and gives its key back while the other waits.
#[test]
fn a_key_given_back_goes_to_a_worker_that_waits(rt: HostRuntime) -> Result<(), Fail> {
    let play = Play {
        history: 1000,
        is_poor: true,
        ends: &[(WorkEnd::Memory, 2), (WorkEnd::Stopped, 2)],
        ..ONE
    };
    compare(&rt, rt.alloc(), play)
}

#[test]
fn a_full_history_ends_all_workers_that_wait(rt: HostRuntime) -> Result<(), Fail> {
    let play = Play {
        ends: &[(WorkEnd::HistoryFull, 0); 3],
        ..FILLED
    };
    compare(&rt, rt.alloc(), play)
}

#[test]
fn a_stop_ends_all_workers_that_wait(rt: HostRuntime) -> Result<(), Fail> {
    let play = Play {
        questions: 0,
        ends: &[(WorkEnd::Stopped, 0); 3],
        ..FILLED
    };
    compare(&rt, rt.alloc(), play)
}
