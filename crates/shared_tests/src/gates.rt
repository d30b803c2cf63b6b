//! Workers whose jobs give nothing, each by itself.
use crate::setup::{are_replies, committed, puts, work};
use fb_jobs::{Finished, Job};
use fb_shared::{Gate, Plain, Seat, Shared, WorkEnd};
use std::alloc::{AllocError, Global};
use std::sync::atomic::{AtomicU64, Ordering};
use std::sync::{Mutex, Wait};
use std::test::Fail;

// Finds no memory, and keeps for whom it was asked.
#[derive(Drop)]
struct Poor(AtomicU64);

impl Gate for Poor {
    fn run(&self, _alloc: Global, worker: u32, _job: &Job) -> Result<Finished, AllocError> {
        self.0.store(u64::from(worker), Ordering::SeqCst);
        Err(AllocError)
    }
}

// The next worker does the job that was given back.
#[test]
fn a_job_for_which_there_is_no_memory(rt: HostRuntime) -> Result<(), Fail> {
    let alloc: Global = rt.alloc();
    let (shared, _first, mut second) = committed(&rt, alloc, 1000, &["A"])?;
    let gate = Poor(AtomicU64::new(0));
    let (end, receipts) = work(&rt, alloc, &shared, &mut second, &gate, 5);
    assert_eq!(rt; (end, gate.0.load(Ordering::SeqCst)), (WorkEnd::Memory, 2));
    assert!(rt; are_replies(&receipts, &["job", "returned"]));
    let (end, receipts) = work(&rt, alloc, &shared, &mut second, &Plain, 1);
    assert_eq!(rt; end, WorkEnd::TurnsOver);
    assert!(rt; are_replies(&receipts, &["job", "accepted"]));
    Ok(())
}

// Makes a call with a seat of its own after each job is run: it delivers the result first; or it puts A again, so that the result is stale and there is
// always another job.
#[derive(Drop)]
struct Beside<'a, R: Wait> {
    rt: &'a R,
    shared: &'a Shared,
    seat: Mutex<Seat>,
    puts_again: bool,
}

impl<R: Wait> Gate for Beside<'_, R> {
    fn run(&self, alloc: Global, worker: u32, job: &Job) -> Result<Finished, AllocError> {
        let finished = Plain.run(alloc, worker, job)?;
        let mut seat = self.seat.lock(self.rt);
        if !self.puts_again {
            let _ = self.shared.deliver(self.rt, &mut *seat, &finished);
        } else if let Some(changes) = puts(alloc, seat.turns(), &["A"]) {
            let _ = self.shared.commit(self.rt, &mut *seat, &changes);
        }
        Ok(finished)
    }
}

#[test]
fn results_that_are_not_accepted(rt: HostRuntime) -> Result<(), Fail> {
    let alloc: Global = rt.alloc();
    let (shared, first, mut second) = committed(&rt, alloc, 1000, &["A", "B"])?;
    let gate = Beside {
        rt: &rt,
        shared: &shared,
        seat: Mutex::new(first),
        puts_again: false,
    };
    let (end, receipts) = work(&rt, alloc, &shared, &mut second, &gate, 2);
    assert_eq!(rt; end, WorkEnd::TurnsOver);
    let words = ["job", "not pending", "job", "not pending"];
    assert!(rt; are_replies(&receipts, &words));
    Ok(())
}

// A worker goes on for as many jobs as there are, if nobody stops it.
#[test]
fn a_thousand_jobs(rt: HostRuntime) -> Result<(), Fail> {
    let (shared, first, mut second) = committed(&rt, rt.alloc(), 10_000, &["A"])?;
    let gate = Beside {
        rt: &rt,
        shared: &shared,
        seat: Mutex::new(first),
        puts_again: true,
    };
    let (end, receipts) = work(&rt, rt.alloc(), &shared, &mut second, &gate, 1001);
    assert_eq!(rt; (end, receipts.len()), (WorkEnd::TurnsOver, 2002));
    Ok(())
}
