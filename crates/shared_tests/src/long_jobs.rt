//! Calls beside a worker that runs jobs of nets and of plans, which read several units: they are answered while each of them runs.
use crate::setup::{committed, key_of, pause, spins_to, work_beside};
use fb_jobs::{Finished, Job, Kind};
use fb_shared::bench::Reply;
use fb_shared::{Gate, Plain, Seat, Shared, WorkEnd};
use std::alloc::{AllocError, Global};
use std::sync::Wait;
use std::sync::atomic::{AtomicU64, Ordering};
use std::test::Fail;
use std::thread::join;
use std::time::Clock;

/// Three of faults, two of nets and one of a plan.
const JOBS: u64 = 6;

/// Holds each job until two calls were answered after its begin: the second of them began after it too. What is out of looks is late, and
/// holds no further job.
#[derive(Drop)]
struct Answered {
    calls: AtomicU64,
    late: AtomicU64,
    reads: AtomicU64,
    ended: AtomicU64,
}

impl Gate for Answered {
    fn run(&self, alloc: Global, worker: u32, job: &Job) -> Result<Finished, AllocError> {
        self.reads
            .fetch_add(job.reads().len() as u64, Ordering::SeqCst);
        let calls = self.calls.load(Ordering::SeqCst).saturating_add(2);
        if self.late.load(Ordering::SeqCst) == 0 && !spins_to(&self.calls, calls) {
            self.late.store(1, Ordering::SeqCst);
        }
        Plain.run(alloc, worker, job)
    }
}

// asks for the plan until the worker has ended, and says whether it is known then
fn ask_meanwhile<R: Wait + Clock>(
    rt: &R,
    shared: &Shared,
    mut seat: Seat,
    gate: &Answered,
) -> Option<bool> {
    for _ in 0..100_000u32 {
        let is_over = gate.ended.load(Ordering::SeqCst) == 1;
        let plan = key_of(Kind::Deploy, "Y").ok()?;
        let receipt = shared.ask(rt, &mut seat, plan).ok()?;
        gate.calls.fetch_add(1, Ordering::SeqCst);
        if is_over {
            return Some(matches!(receipt.reply(), Reply::Value(_)));
        }
        pause(rt, 1);
    }
    None
}

#[test]
fn calls_are_answered_while_a_long_job_runs(rt: HostRuntime) -> Result<(), Fail> {
    let alloc: Global = rt.alloc();
    let (shared, first, second) = committed(&rt, alloc, 1_000_000, &["T", "S", "Y"])?;
    let gate = Answered {
        calls: AtomicU64::new(0),
        late: AtomicU64::new(0),
        reads: AtomicU64::new(0),
        ended: AtomicU64::new(0),
    };
    let told = join(
        &rt,
        || work_beside(&rt, alloc, &shared, second, &gate, JOBS, &gate.ended),
        || ask_meanwhile(&rt, &shared, first, &gate),
    );
    assert_eq!(rt; told, ((WorkEnd::TurnsOver, 12), Some(true)));
    let late = gate.late.load(Ordering::SeqCst);
    let reads = gate.reads.load(Ordering::SeqCst);
    assert!(rt; late == 0 && reads > 2 * JOBS, "{late} late, {reads} reads");
    Ok(())
}
