//! Two threads that ask, and two that work.
use crate::play::counts_in;
use crate::setup::{are_replies, ask_often, committed, new_shared, pair, spins_to, work};
use fb_jobs::{Finished, Job};
use fb_shared::{Gate, Plain, Shared, WorkEnd};
use std::alloc::{AllocError, Global};
use std::sync::Wait;
use std::sync::atomic::{AtomicU64, Ordering};
use std::test::Fail;
use std::thread::join;

#[test]
fn two_threads_ask(rt: HostRuntime) -> Result<(), Fail> {
    let alloc: Global = rt.alloc();
    let (shared, first, second) = new_shared(alloc, 400)?;
    let (a, b) = join(
        &rt,
        || ask_often(&rt, alloc, &shared, first, 200),
        || ask_often(&rt, alloc, &shared, second, 200),
    );
    let (first, mut receipts) = a.ok_or("refused")?;
    let (second, mut others) = b.ok_or("refused")?;
    receipts.append(&mut others)?;
    assert_eq!(rt; receipts.len(), 400);
    let counts = counts_in(shared.close(alloc, pair(alloc, first, second)?, &receipts));
    assert_eq!(rt; counts, Some((400, 200, 200)));
    Ok(())
}

// Holds the first job until the second has begun; a gate that is out of looks is late.
#[derive(Drop)]
struct Meeting {
    begun: AtomicU64,
    late: AtomicU64,
}

impl Gate for Meeting {
    fn run(&self, alloc: Global, worker: u32, job: &Job) -> Result<Finished, AllocError> {
        if self.begun.fetch_add(1, Ordering::SeqCst) == 0 && !spins_to(&self.begun, 2) {
            self.late.store(1, Ordering::SeqCst);
        }
        Plain.run(alloc, worker, job)
    }
}

// makes the workers stop, and says whether both jobs have begun before
fn stop_both<R: Wait>(rt: &R, shared: &Shared, gate: &Meeting) -> bool {
    let have_begun = spins_to(&gate.begun, 2);
    shared.stop(rt);
    have_begun
}

#[test]
fn two_jobs_run_at_once(rt: HostRuntime) -> Result<(), Fail> {
    let alloc: Global = rt.alloc();
    let (shared, mut first, mut second) = committed(&rt, alloc, 1000, &["A", "B"])?;
    let gate = Meeting {
        begun: AtomicU64::new(0),
        late: AtomicU64::new(0),
    };
    let ((a, b), have_begun) = join(
        &rt,
        || {
            join(
                &rt,
                || work(&rt, alloc, &shared, &mut first, &gate, 1_000_000),
                || work(&rt, alloc, &shared, &mut second, &gate, 1_000_000),
            )
        },
        || stop_both(&rt, &shared, &gate),
    );
    assert!(rt; have_begun && gate.late.load(Ordering::SeqCst) == 0);
    assert_eq!(rt; gate.begun.load(Ordering::SeqCst), 2);
    assert_eq!(rt; (a.0, b.0), (WorkEnd::Stopped, WorkEnd::Stopped));
    let one_job = ["job", "accepted"];
    assert!(rt; are_replies(&a.1, &one_job) && are_replies(&b.1, &one_job));
    Ok(())
}
