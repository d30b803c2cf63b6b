//! Rounds of work that a workbench makes in one call each, and the same rounds by their calls.
use crate::conversation::new_bench;
use crate::jobs::put;
use fb_wire::bench::{Bench, Delivered, Taken};
use std::alloc::Global;
use std::process::Abort;
use std::test::Fail;

// Whether there was a job, whose result was accepted; None if a call was refused.
fn round_by_calls(alloc: Global, bench: &mut Bench) -> Option<bool> {
    let Taken::Job(job) = bench.take(1).ok()? else {
        return Some(false);
    };
    let finished = job.run(alloc).ok()?;
    Some(bench.deliver(1, &finished).ok()? == Delivered::Accepted)
}

fn are_records_same(bench: &Bench, other: &Bench) -> bool {
    for number in 0..bench.last_number() {
        match (bench.record(number + 1), other.record(number + 1)) {
            (Some(record), Some(same)) if record.is_same(same) => {}
            _ => return false,
        }
    }
    other.len() == bench.len()
}

fn are_marks_same(bench: &Bench, other: &Bench) -> bool {
    for place in 0..bench.key_count() {
        let Some(key) = bench.key_at(place) else {
            return false;
        };
        if bench.is_out(&key) != other.is_out(&key) {
            return false;
        }
    }
    other.pending_count() == bench.pending_count()
}

const INNER: &str = "SUBAPPLICATION A END_SUBAPPLICATION";

const OUTER: &str = "SUBAPPLICATION B SUBAPPS X:A; END_SUBAPPS END_SUBAPPLICATION";

// A workbench with two units, which have four keys, and with room for this number of records.
fn begun(alloc: Global, history: u64) -> Result<Bench, Fail> {
    let mut changes = Vec::new(alloc);
    put(alloc, &mut changes, "A", 0, INNER)?;
    put(alloc, &mut changes, "B", 0, OUTER)?;
    let mut bench = new_bench(alloc, 2, history)?;
    bench.commit(1, &changes)?;
    Ok(bench)
}

fn compare_rounds(rt: &impl Abort, alloc: Global, history: u64) -> Result<(), Fail> {
    let mut bench = begun(alloc, history)?;
    let mut other = begun(alloc, history)?;
    for _ in 0..6u8 {
        let wanted = round_by_calls(alloc, &mut other);
        assert_eq!(rt; bench.work_once(1).ok(), wanted, "{history} records");
        assert!(rt; are_records_same(&bench, &other), "{history} records");
        assert!(rt; are_marks_same(&bench, &other), "{history} records");
    }
    Ok(())
}

// The history is full at a take, at a delivery, and once there is nothing to take.
#[test]
fn a_round_is_its_calls(rt: HostRuntime) -> Result<(), Fail> {
    for history in 1..12u64 {
        compare_rounds(&rt, rt.alloc(), history)?;
    }
    Ok(())
}
