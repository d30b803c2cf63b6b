//! Those who watch, and the thread that wakes them after events.
use crate::setup::{new_shared, pause, puts};
use fb_shared::bench::Showing;
use fb_shared::{Seat, Shared};
use std::alloc::Global;
use std::sync::Wait;
use std::test::Fail;
use std::thread::join;
use std::time::{Clock, Duration};

/// Longer than a test may last: one with a watch that nobody wakes fails.
const LONG: u64 = 600_000;

// how many events a watch after this call shows
fn watch<R: Wait + Clock>(rt: &R, shared: &Shared, seat: &mut Seat, after: u64) -> Option<usize> {
    let shown = shared.watch(rt, seat, after, Duration::from_millis(LONG));
    match shown.ok()?? {
        Showing::Events { at: _, events } => Some(events.len()),
        _ => None,
    }
}

// watches for a commit and for the next one, and ends the watches
fn watch_twice<R: Wait + Clock>(rt: &R, shared: &Shared, mut seat: Seat) -> bool {
    let first = watch(rt, shared, &mut seat, 0);
    let second = watch(rt, shared, &mut seat, 1);
    shared.end_watches(rt);
    0 < first.unwrap_or(0) && 0 < second.unwrap_or(0)
}

// commits two units, each when those who watch have had time to wait again
fn commit_twice<R: Wait + Clock>(
    rt: &R,
    alloc: Global,
    shared: &Shared,
    mut seat: Seat,
) -> Option<()> {
    for unit in ["A", "B"] {
        pause(rt, 50);
        shared
            .commit(rt, &mut seat, &puts(alloc, 0, &[unit])?)
            .ok()?;
    }
    Some(())
}

// ends the watches when those who watch have had time to wait
fn end_later<R: Wait + Clock>(rt: &R, shared: &Shared) {
    pause(rt, 50);
    shared.end_watches(rt);
}

#[test]
fn each_commit_wakes_a_watch(rt: HostRuntime) -> Result<(), Fail> {
    let alloc: Global = rt.alloc();
    let (shared, committer, watcher) = new_shared(alloc, 1000)?;
    let told = join(
        &rt,
        || shared.tell_watchers(&rt),
        || {
            join(
                &rt,
                || watch_twice(&rt, &shared, watcher),
                || commit_twice(&rt, alloc, &shared, committer),
            )
        },
    );
    assert_eq!(rt; told, ((), (true, Some(()))));
    assert!(rt; shared.is_closing());
    Ok(())
}

#[test]
fn the_end_of_watches_wakes_a_watch(rt: HostRuntime) -> Result<(), Fail> {
    let (shared, _other, mut watcher) = new_shared(rt.alloc(), 1000)?;
    let told = join(
        &rt,
        || shared.tell_watchers(&rt),
        || {
            join(
                &rt,
                || watch(&rt, &shared, &mut watcher, 0),
                || end_later(&rt, &shared),
            )
        },
    );
    assert_eq!(rt; told, ((), (Some(0), ())));
    Ok(())
}
