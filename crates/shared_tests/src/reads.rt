//! What is read of a workbench, with the lock and without.
use crate::play::{played_locked, played_shared};
use crate::setup::{faults_of, new_shared};
use fb_history::{Event, Reader};
use fb_shared::bench::{Asked, Bench, Identity, Reading, Showing};
use fb_shared::{Locked, Seat, Shared};
use fb_text::Name;
use std::alloc::{AllocError, Global};
use std::fmt::Write;
use std::sync::Wait;
use std::test::Fail;
use std::time::Duration;

const NO_IDENTITY: Identity = Identity { high: 0, low: 0 };

fn write_names(told: &mut String, names: &[Name]) -> Result<(), AllocError> {
    for name in names {
        write!(told, " {}", name.as_str())?;
    }
    Ok(())
}

fn write_event(told: &mut String, event: &Event) -> Result<(), AllocError> {
    match event {
        Event::Commit {
            number,
            caller,
            put,
            removed,
        } => {
            write!(told, " commit {number} {caller}")?;
            write_names(told, put)?;
            write!(told, " /")?;
            write_names(told, removed)
        }
        Event::Value(key) => write!(told, " value {}", key.unit.as_str()),
    }
}

fn told_of(alloc: Global, showing: &Showing) -> Result<String, AllocError> {
    let mut told = String::new(alloc);
    match showing {
        Showing::Status { counts, workbench } => {
            let (calls, commits, keys) = (counts.calls, counts.commits, counts.keys);
            let (pending, session, units) = (counts.pending, counts.session, counts.units);
            write!(
                told,
                "{calls} {commits} {keys} {pending} {session} {units} {workbench}"
            )?;
        }
        Showing::Units { at, units } => {
            write!(told, "{at}")?;
            for it in units {
                write!(told, " {} {}", it.unit.as_str(), it.number)?;
            }
        }
        Showing::Text { at, base, text } => write!(told, "{at} {base} {}", text.as_str())?,
        Showing::NoSuchUnit(unit) => write!(told, "no {}", unit.as_str())?,
        Showing::Entry(Asked::Value(_)) => told.push_str("value")?,
        Showing::Entry(Asked::Pending) => told.push_str("pending")?,
        Showing::Entry(Asked::NoSuchKey) => told.push_str("no key")?,
        Showing::Events { at, events } => {
            write!(told, "{at}")?;
            for event in events {
                write_event(&mut told, event)?;
            }
        }
        Showing::Missed(at) => write!(told, "missed {at}")?,
    }
    Ok(told)
}

// What is read after the conversation of two callers.
fn readings(alloc: Global) -> Result<Vec<Reading>, Fail> {
    let (a, b) = (Name::read("A")?, Name::read("B")?);
    let mut readings = Vec::new(alloc);
    readings.push(Reading::Status)?;
    readings.push(Reading::Units(None))?;
    readings.push(Reading::Units(Some(a)))?;
    readings.push(Reading::Text(a))?;
    readings.push(Reading::Text(b))?;
    readings.push(Reading::Entry(faults_of("A")?))?;
    readings.push(Reading::Entry(faults_of("B")?))?;
    readings.push(Reading::Events(0))?;
    readings.push(Reading::Events(1))?;
    readings.push(Reading::Events(7))?;
    Ok(readings)
}

// What they show to the second caller.
const SHOWN: &str = r#"
6 1 1 0 2 1 00000000000000000000000000000000
6 A 1
6
6 1 FUNCTION_BLOCK A END_FUNCTION_BLOCK
no B
value
no key
6 commit 1 1 A / value A
6 value A
missed 6"#;

fn add_line(alloc: Global, told: &mut String, shown: Option<Showing>) -> Result<(), Fail> {
    let shown = shown.ok_or("behind")?;
    told.push('\n')?;
    told.push_str(told_of(alloc, &shown)?.as_str())?;
    Ok(())
}

fn read_bench(alloc: Global, bench: &Bench) -> Result<String, Fail> {
    let reader = Reader {
        session: 2,
        workbench: NO_IDENTITY,
    };
    let mut told = String::new(alloc);
    for reading in readings(alloc)? {
        let shown = bench.read(reader, &reading)?;
        add_line(alloc, &mut told, Some(shown))?;
    }
    Ok(told)
}

fn read_locked(alloc: Global, locked: &Locked, seat: &mut Seat) -> Result<String, Fail> {
    let mut told = String::new(alloc);
    for reading in readings(alloc)? {
        let shown = locked.read(seat, NO_IDENTITY, &reading)?;
        add_line(alloc, &mut told, shown)?;
    }
    Ok(told)
}

fn read_shared<R: Wait>(
    rt: &R,
    alloc: Global,
    shared: &Shared,
    seat: &mut Seat,
) -> Result<String, Fail> {
    let mut told = String::new(alloc);
    for reading in readings(alloc)? {
        let shown = shared.read(rt, seat, &reading)?;
        add_line(alloc, &mut told, shown)?;
    }
    Ok(told)
}

// By the workbench itself too.
#[test]
fn reads_without_the_lock(rt: HostRuntime) -> Result<(), Fail> {
    let alloc: Global = rt.alloc();
    let (locked, _first, mut seat, _receipts) = played_locked(alloc)?;
    let by_bench = read_bench(alloc, locked.bench())?;
    let by_seat = read_locked(alloc, &locked, &mut seat)?;
    assert_eq!(rt; by_bench.as_str(), SHOWN);
    assert_eq!(rt; by_seat.as_str(), SHOWN);
    Ok(())
}

#[test]
fn reads_with_the_lock(rt: HostRuntime) -> Result<(), Fail> {
    let alloc: Global = rt.alloc();
    let (shared, _first, mut seat, _receipts) = played_shared(&rt, alloc, 1000)?;
    let told = read_shared(&rt, alloc, &shared, &mut seat)?;
    assert_eq!(rt; told.as_str(), SHOWN);
    Ok(())
}

#[test]
fn a_watch_shows_what_is_there(rt: HostRuntime) -> Result<(), Fail> {
    let alloc: Global = rt.alloc();
    let (shared, _first, mut seat, _receipts) = played_shared(&rt, alloc, 1000)?;
    let shown = shared.watch(&rt, &mut seat, 1, Duration::from_millis(10_000))?;
    let told = told_of(alloc, &shown.ok_or("behind")?)?;
    assert_eq!(rt; told.as_str(), "6 value A");
    Ok(())
}

// A seat that has seen a call that this workbench has not made reads nothing.
#[test]
fn a_read_behind_what_was_seen(rt: HostRuntime) -> Result<(), Fail> {
    let alloc: Global = rt.alloc();
    let (_locked, _first, _second, receipts) = played_locked(alloc)?;
    let (shared, _other, mut seat) = new_shared(alloc, 1000)?;
    seat.show(receipts.get(3).ok_or("a receipt")?);
    let shown = shared.read(&rt, &mut seat, &Reading::Status)?;
    assert!(rt; shown.is_none());
    Ok(())
}
