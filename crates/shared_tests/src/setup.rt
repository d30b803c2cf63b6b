//! Keys, changes, workbenches, seats, replies and workers for the tests.
use fb_jobs::{Key, Kind, Value};
use fb_shared::bench::{Committed, Delivered, GivenBack, Limits, Reply};
use fb_shared::library::Change;
use fb_shared::parse::Source;
use fb_shared::{Gate, Locked, Receipt, Seat, Seated, Shared, WorkEnd, work_on};
use fb_text::{Name, NameFault};
use std::alloc::{AllocError, Global};
use std::hint::spin_loop;
use std::sync::Wait;
use std::sync::atomic::{AtomicU64, Ordering};
use std::test::Fail;
use std::thread;
use std::time::{Clock, Duration};

/// The key of this kind of a unit.
pub(crate) fn key_of(kind: Kind, unit: &str) -> Result<Key, NameFault> {
    let unit = Name::read(unit)?;
    Ok(Key { kind, unit })
}

/// The key of the faults of a unit.
pub(crate) fn faults_of(unit: &str) -> Result<Key, NameFault> {
    key_of(Kind::Faults, unit)
}

// The text of a unit: the system Y holds the subapplication S, and this an instance of T.
fn text_of(unit: &str) -> &'static str {
    match unit {
        "T" => "FUNCTION_BLOCK T END_FUNCTION_BLOCK",
        "S" => "SUBAPPLICATION S FBS X:T; END_FBS END_SUBAPPLICATION",
        "Y" => {
            "SYSTEM Y APPLICATION A SUBAPPS P:S; END_SUBAPPS END_APPLICATION DEVICE D:DT RESOURCE R:RT END_RESOURCE END_DEVICE MAPPINGS A ON D.R; END_MAPPINGS END_SYSTEM"
        }
        _ => "FUNCTION_BLOCK A END_FUNCTION_BLOCK",
    }
}

/// Changes that put each of the units, which are at this revision.
pub(crate) fn puts(alloc: Global, base: u64, units: &[&str]) -> Option<Vec<Change>> {
    let mut changes = Vec::new(alloc);
    for unit in units {
        let source = Source::read(alloc, Name::read(unit).ok()?, text_of(unit)).ok()?;
        changes.push(Change::Put { base, source }).ok()?;
    }
    Some(changes)
}

/// Sleeps, for example until a worker waits.
pub(crate) fn pause<R: Clock>(rt: &R, milliseconds: u64) {
    thread::sleep(rt, Duration::from_millis(milliseconds));
}

/// Looks each millisecond whether a count has reached this number; false after 10,000 looks.
pub(crate) fn comes_to<R: Clock>(rt: &R, count: &AtomicU64, number: u64) -> bool {
    for _ in 0..10_000u32 {
        if number <= count.load(Ordering::SeqCst) {
            return true;
        }
        pause(rt, 1);
    }
    false
}

/// The same with no pause between the looks; false after 2,000,000,000 of them.
pub(crate) fn spins_to(count: &AtomicU64, number: u64) -> bool {
    for _ in 0..2_000_000_000u32 {
        if number <= count.load(Ordering::SeqCst) {
            return true;
        }
        spin_loop();
    }
    false
}

/// Limits of four units and this number of records.
pub(crate) fn limits(history: u64) -> Result<Limits, Fail> {
    Ok(Limits::new(4, history).ok_or("limits")?)
}

/// A workbench, and the seats of its two callers.
pub(crate) type Hall<T> = (T, Seat, Seat);

/// A workbench with the seats of its two callers, which are the last ones.
pub(crate) fn hall_of<T: Drop>(made: (T, Vec<Seat>)) -> Result<Hall<T>, Fail> {
    let (owner, mut seats) = made;
    let second = seats.pop().ok_or("a seat")?;
    let first = seats.pop().ok_or("a seat")?;
    Ok((owner, first, second))
}

/// A shared workbench with room for this number of records, and the seats of its two callers.
pub(crate) fn new_shared(alloc: Global, history: u64) -> Result<Hall<Shared>, Fail> {
    hall_of(Shared::new(alloc, limits(history)?, 2)?)
}

/// The same with no lock.
pub(crate) fn new_locked(alloc: Global, history: u64) -> Result<Hall<Locked>, Fail> {
    hall_of(Locked::new(alloc, limits(history)?, 2)?)
}

/// Both seats, to close with.
pub(crate) fn pair(alloc: Global, first: Seat, second: Seat) -> Result<Vec<Seat>, AllocError> {
    Ok(vec![in alloc; first, second]?)
}

fn has_no_faults(value: &Value) -> bool {
    match value {
        Value::Faults(faults) => faults.is_empty(),
        _ => false,
    }
}

/// A reply in words.
pub(crate) fn word_of(reply: &Reply) -> &'static str {
    match reply {
        Reply::Committed(answer) if **answer == Committed::Done(1) => "first commit",
        Reply::Pending => "pending",
        Reply::Job(_) => "job",
        Reply::Accepted => "accepted",
        Reply::NotAccepted(answer) if **answer == Delivered::NotPending => "not pending",
        Reply::Value(value) if has_no_faults(value) => "no faults",
        Reply::GivenBack(GivenBack::Returned) => "returned",
        Reply::GivenBack(GivenBack::NothingOut) => "nothing out",
        _ => "another reply",
    }
}

/// Whether these are the replies in words.
pub(crate) fn are_replies(receipts: &[Receipt], words: &[&str]) -> bool {
    let mut pairs = receipts.iter().zip(words.iter());
    let are_replies = pairs.all(|(receipt, word)| word_of(receipt.reply()) == *word);
    are_replies && receipts.len() == words.len()
}

/// A shared workbench in which the first of its two callers has made the first commit, of these units.
pub(crate) fn committed<R: Wait>(
    rt: &R,
    alloc: Global,
    history: u64,
    units: &[&str],
) -> Result<Hall<Shared>, Fail> {
    let (shared, mut first, second) = new_shared(alloc, history)?;
    let changes = puts(alloc, 0, units).ok_or("changes")?;
    let done = shared.commit(rt, &mut first, &changes)?;
    let is_first = word_of(done.reply()) == "first commit";
    let hall = is_first.then_some((shared, first, second));
    Ok(hall.ok_or("a first commit")?)
}

/// Asks this number of times for a unit that is absent, and gives the seat back with the receipts.
pub(crate) fn ask_often<R: Wait>(
    rt: &R,
    alloc: Global,
    shared: &Shared,
    mut seat: Seat,
    times: u64,
) -> Option<(Seat, Vec<Receipt>)> {
    let mut receipts = Vec::new(alloc);
    for _ in 0..times {
        let receipt = shared.ask(rt, &mut seat, faults_of("X").ok()?).ok()?;
        receipts.push(receipt).ok()?;
    }
    Some((seat, receipts))
}

/// How a worker ends, and the receipts that it then has.
pub(crate) fn work<R: Wait, G: Gate>(
    rt: &R,
    alloc: Global,
    shared: &Shared,
    seat: &mut Seat,
    gate: &G,
    turns: u64,
) -> (WorkEnd, Vec<Receipt>) {
    let mut receipts = Vec::new(alloc);
    let end = work_on(rt, alloc, shared, seat, &mut receipts, gate, turns);
    (end, receipts)
}

/// How a worker ended, and how many receipts it then had.
pub(crate) type Ended = (WorkEnd, usize);

/// How a worker ends in a thread of its own, which then counts it.
pub(crate) fn work_beside<R: Wait, G: Gate>(
    rt: &R,
    alloc: Global,
    shared: &Shared,
    mut seat: Seat,
    gate: &G,
    turns: u64,
    count: &AtomicU64,
) -> Ended {
    let (end, receipts) = work(rt, alloc, shared, &mut seat, gate, turns);
    count.fetch_add(1, Ordering::SeqCst);
    (end, receipts.len())
}

/// A shared workbench as the desk of this seat, with no receipt.
pub(crate) fn desk_of<'a, R: Wait>(
    rt: &'a R,
    alloc: Global,
    shared: &'a Shared,
    seat: Seat,
) -> Seated<'a, R> {
    Seated {
        rt,
        shared,
        seat,
        receipts: Vec::new(alloc),
    }
}
