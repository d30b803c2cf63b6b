//! A conversation of two callers, with the lock and without: the first commits A; the second, which is shown that, asks
//! for its faults, takes the job, runs it, delivers the result, asks again and gives back what is not out.
use crate::setup::{faults_of, new_locked, new_shared, puts, word_of};
use fb_shared::{Closed, Locked, NotClosed, Receipt, Seat, Shared};
use std::alloc::Global;
use std::sync::Wait;
use std::test::Fail;

/// A workbench after the conversation, its seats and the receipts.
pub(crate) type Played<T> = (T, Seat, Seat, Vec<Receipt>);

/// The conversation on a new workbench with room for this number of records.
pub(crate) fn played_shared<R: Wait>(
    rt: &R,
    alloc: Global,
    history: u64,
) -> Result<Played<Shared>, Fail> {
    let changes = puts(alloc, 0, &["A"]).ok_or("changes")?;
    let (owner, mut first, mut second) = new_shared(alloc, history)?;
    let mut receipts = vec![in alloc; owner.commit(rt, &mut first, &changes)?]?;
    second.show(receipts.get(0).ok_or("a receipt")?);
    receipts.push(owner.ask(rt, &mut second, faults_of("A")?)?)?;
    let (receipt, job) = owner.take(rt, &mut second)?;
    receipts.push(receipt)?;
    let finished = job.ok_or("a job")?.run(alloc)?;
    receipts.push(owner.deliver(rt, &mut second, &finished)?)?;
    receipts.push(owner.ask(rt, &mut second, faults_of("A")?)?)?;
    receipts.push(owner.give_back(rt, &mut second, faults_of("A")?)?)?;
    Ok((owner, first, second, receipts))
}

/// The same with no lock.
pub(crate) fn played_locked(alloc: Global) -> Result<Played<Locked>, Fail> {
    let changes = puts(alloc, 0, &["A"]).ok_or("changes")?;
    let (mut owner, mut first, mut second) = new_locked(alloc, 1000)?;
    let mut receipts = vec![in alloc; owner.commit(&mut first, &changes)?]?;
    second.show(receipts.get(0).ok_or("a receipt")?);
    receipts.push(owner.ask(&mut second, faults_of("A")?)?)?;
    let (receipt, job) = owner.take(&mut second)?;
    receipts.push(receipt)?;
    let finished = job.ok_or("a job")?.run(alloc)?;
    receipts.push(owner.deliver(&mut second, &finished)?)?;
    receipts.push(owner.ask(&mut second, faults_of("A")?)?)?;
    receipts.push(owner.give_back(&mut second, faults_of("A")?)?)?;
    Ok((owner, first, second, receipts))
}

// Number, caller, turn and reply of each receipt.
const PLAYED: &[(u64, u32, u64, &str)] = &[
    (1, 1, 1, "first commit"),
    (2, 2, 1, "pending"),
    (3, 2, 2, "job"),
    (4, 2, 3, "accepted"),
    (5, 2, 4, "no faults"),
    (6, 2, 5, "nothing out"),
];

/// Whether these are the receipts of the conversation.
pub(crate) fn are_played(receipts: &[Receipt]) -> bool {
    let mut are_played = receipts.len() == PLAYED.len();
    for (receipt, row) in receipts.iter().zip(PLAYED.iter()) {
        let word = word_of(receipt.reply());
        let found = (receipt.number(), receipt.caller(), receipt.turn(), word);
        are_played = are_played && found == *row;
    }
    are_played
}

/// Whether both have the same receipts by content.
pub(crate) fn are_same(receipts: &[Receipt], others: &[Receipt]) -> bool {
    let mut pairs = receipts.iter().zip(others.iter());
    pairs.all(|(receipt, other)| receipt.is_same(other)) && receipts.len() == others.len()
}

/// How many records there are, and how many of them the callers 1 and 2 have.
pub(crate) type Counts = (usize, u64, u64);

/// The counts of a workbench, if it was closed and these callers are all.
pub(crate) fn counts_in<T: Drop>(closed: Result<Closed, NotClosed<T>>) -> Option<Counts> {
    let closed = closed.ok()?;
    let first = closed.counts.get(&1).copied()?;
    let second = closed.counts.get(&2).copied()?;
    (closed.counts.len() == 2).then_some((closed.bench.len(), first, second))
}
