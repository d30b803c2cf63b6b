//! A workbench under a lock whose history begins again once it is full, and keys that are out since a take.
ghost use Rattle.std.specs.Prelude.{◌≡◌, ◌↔◌, ◌≤◌, ◌-◌, IsTrue, OnOk, OnErr, length, take};
ghost use Rattle.fb_bench.specs.{History.Checkpoints.{checking, ChecksAs}, History.Limits.{Bounds}, History.BenchView.{IsOrigin}};
ghost use Rattle.fb_locked.specs.Rolling.{locked_rolled, takes, takes_at, IsOutSince, IsRollUnseen, IsTakenAfter, MakesRoom, MayReturn, Returns};
ghost use Rattle.fb_locked.specs.Seats.{LockedView};

use crate::locked::{Locked, SharedRefused};
use crate::seat::{Receipt, Seat};
use fb_bench::jobs::{Finished, Key};
use fb_bench::library::Change;
use fb_bench::{CheckpointRefused, Limits, Record, Reply, Request};
use std::mem;
use std::sync::Arc;

impl Locked {
    /// Makes the present state what the history begins from, with these limits, and gives the number of all calls so far. It is no call
    /// itself, and each seat fits as it did. The records so far are kept aside, so that nobody waits until all of them are dropped.
    pub fn roll(&mut self, limits: Limits) -> Result<u64, CheckpointRefused>
        ensures answer { ChecksAs (checking limits self.old.bench) result }
        ensures kept { OnOk result (self.new ≡ locked_rolled limits self.old) }
        ensures err { OnErr result (self.new ≡ self.old) }
    {
        let (before, records) = self.bench.begin_anew(limits)?;
        self.past = records;
        Ok(before)
    }

    /// Drops two of the records from before the last roll, if there are any. A hold of the lock records one call, so all of them are gone before the
    /// history is full again.
    fn drop_past(&mut self)
        ensures { self.new ≡ self.old }
    {
        drop_two(&mut self.past);
        if self.past.is_empty() {
            self.past = Vec::new(self.alloc);
        }
    }

    /// The records from before the last roll, so that they can be dropped once the lock is free.
    fn take_past(&mut self) -> Vec<Arc<Record>>
        ensures { self.new ≡ self.old }
    {
        let none = Vec::new(self.alloc);
        mem::replace(&mut self.past, none)
    }

    /// Rolls if the history is full or due to roll, and only then. It gives the records that the roll before has left: some, if it is due before it is full.
    pub fn make_room(
        &mut self,
        limits: Limits,
        is_due: bool,
    ) -> Result<Vec<Arc<Record>>, CheckpointRefused>
        ensures { MakesRoom limits is_due self.old result self.new }
    {
        self.drop_past();
        if !is_due && !self.bench.is_full() {
            return Ok(Vec::new(self.alloc));
        }
        let past = self.take_past();
        match self.roll(limits) {
            Ok(_before) => Ok(past),
            Err(refused) => Err(refused),
        }
    }

    /// Whether the key is handed out, and no record since the start that is after this number hands it out.
    pub fn is_out_since(&self, key: &Key, since: u64) -> bool
        ensures { IsTrue result ↔ IsOutSince self.now.bench key.now since }
    {
        self.bench.is_out(key) && !self.is_taken_after(key, since)
    }

    /// Whether a record after that of this number hands the key out.
    fn is_taken_after(&self, key: &Key, since: u64) -> bool
        ensures { IsTrue result ↔ IsTakenAfter self.now.bench key.now since }
    {
        let first = since.max(self.bench.before());
        let last = self.bench.last_number();
        for place in first..last {
            if self.takes_at(key, place + 1) {
                return true;
            }
        }
        false
    }

    /// Whether the record of this number hands the key out.
    fn takes_at(&self, key: &Key, number: u64) -> bool
        ensures { result ≡ takes_at self.now.bench key.now number }
    {
        match self.bench.record(number) {
            Some(it) => takes(it, key),
            None => false,
        }
    }

    /// Gives a key back, if it is out since the take of this number, and keeps the receipt. Otherwise nothing changes.
    pub fn return_held(
        &mut self,
        seat: &mut Seat,
        receipts: &mut Vec<Receipt>,
        key: Key,
        since: u64,
    ) -> Result<(), SharedRefused>
        ensures returns { Returns since self.old seat.old key result
            receipts.old.items self.new seat.new receipts.new.items }
        ensures may { MayReturn seat.old key result receipts.old.items seat.new receipts.new.items }
    {
        // Works around the borrow checker: both types that a `Request` can borrow must occur in a function that makes one.
        let _changes: &[Change] = &[];
        let _finished: Option<&Finished> = None;
        if !self.is_out_since(&key, since) {
            return Ok(());
        }
        match self.perform_into(seat, receipts, &Request::GiveBack(key)) {
            Ok(_answer) => Ok(()),
            Err(refused) => Err(refused),
        }
    }
}

/// Drops the last two records, or all if there are fewer.
fn drop_two(past: &mut Vec<Arc<Record>>)
    ensures { past.new.items ≡ take (length past.old.items - 2) past.old.items }
{
    drop(past.pop());
    drop(past.pop());
}

/// Whether the record hands the key out.
fn takes(it: &Record, key: &Key) -> bool
    ensures { result ≡ takes key.now it.now }
{
    match it.reply() {
        Reply::Job(wanted) => *wanted.key == *key,
        _ => false,
    }
}

/// A roll with its own limits changes nothing of a workbench under a lock but its records, and a seat that only a full history kept from calling
/// can call after it.
pub fn rolls_are_unseen()
    ensures { (limits : Bounds) (locked : LockedView) → IsOrigin locked.bench.origin
        → limits.units ≡ locked.bench.origin.most_units → 1 ≤ limits.history
        → IsRollUnseen limits locked }
{}
