//! The receipts of the calls since the history last began.
ghost use Rattle.std.specs.Prelude.{◌≡◌, ◌≤◌, ◌<◌, ◌*◌, ◌-◌, [], length};

use fb_shared::Receipt;
use std::alloc::Global;
use std::mem;
use std::sync::{Mutex, Wait};

/// The receipts of all calls of one epoch, and how many calls came before its start. Receipts of the epoch before stay in `past` until they are dropped, two with
/// each new one and the last ones first. The workbench drops its records in the same way, so no record outlives its place in the history for long.
pub struct EpochReceipts {
    alloc: Global,
    start: u64,
    receipts: Vec<Receipt>,
    past: Vec<Receipt>,
}

impl Drop for EpochReceipts {
    fn drop(self) {
        let Self {
            alloc: _,
            start: _,
            receipts: _,
            past: _,
        } = self;
    }
}

/// Drops the last receipts, up to this number of them. Once none is left their room is given back too.
fn drop_last(alloc: Global, receipts: &mut Vec<Receipt>, count: usize)
    ensures { length receipts.new.items ≡ length receipts.old.items - count }
{
    receipts.truncate(receipts.len().saturating_sub(count));
    if receipts.is_empty() {
        *receipts = Vec::new(alloc);
    }
}

impl EpochReceipts {
    /// No receipts, of a history that has never begun again.
    pub(crate) fn new(alloc: Global) -> EpochReceipts {
        EpochReceipts {
            alloc,
            start: 0,
            receipts: Vec::new(alloc),
            past: Vec::new(alloc),
        }
    }

    /// Takes the receipts in, at this start of the history or a later one. Those that come too late are dropped. If there is no room, the others stay. It gives what
    /// is left of the epoch before the last one: some, if that one was short.
    pub(crate) fn add(&mut self, start: u64, receipts: &mut Vec<Receipt>) -> Vec<Receipt>
        // Within an epoch two receipts of the one before go with each that is new, as long as there are some.
        ensures past { start ≤ self.old.start
            → (self.new.start ≡ self.old.start) × (result.items ≡ [])
            × (length self.new.past.items
            ≤ length self.old.past.items
            - 2 * (length self.new.receipts.items - length self.old.receipts.items)) }
        ensures later { self.old.start < start
            → (self.new.start ≡ start) × (result.items ≡ self.old.past.items)
            × (length self.new.receipts.items ≤ length receipts.old.items) }
    {
        let mut left = Vec::new(self.alloc);
        if self.start < start {
            self.start = start;
            let ended = mem::replace(&mut self.receipts, left);
            left = mem::replace(&mut self.past, ended);
        }
        let start = self.start;
        receipts.retain(|receipt| start < receipt.number());
        drop_last(self.alloc, &mut self.past, receipts.len().saturating_mul(2));
        let _added = self.receipts.append(receipts);
        left
    }

    /// Those with a number after this one.
    pub(crate) fn into_receipts(self, before: u64) -> Vec<Receipt> {
        let EpochReceipts {
            alloc: _,
            start: _,
            receipts,
            past: _,
        } = self;
        let mut receipts = receipts;
        receipts.retain(|receipt| before < receipt.number());
        receipts
    }
}

/// The receipts of an epoch, which threads share.
pub struct ReceiptStore {
    state: Mutex<EpochReceipts>,
}

impl Drop for ReceiptStore {
    fn drop(self) {
        let Self { state: _ } = self;
    }
}

impl ReceiptStore {
    pub fn new(alloc: Global) -> ReceiptStore {
        ReceiptStore {
            state: Mutex::new(EpochReceipts::new(alloc)),
        }
    }

    /// Takes the receipts in, up to the room that there is, with how many calls came before the last start of the history when they were made, or later. The
    /// others stay, and follow the next time. What is left of a short epoch is dropped with no lock held.
    pub fn add<R: Wait>(&self, rt: &R, start: u64, receipts: &mut Vec<Receipt>) {
        let left = self.state.lock(rt).add(start, receipts);
        drop(left);
    }

    /// Those with a number after this one.
    pub fn into_receipts(self, before: u64) -> Vec<Receipt> {
        let ReceiptStore { state } = self;
        state.into_inner().into_receipts(before)
    }
}
