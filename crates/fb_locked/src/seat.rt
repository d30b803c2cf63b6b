//! The seats of callers, and the receipts of their calls.
ghost use Rattle.std.specs.Prelude.{◌≡◌, ◌↔◌, IsTrue, max};
ghost use Rattle.fb_bench.specs.Records.{call_of, reply_of};

use fb_bench::{Call, Record, Reply};
use std::marker::Model;
use std::sync::Arc;

/// The right of one caller to make calls. It can't be copied.
#[derive(Debug)]
pub struct Seat {
    pub(crate) caller: u32,
    pub(crate) turns: u64,
    pub(crate) seen: u64,
}

impl Drop for Seat {
    fn drop(self) {
        let Self {
            caller: _,
            turns: _,
            seen: _,
        } = self;
    }
}

impl Model for Seat {
    ghost use Rattle.fb_locked.specs.Seats.{SeatView};

    ghost Value = { SeatView };

    ghost view = { λ it. record { caller = it.caller; turns = it.turns; seen = it.seen } };
}

impl Seat {
    /// Whose seat it is.
    pub fn caller(&self) -> u32
        ensures { result ≡ self.now.caller }
    {
        self.caller
    }

    /// How many calls of its caller it knows of: those that were made with it, and those before, if its workbench was resumed.
    pub fn turns(&self) -> u64
        ensures { result ≡ self.now.turns }
    {
        self.turns
    }

    /// The greatest number of a record that it has seen.
    pub fn seen(&self) -> u64
        ensures { result ≡ self.now.seen }
    {
        self.seen
    }

    /// Shows it a receipt: what is called with it from now on is recorded after that.
    pub fn show(&mut self, receipt: &Receipt)
        ensures { self.new ≡ record self.old { seen = max self.old.seen receipt.now.number } }
    {
        self.seen = self.seen.max(receipt.number());
    }
}

/// What a recorded call gives: its record, with its number. Only the calls of this crate make one.
#[derive(Drop)]
pub struct Receipt {
    pub(crate) number: u64,
    pub(crate) record: Arc<Record>,
}

impl Model for Receipt {
    ghost use Rattle.fb_locked.specs.Seats.{ReceiptView};

    ghost Value = { ReceiptView };

    ghost view = { λ it. record { number = it.number; entry = it.record.value } };
}

impl Receipt {
    /// The number of the record, counted over all calls from 1.
    pub fn number(&self) -> u64
        ensures { result ≡ self.now.number }
    {
        self.number
    }

    /// Who made the call.
    pub fn caller(&self) -> u32
        ensures { result ≡ self.now.entry.caller }
    {
        self.record.caller()
    }

    /// How many calls of its caller were recorded then, this one included.
    pub fn turn(&self) -> u64
        ensures { result ≡ self.now.entry.turn }
    {
        self.record.turn()
    }

    /// Whether both are the same by content: of one number, caller and turn, with the same call and the same reply.
    pub fn is_same(&self, other: &Receipt) -> bool
        ensures { IsTrue result ↔ (self.now ≡ other.now) }
    {
        self.number == other.number && self.record.is_same(&other.record)
    }

    pub fn call(&self) -> &Call
        ensures { call_of result.now ≡ self.now.entry.call }
    {
        self.record.call()
    }

    pub fn reply(&self) -> &Reply
        ensures { reply_of result.now ≡ self.now.entry.reply }
    {
        self.record.reply()
    }
}
