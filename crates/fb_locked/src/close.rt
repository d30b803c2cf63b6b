//! The end of the calls, by all seats and receipts.
ghost use Rattle.std.specs.Prelude.{◌≡◌, IfErr, IfOk};
ghost use Rattle.fb_locked.specs.{Book.{IsBookOf}, Closing.{AgreesWith, ChecksAll, IsFirstFault}};

use crate::callers::{count_calls, missing_seat, wrong_seat};
use crate::locked::Locked;
use crate::receipts::check_receipts;
use crate::seat::{Receipt, Seat};
use fb_bench::Bench;
use std::alloc::Global;
use std::collections::BTreeMap;

/// Why a workbench does not close.
#[derive(Clone, Copy, PartialEq, Eq, Debug)]
pub enum CloseError {
    SeatMissing(u32),
    SeatDiffers(u32),
    ReceiptDiffers(u64),
    ReceiptTwice(u64),
    /// All seats and receipts fit, and there is no room for the counts.
    Memory,
}

/// What a close gives: the workbench, and how many calls each caller has made, by rising caller.
#[derive(Drop)]
pub struct Closed {
    pub bench: Bench,
    pub counts: BTreeMap<u32, u64>,
}

/// What a close that is refused hands back.
#[derive(Drop)]
pub struct NotClosed<T> {
    pub fault: CloseError,
    pub owner: T,
    pub seats: Vec<Seat>,
}

impl Locked {
    /// Ends the calls. It is refused if a seat or a receipt does not fit.
    pub fn close(
        self,
        alloc: Global,
        seats: Vec<Seat>,
        receipts: &[Receipt],
    ) -> Result<Closed, NotClosed<Locked>>
        ensures agrees { IfOk result
            (λ closed. AgreesWith self.callers self.bench seats.items receipts.now) }
        ensures bench { IfOk result (λ closed. closed.bench ≡ self.bench) }
        ensures counts { IfOk result
            (λ closed. IsBookOf closed.counts self.callers self.bench) }

        ensures fault { IfErr result
            (λ refused. IsFirstFault self.callers self.bench
            seats.items receipts.now refused.fault) }
        ensures back { IfErr result
            (λ refused. (refused.owner ≡ self) × (refused.seats.items ≡ seats.items)) }
    {
        let callers = self.callers;
        close_for(self, alloc, callers, seats, receipts)
    }
}

/// Ends the calls of a workbench with seats for this number of callers, which its holder knows.
pub fn close_for(
    locked: Locked,
    alloc: Global,
    callers: u32,
    seats: Vec<Seat>,
    receipts: &[Receipt],
) -> Result<Closed, NotClosed<Locked>>
    ensures agrees { IfOk result
        (λ closed. AgreesWith callers locked.bench seats.items receipts.now) }
    ensures bench { IfOk result (λ closed. closed.bench ≡ locked.bench) }
    ensures counts { IfOk result
        (λ closed. IsBookOf closed.counts callers locked.bench) }

    ensures fault { IfErr result
        (λ refused. IsFirstFault callers locked.bench
        seats.items receipts.now refused.fault) }
    ensures back { IfErr result
        (λ refused. (refused.owner ≡ locked) × (refused.seats.items ≡ seats.items)) }
{
    match check(alloc, &locked.bench, callers, &seats, receipts) {
        Ok(counts) => {
            let Locked {
                alloc: _,
                bench,
                callers: _,
                stopped: _,
                past: _,
            } = locked;
            Ok(Closed { bench, counts })
        }
        Err(fault) => Err(NotClosed {
            fault,
            owner: locked,
            seats,
        }),
    }
}

/// The counts of the calls, or the first fault of seats and receipts. Lack of memory comes last.
fn check(
    alloc: Global,
    bench: &Bench,
    callers: u32,
    seats: &[Seat],
    receipts: &[Receipt],
) -> Result<BTreeMap<u32, u64>, CloseError>
    ensures { ChecksAll callers bench.now seats.now receipts.now result }
{
    if let Some(caller) = missing_seat(bench, callers, seats) {
        return Err(CloseError::SeatMissing(caller));
    }
    if let Some(caller) = wrong_seat(bench, seats) {
        return Err(CloseError::SeatDiffers(caller));
    }
    if let Err(fault) = check_receipts(alloc, bench, receipts) {
        return Err(fault);
    }
    match count_calls(alloc, bench, callers) {
        Ok(counts) => Ok(counts),
        Err(_) => Err(CloseError::Memory),
    }
}
