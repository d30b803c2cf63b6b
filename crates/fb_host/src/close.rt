//! The close of a host.
ghost use Rattle.std.specs.Prelude.{◌≡◌, IfOk, true, nat_lt};
ghost use Rattle.fb_locked.specs.{Book.{IsBookOf}, Closing.{IsLeast, receipts_of}, History.BenchView.{turns_of}};
ghost use Rattle.fb_serve.specs.Shown.{ShowsAll};
ghost use Rattle.fb_host.specs.Short.{is_short};

use crate::receipt_store::ReceiptStore;
use crate::threads::Results;
use fb_locked::lesser;
use fb_serve::{NotServed, Served};
use fb_shared::bench::Bench;
use fb_shared::{Receipt, Shared};
use std::alloc::Global;
use std::sync::Wait;

/// Closes with all that the threads left, and with the receipts since the start. These must be of all records since then.
pub(crate) fn close<R: Wait>(
    rt: &R,
    alloc: Global,
    shared: Shared,
    store: ReceiptStore,
    results: Results,
) -> Result<Served, NotServed>
    ensures all { IfOk result
        (λ served. ShowsAll served.closed.bench served.receipts.items) }
    ensures counts { IfOk result
        (λ served. IsBookOf served.closed.counts shared.callers
        served.closed.bench) }
{
    let Results { seats, is_whole } = results;
    if !is_whole {
        return Err(NotServed);
    }
    let receipts = store.into_receipts(shared.before(rt));
    let Ok(closed) = shared.close(alloc, seats, &receipts) else {
        return Err(NotServed);
    };
    if first_short(&closed.bench, &receipts).is_some() {
        return Err(NotServed);
    }
    Ok(Served { closed, receipts })
}

/// The least caller with fewer receipts than records since the start.
fn first_short(bench: &Bench, receipts: &[Receipt]) -> Option<u32>
    ensures { IsLeast (is_short bench.now receipts.now) result }
{
    let mut least = None;
    for caller in bench.pages().keys() {
        let short = has_few(bench, receipts, *caller);
        least = lesser(least, *caller, short);
    }
    least
}

/// Whether a caller has fewer receipts than records since the start.
fn has_few(bench: &Bench, receipts: &[Receipt], caller: u32) -> bool
    ensures { result ≡ is_short bench.now receipts.now caller }
{
    let before = bench.start().turns(caller);
    count_of(receipts, caller) < bench.turns_of(caller) - before
}

/// How many of the receipts are of the caller.
fn count_of(receipts: &[Receipt], caller: u32) -> u64
    ensures { result ≡ receipts_of caller receipts.now }
{
    receipts
        .iter()
        .filter(|receipt| receipt.caller() == caller)
        .count() as u64
}
