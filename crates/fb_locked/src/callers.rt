//! The callers of a workbench: whose seats are missing or differ, and how many calls each has made.
ghost use Rattle.std.specs.Prelude.{◌≡◌, ◌&&◌, [], IfOk, OnOk, nat_lt, not};
ghost use Rattle.fb_bench.specs.History.BenchView.{all_turns};
ghost use Rattle.fb_locked.specs.Book.{CountsCalls, CountsOne, HasCounts, IsBookOf, is_first};
ghost use Rattle.fb_locked.specs.{Closing.{has_seat, has_wrong_seat, is_missing, IsLeast, lesser_of}, Resuming.{is_left_out}};

use crate::seat::Seat;
use fb_bench::Bench;
use std::alloc::{AllocError, Global};
use std::collections::BTreeMap;

/// The least caller without a seat, of those for whom seats were made and of those that have made a call.
pub(crate) fn missing_seat(bench: &Bench, callers: u32, seats: &[Seat]) -> Option<u32>
    ensures { IsLeast (is_missing callers bench.now seats.now) result }
{
    let mut least = missing_first(callers, seats);
    for caller in bench.pages().keys() {
        let missing = is_unseated(bench, seats, *caller);
        least = lesser(least, *caller, missing);
    }
    least
}

/// The least of the first callers without a seat.
fn missing_first(callers: u32, seats: &[Seat]) -> Option<u32>
    ensures { IsLeast (λ q. is_first callers q && not (has_seat seats.now q)) result }
{
    let mut least = None;
    for index in 0..callers {
        let caller = index + 1;
        let missing = !is_seated(seats, caller);
        least = lesser(least, caller, missing);
    }
    least
}

/// Whether a caller has made a call, and its seat is not there.
fn is_unseated(bench: &Bench, seats: &[Seat], caller: u32) -> bool
    ensures { result
        ≡ (nat_lt 0 (all_turns bench.now caller) && not (has_seat seats.now caller)) }
{
    0 < bench.turns_of(caller) && !is_seated(seats, caller)
}

fn is_seated(seats: &[Seat], caller: u32) -> bool
    ensures { result ≡ has_seat seats.now caller }
{
    seats.iter().any(|seat| seat.caller() == caller)
}

/// The least caller with a seat that differs from the calls that it has made.
pub(crate) fn wrong_seat(bench: &Bench, seats: &[Seat]) -> Option<u32>
    ensures { IsLeast (has_wrong_seat bench.now seats.now) result }
{
    let mut least = None;
    for seat in seats {
        let wrong = bench.turns_of(seat.caller()) != seat.turns();
        least = lesser(least, seat.caller(), wrong);
    }
    least
}

/// The least caller that has made a call, and is none of callers 1 to `callers`.
pub(crate) fn left_out(bench: &Bench, callers: u32) -> Option<u32>
    ensures { IsLeast (is_left_out bench.now callers) result }
{
    let mut least = None;
    for caller in bench.pages().keys() {
        let beyond = is_beyond(bench, callers, *caller);
        least = lesser(least, *caller, beyond);
    }
    least
}

/// Whether a caller has made a call, and is none of callers 1 to `callers`.
fn is_beyond(bench: &Bench, callers: u32, caller: u32) -> bool
    ensures { result ≡ is_left_out bench.now callers caller }
{
    0 < bench.turns_of(caller) && (caller == 0 || callers < caller)
}

/// The caller, if it is wrong and below the one that was found, and otherwise that one.
pub fn lesser(least: Option<u32>, caller: u32, wrong: bool) -> Option<u32>
    ensures { result ≡ lesser_of least caller wrong }
{
    match least {
        _ if !wrong => least,
        None => Some(caller),
        Some(other) => Some(caller.min(other)),
    }
}

/// How many calls each caller has made: those for whom seats were made, and those that have made one.
pub(crate) fn count_calls(
    alloc: Global,
    bench: &Bench,
    callers: u32,
) -> Result<BTreeMap<u32, u64>, AllocError>
    ensures { IfOk result (λ counts. IsBookOf counts callers bench.now) }
{
    let mut counts = count_first(alloc, bench, callers)?;
    for caller in bench.pages().keys() {
        count_caller(&mut counts, bench, *caller)?;
    }
    Ok(counts)
}

/// How many calls each of the first callers has made.
fn count_first(alloc: Global, bench: &Bench, callers: u32) -> Result<BTreeMap<u32, u64>, AllocError>
    ensures { IfOk result (λ counts. HasCounts counts callers [] bench.now) }
{
    let mut counts = BTreeMap::new(alloc);
    for index in 0..callers {
        count_one(&mut counts, bench, index + 1)?;
    }
    Ok(counts)
}

/// Counts the calls of a caller, if it has made any.
fn count_caller(
    counts: &mut BTreeMap<u32, u64>,
    bench: &Bench,
    caller: u32,
) -> Result<(), AllocError>
    ensures { OnOk result (CountsCalls caller bench.now counts.old counts.new) }
{
    if 0 < bench.turns_of(caller) {
        count_one(counts, bench, caller)?;
    }
    Ok(())
}

/// Counts the calls of one caller.
fn count_one(counts: &mut BTreeMap<u32, u64>, bench: &Bench, caller: u32) -> Result<(), AllocError>
    ensures { OnOk result (CountsOne caller bench.now counts.old counts.new) }
{
    counts.insert(caller, bench.turns_of(caller))?;
    Ok(())
}
