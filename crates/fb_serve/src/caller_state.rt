//! What is kept of a caller: its seat, the receipts of its calls, and the keys that it must give back.
ghost use Rattle.std.specs.Prelude.{◌≡◌, ◌≤◌, ◌<◌, [], Contains, filter, vec_capacity, vec_len};
ghost use Rattle.fb_serve.specs.{AddedReceipts.{AddsRun}, Unsettled.{is_another_key}};

use fb_shared::{Receipt, Seat, Shared};
use fb_wire::jobs::Key;
use std::alloc::Global;
use std::sync::Wait;

/// A key that a caller has taken, and the number of the last take.
#[derive(Clone, Copy)]
pub struct Held {
    pub key: Key,
    pub since: u64,
}

/// A seat, the keys that were taken there and must be given back, and the receipts of its calls that nobody else keeps.
#[derive(Drop)]
pub struct CallerState {
    pub seat: Seat,
    pub held: Vec<Held>,
    pub receipts: Vec<Receipt>,
}

impl CallerState {
    /// With no key and no receipt. It has room for a key, if there is memory.
    pub fn new(alloc: Global, seat: Seat) -> CallerState
        ensures seat { result.seat ≡ seat }
        ensures none { result.receipts.items ≡ [] }
    {
        let mut held = Vec::new(alloc);
        let _room = held.reserve(1);
        CallerState {
            seat,
            held,
            receipts: Vec::new(alloc),
        }
    }
}

/// Adds a key that was taken, if there is room.
pub fn hold(held: &mut Vec<Held>, it: Held)
    ensures { vec_len held.old < vec_capacity held.old → Contains held.new.items it }
{
    forget(held, &it.key);
    let _ = held.push(it);
}

/// Removes a key that is settled.
pub fn forget(held: &mut Vec<Held>, key: &Key)
    ensures others { held.new.items ≡ filter (is_another_key key.now) held.old.items }
    ensures fewer { vec_len held.new ≤ vec_len held.old }
    ensures room { vec_capacity held.new ≡ vec_capacity held.old }
{
    held.retain(|it| it.key != *key);
}

/// Gives back the last key that is held, if it is still out since it was taken. If the call is refused, the key stays held. The result is whether to continue.
#[tactic(auto, using(crate::proofs::AddedReceipts::adds))]
fn give_back_last<R: Wait>(rt: &R, shared: &Shared, state: &mut CallerState) -> bool
    ensures { AddsRun state.old.seat state.old.receipts.items
        state.new.seat state.new.receipts.items }
{
    let Some(it) = state.held.pop() else {
        return false;
    };
    let given = shared.give_back_held(rt, &mut state.seat, &mut state.receipts, it.key, it.since);
    if given.is_err() {
        let _ = state.held.push(it);
        return false;
    }
    true
}

/// Gives back the keys that are still out since they were taken. If a call is refused, the keys that are left stay held.
pub fn give_back_held<R: Wait>(rt: &R, shared: &Shared, state: &mut CallerState)
    // The receipts of its calls, one after another, are added at the end, and lead to the seat as it is then.
    ensures { AddsRun state.old.seat state.old.receipts.items
        state.new.seat state.new.receipts.items }
{
    for _ in 0..state.held.len() {
        if !give_back_last(rt, shared, state) {
            return;
        }
    }
}
