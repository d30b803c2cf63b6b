//! One session of a seat.
ghost use Rattle.std.specs.Prelude.{◌≡◌, [], map, false, true};
ghost use Rattle.fb_wire.specs.{Ends.{IsConversation, streams}, Conversations.{Runs}};
ghost use Rattle.fb_serve.specs.Sessions.{answered_in, call_shown};
ghost use Rattle.fb_host.specs.HostSessions.{IsHostRun, LeadsTo, HostStep, session_of};

use crate::leases::Leases;
use crate::pace::Pace;
use crate::receipt_store::ReceiptStore;
use crate::session_desk::SessionDesk;
use crate::session_receipts::SessionReceipts;
use fb_serve::{CallerState, give_back_held};
use fb_shared::{Seated, Shared};
use fb_wire::{Feed, RunEnd, Sink, run_lines};
use std::alloc::Global;
use std::sync::Wait;
use std::time::Clock;

/// How a session ended, the state of its caller, and the receipts of all its answered calls.
#[derive(Drop)]
pub struct SessionResult {
    pub end: RunEnd,
    pub state: CallerState,
    pub session_receipts: SessionReceipts,
}

/// Answers the lines of the reader, in order, by a shared workbench with this caller's seat. A turn is one read.
pub fn run_host_session<R: Wait + Clock, F: Feed, S: Sink>(
    rt: &R,
    alloc: Global,
    shared: &Shared,
    store: &ReceiptStore,
    leases: &Leases,
    pace: &Pace,
    state: CallerState,
    reader: &mut F,
    writer: &mut S,
    turns: u64,
) -> SessionResult
    requires reader { F.has_failed reader.old ≡ false }
    requires open { F.has_ended reader.old ≡ false }
    requires writer { S.has_failed writer.old ≡ false }
    // The calls and their answers are those of the seat's desk, from no receipts on. The calls that were answered, with their replies, are those of
    // the receipts.
    ensures conversation { (conversation : IsConversation true result.end turns
        (streams F.given F.left F.reads F.has_failed S.held S.is_flushed S.has_failed reader.old
        writer.old)
        (streams F.given F.left F.reads F.has_failed S.held S.is_flushed S.has_failed reader.new
        writer.new))
        × (answered_in conversation.pairs ≡ map call_shown result.session_receipts.all)
        × Runs HostStep (session_of shared.now.workbench state.seat []) conversation.pairs
        (session_of shared.now.workbench result.state.seat result.session_receipts.all) }
    // The receipts are of calls with this seat, one after another, with reads between them.
    ensures run { IsHostRun state.seat result.session_receipts.all result.state.seat }
{
    let mut desk = SessionDesk::new(rt, shared, store, leases, pace, state);
    let end = run_lines(alloc, reader, writer, &mut desk, turns);
    let SessionDesk {
        seated,
        shared: _,
        session_receipts,
        held,
        store: _,
        leases: _,
        pace: _,
    } = desk;
    let Seated {
        rt: _,
        shared: _,
        seat,
        receipts,
    } = seated;
    let state = CallerState {
        seat,
        held,
        receipts,
    };
    SessionResult {
        end,
        state,
        session_receipts,
    }
}

/// Gives back the keys that are still out since they were taken, as far as there is memory; the others stay held. The receipts go to the store.
pub fn give_back_all<R: Wait>(
    rt: &R,
    shared: &Shared,
    store: &ReceiptStore,
    pace: &Pace,
    state: &mut CallerState,
)
    // The calls lead from the old seat to the new one.
    ensures { LeadsTo state.old.seat state.new.seat }
{
    let lets_go = !state.held.is_empty();
    let turn = pace.turn(rt);
    give_back_held(rt, shared, state);
    turn.end(shared, lets_go);
    store.add(rt, shared.last_roll(), &mut state.receipts);
}
