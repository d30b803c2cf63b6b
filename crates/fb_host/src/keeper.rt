//! The keeper of keys: it gives back what a session has taken and not settled for too long.
ghost use Rattle.fb_host.specs.HostSessions.{LeadsTo};

use crate::session::give_back_all;
use crate::threads::HostState;
use fb_serve::{CallerState, hold, pause};
use std::sync::Wait;
use std::time::Clock;

/// Gives back each key that was out for too long, if it is still out since it was taken, by a call of a seat of the host's own.
#[tactic(auto, using(crate::proofs::SessionLemmas::leads))]
pub(crate) fn keep_keys<R: Wait + Clock>(
    rt: &R,
    host: &HostState,
    state: CallerState,
) -> CallerState
    ensures { LeadsTo state.seat result.seat }
{
    let mut state = state;
    for _ in rt.forever() {
        let Some(lease) = host.leases.overdue(rt) else {
            return state;
        };
        hold(&mut state.held, lease.held);
        give_back_all(rt, &host.shared, &host.receipts, &host.pace, &mut state);
        if state.held.is_empty() {
            host.leases.remove(rt, &lease);
        } else {
            pause(rt);
        }
    }
    // `forever` never ends.
    unreachable!()
}
