//! The keys that sessions have taken, so that none stays out for long: who works for the result of a key waits for nobody who holds it.
ghost use Rattle.std.specs.Prelude.{◌≡◌, filter};
ghost use Rattle.fb_host.specs.Leases.{is_another, is_of_others, is_other_call, is_unsettled, with_lease};

use fb_serve::Held;
use fb_wire::jobs::Key;
use std::alloc::Global;
use std::sync::{Condvar, CondvarTimeouts, Mutex, Wait};
use std::time::{Clock, Duration, Instant};

/// A key, with the number of the call that took it, the session that did, and when.
#[derive(Clone, Copy)]
pub(crate) struct Lease {
    caller: u32,
    pub(crate) held: Held,
    begun: Instant,
}

/// Adds a key after the others, if there is memory. If its caller had it already, that counts no longer. Whether it was added.
fn put_lease(leases: &mut Vec<Lease>, lease: Lease) -> bool
    ensures { leases.new.items ≡ with_lease lease result
        (filter (is_another lease.caller lease.held.key) leases.old.items) }
{
    drop_key(leases, lease.caller, &lease.held.key);
    leases.push(lease).is_ok()
}

/// Removes a key of a caller.
fn drop_key(leases: &mut Vec<Lease>, caller: u32, key: &Key)
    ensures { leases.new.items ≡ filter (is_another caller key.now) leases.old.items }
{
    leases.retain(|it| it.caller != caller || it.held.key != *key);
}

/// Removes a key that was settled by the call of this number.
fn drop_settled(leases: &mut Vec<Lease>, key: Key, number: u64)
    ensures { leases.new.items ≡ filter (is_unsettled key number) leases.old.items }
{
    leases.retain(|it| it.held.key != key || number < it.held.since);
}

/// Removes all keys of a caller.
fn drop_caller(leases: &mut Vec<Lease>, caller: u32)
    ensures { leases.new.items ≡ filter (is_of_others caller) leases.old.items }
{
    leases.retain(|it| it.caller != caller);
}

/// Removes what a caller took by the call of this number.
fn drop_taken(leases: &mut Vec<Lease>, caller: u32, since: u64)
    ensures { leases.new.items ≡ filter (is_other_call caller since) leases.old.items }
{
    leases.retain(|it| it.caller != caller || it.held.since != since);
}

/// The keys that are out, in the order in which they were taken, and whether the host closes.
#[derive(Drop)]
struct LeaseState {
    leases: Vec<Lease>,
    is_closed: bool,
}

/// The keys that sessions have taken and not settled, and how many milliseconds one may be out.
pub struct Leases {
    state: Mutex<LeaseState>,
    changed: Condvar,
    length: u64,
}

impl Drop for Leases {
    fn drop(self) {
        let Self {
            state: _,
            changed: _,
            length: _,
        } = self;
    }
}

impl Leases {
    /// With no key, and this number of milliseconds.
    pub fn new(alloc: Global, length: u64) -> Leases {
        let none = LeaseState {
            leases: Vec::new(alloc),
            is_closed: false,
        };
        Leases {
            state: Mutex::new(none),
            changed: Condvar::new(),
            length,
        }
    }

    /// Notes that a session has taken a key by the call of this number. Without memory the key is out until the session ends.
    pub(crate) fn add<R: Wait + Clock>(&self, rt: &R, caller: u32, held: Held) {
        let Ok(begun) = Instant::now(rt) else {
            return;
        };
        let lease = Lease {
            caller,
            held,
            begun,
        };
        let _added = put_lease(&mut self.state.lock(rt).leases, lease);
        self.changed.notify_one();
    }

    /// Notes that a key was settled by the call of this number.
    pub(crate) fn settle<R: Wait>(&self, rt: &R, key: Key, number: u64) {
        drop_settled(&mut self.state.lock(rt).leases, key, number);
    }

    /// Notes that a session has given back all that it has taken.
    pub(crate) fn end<R: Wait>(&self, rt: &R, caller: u32) {
        drop_caller(&mut self.state.lock(rt).leases, caller);
    }

    /// Notes that a key that was out for too long is given back.
    pub(crate) fn remove<R: Wait>(&self, rt: &R, lease: &Lease) {
        drop_taken(
            &mut self.state.lock(rt).leases,
            lease.caller,
            lease.held.since,
        );
    }

    /// Waits for a key that has been out for too long. None if the host closes.
    pub(crate) fn overdue<R: Wait + Clock>(&self, rt: &R) -> Option<Lease> {
        let mut state = self.state.lock(rt);
        for _ in rt.forever() {
            if state.is_closed {
                return None;
            }
            match state.leases.first().copied() {
                Some(lease) => {
                    let left = self.left_of(rt, &lease);
                    if left.is_zero() {
                        return Some(lease);
                    }
                    state = self.changed.wait_timeout(rt, state, left).0;
                }
                None => state = self.changed.wait(rt, state),
            }
        }
        // `forever` never ends.
        unreachable!()
    }

    /// How much longer the key may be out.
    fn left_of<R: Clock>(&self, rt: &R, lease: &Lease) -> Duration {
        let length = Duration::from_millis(self.length);
        match lease.begun.elapsed(rt) {
            Ok(passed) => length.saturating_sub(passed),
            Err(_) => length,
        }
    }

    /// The host closes.
    pub(crate) fn close<R: Wait>(&self, rt: &R) {
        self.state.lock(rt).is_closed = true;
        self.changed.notify_all();
    }
}
