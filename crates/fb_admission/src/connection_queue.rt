//! The connections for which the threads of seats wait.
ghost use Rattle.std.specs.Prelude.{◌≡◌, ◌+◌, IfSome, None, length};

use crate::connection::Connection;
use std::alloc::Global;
use std::sync::{Condvar, Mutex, Wait};

/// Connections for threads that wait for them. One is taken in only if a thread is free, so it never holds more than there are threads, and only up to a
/// number of all.
pub struct ConnectionQueue {
    state: Mutex<QueueState>,
    changed: Condvar,
}

impl Drop for ConnectionQueue {
    fn drop(self) {
        let Self {
            state: _,
            changed: _,
        } = self;
    }
}

/// The connections that no thread has taken yet, how many threads are free beyond those that will take these, and how many connections are left to take in.
#[derive(Drop)]
struct QueueState {
    connections: Vec<Connection>,
    idle: u64,
    left: u64,
    closed: bool,
}

impl QueueState {
    /// Takes a connection in for a thread that is free, or gives it back, and then nothing changes.
    fn put(&mut self, connection: Connection) -> Option<Connection>
        ensures taken { result ≡ None
            → (self.new.idle + 1 ≡ self.old.idle)
            × (self.new.left + 1 ≡ self.old.left)
            × (length self.new.connections.items ≡ length self.old.connections.items + 1) }
        ensures back { IfSome result (λ _.
            (self.new.idle ≡ self.old.idle)
            × (self.new.left ≡ self.old.left)
            × (length self.new.connections.items ≡ length self.old.connections.items)) }
    {
        if self.closed || self.idle == 0 || self.left == 0 {
            return Some(connection);
        }
        if self.connections.reserve(1).is_err() {
            return Some(connection);
        }
        self.idle -= 1;
        self.left -= 1;
        self.connections.push_reserved(connection);
        None
    }

    fn add_idle(&mut self) {
        self.idle = self.idle.saturating_add(1);
    }
}

impl ConnectionQueue {
    /// For this number of threads, which are free, and for this number of connections.
    pub fn new(alloc: Global, threads: u64, most: u64) -> ConnectionQueue {
        let waiting = QueueState {
            connections: Vec::new(alloc),
            idle: threads,
            left: most,
            closed: false,
        };
        ConnectionQueue {
            state: Mutex::new(waiting),
            changed: Condvar::new(),
        }
    }

    /// Takes a connection in, or gives it back if no thread is free or none is left to take in.
    pub(crate) fn offer<R: Wait>(&self, rt: &R, connection: Connection) -> Option<Connection> {
        let back = self.state.lock(rt).put(connection);
        if back.is_none() {
            self.changed.notify_one();
        }
        back
    }

    /// How many threads are free.
    pub(crate) fn idle<R: Wait>(&self, rt: &R) -> u64 {
        self.state.lock(rt).idle
    }

    /// How many connections are left to take in.
    pub(crate) fn left<R: Wait>(&self, rt: &R) -> u64 {
        self.state.lock(rt).left
    }

    /// A thread that had a connection is free again.
    pub fn add_idle<R: Wait>(&self, rt: &R) {
        self.state.lock(rt).add_idle();
    }

    /// Waits for a connection. None if no further one comes.
    pub fn next<R: Wait>(&self, rt: &R) -> Option<Connection> {
        let mut state = self.state.lock(rt);
        for _ in rt.forever() {
            if let Some(connection) = state.connections.pop() {
                return Some(connection);
            }
            if state.closed {
                return None;
            }
            state = self.changed.wait(rt, state);
        }
        // `forever` never ends.
        unreachable!()
    }

    /// No further connection is taken in.
    pub fn close<R: Wait>(&self, rt: &R) {
        self.state.lock(rt).closed = true;
        self.changed.notify_all();
    }
}
