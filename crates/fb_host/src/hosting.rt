//! The host, on the listener that it gets.
ghost use Rattle.std.specs.Prelude.{◌≡◌, ◌+◌, IfOk, OnOk, is_ok, if◌then◌else◌, true, false};
ghost use Rattle.fb_locked.specs.Book.{IsBookOf};
ghost use Rattle.fb_serve.specs.{Lines.{SaysLines}, Shown.{ShowsAll}};

use crate::close::close;
use crate::leases::Leases;
use crate::pace::Pace;
use crate::receipt_store::ReceiptStore;
use crate::threads::{HostState, Seats, run_threads};
use fb_admission::{ConnectionQueue, Entrance, EntranceConfig, Notices};
use fb_serve::{Ended, NotServed, Served, greet};
use fb_shared::Shared;
use fb_shared::bench::Identity;
use fb_wire::bench::Limits;
use fb_wire::{Sink, write_all};
use std::alloc::Global;
use std::io::Write;
use std::net::TcpListener;
use std::sync::{Mutex, Wait};
use std::thread::Threads;
use std::time::Clock;

/// How many milliseconds one reply may take.
pub const REPLY_TIMEOUT: u64 = 600_000;

/// How many milliseconds a commit waits at most for the workers.
pub const COMMIT_WAIT: u64 = 600_000;

/// How many milliseconds a session may keep a key that it has taken.
pub const KEY_TIMEOUT: u64 = 60_000;

/// How many callers of each sort a host has, the limits of its workbench (`history` is the most calls of an epoch), and whom it admits.
#[derive(Clone, Copy)]
pub struct HostConfig {
    pub workers: u8,
    pub sessions: u8,
    pub limits: Limits,
    /// How many bytes of texts commits may put in an epoch, before the next one begins.
    pub memory: u64,
    /// How connections come in.
    pub entrance: EntranceConfig,
    /// How many milliseconds a session may be silent, or 0 if it may be so forever.
    pub idle_timeout: u64,
    /// How many milliseconds one reply may take.
    pub reply_timeout: u64,
    /// How many milliseconds a commit waits at most for the workers.
    pub commit_wait: u64,
    /// After how many milliseconds a key that a session has taken is given back.
    pub key_timeout: u64,
    /// After how many sessions it closes. Connections that get no seat are not counted.
    pub connections: u64,
    /// The identity of the workbench, by which a client notices that the host was started again.
    pub workbench: Identity,
}

/// Gives each connection a free seat, if its first line proves the secret, or if no secret is set and it begins with a request, with workers beside the sessions.
/// After `config.connections` sessions it closes, once all of them have ended. A fault of a session is printed on `errors` soon. The seats are those of
/// the sessions, then those of the workers, and the one that gives back keys which sessions keep.
fn host_sessions<R: Threads + Wait + Clock + Sync, E: Write + Send>(
    rt: &R,
    alloc: Global,
    listener: &TcpListener,
    config: HostConfig,
    secret: &[u8],
    errors: &Mutex<E>,
) -> Result<Served, NotServed>
    // The receipts are those of all records of the workbench since its start, each once; each caller is counted with its calls of all time.
    ensures all { IfOk result
        (λ served. ShowsAll served.closed.bench served.receipts.items) }
    ensures counts { IfOk result
        (λ served. IsBookOf served.closed.counts (config.sessions + config.workers + 1)
        served.closed.bench) }
{
    let callers = u32::from(config.sessions) + u32::from(config.workers) + 1;
    let (shared, mut sessions) = Shared::rolling(
        alloc,
        config.limits,
        config.memory,
        callers,
        config.workbench,
    )?;
    let mut workers = sessions.split_off(usize::from(config.sessions))?;
    let Some(keeper) = workers.pop() else {
        return Err(NotServed);
    };
    let pace = Pace::new(
        alloc,
        callers,
        u64::from(config.workers),
        config.commit_wait,
    )?;
    let seats = Seats {
        sessions,
        workers,
        keeper,
    };
    let host = HostState {
        shared,
        receipts: ReceiptStore::new(alloc),
        leases: Leases::new(alloc, config.key_timeout),
        pace,
        entrance: Entrance {
            seats: ConnectionQueue::new(alloc, u64::from(config.sessions), config.connections),
            notices: Notices::new(alloc),
            config: config.entrance,
        },
        config,
    };
    let results = run_threads(rt, alloc, listener, &host, secret, errors, seats);
    let HostState {
        shared,
        receipts,
        leases: _,
        pace: _,
        entrance: _,
        config: _,
    } = host;
    close(rt, alloc, shared, receipts, results)
}

/// Prints that memory or a thread was refused: the host has not begun, or lacks receipts at the end.
fn print_lack<R: Wait, E: Write>(rt: &R, errors: &Mutex<E>) {
    let mut errors = errors.lock(rt);
    let _ = writeln!(&mut *errors, "bench61499: the host lacks memory or threads");
}

/// Prints its address, hosts its sessions, and prints that it is closed.
fn host_and_close<R: Threads + Wait + Clock + Sync, S: Sink, E: Write + Send>(
    rt: &R,
    alloc: Global,
    listener: &TcpListener,
    config: HostConfig,
    secret: &[u8],
    out: &mut S,
    errors: &Mutex<E>,
) -> Result<Served, NotServed>
    requires { S.has_failed out.old ≡ false }
    ensures all { IfOk result
        (λ served. ShowsAll served.closed.bench served.receipts.items) }
    ensures counts { IfOk result
        (λ served. IsBookOf served.closed.counts (config.sessions + config.workers + 1)
        served.closed.bench) }
    ensures said { SaysLines (is_ok result) (S.held out.old) (S.held out.new) }
    ensures flushed { OnOk result (S.is_flushed out.new ≡ true) }
{
    let Ok(()) = greet(alloc, listener, out) else {
        return Err(NotServed);
    };
    let Ok(served) = host_sessions(rt, alloc, listener, config, secret, errors) else {
        print_lack(rt, errors);
        return Err(NotServed);
    };
    match write_all(out, b"closed\n") {
        Ok(()) => Ok(served),
        Err(_) => Err(NotServed),
    }
}

/// Prints its address, hosts its sessions, and prints that it is closed.
pub fn host_on<R: Threads + Wait + Clock + Sync, S: Sink, E: Write + Send>(
    rt: &R,
    alloc: Global,
    listener: &TcpListener,
    config: HostConfig,
    secret: &[u8],
    out: &mut S,
    errors: &Mutex<E>,
) -> Ended
    requires { S.has_failed out.old ≡ false }
    ensures all { IfOk result.served
        (λ served. ShowsAll served.closed.bench served.receipts.items) }
    ensures counts { IfOk result.served
        (λ served. IsBookOf served.closed.counts (config.sessions + config.workers + 1)
        served.closed.bench) }
    ensures said { SaysLines (is_ok result.served) (S.held out.old) (S.held out.new) }
    ensures flushed { OnOk result.served (S.is_flushed out.new ≡ true) }
    ensures status { result.status ≡ (if is_ok result.served then 0 else 1) }
{
    Ended::of(host_and_close(rt, alloc, listener, config, secret, out, errors))
}
