//! The server, on the listener that it gets.
ghost use Rattle.std.specs.Prelude.{◌≡◌, ◌+◌, if◌then◌else◌, All, IfOk, OnOk, false, is_ok, true};
ghost use Rattle.fb_shared.specs.Locked.Book.{IsBookOf};
ghost use Rattle.fb_serve.specs.{Lines.{SaysLines}, Shown.{IsNew, ShowsAll}};

use crate::callers::{NewSeat, Results, run_callers};
use crate::say::greet;
use crossbeam_channel::bounded;
use fb_shared::{Closed, Receipt, Seat, Shared};
use fb_wire::bench::Limits;
use fb_wire::{Sink, write_all};
use std::alloc::{AllocError, Global};
use std::io::Write;
use std::net::{Net, TcpListener, TcpStream};
use std::sync::Wait;
use std::thread::Threads;
use std::time::Clock;

/// How many callers of each sort a server has, and the limits of its workbench. Callers 1 to `sessions` are sessions, those after them workers.
#[derive(Clone, Copy)]
pub struct ServerConfig {
    pub workers: u8,
    pub sessions: u8,
    pub limits: Limits,
}

/// What a server leaves: its workbench, closed, and the receipts of all calls of its sessions and workers.
pub struct Served {
    pub closed: Closed,
    pub receipts: Vec<Receipt>,
}

impl Drop for Served {
    fn drop(self) {
        let Self {
            closed: _,
            receipts: _,
        } = self;
    }
}

/// A server that did not reach its close, since the listener, a thread, a printed line, memory or the close failed.
#[derive(Clone, Copy, Debug, PartialEq, Eq)]
pub struct NotServed;

impl From<AllocError> for NotServed {
    fn from(_error: AllocError) -> NotServed {
        NotServed
    }
}

/// How a server ended: the status of the program, 0 if it reached its close and 1 if not, and the close.
pub struct Ended {
    pub status: u8,
    pub served: Result<Served, NotServed>,
}

impl Drop for Ended {
    fn drop(self) {
        let Self {
            status: _,
            served: _,
        } = self;
    }
}

impl Ended {
    /// The end of a server with this result.
    pub fn of(served: Result<Served, NotServed>) -> Ended
        ensures served { result.served ≡ served }
        ensures status { result.status ≡ (if is_ok served then 0 else 1) }
    {
        let status = u8::from(served.is_err());
        Ended { status, served }
    }
}

/// Lets in as many connections as there are sessions, with workers beside them, and closes when all sessions have ended. If a thread or
/// a connection fails, it lets no further one in. A fault of a session is printed on `errors` at once, and the others continue.
pub fn serve_sessions<R: Threads + Wait + Clock + Sync, E: Write>(
    rt: &R,
    alloc: Global,
    listener: &TcpListener,
    config: ServerConfig,
    errors: &mut E,
) -> Result<Served, NotServed>
    // The receipts are those of all records of the workbench, each once; each caller is counted with its calls.
    ensures all { IfOk result
        (λ served. ShowsAll served.closed.bench served.receipts.items) }
    ensures counts { IfOk result
        (λ served. IsBookOf served.closed.counts (config.sessions + config.workers)
        served.closed.bench) }
{
    let callers = u32::from(config.sessions) + u32::from(config.workers);
    let (shared, mut seats) = Shared::new(alloc, config.limits, callers)?;
    let workers = seats.split_off(usize::from(config.sessions))?;
    let workers = new_seats(alloc, workers)?;
    let sessions = new_seats(alloc, seats)?;
    let (faults, reported) = bounded(alloc, usize::from(config.sessions))?;
    let results = run_callers(
        rt, alloc, listener, &shared, sessions, workers, faults, &reported, errors,
    );
    close(alloc, shared, results)
}

/// The seats of a new workbench.
fn new_seats(alloc: Global, seats: Vec<Seat>) -> Result<Vec<NewSeat>, AllocError>
    requires { All IsNew seats.items }
{
    let mut fresh = Vec::new(alloc);
    for seat in seats {
        fresh.push(NewSeat::of(seat))?;
    }
    Ok(fresh)
}

/// Closes with all that the threads left.
fn close(alloc: Global, shared: Shared, results: Results) -> Result<Served, NotServed>
    ensures all { IfOk result
        (λ served. ShowsAll served.closed.bench served.receipts.items) }
    ensures counts { IfOk result
        (λ served. IsBookOf served.closed.counts shared.callers
        served.closed.bench) }
{
    let Results {
        seats,
        receipts,
        is_whole,
    } = results;
    if !is_whole {
        return Err(NotServed);
    }
    match shared.close(alloc, seats, &receipts) {
        Ok(closed) => Ok(Served { closed, receipts }),
        Err(_) => Err(NotServed),
    }
}

/// Prints its address, serves its sessions, and prints that it is closed.
fn serve_and_close<R: Threads + Wait + Clock + Sync, S: Sink, E: Write>(
    rt: &R,
    alloc: Global,
    listener: &TcpListener,
    config: ServerConfig,
    out: &mut S,
    errors: &mut E,
) -> Result<Served, NotServed>
    requires { S.has_failed out.old ≡ false }
    ensures all { IfOk result
        (λ served. ShowsAll served.closed.bench served.receipts.items) }
    ensures counts { IfOk result
        (λ served. IsBookOf served.closed.counts (config.sessions + config.workers)
        served.closed.bench) }
    ensures said { SaysLines (is_ok result) (S.held out.old) (S.held out.new) }
    ensures flushed { OnOk result (S.is_flushed out.new ≡ true) }
{
    let Ok(()) = greet(alloc, listener, out) else {
        return Err(NotServed);
    };
    let Ok(served) = serve_sessions(rt, alloc, listener, config, errors) else {
        return Err(NotServed);
    };
    match write_all(out, b"closed\n") {
        Ok(()) => Ok(served),
        Err(_) => Err(NotServed),
    }
}

/// Prints its address, serves its sessions, and prints that it is closed. If something fails it returns once the sessions that run
/// have ended and the workers are stopped and joined.
pub fn serve_on<R: Threads + Wait + Clock + Sync, S: Sink, E: Write>(
    rt: &R,
    alloc: Global,
    listener: &TcpListener,
    config: ServerConfig,
    out: &mut S,
    errors: &mut E,
) -> Ended
    requires { S.has_failed out.old ≡ false }
    ensures all { IfOk result.served
        (λ served. ShowsAll served.closed.bench served.receipts.items) }
    ensures counts { IfOk result.served
        (λ served. IsBookOf served.closed.counts (config.sessions + config.workers)
        served.closed.bench) }
    ensures said { SaysLines (is_ok result.served) (S.held out.old) (S.held out.new) }
    ensures flushed { OnOk result.served (S.is_flushed out.new ≡ true) }
    ensures status { result.status ≡ (if is_ok result.served then 0 else 1) }
{
    Ended::of(serve_and_close(rt, alloc, listener, config, out, errors))
}

/// Serves as `serve_on` does, on this port of 127.0.0.1; any free one for 0.
pub fn serve<
    R: Net<Listener = TcpListener, Stream = TcpStream> + Threads + Wait + Clock + Sync,
    S: Sink,
    E: Write,
>(rt: &R, alloc: Global, port: u16, config: ServerConfig, out: &mut S, errors: &mut E) -> Ended
    requires { S.has_failed out.old ≡ false }
    ensures all { IfOk result.served
        (λ served. ShowsAll served.closed.bench served.receipts.items) }
    ensures counts { IfOk result.served
        (λ served. IsBookOf served.closed.counts (config.sessions + config.workers)
        served.closed.bench) }
    ensures said { SaysLines (is_ok result.served) (S.held out.old) (S.held out.new) }
    ensures flushed { OnOk result.served (S.is_flushed out.new ≡ true) }
    ensures status { result.status ≡ (if is_ok result.served then 0 else 1) }
{
    match TcpListener::bind(rt, ("127.0.0.1", port)) {
        Ok(listener) => serve_on(rt, alloc, &listener, config, out, errors),
        Err(_) => Ended::of(Err(NotServed)),
    }
}
