//! The threads of a server: a session for each connection, and the workers beside them.
ghost use Rattle.std.specs.Prelude.{◌≡◌, [], if◌then◌else◌, List};
ghost use Rattle.fb_serve.specs.Shown.{AreShown, IsNew, IsShown};

use crate::caller_state::CallerState;
use crate::say::say_error;
use crate::session::{Session, run_session};
use crate::worker::keep_working;
use crossbeam_channel::{Receiver, Sender};
use fb_shared::{Receipt, Seat, Shared};
use fb_wire::{FromRead, IntoWrite, RunError, error_of};
use std::alloc::Global;
use std::io::Write;
use std::net::{OpenListener, TcpListener, TcpStream};
use std::sync::Wait;
use std::thread;
use std::thread::{JoinHandle, Scope, Threads};
use std::time::Clock;

/// How many reads a run or a session, and how many looks a worker may make.
pub const TURNS: u64 = 1_000_000_000;

/// A session that did not reach the end of its input.
#[derive(Clone, Copy)]
pub(crate) struct SessionError {
    pub(crate) caller: u32,
    pub(crate) error: RunError,
}

/// A seat with which no call was made.
#[derive(Drop)]
pub(crate) struct NewSeat {
    seat: Seat,
    ghost is_new: { IsNew seat },
}

impl NewSeat {
    pub(crate) fn of(seat: Seat) -> NewSeat
        requires { IsNew seat }
    {
        NewSeat { seat }
    }
}

/// What a thread leaves: its seat, and the receipts of all calls with it.
#[derive(Drop)]
struct ThreadResult {
    seat: Seat,
    receipts: Vec<Receipt>,
    ghost shown: { IsShown receipts.items seat },
}

impl ThreadResult {
    fn of(seat: Seat, receipts: Vec<Receipt>) -> ThreadResult
        requires { IsShown receipts.items seat }
    {
        ThreadResult { seat, receipts }
    }
}

/// What the threads left: their seats, and the receipts of all calls with these. It is whole if each
/// thread was started and what it left was kept.
#[derive(Drop)]
pub(crate) struct Results {
    pub(crate) seats: Vec<Seat>,
    pub(crate) receipts: Vec<Receipt>,
    pub(crate) is_whole: bool,
    ghost shown: { AreShown receipts.items seats.items },
}

impl Results {
    fn new(alloc: Global, is_whole: bool) -> Results {
        Results {
            seats: Vec::new(alloc),
            receipts: Vec::new(alloc),
            is_whole,
        }
    }

    fn add(&mut self, left: ThreadResult) {
        let ThreadResult { seat, mut receipts } = left;
        if self.seats.reserve(1).is_err() {
            self.is_whole = false;
            return;
        }
        match self.receipts.append(&mut receipts) {
            Ok(()) => self.seats.push_reserved(seat),
            Err(_) => self.is_whole = false,
        }
    }

    fn add_all<R: Threads>(&mut self, rt: &R, started: Started) {
        let Started { threads, is_whole } = started;
        for thread in threads {
            self.add(thread.join(rt));
        }
        self.is_whole &= is_whole;
    }
}

/// Threads that were started, and whether all of them were.
#[derive(Drop)]
struct Started {
    threads: Vec<JoinHandle<ThreadResult>>,
    is_whole: bool,
}

/// Runs the sessions of the connections that come, one for each seat, with workers beside them, and
/// joins them all. Once a thread is not started, no further connection is admitted. A fault of a session is printed at once.
pub(crate) fn run_callers<R: Threads + Wait + Clock + Sync, E: Write>(
    rt: &R,
    alloc: Global,
    listener: &TcpListener,
    shared: &Shared,
    sessions: Vec<NewSeat>,
    workers: Vec<NewSeat>,
    faults: Sender<SessionError>,
    reported: &Receiver<SessionError>,
    errors: &mut E,
) -> Results {
    thread::scope(thread::scope_env(), rt, |scope| {
        let working = start_workers(scope, rt, alloc, shared, workers);
        let sessions = seats_beside(&working, sessions);
        let accepting = start_accepting(scope, rt, alloc, listener, shared, sessions, faults);
        report_faults(rt, reported, errors);
        let mut results = join_accepting(rt, alloc, accepting);
        shared.stop(rt);
        results.add_all(rt, working);
        results
    })
}

/// The seats, or none of them if a worker was not started.
fn seats_beside(working: &Started, seats: Vec<NewSeat>) -> Vec<NewSeat>
    ensures { result.items ≡ (if working.now.is_whole then seats.items else []) }
{
    let mut seats = seats;
    if !working.is_whole {
        seats.clear();
    }
    seats
}

/// Reports the faults of the sessions as they come, until all have ended.
fn report_faults<R: Wait, E: Write>(rt: &R, reported: &Receiver<SessionError>, errors: &mut E) {
    for it in reported.iter(rt) {
        let SessionError { caller, error } = it;
        say_error(errors, caller, error);
    }
}

/// Starts the thread that lets connections in.
fn start_accepting<'s, E, R: Threads + Wait + Sync>(
    scope: &Scope<'s, E>,
    rt: &'s R,
    alloc: Global,
    listener: &'s TcpListener,
    shared: &'s Shared,
    seats: Vec<NewSeat>,
    faults: Sender<SessionError>,
) -> Option<JoinHandle<Results>> {
    scope
        .spawn(move || run_sessions(rt, alloc, listener, shared, seats, faults))
        .ok()
}

/// What the sessions left; nothing whole if no connection could be let in.
fn join_accepting<R: Threads>(
    rt: &R,
    alloc: Global,
    accepting: Option<JoinHandle<Results>>,
) -> Results {
    match accepting {
        Some(thread) => thread.join(rt),
        None => Results::new(alloc, false),
    }
}

/// Runs the sessions of the connections that come, and joins them.
fn run_sessions<R: Threads + Wait + Sync>(
    rt: &R,
    alloc: Global,
    listener: &TcpListener,
    shared: &Shared,
    seats: Vec<NewSeat>,
    faults: Sender<SessionError>,
) -> Results {
    let faults = &faults;
    thread::scope(thread::scope_env(), rt, |scope| {
        let started = start_sessions(scope, rt, alloc, listener, shared, seats, faults);
        let mut results = Results::new(alloc, true);
        results.add_all(rt, started);
        results
    })
}

fn start_workers<'s, E, R: Threads + Wait + Clock + Sync>(
    scope: &Scope<'s, E>,
    rt: &'s R,
    alloc: Global,
    shared: &'s Shared,
    seats: Vec<NewSeat>,
) -> Started {
    let mut threads = Vec::new(alloc);
    let mut is_whole = true;
    for seat in seats {
        if threads.reserve(1).is_err() {
            is_whole = false;
            break;
        }
        match scope.spawn(move || worker_thread(rt, alloc, shared, seat)) {
            Ok(thread) => threads.push_reserved(thread),
            Err(_) => {
                is_whole = false;
                break;
            }
        }
    }
    Started { threads, is_whole }
}

/// Lets in a connection for each seat.
fn start_sessions<'s, E, R: Threads + Wait + Sync>(
    scope: &Scope<'s, E>,
    rt: &'s R,
    alloc: Global,
    listener: &TcpListener,
    shared: &'s Shared,
    seats: Vec<NewSeat>,
    faults: &'s Sender<SessionError>,
) -> Started {
    let mut threads = Vec::new(alloc);
    let mut is_whole = true;
    for seat in seats {
        let Ok((stream, _peer)) = listener.accept() else {
            is_whole = false;
            break;
        };
        if threads.reserve(1).is_err() {
            is_whole = false;
            break;
        }
        match scope.spawn(move || session_thread(rt, alloc, shared, seat, stream, faults)) {
            Ok(thread) => threads.push_reserved(thread),
            Err(_) => {
                is_whole = false;
                break;
            }
        }
    }
    Started { threads, is_whole }
}

/// A worker's thread.
fn worker_thread<R: Wait + Clock>(
    rt: &R,
    alloc: Global,
    shared: &Shared,
    seat: NewSeat,
) -> ThreadResult {
    let NewSeat { seat } = seat;
    let mut state = CallerState::new(alloc, seat);
    let _end = keep_working(rt, alloc, shared, &mut state, TURNS);
    let CallerState {
        seat,
        held: _,
        receipts,
    } = state;
    ThreadResult::of(seat, receipts)
}

/// A session's thread, which owns its stream. It reports a fault before it ends.
fn session_thread<R: Wait>(
    rt: &R,
    alloc: Global,
    shared: &Shared,
    seat: NewSeat,
    stream: TcpStream,
    faults: &Sender<SessionError>,
) -> ThreadResult {
    let NewSeat { seat } = seat;
    let caller = seat.caller();
    let mut reader = FromRead::new(&stream);
    let mut writer = IntoWrite::new(&stream);
    let Session {
        end,
        seat,
        receipts,
    } = run_session(rt, alloc, shared, seat, &mut reader, &mut writer, TURNS);
    if let Some(error) = error_of(end) {
        let _ = faults.send(rt, SessionError { caller, error });
    }
    ThreadResult::of(seat, receipts)
}
