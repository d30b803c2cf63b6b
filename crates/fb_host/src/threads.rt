//! The threads of a host: sessions, workers, the keeper of keys, those that print and wake watchers, and admission in the one that starts them.
ghost use Rattle.std.specs.Prelude.{◌≡◌, ◌≢◌, IsTrue};
ghost use Rattle.fb_locked.specs.declared.look.WorkEnd.TheVariants as ends;
ghost use Rattle.fb_host.specs.HostSessions.{LeadsTo};

use crate::hosting::HostConfig;
use crate::keeper::keep_keys;
use crate::leases::Leases;
use crate::pace::Pace;
use crate::receipt_store::ReceiptStore;
use crate::reply_writer::ReplyWriter;
use crate::session::{SessionResult, give_back_all, run_host_session};
use fb_admission::{Admission, Connection, ConnectionReader, Entrance, Notice, print_notices};
use fb_serve::{CallerState, TURNS, keep_working, pause};
use fb_shared::{Seat, Shared, WorkEnd};
use fb_wire::{FromRead, IntoWrite, RunEnd, error_of};
use std::alloc::Global;
use std::io::Write;
use std::net::TcpListener;
use std::sync::{Mutex, Wait};
use std::thread;
use std::thread::{JoinHandle, Scope, Threads};
use std::time::{Clock, Duration};

/// How many looks a worker makes before its receipts go to the store.
const BATCH: u64 = 64;

/// What the threads of a host share.
pub(crate) struct HostState {
    pub(crate) shared: Shared,
    pub(crate) receipts: ReceiptStore,
    pub(crate) leases: Leases,
    pub(crate) pace: Pace,
    pub(crate) entrance: Entrance,
    pub(crate) config: HostConfig,
}

/// The seats that the threads left, and whether each thread was started and each receipt kept.
#[derive(Drop)]
pub(crate) struct Results {
    pub(crate) seats: Vec<Seat>,
    pub(crate) is_whole: bool,
}

impl Results {
    fn new(alloc: Global, is_whole: bool) -> Results
        ensures { result.is_whole ≡ is_whole }
    {
        Results {
            seats: Vec::new(alloc),
            is_whole,
        }
    }

    fn add_seat(&mut self, seat: Seat)
        ensures { IsTrue self.new.is_whole → IsTrue self.old.is_whole }
    {
        self.is_whole &= self.seats.push(seat).is_ok();
    }

    fn add<R: Wait>(&mut self, rt: &R, host: &HostState, state: CallerState)
        ensures { IsTrue self.new.is_whole → IsTrue self.old.is_whole }
    {
        let CallerState {
            seat,
            held: _,
            mut receipts,
        } = state;
        host.receipts
            .add(rt, host.shared.last_roll(), &mut receipts);
        self.is_whole &= receipts.is_empty();
        self.add_seat(seat);
    }

    fn add_all<R: Threads + Wait>(
        &mut self,
        rt: &R,
        host: &HostState,
        started: Started<CallerState>,
    )
        ensures { IsTrue self.new.is_whole
            → IsTrue self.old.is_whole × IsTrue started.is_whole }
    {
        let Started { threads, is_whole } = started;
        let is_whole = self.is_whole && is_whole;
        for thread in threads {
            self.add(rt, host, thread.join(rt));
        }
        self.is_whole &= is_whole;
    }

    /// Ends the keeper of keys, and adds what it leaves.
    fn add_keeper<R: Threads + Wait>(
        &mut self,
        rt: &R,
        host: &HostState,
        keeper: Option<JoinHandle<CallerState>>,
    )
        ensures { IsTrue self.new.is_whole → IsTrue self.old.is_whole }
    {
        host.leases.close(rt);
        match keeper {
            Some(thread) => self.add(rt, host, thread.join(rt)),
            None => self.is_whole = false,
        }
    }
}

/// Threads that were started, and whether all of them were.
#[derive(Drop)]
struct Started<T> {
    threads: Vec<JoinHandle<T>>,
    is_whole: bool,
}

/// The seats of a host's threads.
#[derive(Drop)]
pub(crate) struct Seats {
    pub(crate) sessions: Vec<Seat>,
    pub(crate) workers: Vec<Seat>,
    pub(crate) keeper: Seat,
}

/// Runs the threads of a host, and accepts connections. It returns when all sessions have ended after the last connection.
pub(crate) fn run_threads<R: Threads + Wait + Clock + Sync, E: Write + Send>(
    rt: &R,
    alloc: Global,
    listener: &TcpListener,
    host: &HostState,
    secret: &[u8],
    errors: &Mutex<E>,
    seats: Seats,
) -> Results {
    let Seats {
        sessions,
        workers,
        keeper,
    } = seats;
    thread::scope(thread::scope_env(), rt, |scope| {
        let printer = start_printer(scope, rt, host, errors);
        let waker = start_waker(scope, rt, host);
        let keeper = start_keeper(scope, rt, alloc, host, keeper);
        let workers = start_workers(scope, rt, alloc, host, workers);
        let sessions = start_sessions(scope, rt, alloc, host, sessions);
        let has_threads = printer.is_some() && waker.is_some() && keeper.is_some();
        let is_whole = has_threads && workers.is_whole && sessions.is_whole;
        let mut admission = Admission::new(rt, alloc, &host.entrance, secret);
        if is_whole {
            admission.admit(listener);
        }
        host.shared.end_watches(rt);
        admission.end();
        host.entrance.seats.close(rt);
        let mut results = Results::new(alloc, is_whole);
        results.add_all(rt, host, sessions);
        results.add_keeper(rt, host, keeper);
        host.shared.stop(rt);
        results.add_all(rt, host, workers);
        join_started(rt, waker);
        host.entrance.notices.close(rt);
        join_started(rt, printer);
        results
    })
}

/// Waits until a thread has ended, if it was started.
fn join_started<R: Threads + Wait>(rt: &R, started: Option<JoinHandle<()>>) {
    if let Some(thread) = started {
        thread.join(rt);
    }
}

/// Starts the thread that prints.
fn start_printer<'s, Env, R: Threads + Wait + Clock + Sync, E: Write + Send>(
    scope: &Scope<'s, Env>,
    rt: &'s R,
    host: &'s HostState,
    errors: &'s Mutex<E>,
) -> Option<JoinHandle<()>> {
    scope
        .spawn(move || print_notices(rt, &host.entrance.notices, errors))
        .ok()
}

/// Starts the thread that wakes those who watch. It ends with the watches.
fn start_waker<'s, Env, R: Threads + Wait + Clock + Sync>(
    scope: &Scope<'s, Env>,
    rt: &'s R,
    host: &'s HostState,
) -> Option<JoinHandle<()>> {
    scope.spawn(move || host.shared.tell_watchers(rt)).ok()
}

/// Starts the keeper of keys.
fn start_keeper<'s, Env, R: Threads + Wait + Clock + Sync>(
    scope: &Scope<'s, Env>,
    rt: &'s R,
    alloc: Global,
    host: &'s HostState,
    seat: Seat,
) -> Option<JoinHandle<CallerState>> {
    scope
        .spawn(move || keep_keys(rt, host, CallerState::new(alloc, seat)))
        .ok()
}

fn start_workers<'s, Env, R: Threads + Wait + Clock + Sync>(
    scope: &Scope<'s, Env>,
    rt: &'s R,
    alloc: Global,
    host: &'s HostState,
    seats: Vec<Seat>,
) -> Started<CallerState> {
    let mut threads = Vec::new(alloc);
    let mut is_whole = true;
    for seat in seats {
        if threads.reserve(1).is_err() {
            is_whole = false;
            break;
        }
        match scope.spawn(move || run_worker(rt, alloc, host, CallerState::new(alloc, seat)).0) {
            Ok(thread) => threads.push_reserved(thread),
            Err(_) => {
                is_whole = false;
                break;
            }
        }
    }
    Started { threads, is_whole }
}

fn start_sessions<'s, Env, R: Threads + Wait + Clock + Sync>(
    scope: &Scope<'s, Env>,
    rt: &'s R,
    alloc: Global,
    host: &'s HostState,
    seats: Vec<Seat>,
) -> Started<CallerState> {
    let mut threads = Vec::new(alloc);
    let mut is_whole = true;
    for seat in seats {
        if threads.reserve(1).is_err() {
            is_whole = false;
            break;
        }
        match scope.spawn(move || run_sessions(rt, alloc, host, CallerState::new(alloc, seat))) {
            Ok(thread) => threads.push_reserved(thread),
            Err(_) => {
                is_whole = false;
                break;
            }
        }
    }
    Started { threads, is_whole }
}

/// A worker's thread, and why it ends. Its receipts go to the store now and then.
#[tactic(auto, using(crate::proofs::SessionLemmas::leads))]
fn run_worker<R: Wait + Clock>(
    rt: &R,
    alloc: Global,
    host: &HostState,
    state: CallerState,
) -> (CallerState, WorkEnd)
    ensures calls { LeadsTo state.seat result.0.seat }
    // It ends neither for lack of memory nor since the history is full.
    ensures end { (result.1 ≢ ends.Memory) × (result.1 ≢ ends.HistoryFull)
        × (result.1 ≢ ends.TurnsOver) }
{
    let mut state = state;
    for _ in rt.forever() {
        let end = keep_working(rt, alloc, &host.shared, &mut state, BATCH);
        host.receipts
            .add(rt, host.shared.last_roll(), &mut state.receipts);
        match end {
            WorkEnd::TurnsOver => {}
            WorkEnd::Memory | WorkEnd::HistoryFull => pause(rt),
            WorkEnd::Stopped | WorkEnd::SeatDiffers { .. } | WorkEnd::Behind { .. } => {
                return (state, end);
            }
        }
    }
    // `forever` never ends.
    unreachable!()
}

/// A seat's thread: session after session. The seat is free before it is printed how the session ended.
fn run_sessions<R: Wait + Clock>(
    rt: &R,
    alloc: Global,
    host: &HostState,
    state: CallerState,
) -> CallerState
    ensures { LeadsTo state.seat result.seat }
{
    let caller = state.seat.caller();
    let mut state = state;
    for _ in rt.forever() {
        let Some(connection) = host.entrance.seats.next(rt) else {
            return state;
        };
        let (left, notice) = serve_connection(rt, alloc, host, state, &connection);
        state = left;
        give_back_all(rt, &host.shared, &host.receipts, &host.pace, &mut state);
        if state.held.is_empty() {
            host.leases.end(rt, caller);
        }
        host.entrance.seats.add_idle(rt);
        if let Some(notice) = notice {
            host.entrance.notices.add(rt, notice);
        }
    }
    // `forever` never ends.
    unreachable!()
}

/// A session, and what the host prints of its end.
#[tactic(auto, using(crate::proofs::SessionLemmas::leads))]
fn serve_connection<R: Wait + Clock>(
    rt: &R,
    alloc: Global,
    host: &HostState,
    state: CallerState,
    connection: &Connection,
) -> (CallerState, Option<Notice>)
    ensures { LeadsTo state.seat result.0.seat }
{
    let caller = state.seat.caller();
    let most = host.config.reply_timeout;
    let idle_timeout = host.config.idle_timeout;
    let idle = (0 < idle_timeout).then_some(Duration::from_millis(idle_timeout));
    let _ = connection.stream.set_read_timeout(idle);
    let mut input = ConnectionReader::of(connection);
    let output = ReplyWriter::new(rt, &connection.stream, most, idle_timeout);
    let mut writer = IntoWrite::new(output);
    let SessionResult {
        end,
        state,
        session_receipts: _,
    } = {
        let mut reader = FromRead::new(&mut input);
        run_host_session(
            rt,
            alloc,
            &host.shared,
            &host.receipts,
            &host.leases,
            &host.pace,
            state,
            &mut reader,
            &mut writer,
            TURNS,
        )
    };
    (state, notice_of(caller, end, input.is_idle))
}

/// What the host prints of the end of a session: nothing if its input ended.
fn notice_of(caller: u32, end: RunEnd, is_idle: bool) -> Option<Notice> {
    let error = error_of(end)?;
    if end == RunEnd::ReadFailed && is_idle {
        return Some(Notice::Idle { caller });
    }
    Some(Notice::Failed { caller, error })
}
