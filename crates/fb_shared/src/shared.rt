//! The workbench that threads share, under its lock.
ghost use Rattle.std.specs.Prelude.{◌≡◌, ◌↔◌, None, IfErr, IfOk, IsTrue, OnOk, false, true};
ghost use Rattle.fb_locked.specs.History.BenchView.{BenchView, IsOrigin, IsReplay};
ghost use Rattle.fb_locked.specs.{History.Machine.{ToCommit, ToTake, ToDeliver, ToGiveBack, ToAsk}, Bench.Records.{listed}, Bench.Requests.{call_for, job_of}};
ghost use Rattle.fb_locked.specs.{Book.{SeatFits}, Calls.{Answers, AnswersInto, Performs, PerformsInto}, Closing.{IsCloseOf, IsFaultOf, IsLeast}, Resuming.{is_left_out, IsResumeFault}};
ghost use Rattle.fb_locked.specs.{Ends.{calls_workers}, Reads.{Reads, ReadsAt}, Rolling.{MayReturn, Returns}, Seats.{AreFirstSeats, AreSeatsAt, LockedView}};
ghost use Rattle.fb_locked.specs.History.declared.reading.Reading.TheVariants.{Events};
ghost use Rattle.fb_shared.specs.{Seated.{unnamed}, UnderLock.{IsReplayed, UnderLock}};

use crate::rolling::Rolling;
use fb_locked::bench::{
    Answered, Bench, Committed, Identity, Limits, MOST_CALLS, Reading, Record, Request, Showing,
};
use fb_locked::jobs::{Finished, Job, Key};
use fb_locked::library::Change;
use fb_locked::{Closed, Locked, NotClosed, NotResumed, Receipt, Seat, SharedRefused, close_for};
use std::alloc::{AllocError, Global};
use std::marker::Model;
use std::sync::atomic::{AtomicBool, AtomicU64, Ordering};
use std::sync::{Arc, Condvar, CondvarTimeouts, Mutex, MutexGuard, Wait};
use std::thread;
use std::time::{Clock, Duration};

/// How many milliseconds further events are gathered once there is one, so that not each of many commits wakes all who watch.
const GATHERING: u64 = 8;

/// How many milliseconds a watch waits at most if the workbench is about to be closed.
const CLOSING: u64 = 100;

/// A workbench that threads share. Each call holds the lock once. Beside the lock are the number of callers for whom seats were made, when the history begins
/// again, if it does, and the identity of the workbench, 0 if it has none. `changed` wakes workers, `news` the one that wakes watchers, and `events` those who
/// watch, who wait no longer if the workbench `is_closing`. `rests` counts how often there was nothing to take, and `reached` the keys that commits have marked.
pub struct Shared {
    pub(crate) state: Mutex<Locked>,
    pub(crate) callers: u32,
    pub(crate) changed: Condvar,
    pub(crate) news: Condvar,
    pub(crate) events: Condvar,
    pub(crate) is_closing: AtomicBool,
    pub(crate) rests: AtomicU64,
    pub(crate) reached: AtomicU64,
    pub(crate) rolls: Option<Rolling>,
    pub(crate) workbench: Identity,
}

impl Drop for Shared {
    fn drop(self) {
        let Self {
            state: _,
            callers: _,
            changed: _,
            news: _,
            events: _,
            is_closing: _,
            rests: _,
            reached: _,
            rolls: _,
            workbench: _,
        } = self;
    }
}

/// A hold of the lock. It can't be dropped: each is ended, or waits.
pub(crate) struct Hold<'a> {
    pub(crate) state: MutexGuard<'a, Locked>,
    shared: &'a Shared,
    // the number of the last event when it began
    last_event: u64,
    // records that a roll has left
    past: Option<Vec<Arc<Record>>>,
}

impl Hold<'_> {
    /// Lets the lock go, and wakes the workers that wait, if there is something for them, and the one that wakes watchers, if its call is an event. What a roll has
    /// left is dropped after that.
    pub(crate) fn end(self) {
        let Self {
            state,
            shared,
            last_event,
            past,
        } = self;
        if state.calls_workers() {
            shared.changed.notify_all();
        } else {
            shared.count_rest();
        }
        let has_news = last_event < state.bench().last_event();
        drop(state);
        if has_news {
            shared.news.notify_one();
        }
        drop(past);
    }

    /// Lets the lock go, and waits for a change. Under the lock there must be nothing for which workers are called: who makes something then wakes this one.
    pub(crate) fn wait<R: Wait>(self, rt: &R)
        requires { calls_workers self.state.value ≡ false }
    {
        let Self {
            state,
            shared,
            last_event: _,
            past,
        } = self;
        shared.count_rest();
        drop(shared.changed.wait(rt, state));
        drop(past);
    }
}

impl Model for Shared {
    ghost use Rattle.fb_shared.specs.Seated.{SharedView};

    ghost Value = { SharedView };

    ghost use Rattle.std.specs.Prelude.{is_some};

    ghost view = { λ it. record { callers = it.callers; rolls = is_some it.rolls; workbench = it.workbench } };
}

impl Shared {
    /// An empty workbench, with the seats of callers 1 to `callers`.
    pub fn new(
        alloc: Global,
        limits: Limits,
        callers: u32,
    ) -> Result<(Shared, Vec<Seat>), AllocError>
        ensures shared { IfOk result
            (λ made. made.0 ≡ record { callers = callers; rolls = false; workbench = unnamed }) }
        ensures seats { IfOk result (λ made. AreFirstSeats callers made.1.items) }
    {
        let (locked, seats) = Locked::new(alloc, limits, callers)?;
        Ok((Shared::of(locked, callers), seats))
    }

    /// With this under the lock, a history that does not begin again, and no identity.
    fn of(locked: Locked, callers: u32) -> Shared
        ensures { result ≡ record { callers = callers; rolls = false; workbench = unnamed } }
    {
        Shared {
            state: Mutex::new(locked),
            callers,
            changed: Condvar::new(),
            news: Condvar::new(),
            events: Condvar::new(),
            is_closing: AtomicBool::new(false),
            rests: AtomicU64::new(0),
            reached: AtomicU64::new(0),
            rolls: None,
            workbench: Identity { high: 0, low: 0 },
        }
    }

    /// As `new`, but before each call a history begins again if it is full, or if commits have put more than `most_text` bytes of texts since its start: its
    /// present state becomes its start, with the same limits. Reads show the identity.
    pub fn rolling(
        alloc: Global,
        limits: Limits,
        most_text: u64,
        callers: u32,
        workbench: Identity,
    ) -> Result<(Shared, Vec<Seat>), AllocError>
        ensures shared { IfOk result
            (λ made. made.0
            ≡ record { callers = callers; rolls = true; workbench = workbench }) }
        ensures seats { IfOk result (λ made. AreFirstSeats callers made.1.items) }
    {
        let (mut shared, seats) = Shared::new(alloc, limits, callers)?;
        shared.rolls = Some(Rolling::new(limits, most_text));
        shared.workbench = workbench;
        Ok((shared, seats))
    }

    /// Puts a workbench under a lock with the calls that it has, and gives the seats of callers 1 to `callers`: each with the calls
    /// that its caller has made, and as if it had seen the last one of all. Its workers are not stopped.
    pub fn resume(
        alloc: Global,
        bench: Bench,
        callers: u32,
    ) -> Result<(Shared, Vec<Seat>), NotResumed>
        ensures shared { IfOk result
            (λ made. made.0 ≡ record { callers = callers; rolls = false; workbench = unnamed }) }
        ensures seats { IfOk result (λ made. AreSeatsAt bench callers made.1.items) }
        ensures all_seated { OnOk result (IsLeast (is_left_out bench callers) None) }

        ensures fault { IfErr result (λ refused. IsResumeFault bench callers refused.fault) }
        ensures back { IfErr result (λ refused. refused.bench ≡ bench) }
    {
        match Locked::resume(alloc, bench, callers) {
            Ok((locked, seats)) => Ok((Shared::of(locked, callers), seats)),
            Err(refused) => Err(refused),
        }
    }

    /// Takes the lock for one call. If the history has to begin again, it does so first; without memory for that it stays as it is.
    pub(crate) fn hold<R: Wait>(&self, rt: &R) -> Hold<'_>
        ensures { IsReplayed result.state.value }
    {
        let mut hold = self.enter(rt);
        if let Some(rolling) = &self.rolls {
            hold.past = rolling.make_room(&mut hold.state);
        }
        show_replayed(hold.state.bench());
        hold
    }

    /// Takes the lock.
    fn enter<R: Wait>(&self, rt: &R) -> Hold<'_> {
        let state = self.state.lock(rt);
        let last_event = state.bench().last_event();
        Hold {
            state,
            shared: self,
            last_event,
            past: None,
        }
    }

    /// How many calls came before the start of the history.
    pub fn before<R: Wait>(&self, rt: &R) -> u64
        ensures { (bench : BenchView) × IsOrigin bench.origin × IsReplay bench
            × (result ≡ bench.origin.before) }
    {
        let state = self.state.lock(rt);
        show_replayed(state.bench());
        state.bench().before()
    }

    /// How many calls came before the last time that the history began again by itself, or 0. It takes no lock.
    pub fn last_roll(&self) -> u64 {
        match &self.rolls {
            Some(rolling) => rolling.last(),
            None => 0,
        }
    }

    /// Whether the history is not one that the seat has seen.
    pub fn is_behind<R: Wait>(&self, rt: &R, seat: &Seat) -> bool
        ensures { UnderLock (λ locked. IsTrue result ↔ (SeatFits locked seat.now → ⊥)) }
    {
        let state = self.state.lock(rt);
        show_replayed(state.bench());
        !state.fits(seat)
    }

    /// Changes the texts, or gives the first reason against that.
    pub fn commit<R: Wait>(
        &self,
        rt: &R,
        seat: &mut Seat,
        changes: &[Change],
    ) -> Result<Receipt, SharedRefused>
        ensures answers { Answers seat.old (ToCommit (listed changes.now))
            (λ receipt. receipt) result seat.new }
        ensures performs { UnderLock (λ locked. (after : LockedView)
            × Performs locked seat.old (ToCommit (listed changes.now))
            (λ receipt. receipt) result after seat.new) }
    {
        let mut hold = self.hold(rt);
        let answer = hold.state.commit(seat, changes);
        hold.end();
        answer
    }

    /// Hands out a job for the least key that is pending and not handed out.
    pub fn take<R: Wait>(
        &self,
        rt: &R,
        seat: &mut Seat,
    ) -> Result<(Receipt, Option<Job>), SharedRefused>
        ensures answers { Answers seat.old ToTake (λ made. made.0) result seat.new }
        ensures performs { UnderLock (λ locked. (after : LockedView)
            × Performs locked seat.old ToTake (λ made. made.0) result after seat.new) }
        ensures job { IfOk result (λ made. made.1 ≡ job_of made.0.entry.reply) }
    {
        let mut hold = self.hold(rt);
        let answer = hold.state.take(seat);
        hold.end();
        answer
    }

    /// Accepts a result, if its key waits for one and all that it has read is unchanged.
    pub fn deliver<R: Wait>(
        &self,
        rt: &R,
        seat: &mut Seat,
        finished: &Finished,
    ) -> Result<Receipt, SharedRefused>
        ensures answers { Answers seat.old (ToDeliver finished.now) (λ receipt. receipt) result seat.new }
        ensures performs { UnderLock (λ locked. (after : LockedView)
            × Performs locked seat.old (ToDeliver finished.now) (λ receipt. receipt) result after seat.new) }
    {
        let mut hold = self.hold(rt);
        let answer = hold.state.deliver(seat, finished);
        hold.end();
        answer
    }

    /// Clears the mark that a key is handed out.
    pub fn give_back<R: Wait>(
        &self,
        rt: &R,
        seat: &mut Seat,
        key: Key,
    ) -> Result<Receipt, SharedRefused>
        ensures answers { Answers seat.old (ToGiveBack key) (λ receipt. receipt) result seat.new }
        ensures performs { UnderLock (λ locked. (after : LockedView)
            × Performs locked seat.old (ToGiveBack key) (λ receipt. receipt) result after seat.new) }
    {
        let mut hold = self.hold(rt);
        let answer = hold.state.give_back(seat, key);
        hold.end();
        answer
    }

    /// What is known of a key.
    pub fn ask<R: Wait>(&self, rt: &R, seat: &mut Seat, key: Key) -> Result<Receipt, SharedRefused>
        ensures answers { Answers seat.old (ToAsk key) (λ receipt. receipt) result seat.new }
        ensures performs { UnderLock (λ locked. (after : LockedView)
            × Performs locked seat.old (ToAsk key) (λ receipt. receipt) result after seat.new) }
    {
        let mut hold = self.hold(rt);
        let answer = hold.state.ask(seat, key);
        hold.end();
        answer
    }

    /// Makes a call, and keeps its receipt after the others.
    pub(crate) fn perform_into<R: Wait>(
        &self,
        rt: &R,
        seat: &mut Seat,
        receipts: &mut Vec<Receipt>,
        request: &Request<'_>,
    ) -> Result<Answered, SharedRefused>
        ensures answers { AnswersInto seat.old (call_for request.now) result
            receipts.old.items seat.new receipts.new.items }
        ensures performs { UnderLock (λ locked. (after : LockedView)
            × PerformsInto locked seat.old (call_for request.now) result
            receipts.old.items after seat.new receipts.new.items) }
    {
        let mut hold = self.hold(rt);
        let answer = hold.state.perform_into(seat, receipts, request);
        if let (Some(rolling), Ok(_)) = (&self.rolls, &answer) {
            rolling.count(request);
        }
        if let Ok(Answered::Commit(Committed::Done(_))) = &answer {
            self.count_reached(hold.state.bench().reached());
        }
        hold.end();
        answer
    }

    /// Gives a key back, if it is out since the take of this number, and keeps the receipt after the others.
    pub fn give_back_held<R: Wait>(
        &self,
        rt: &R,
        seat: &mut Seat,
        receipts: &mut Vec<Receipt>,
        key: Key,
        since: u64,
    ) -> Result<(), SharedRefused>
        ensures may { MayReturn seat.old key result receipts.old.items seat.new receipts.new.items }
        ensures returns { UnderLock (λ locked. (after : LockedView)
            × Returns since locked seat.old key result
            receipts.old.items after seat.new receipts.new.items) }
    {
        let mut hold = self.hold(rt);
        let answer = hold.state.return_held(seat, receipts, key, since);
        hold.end();
        answer
    }

    /// Reads, without a record. None if the history is not one that the seat has seen. The lock is held only while what is shown is shared.
    pub fn read<R: Wait>(
        &self,
        rt: &R,
        seat: &mut Seat,
        reading: &Reading,
    ) -> Result<Option<Showing>, AllocError>
        ensures at { ReadsAt self.now.workbench seat.old reading.now result seat.new }
        ensures reads { UnderLock (λ locked. Reads locked self.now.workbench seat.old reading.now
            result seat.new) }
    {
        let state = self.state.lock(rt);
        self.read_in(state, seat, reading)
    }

    /// Reads the events after a call. If there are none yet, it waits for them, but not for longer than this. `tell_watchers` must run.
    pub fn watch<R: Wait + Clock>(
        &self,
        rt: &R,
        seat: &mut Seat,
        after: u64,
        wait: Duration,
    ) -> Result<Option<Showing>, AllocError>
        ensures at { ReadsAt self.now.workbench seat.old (Events after) result seat.new }
        ensures reads { UnderLock (λ locked. Reads locked self.now.workbench seat.old (Events after)
            result seat.new) }
    {
        let state = self.await_news(rt, after, wait);
        self.read_in(state, seat, &Reading::Events(after))
    }

    /// Reads what is under the lock, and lets it go.
    fn read_in(
        &self,
        state: MutexGuard<'_, Locked>,
        seat: &mut Seat,
        reading: &Reading,
    ) -> Result<Option<Showing>, AllocError>
        ensures at { ReadsAt self.now.workbench seat.old reading.now result seat.new }
        ensures reads { UnderLock (λ locked. Reads locked self.now.workbench seat.old reading.now
            result seat.new) }
    {
        show_replayed(state.bench());
        let made = state.snapshot(seat, self.workbench, reading);
        drop(state);
        match made? {
            None => Ok(None),
            Some(snapshot) => Ok(Some(snapshot.showing(seat)?)),
        }
    }

    /// Takes the lock once there is an event after this call, but not later than this. If there is one at once, and a read can show more, it gathers further ones
    /// for a short time.
    fn await_news<R: Wait + Clock>(
        &self,
        rt: &R,
        after: u64,
        wait: Duration,
    ) -> MutexGuard<'_, Locked> {
        let state = self.state.lock(rt);
        let behind = state.bench().last_event().saturating_sub(after);
        if 0 < behind && behind < MOST_CALLS && !wait.is_zero() {
            drop(state);
            thread::sleep(rt, Duration::from_millis(GATHERING));
            return self.state.lock(rt);
        }
        let closing = self.is_closing();
        let most = if closing {
            wait.min(Duration::from_millis(CLOSING))
        } else {
            wait
        };
        let (state, _timeout) = self.events.wait_timeout_while(rt, state, most, |locked| {
            !locked.bench().has_news(after) && self.is_closing() == closing
        });
        state
    }

    /// Wakes those who watch a short time after an event, until watches are ended. It runs in a thread of its own, so that no call has to wake them.
    pub fn tell_watchers<R: Wait + Clock>(&self, rt: &R) {
        let mut told = 0;
        for _ in rt.forever() {
            told = self.await_event(rt, told);
            if self.is_closing() {
                return;
            }
            thread::sleep(rt, Duration::from_millis(GATHERING));
            self.events.notify_all();
        }
    }

    /// The number of the last event, once there is one after this or watches are ended.
    fn await_event<R: Wait>(&self, rt: &R, told: u64) -> u64 {
        let state = self.state.lock(rt);
        let state = self.news.wait_while(rt, state, |locked| {
            locked.bench().last_event() <= told && !self.is_closing()
        });
        state.bench().last_event()
    }

    /// From now on no watch waits long, so that the sessions of peers that have gone end.
    pub fn end_watches<R: Wait>(&self, rt: &R) {
        let state = self.state.lock(rt);
        self.is_closing.store(true, Ordering::SeqCst);
        drop(state);
        self.news.notify_all();
        self.events.notify_all();
    }

    /// Whether watches were ended by `end_watches`.
    pub fn is_closing(&self) -> bool {
        self.is_closing.load(Ordering::SeqCst)
    }

    /// How often a call, or a worker's look for a job, has left nothing to take: whatever was pending then had been taken. A worker that ends, as for lack of memory,
    /// counts too: nobody is to wait for it.
    pub fn rests(&self) -> u64 {
        self.rests.load(Ordering::SeqCst)
    }

    /// How many keys the commits of desks have marked as pending, those that were pending already included.
    pub fn reached(&self) -> u64 {
        self.reached.load(Ordering::SeqCst)
    }

    fn count_reached(&self, keys: u64) {
        self.reached.fetch_add(keys, Ordering::SeqCst);
    }

    /// Counts it if there is nothing to take now.
    pub fn look_for_rest<R: Wait>(&self, rt: &R) {
        self.enter(rt).end();
    }

    pub(crate) fn count_rest(&self) {
        self.rests.fetch_add(1, Ordering::SeqCst);
    }

    /// Makes the workers stop.
    pub fn stop<R: Wait>(&self, rt: &R) {
        let mut hold = self.enter(rt);
        hold.state.stop();
        hold.end();
    }

    /// Ends the calls. If a seat or a receipt does not fit, it is refused and hands all back.
    pub fn close(
        self,
        alloc: Global,
        seats: Vec<Seat>,
        receipts: &[Receipt],
    ) -> Result<Closed, NotClosed<Shared>>
        ensures closed { IfOk result
            (λ closed. IsCloseOf self.callers
            seats.items receipts.now closed.bench closed.counts) }
        ensures fault { IfErr result
            (λ refused. IsFaultOf self.callers seats.items receipts.now refused.fault) }
        ensures back { IfErr result
            (λ refused. (refused.owner ≡ self) × (refused.seats.items ≡ seats.items)) }
    {
        let Shared {
            state,
            callers,
            changed,
            news,
            events,
            is_closing,
            rests,
            reached,
            rolls,
            workbench,
        } = self;
        match close_for(state.into_inner(), alloc, callers, seats, receipts) {
            Ok(closed) => Ok(closed),
            Err(
                NotClosed {
                    fault,
                    owner,
                    seats,
                },
            ) => Err(NotClosed {
                fault,
                owner: Shared {
                    state: Mutex::new(owner),
                    callers,
                    changed,
                    news,
                    events,
                    is_closing,
                    rests,
                    reached,
                    rolls,
                    workbench,
                },
                seats,
            }),
        }
    }
}

/// For proofs: each recorded answer of a workbench is the machine's, from a start that a workbench may have.
fn show_replayed(bench: &Bench)
    ensures { IsOrigin bench.now.origin × IsReplay bench.now }
{
    bench.start();
    bench.len();
}
