//! The pace of sessions: a seat that commits faster than the workers settle keys waits for them, and a key that a session lets go is the workers' first.
ghost use Rattle.std.specs.Prelude.{◌≡◌, ◌≢◌, ◌+◌, ◌==◌, ◌↔◌, IfOk, IsTrue, Some, if◌then◌else◌, min, replicate, slice_get};
ghost use Rattle.fb_host.specs.Pace.{HasReached, IsAdmitted, MayCommit, no_commits, since, with_reached};

use fb_locked::bench::Request;
use fb_shared::Shared;
use std::alloc::{AllocError, Global};
use std::sync::{Mutex, MutexGuard, Wait};
use std::thread;
use std::time::{Clock, Duration, Instant};

/// How many milliseconds pass from one look at the rests of workers to the next.
const LOOK: u64 = 1;

/// For how many milliseconds a call waits at most if the host closes.
const CLOSING: u64 = 100;

/// For how many milliseconds a `take` waits at most for the workers, who may have long jobs.
const TAKING: u64 = 1_000;

/// A seat whose commits have reached this number of keys since a rest waits for the next one.
const KEYS_AHEAD: u64 = 256;

/// The commits of a seat since a rest: how many rests were counted then, and how many keys they have reached, counted to 256.
#[derive(Clone, Copy)]
struct RecentCommits {
    rests: u64,
    reached: u64,
}

impl RecentCommits {
    const NONE: RecentCommits = RecentCommits {
        rests: 0,
        reached: 0,
    };

    /// Whether the seat may commit, now that this number of rests was counted.
    fn may_commit(self, rests: u64) -> bool
        ensures { IsTrue result ↔ MayCommit self rests }
    {
        self.rests != rests || self.reached < KEYS_AHEAD
    }

    /// Those since the last rest, now that this number of rests was counted.
    fn since(self, rests: u64) -> RecentCommits
        ensures { result ≡ since self rests }
    {
        let reached = if self.rests == rests { self.reached } else { 0 };
        RecentCommits { rests, reached }
    }

    /// With this number of keys that its last commit has reached.
    fn with_reached(self, keys: u64) -> RecentCommits
        ensures { result ≡ with_reached self keys }
    {
        RecentCommits {
            rests: self.rests,
            reached: self.reached.saturating_add(keys).min(KEYS_AHEAD),
        }
    }
}

/// The recent commits of each seat, by its caller.
#[derive(Drop)]
struct CommitTable {
    seats: Vec<RecentCommits>,
}

impl CommitTable {
    /// For callers up to this one, without a commit.
    fn new(alloc: Global, callers: u32) -> Result<CommitTable, AllocError>
        ensures { IfOk result
            (λ made. made.seats.items ≡ replicate (callers + 1) no_commits) }
    {
        let seats = vec![in alloc; RecentCommits::NONE; callers as usize + 1]?;
        Ok(CommitTable { seats })
    }

    /// Whether this caller may commit, now that this number of rests was counted. If it may, what its commits reached before the last rest counts no longer.
    fn admit(&mut self, caller: u32, rests: u64) -> bool
        ensures { IsAdmitted (slice_get self.old.seats.items caller) self.old.seats.items
            caller rests result self.new.seats.items }
    {
        let place = caller as usize;
        let Some(recent) = self.seats.get(place).copied() else {
            return true;
        };
        if !recent.may_commit(rests) {
            return false;
        }
        self.seats[place] = recent.since(rests);
        true
    }

    /// Counts the keys that a commit of this caller has reached.
    fn add_reached(&mut self, caller: u32, keys: u64)
        ensures { HasReached (slice_get self.old.seats.items caller) self.old.seats.items
            caller keys self.new.seats.items }
    {
        let place = caller as usize;
        if let Some(recent) = self.seats.get(place).copied() {
            self.seats[place] = recent.with_reached(keys);
        }
    }
}

/// How many rests were counted when a session last let go a key without a result.
#[derive(Drop)]
struct LastRelease {
    rests: Option<u64>,
}

impl LastRelease {
    /// Whether a session may take a key, now that this number of rests was counted: workers could take all that was let go.
    fn may_take(&self, rests: u64) -> bool
        ensures { IsTrue result ↔ (self.now.rests ≢ Some rests) }
    {
        self.rests != Some(rests)
    }
}

/// The turn of a call that takes a key or lets one go. Meanwhile no other session makes such a call.
#[derive(Drop)]
pub(crate) struct Turn<'a> {
    last: MutexGuard<'a, LastRelease>,
}

impl Turn<'_> {
    /// Ends, after a call that perhaps lets a key go.
    pub(crate) fn end(self, shared: &Shared, lets_go: bool) {
        let Self { mut last } = self;
        if lets_go {
            last.rests = Some(shared.rests());
        }
    }
}

/// A count of the keys that a commit reaches: those that all commits had reached before it.
#[derive(Drop)]
pub(crate) struct Counting<'a> {
    commits: MutexGuard<'a, CommitTable>,
    before: u64,
}

impl Counting<'_> {
    /// Ends, after the commit of this caller.
    pub(crate) fn end(self, shared: &Shared, caller: u32) {
        let Self {
            mut commits,
            before,
        } = self;
        commits.add_reached(caller, shared.reached().saturating_sub(before));
    }
}

/// For how many milliseconds a call waits at most, of which none may wait for longer than `length`.
fn longest_wait(length: u64, is_take: bool, is_closing: bool) -> u64
    ensures { result
        ≡ min length (if is_closing then 100 else (if is_take then 1000 else length)) }
{
    let most = if is_closing {
        CLOSING
    } else if is_take {
        TAKING
    } else {
        length
    };
    length.min(most)
}

/// Pauses before the next look. A rest may have come before what waits for it.
fn look_again<R: Wait + Clock>(rt: &R, shared: &Shared) {
    thread::sleep(rt, Duration::from_millis(LOOK));
    shared.look_for_rest(rt);
}

/// What sessions share to keep pace, and for how many milliseconds a call waits at most.
pub struct Pace {
    commits: Mutex<CommitTable>,
    release: Mutex<LastRelease>,
    length: u64,
}

impl Drop for Pace {
    fn drop(self) {
        let Self {
            commits: _,
            release: _,
            length: _,
        } = self;
    }
}

impl Pace {
    /// For callers up to this one, and for this number of workers and of milliseconds. Without a worker no call waits.
    pub fn new(alloc: Global, callers: u32, workers: u64, length: u64) -> Result<Pace, AllocError>
        ensures { IfOk result
            (λ made. made.length ≡ (if workers == 0 then 0 else length)) }
    {
        Ok(Pace {
            commits: Mutex::new(CommitTable::new(alloc, callers)?),
            release: Mutex::new(LastRelease { rests: None }),
            length: if workers == 0 { 0 } else { length },
        })
    }

    /// Waits until a caller may make a call, but not for too long. The turn of one that takes a key or gives one back is then its own.
    pub(crate) fn await_turn<R: Wait + Clock>(
        &self,
        rt: &R,
        shared: &Shared,
        caller: u32,
        request: &Request<'_>,
    ) -> Option<Turn<'_>> {
        let begun = Instant::now(rt).ok();
        for _ in 0..self.length {
            let turn = self.turn_of(rt, request);
            let may_call = self.may_call(rt, shared, caller, request, &turn);
            if may_call || self.is_over(rt, shared, request, begun) {
                return turn;
            }
            drop(turn);
            look_again(rt, shared);
        }
        self.turn_of(rt, request)
    }

    /// The turn of a call that takes a key or gives one back.
    fn turn_of<R: Wait>(&self, rt: &R, request: &Request<'_>) -> Option<Turn<'_>> {
        match request {
            Request::Take | Request::GiveBack(_) => Some(self.turn(rt)),
            Request::Commit(_) | Request::Deliver(_) | Request::Ask(_) => None,
        }
    }

    /// Whether a caller may make a call with this turn now.
    fn may_call<R: Wait>(
        &self,
        rt: &R,
        shared: &Shared,
        caller: u32,
        request: &Request<'_>,
        turn: &Option<Turn<'_>>,
    ) -> bool {
        match (request, turn) {
            (Request::Commit(_), _) => self.commits.lock(rt).admit(caller, shared.rests()),
            (Request::Take, Some(turn)) => turn.last.may_take(shared.rests()),
            _ => true,
        }
    }

    /// Begins to count the keys that a commit reaches. Until that ends no other session commits, so its keys are counted for nobody else.
    pub(crate) fn begin_count<R: Wait>(
        &self,
        rt: &R,
        shared: &Shared,
        request: &Request<'_>,
    ) -> Option<Counting<'_>> {
        match request {
            Request::Commit(_) => {
                let commits = self.commits.lock(rt);
                let before = shared.reached();
                Some(Counting { commits, before })
            }
            Request::Take | Request::Deliver(_) | Request::GiveBack(_) | Request::Ask(_) => None,
        }
    }

    /// Waits until no other session takes a key or lets one go.
    pub(crate) fn turn<R: Wait>(&self, rt: &R) -> Turn<'_> {
        Turn {
            last: self.release.lock(rt),
        }
    }

    /// Whether the wait of a call that began then was long enough.
    fn is_over<R: Clock>(
        &self,
        rt: &R,
        shared: &Shared,
        request: &Request<'_>,
        begun: Option<Instant>,
    ) -> bool {
        let is_take = matches!(request, Request::Take);
        let most = longest_wait(self.length, is_take, shared.is_closing());
        match begun.map(|it| it.elapsed(rt)) {
            Some(Ok(passed)) => Duration::from_millis(most) <= passed,
            _ => true,
        }
    }
}
