//! What a host prints on its errors. A thread of its own prints it, so that nobody else waits for who reads it.
ghost use Rattle.std.specs.Prelude.{◌≡◌, ◌+◌, ◌<◌, ◌≤◌, ◌∷◌, [], ◌++◌, length};

use fb_serve::say_error;
use fb_wire::RunError;
use std::alloc::Global;
use std::io::Write;
use std::sync::{Condvar, CondvarTimeouts, Mutex, Wait};
use std::time::{Clock, Duration, Instant};
use std::{io, mem};

/// How many lines wait at most for being printed.
const MOST_LINES: usize = 64;

/// How many milliseconds are between two lines of the same counts, and between two lines on connections that can't be accepted.
const MINUTE: u64 = 60_000;

/// A line that is printed.
#[derive(Clone, Copy)]
pub enum Notice {
    /// The session of a caller ended with an error.
    Failed { caller: u32, error: RunError },
    /// The session of a caller was silent for too long.
    Idle { caller: u32 },
    /// The system gives no further connection, with its number of the reason.
    NotAccepted { reason: i32 },
    /// What was counted since the last such line.
    Counted(Counts),
}

/// How many connections got no seat, how many of them did not prove the secret, and how many lines were not printed.
#[derive(Clone, Copy)]
pub struct Counts {
    turned_away: u64,
    wrong_secrets: u64,
    dropped: u64,
}

impl Counts {
    const NONE: Counts = Counts {
        turned_away: 0,
        wrong_secrets: 0,
        dropped: 0,
    };

    fn is_none(&self) -> bool {
        self.turned_away == 0 && self.dropped == 0
    }
}

/// The lines that wait, in order; what was counted, and since when; when it last printed that no connection is accepted; and whether no further line comes.
#[derive(Drop)]
struct NoticeState {
    lines: Vec<Notice>,
    counts: Counts,
    since: Option<Instant>,
    told: Option<Instant>,
    is_closed: bool,
}

impl NoticeState {
    /// Adds a line after the others. If as many wait as may, or there is no memory, it is only counted.
    fn add(&mut self, notice: Notice)
        ensures few { length self.old.lines.items ≤ 64 → length self.new.lines.items ≤ 64 }
        ensures kept { length self.new.lines.items ≡ length self.old.lines.items + 1
            → self.new.lines.items ≡ self.old.lines.items ++ notice ∷ [] }
    {
        if self.lines.len() < MOST_LINES && self.lines.push(notice).is_ok() {
            return;
        }
        self.counts.dropped = self.counts.dropped.saturating_add(1);
    }

    /// The first line that waits, which is taken out.
    fn first(&mut self) -> Option<Notice> {
        if self.lines.is_empty() {
            return None;
        }
        Some(self.lines.remove(0))
    }

    /// What was counted, if there is something. The count then begins again.
    fn counted(&mut self) -> Option<Notice> {
        if self.counts.is_none() {
            return None;
        }
        self.since = None;
        Some(Notice::Counted(mem::replace(&mut self.counts, Counts::NONE)))
    }
}

/// The lines that wait for being printed, which threads share.
pub struct Notices {
    state: Mutex<NoticeState>,
    changed: Condvar,
}

impl Drop for Notices {
    fn drop(self) {
        let Self {
            state: _,
            changed: _,
        } = self;
    }
}

/// How much of the minute since then is left. Nothing is left of it if there is no such time.
fn left_of_minute<R: Clock>(rt: &R, since: Option<Instant>) -> Duration {
    let minute = Duration::from_millis(MINUTE);
    let Some(since) = since else {
        return Duration::ZERO;
    };
    match since.elapsed(rt) {
        Ok(passed) => minute.saturating_sub(passed),
        Err(_) => minute,
    }
}

impl Notices {
    /// Nothing is printed or counted yet.
    pub fn new(alloc: Global) -> Notices {
        let none = NoticeState {
            lines: Vec::new(alloc),
            counts: Counts::NONE,
            since: None,
            told: None,
            is_closed: false,
        };
        Notices {
            state: Mutex::new(none),
            changed: Condvar::new(),
        }
    }

    /// Prints a line soon, unless too many wait.
    pub fn add<R: Wait>(&self, rt: &R, notice: Notice) {
        self.state.lock(rt).add(notice);
        self.changed.notify_one();
    }

    /// Prints why no connection is accepted, if a minute has passed since that was last printed.
    pub(crate) fn add_failure<R: Wait + Clock>(&self, rt: &R, reason: i32) {
        let mut state = self.state.lock(rt);
        if left_of_minute(rt, state.told).is_zero() {
            state.told = Instant::now(rt).ok();
            state.add(Notice::NotAccepted { reason });
            self.changed.notify_one();
        }
    }

    /// Counts a connection that gets no seat, and whether that is for a wrong secret. The count is printed once a minute, and at the end.
    pub(crate) fn count_turned_away<R: Wait + Clock>(&self, rt: &R, is_wrong: bool) {
        let mut state = self.state.lock(rt);
        if state.since.is_none() {
            state.since = Instant::now(rt).ok();
            self.changed.notify_one();
        }
        let counts = &mut state.counts;
        counts.turned_away = counts.turned_away.saturating_add(1);
        counts.wrong_secrets = counts.wrong_secrets.saturating_add(u64::from(is_wrong));
    }

    /// Waits for a line. None if no further one comes.
    fn next<R: Wait + Clock>(&self, rt: &R) -> Option<Notice> {
        let mut state = self.state.lock(rt);
        for _ in rt.forever() {
            if let Some(notice) = state.first() {
                return Some(notice);
            }
            let left = left_of_minute(rt, state.since);
            if state.is_closed || left.is_zero() {
                if let Some(notice) = state.counted() {
                    return Some(notice);
                }
            }
            if state.is_closed {
                return None;
            }
            let minute = Duration::from_millis(MINUTE);
            let wait = if left.is_zero() { minute } else { left };
            state = self.changed.wait_timeout(rt, state, wait).0;
        }
        // `forever` never ends.
        unreachable!()
    }

    /// No further line comes.
    pub fn close<R: Wait>(&self, rt: &R) {
        self.state.lock(rt).is_closed = true;
        self.changed.notify_all();
    }
}

/// Prints the lines as they come, until no further one does.
pub fn print_notices<R: Wait + Clock, E: Write>(rt: &R, notices: &Notices, errors: &Mutex<E>) {
    for _ in rt.forever() {
        let Some(notice) = notices.next(rt) else {
            return;
        };
        print(&mut *errors.lock(rt), notice);
    }
    // `forever` never ends.
    unreachable!()
}

/// Prints a line.
fn print<E: Write>(errors: &mut E, notice: Notice) {
    match notice {
        Notice::Failed { caller, error } => say_error(errors, caller, error),
        Notice::Idle { caller } => {
            let _ = writeln!(errors, "session {caller}: idle");
        }
        Notice::NotAccepted { reason } => {
            let error = io::Error::from_raw_os_error(reason);
            let _ = writeln!(errors, "bench61499: no connection is accepted: {error}");
        }
        Notice::Counted(counts) => print_counts(errors, counts),
    }
}

/// Prints what was counted.
fn print_counts<E: Write>(errors: &mut E, counts: Counts) {
    let Counts {
        turned_away,
        wrong_secrets,
        dropped,
    } = counts;
    if 0 < turned_away {
        let _ = writeln!(
            errors,
            "bench61499: connections turned away: {turned_away}, for a wrong secret: {wrong_secrets}"
        );
    }
    if 0 < dropped {
        let _ = writeln!(errors, "bench61499: lines not printed: {dropped}");
    }
}
