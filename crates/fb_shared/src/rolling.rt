//! When the history of a shared workbench begins again.
use fb_locked::Locked;
use fb_locked::bench::{Limits, Record, Request};
use fb_locked::library::Change;
use std::sync::Arc;
use std::sync::atomic::{AtomicU64, Ordering};

/// The limits with which a history begins again, and how many bytes of texts commits may put until then. Beside them are how many they have put since the start,
/// and how many calls came before that: both are changed under the lock alone.
#[derive(Drop)]
pub(crate) struct Rolling {
    limits: Limits,
    most_text: u64,
    text: AtomicU64,
    before: AtomicU64,
}

impl Rolling {
    pub(crate) fn new(limits: Limits, most_text: u64) -> Rolling {
        Rolling {
            limits,
            most_text,
            text: AtomicU64::new(0),
            before: AtomicU64::new(0),
        }
    }

    /// Lets the history begin again if it is full, or if its texts take more bytes than they may, and gives the records that the last time has left. Without
    /// memory for that it stays as it is.
    pub(crate) fn make_room(&self, state: &mut Locked) -> Option<Vec<Arc<Record>>> {
        let is_due = self.most_text < self.text.load(Ordering::SeqCst);
        let past = state.make_room(self.limits, is_due).ok();
        let before = state.bench().before();
        if self.last() < before {
            self.before.store(before, Ordering::SeqCst);
            self.text.store(0, Ordering::SeqCst);
        }
        past
    }

    /// How many calls came before the start.
    pub(crate) fn last(&self) -> u64 {
        self.before.load(Ordering::SeqCst)
    }

    /// Counts the texts of a call that is recorded.
    pub(crate) fn count(&self, request: &Request<'_>) {
        if let Request::Commit(changes) = request {
            let _ = self.text.fetch_add(text_of(changes), Ordering::SeqCst);
        }
    }
}

/// How many bytes of texts the changes put.
fn text_of(changes: &[Change]) -> u64 {
    let mut bytes = 0_u64;
    for change in changes {
        if let Change::Put { source, .. } = change {
            bytes = bytes.saturating_add(source.text().len() as u64);
        }
    }
    bytes
}
