//! What is read of a workbench without a record.
ghost use Rattle.std.specs.Prelude.{◌≡◌, ◌-◌, ◌≤◌, ◌||◌, IfOk, drop, nat_lt, take};
ghost use Rattle.fb_entries.specs.Library.Texts.{held};
ghost use Rattle.fb_history.specs.{BenchView.{last_number, state_of}, Events.{last_event_of}, Records.{records_in}};
ghost use Rattle.fb_history.specs.Reads.{counts_of, events_after, reading_of, showing_in, text_shown};
ghost use Rattle.fb_bench.specs.Snapshots.{shows};

use crate::bench::Bench;
use crate::snapshot::Snapshot;
use fb_history::{Counts, Reader, Reading, Record, Showing};
use fb_text::Name;
use std::alloc::AllocError;
use std::sync::Arc;

/// At how many calls a read of events looks at most.
pub const MOST_CALLS: u64 = 200;

impl Bench {
    /// What a session reads.
    pub fn read(&self, reader: Reader, reading: &Reading) -> Result<Showing, AllocError>
        ensures { IfOk result
            (λ shown. showing_in shown ≡ reading_of reader self.now reading.now) }
    {
        let snapshot = self.snapshot(reader, reading)?;
        snapshot.showing(self.alloc())
    }

    /// What a session reads, shared as it is now. It takes the same short time for each workbench.
    pub fn snapshot(&self, reader: Reader, reading: &Reading) -> Result<Snapshot, AllocError>
        ensures { IfOk result (λ it. shows it ≡ reading_of reader self.now reading.now) }
    {
        match reading {
            Reading::Status => Ok(Snapshot::Status {
                counts: self.counts(reader),
                workbench: reader.workbench,
            }),
            Reading::Units(after) => {
                let texts = self.library().copy()?;
                let at = self.last_number();
                Ok(Snapshot::Units {
                    at,
                    after: *after,
                    texts,
                })
            }
            Reading::Text(unit) => Ok(Snapshot::Shown(self.text(unit)?)),
            Reading::Entry(key) => Ok(Snapshot::Shown(Showing::Entry(self.known(key)?))),
            Reading::Events(after) => self.calls_after(*after),
        }
    }

    fn counts(&self, reader: Reader) -> Counts
        ensures { result ≡ counts_of reader self.now }
    {
        Counts {
            session: reader.session,
            calls: self.last_number(),
            commits: self.commits(),
            keys: self.key_count() as u64,
            pending: self.pending_count() as u64,
            units: self.library().len() as u64,
        }
    }

    fn text(&self, unit: &Name) -> Result<Showing, AllocError>
        ensures { IfOk result
            (λ shown. showing_in shown
            ≡ text_shown (last_number self.now) unit.now
            (held (state_of self.now).units unit.now)) }
    {
        match self.library().filed(unit) {
            None => Ok(Showing::NoSuchUnit(*unit)),
            Some(filed) => {
                let text = filed.source().shared_text().clone()?;
                let base = filed.revision();
                let at = self.last_number();
                Ok(Showing::Text { at, base, text })
            }
        }
    }

    /// The calls after a number, of which the events are shown.
    fn calls_after(&self, after: u64) -> Result<Snapshot, AllocError>
        ensures { IfOk result (λ it. shows it ≡ events_after self.now after) }
    {
        let last = self.last_number();
        if after < self.start().last_event() || last < after {
            return Ok(Snapshot::Shown(Showing::Missed(last)));
        }
        let first = after.max(self.before());
        let at = first + (last - first).min(MOST_CALLS);
        let records = self.records_up_to(first, at)?;
        Ok(Snapshot::Records { at, records })
    }

    /// The records after the first number, up to the second one.
    fn records_up_to(&self, first: u64, at: u64) -> Result<Vec<Arc<Record>>, AllocError>
        requires begins { self.now.origin.before ≤ first }
        requires on { first ≤ at }
        requires within { at ≤ last_number self.now }
        ensures { IfOk result
            (λ records. records_in records.items
            ≡ take (at - first) (drop (first - self.now.origin.before) self.now.log.records)) }
    {
        let mut records = Vec::new(self.alloc());
        for number in first..at {
            let Some(record) = self.shared_record(number + 1) else {
                unreachable!()
            };
            records.push(record.clone()?)?;
        }
        Ok(records)
    }

    /// Whether a watch after this number has something to report: events, or that it has missed some.
    pub fn has_news(&self, after: u64) -> bool
        ensures { result ≡ (nat_lt (last_number self.now) after || nat_lt after (last_event_of self.now)) }
    {
        self.last_number() < after || after < self.last_event()
    }
}
