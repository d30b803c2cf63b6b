//! The history: what it begins from, the calls that were recorded since, and how many each caller has made.

use crate::limits::Limits;
use crate::record::{Call, Record, Reply};
use crate::start::Start;
use fb_jobs::Key;
use fb_jobs::library::Library;
use std::alloc::{AllocError, Global};
use std::collections::BTreeMap;
use std::marker::Model;
use std::mem;
use std::sync::Arc;

/// What it begins from, and the calls that were recorded since, at most `limit` of them; `turns` counts the calls of each caller, and `last_event` is the
/// number of the last call that is an event for those who watch, those before the start included.
pub struct History {
    alloc: Global,
    start: Start,
    limit: u64,
    records: Vec<Arc<Record>>,
    turns: BTreeMap<u32, u64>,
    last_event: u64,
}

impl Drop for History {
    fn drop(self) {
        let Self {
            alloc: _,
            start: _,
            limit: _,
            records: _,
            turns: _,
            last_event: _,
        } = self;
    }
}

impl Model for History {
    ghost use Rattle.fb_history.specs.BenchView.{BenchView};

    ghost Value = { BenchView };

    ghost use Rattle.fb_history.specs.{Records.{records_in}, Logs.{IsCounted}};

    ghost view = { λ it. record { origin = it.start; log = record { limit = it.limit; records = records_in it.records.items } } };

    ghost invariant = { λ it. IsCounted it.turns it.last_event (record { origin = it.start; log = record { limit = it.limit; records = records_in it.records.items } }) };
}

impl History {
    ghost use Rattle.std.specs.{Prelude.{◌≡◌, ◌+◌, ◌^◌, ◌<◌, ◌≤◌, ◌↔◌, IsTrue, OnOk, OnErr, IfOk, length}, Option.{option_map}};
    ghost use Rattle.fb_history.specs.{Checkpoints.{restarted}, Events.{last_event_of}};
    ghost use Rattle.fb_history.specs.BenchView.{all_turns, last_number, logged, new_bench, pages_after, record_after, record_numbered, AreTurns, IsFull};
    ghost use Rattle.fb_history.specs.Records.{call_of, records_in, reply_of};

    /// A history of no calls.
    pub fn new(alloc: Global, limits: Limits) -> History
        ensures { result ≡ new_bench limits.units limits.history }
    {
        History {
            alloc,
            start: Start::empty(alloc, limits.units()),
            limit: limits.history(),
            records: Vec::new(alloc),
            turns: BTreeMap::new(alloc),
            last_event: 0,
        }
    }

    /// What it begins from.
    pub fn start(&self) -> &Start
        ensures { result.now ≡ self.now.origin }
    {
        &self.start
    }

    /// How many calls came before the start.
    pub fn before(&self) -> u64
        ensures { result ≡ self.now.origin.before }
    {
        self.start.before
    }

    /// The most units.
    pub fn most_units(&self) -> u64
        ensures { result ≡ self.now.origin.most_units }
    {
        self.start.most_units
    }

    /// How many calls are recorded since the start.
    pub fn len(&self) -> usize
        ensures len { result ≡ length self.now.log.records }
        ensures turns { AreTurns self.now }
    {
        self.records.len()
    }

    /// The number of the last call, or 0.
    pub fn last_number(&self) -> u64
        ensures last { result ≡ last_number self.now }
        ensures within { length self.now.log.records ≤ self.now.log.limit }
        ensures fits { self.now.origin.before + self.now.log.limit < 2 ^ 64 }
    {
        self.start.before + self.records.len() as u64
    }

    /// Whether no further call may be recorded.
    pub fn is_full(&self) -> bool
        ensures full { IsTrue result ↔ IsFull self.now.log }
        ensures fits { self.now.origin.before + self.now.log.limit < 2 ^ 64 }
    {
        self.limit <= self.records.len() as u64
    }

    /// The number of the last call that is an event for those who watch, those before the start included, or 0.
    pub fn last_event(&self) -> u64
        ensures { result ≡ last_event_of self.now }
    {
        self.last_event
    }

    /// The record of this number, counted over all calls from 1: None for a call before the start.
    pub fn record(&self, number: u64) -> Option<&Record>
        ensures { option_map (λ it. it.now) result ≡ record_numbered self.now number }
    {
        match self.shared_record(number) {
            Some(record) => Some(record),
            None => None,
        }
    }

    /// The same, to be shared.
    pub fn shared_record(&self, number: u64) -> Option<&Arc<Record>>
        ensures { option_map (λ it. it.now.value) result ≡ record_numbered self.now number }
    {
        let earlier = self.before();
        if number <= earlier {
            return None;
        }
        match self.records.get((number - earlier - 1) as usize) {
            Some(record) => Some(record),
            None => None,
        }
    }

    /// How many recorded calls the caller has made, those before the start included.
    pub fn turns_of(&self, caller: u32) -> u64
        ensures { result ≡ all_turns self.now caller }
    {
        self.turns.get(&caller).copied().unwrap_or(0)
    }

    /// How many calls each caller has made, those before the start included, by rising caller.
    pub fn pages(&self) -> &BTreeMap<u32, u64>
        ensures { result.now.entries ≡ pages_after self.now.origin.pages self.now.log.records }
    {
        &self.turns
    }

    /// Adds a record at the end, and gives a share of it.
    pub fn push(&mut self, caller: u32, call: Call, reply: Reply) -> Result<Arc<Record>, AllocError>
        requires { length self.old.log.records < self.old.log.limit }
        ensures ok { OnOk result
            (self.new ≡ logged self.old caller (call_of call) (reply_of reply)) }
        ensures share { IfOk result
            (λ it. it.value ≡ record_after self.old caller (call_of call) (reply_of reply)) }
        ensures err { OnErr result (self.new ≡ self.old) }
    {
        let turns = self.turns_of(caller);
        let turn = turns + 1;
        let number = self.last_number() + 1;
        let record = Record {
            caller,
            turn,
            call,
            reply,
        };
        let last_event = if record.is_event() {
            number
        } else {
            self.last_event
        };
        let record = Arc::new(self.alloc, record)?;
        let share = record.clone()?;
        self.records.reserve(1)?;
        match self.turns.insert(caller, turn) {
            Ok(_) => {
                self.records.push_reserved(record);
                self.last_event = last_event;
                Ok(share)
            }
            Err(_) => Err(AllocError),
        }
    }

    /// Begins again from this state, with these limits, and gives the number of all calls so far, and their records: to drop a million of them takes a tenth
    /// of a second.
    pub fn restart(
        &mut self,
        limits: Limits,
        library: Library,
        commits: u64,
        pending: Vec<Key>,
        out: Vec<Key>,
    ) -> Result<(u64, Vec<Arc<Record>>), AllocError>
        requires { last_number self.old + limits.history < 2 ^ 64 }
        ensures before { IfOk result (λ made. made.0 ≡ last_number self.old) }
        ensures records { IfOk result
            (λ made. records_in made.1.items ≡ self.old.log.records) }
        ensures ok { OnOk result
            (self.new ≡ restarted limits library commits pending.items out.items self.old) }
        ensures err { OnErr result (self.new ≡ self.old) }
    {
        let before = self.last_number();
        let most_units = limits.units();
        let limit = limits.history();
        let calls = self.turns.clone()?;
        let last_event = self.last_event;
        self.start = Start {
            most_units,
            library,
            commits,
            pending,
            out,
            before,
            calls,
            last_event,
        };
        self.limit = limit;
        let none = Vec::new(self.alloc);
        let records = mem::replace(&mut self.records, none);
        Ok((before, records))
    }
}
