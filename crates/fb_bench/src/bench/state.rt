//! What is asked of a workbench without a call: its history, its keys and its texts.
ghost use Rattle.std.specs.Prelude.{◌≡◌};

use crate::bench::Bench;
use fb_entries::index::Index;
use fb_entries::jobs::Key;
use fb_entries::library::Library;
use fb_history::{Record, Start};
use fb_text::Name;
use std::alloc::Global;
use std::collections::BTreeMap;
use std::sync::Arc;

impl Bench {
    ghost use Rattle.std.specs.Prelude.{◌≡◌, ◌+◌, ◌<◌, ◌^◌, ◌↔◌, IsTrue, length, slice_get, count_by};
    ghost use Rattle.std.specs.{Option.{option_map}, List.Sorted.{IsStrictlySortedBy}};
    ghost use Rattle.fb_entries.specs.{Jobs.KeyOrder.{key_cmp}, Indexed.{IsIndexOf}, Library.Texts.{held, revision_of}};
    ghost use Rattle.fb_history.specs.{Machine.{keys_of}, Events.{last_event_of}};
    ghost use Rattle.fb_history.specs.BenchView.{IsOrigin, IsFull, state_of, record_numbered, all_turns, last_number, pages_after, IsReplay, AreTurns};

    /// What the history begins from. The law of entries (`entries_follow_the_texts`) holds of it.
    pub fn start(&self) -> &Start
        ensures same { result.now ≡ self.now.origin }
        ensures begins { IsOrigin result.now }
    {
        self.history.start()
    }

    /// How many calls came before the start.
    pub fn before(&self) -> u64
        ensures { result ≡ self.now.origin.before }
    {
        self.history.before()
    }

    /// How many calls are recorded since the start. Each stored answer is the one that the machine gives there.
    pub fn len(&self) -> usize
        ensures len { result ≡ length self.now.log.records }
        ensures replayed { IsReplay self.now }
        ensures turns { AreTurns self.now }
    {
        self.history.len()
    }

    /// The number of the last call, those before the start included, or 0.
    pub fn last_number(&self) -> u64
        ensures last { result ≡ last_number self.now }
        ensures fits { self.now.origin.before + self.now.log.limit < 2 ^ 64 }
    {
        self.history.last_number()
    }

    /// Whether the history has the number of calls that the limits allow.
    pub fn is_full(&self) -> bool
        ensures { IsTrue result ↔ IsFull self.now.log }
    {
        self.history.is_full()
    }

    /// The record of this number, counted over all calls from 1: None for a call before the start, and past the end.
    pub fn record(&self, number: u64) -> Option<&Record>
        ensures { option_map (λ it. it.now) result ≡ record_numbered self.now number }
    {
        self.history.record(number)
    }

    /// The same, to be shared.
    pub(crate) fn shared_record(&self, number: u64) -> Option<&Arc<Record>>
        ensures { option_map (λ it. it.now.value) result ≡ record_numbered self.now number }
    {
        self.history.shared_record(number)
    }

    /// The number of the last call that is an event for those who watch, those before the start included, or 0.
    pub fn last_event(&self) -> u64
        ensures { result ≡ last_event_of self.now }
    {
        self.history.last_event()
    }

    /// How many recorded calls the caller has made, those before the start included.
    pub fn turns_of(&self, caller: u32) -> u64
        ensures { result ≡ all_turns self.now caller }
    {
        self.history.turns_of(caller)
    }

    /// How many recorded calls each caller has made, those before the start included, by rising caller.
    pub fn pages(&self) -> &BTreeMap<u32, u64>
        ensures { result.now.entries ≡ pages_after self.now.origin.pages self.now.log.records }
    {
        self.history.pages()
    }

    /// How many keys the last commit that was done has marked as pending, those that were pending already included; 0 before the first. No answer depends on
    /// it: a server keeps the pace of its sessions by it.
    pub fn reached(&self) -> u64 {
        self.reached
    }

    /// How many keys the present texts have.
    pub fn key_count(&self) -> usize
        ensures { result ≡ length (keys_of (state_of self.now).units) }
    {
        self.entries.len()
    }

    /// The key at a place, counted from 0, by kind and then by name. It passes over those before it.
    pub fn key_at(&self, place: usize) -> Option<Key>
        ensures key { result ≡ slice_get (keys_of (state_of self.now).units) place }
        ensures ordered { IsStrictlySortedBy key_cmp (keys_of (state_of self.now).units) }
    {
        self.entries.key_at(place)
    }

    /// How many keys are pending.
    pub fn pending_count(&self) -> usize
        ensures { result ≡ count_by (state_of self.now).pending
            (keys_of (state_of self.now).units) }
    {
        self.entries.pending_count()
    }

    pub(crate) fn alloc(&self) -> Global {
        self.alloc
    }

    /// How many commits were good.
    pub(crate) fn commits(&self) -> u64
        ensures { result ≡ (state_of self.now).commits }
    {
        self.commits
    }

    /// The present texts.
    pub(crate) fn library(&self) -> &Library
        ensures { result.now ≡ (state_of self.now).units }
    {
        &self.library
    }

    /// The revision of a unit, or 0 if it is absent.
    pub fn revision(&self, unit: &Name) -> u64
        ensures { result ≡ revision_of (held (state_of self.now).units unit.now) }
    {
        self.library.revision(unit)
    }

    /// What the units of the present texts mention, by which a commit finds what it reaches.
    pub fn index(&self) -> &Index
        ensures { IsIndexOf (state_of self.now).units result.now }
    {
        &self.index
    }
}
