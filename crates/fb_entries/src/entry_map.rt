//! The entries by their keys, and how many of them are pending.
ghost use Rattle.std.specs.Prelude.{◌≡◌, [], if◌then◌else◌, count_by, OnOk, OnErr};
ghost use Rattle.std.specs.{Option.{option_copied}, Map.{values_of}};
ghost use Rattle.fb_entries.specs.{Keyed.{entry_in}, Marking.{is_unkept, unless_kept, value_in, with_found, with_out, with_value, ChangesEntry, LosesEntry, PutsEntry, RenewsEntry}};

use crate::entry::Entry;
use fb_jobs::{Derivation, Key, Value};
use std::alloc::{AllocError, Global};
use std::collections::BTreeMap;
use std::marker::Model;
use std::sync::Arc;

/// The entries by their keys, with a count of those that are pending. Each write brings the count up to date.
pub(crate) struct EntryMap {
    entries: BTreeMap<Key, Entry>,
    pending: usize,
}

impl Drop for EntryMap {
    fn drop(self) {
        let Self {
            entries: _,
            pending: _,
        } = self;
    }
}

impl Model for EntryMap {
    ghost use Rattle.std.specs.{Prelude.{◌≡◌, List, count_by}, Map.{values_of}};
    ghost use Rattle.fb_jobs.specs.declared.keys.key.Key.{Key};
    ghost use Rattle.fb_entries.specs.{declared.entry.Entry.{Entry}, Marking.{is_unkept}};

    ghost Value = { List (Key × Entry) };

    ghost view = { λ it. it.entries.entries };

    ghost invariant = { λ it. it.pending ≡ count_by is_unkept (values_of it.entries.entries) };
}

/// 1 for a pending entry, and 0 for another.
fn one_if_pending(entry: &Entry) -> usize
    ensures { result ≡ (if is_unkept entry.now then 1 else 0) }
{
    match entry.value() {
        None => 1,
        Some(_) => 0,
    }
}

/// What was found for an entry: nothing, if it has a value.
fn unless_kept(entry: &Entry, found: Arc<Value>) -> Option<Arc<Value>>
    ensures { result ≡ unless_kept (value_in entry.now) found }
{
    match entry.value() {
        Some(_) => None,
        None => Some(found),
    }
}

impl EntryMap {
    /// No entries.
    pub fn new(alloc: Global) -> EntryMap
        ensures { result ≡ [] }
    {
        EntryMap {
            entries: BTreeMap::new(alloc),
            pending: 0,
        }
    }

    /// The entries by their keys.
    pub fn entries(&self) -> &BTreeMap<Key, Entry>
        ensures { result.now.entries ≡ self.now }
    {
        &self.entries
    }

    /// What is kept of a key.
    pub fn get(&self, key: &Key) -> Option<&Entry>
        ensures { option_copied result ≡ entry_in self.now key.now }
    {
        self.entries.get(key)
    }

    /// How many entries are pending.
    pub fn pending_count(&self) -> usize
        ensures { result ≡ count_by is_unkept (values_of self.now) }
    {
        self.pending
    }

    /// Gives a key this entry, or leaves all unchanged.
    pub fn insert(&mut self, key: Key, entry: Entry) -> Result<(), AllocError>
        ensures ok { OnOk result (PutsEntry key entry (entry_in self.old) (entry_in self.new)) }
        ensures err { OnErr result (self.new ≡ self.old) }
    {
        let now = one_if_pending(&entry);
        let Ok(old) = self.entries.insert(key, entry) else {
            return Err(AllocError);
        };
        // For the proof: so many entries can be counted.
        let _len = self.entries.len();
        self.pending += now;
        if let Some(was) = old {
            self.pending -= one_if_pending(&was);
        }
        Ok(())
    }

    /// Takes the entry of a key out.
    pub fn remove(&mut self, key: &Key)
        ensures { LosesEntry key.now (entry_in self.old) (entry_in self.new) }
    {
        if let Some(entry) = self.entries.remove(key) {
            self.pending -= one_if_pending(&entry);
        }
    }

    /// Marks a key that has an entry as handed out or not.
    pub fn mark_out(&mut self, key: &Key, out: bool)
        ensures { ChangesEntry key.now (with_out out) (entry_in self.old) (entry_in self.new) }
    {
        let Some(entry) = self.entries.get_mut(key) else {
            return;
        };
        entry.out = out;
    }

    /// Gives a key that has an entry its value, with what gave it; the key is not handed out then.
    pub fn keep(&mut self, key: &Key, derivation: Derivation)
        ensures { ChangesEntry key.now (with_value derivation) (entry_in self.old) (entry_in self.new) }
    {
        let Some(entry) = self.entries.get_mut(key) else {
            return;
        };
        let was = one_if_pending(entry);
        entry.is_pending = false;
        entry.out = false;
        entry.found = None;
        entry.last = Some(derivation);
        self.pending -= was;
    }

    /// Keeps for a pending key that has an entry the value that a job for another key computed on its way. The key stays pending.
    pub fn store_precomputed(&mut self, key: &Key, found: Arc<Value>)
        ensures { ChangesEntry key.now (with_found found) (entry_in self.old) (entry_in self.new) }
    {
        let Some(entry) = self.entries.get_mut(key) else {
            return;
        };
        entry.found = unless_kept(entry, found);
    }

    /// Lets a key that has an entry wait for a result; the key is not handed out then, and what was found for it is dropped.
    pub fn renew(&mut self, key: &Key)
        ensures { RenewsEntry key.now (entry_in self.old) (entry_in self.new) }
    {
        // For the proof: so many entries can be counted.
        let _len = self.entries.len();
        let Some(entry) = self.entries.get_mut(key) else {
            return;
        };
        let was = one_if_pending(entry);
        entry.is_pending = true;
        let _ = entry.found.take();
        entry.out = false;
        self.pending = self.pending + 1 - was;
    }
}
