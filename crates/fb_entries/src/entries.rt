//! What a workbench knows of its keys.
//! Beside the entries there is only the set of keys that can be taken: `key_at` walks, since it is called rarely, and each further list would cost every
//! commit.
ghost use Rattle.std.specs.{Prelude.{◌≡◌, [], None, true, false, IfOk, OnOk, OnErr, count_by, length, slice_get}, Option.{option_copied}};
ghost use Rattle.std.specs.{List.Sorted.{IsStrictlySortedBy}, Map.{keys_of, values_of}};
ghost use Rattle.fb_jobs.specs.{KeyOrder.{key_cmp}, Reach.{AgreeApartFrom, first_repeated}};
ghost use Rattle.fb_entries.specs.Indexed.{IsIndexOf};
ghost use Rattle.fb_entries.specs.Marking.{is_handed_out, is_unkept, keys_with, with_found, with_out, with_value, ChangesEntry, LosesEntries, LosesKeys, MarksKey, SameKeys};
ghost use Rattle.fb_entries.specs.{Found.{units_of}, Keyed.{can_take, entry_at, IsFirstReady}, Renew.{HasRoom, IsCarriedOut, IsRenewal, IsTakenBack}};

use crate::entry::{Entry, join, leave};
use crate::entry_map::EntryMap;
use crate::keys::{parted, present_keys};
use crate::reach::reindexed;
use crate::renewal::{
    Renewal, changed_units, join_all, leave_all, not_in, put_blank, renew_all, take_out,
    without_entry,
};
use fb_index::Index;
use fb_index::library::{Change, Library};
use fb_jobs::{Cache, Derivation, Key, Kind, Value, keys_by_name};
use fb_text::Name;
use std::alloc::{AllocError, Global};
use std::collections::{BTreeMap, BTreeSet};
use std::marker::Model;
use std::sync::Arc;

/// The keys of a library, what is kept of each, and which of them can be taken.
pub struct Entries {
    by_key: EntryMap,
    /// The keys that are pending and not handed out.
    ready: BTreeSet<Key>,
}

impl Drop for Entries {
    fn drop(self) {
        let Self {
            by_key: _,
            ready: _,
        } = self;
    }
}

/// The keys that are pending and those that are handed out, by rising key.
#[derive(Drop)]
pub struct Marks {
    pub pending: Vec<Key>,
    pub out: Vec<Key>,
}

/// What a good commit leaves, found before anything is written.
#[derive(Drop)]
pub struct CommitEffects {
    /// The index of the texts after the commit.
    pub index: Index,
    pub renewal: Renewal,
}

impl Model for Entries {
    ghost use Rattle.fb_entries.specs.Keyed.{Keyed};

    ghost Value = { Keyed };

    ghost view = { λ it. record { entries = it.by_key; ready = it.ready.keys } };
}

impl Entries {
    /// No keys.
    pub fn new(alloc: Global) -> Entries
        ensures entries { result.entries ≡ [] }
        ensures ready { result.ready ≡ [] }
    {
        Entries {
            by_key: EntryMap::new(alloc),
            ready: BTreeSet::new(alloc),
        }
    }

    /// How many keys there are.
    pub fn len(&self) -> usize
        ensures len { result ≡ length self.now.entries }
        ensures ordered { IsStrictlySortedBy key_cmp (keys_of self.now.entries) }
    {
        self.by_key.entries().len()
    }

    /// What is kept of a key.
    pub fn get(&self, key: &Key) -> Option<&Entry>
        ensures { option_copied result ≡ entry_at self.now key.now }
    {
        self.by_key.get(key)
    }

    /// The least key that can be taken.
    pub fn first_ready(&self) -> Option<Key>
        ensures { IsFirstReady self.now result }
    {
        match self.ready.first() {
            Some(key) => Some(*key),
            None => None,
        }
    }

    /// The key at a place, counted from 0. It passes over those before it.
    pub fn key_at(&self, place: usize) -> Option<Key>
        ensures key { result ≡ slice_get (keys_of self.now.entries) place }
        ensures ordered { IsStrictlySortedBy key_cmp (keys_of self.now.entries) }
    {
        self.by_key.entries().keys().nth(place).copied()
    }

    /// How many keys are pending.
    pub fn pending_count(&self) -> usize
        ensures count { result ≡ count_by is_unkept (values_of self.now.entries) }
        ensures ordered { IsStrictlySortedBy key_cmp (keys_of self.now.entries) }
    {
        // For the proof: the keys are in order.
        let _len = self.by_key.entries().len();
        self.by_key.pending_count()
    }

    /// Which keys are pending, and which are handed out. It looks at each entry.
    pub fn marks(&self, alloc: Global) -> Result<Marks, AllocError>
        ensures pending { IfOk result
            (λ marks. marks.pending.items ≡ keys_with is_unkept self.now.entries) }
        ensures out { IfOk result
            (λ marks. marks.out.items ≡ keys_with is_handed_out self.now.entries) }
        ensures ordered { IsStrictlySortedBy key_cmp (keys_of self.now.entries) }
    {
        let pending = pending_keys(alloc, self.by_key.entries())?;
        let out = keys_out(alloc, self.by_key.entries())?;
        Ok(Marks { pending, out })
    }

    /// What the changes between two libraries leave; `index` is that of the library before.
    pub fn found(
        &self,
        alloc: Global,
        index: &Index,
        before: &Library,
        after: &Library,
        changes: &[Change],
    ) -> Result<CommitEffects, AllocError>
        requires known { IsIndexOf before.now index.now }
        requires once { first_repeated (units_of changes.now) ≡ None }
        requires others { AgreeApartFrom (units_of changes.now) before.now after.now }
        ensures index { IfOk result (λ found. IsIndexOf after.now found.index) }
        ensures renewal { IfOk result
            (λ found. IsRenewal after.now (units_of changes.now) self.now found.renewal) }
    {
        let units = changed_units(alloc, changes)?;
        let index = reindexed(alloc, index, before, after, &units)?;
        let renewal = self.find(alloc, &index, after, &units)?;
        Ok(CommitEffects { index, renewal })
    }

    /// What changes of these units alter; `library` is the library after them, and `index` is that of its texts. They reach the keys of the units that
    /// rest on one of them for the kinds that need all that a unit rests on, and those of the units that one of them is near for the others.
    fn find(
        &self,
        alloc: Global,
        index: &Index,
        library: &Library,
        units: &[Name],
    ) -> Result<Renewal, AllocError>
        requires indexed { IsIndexOf library.now index.now }
        ensures { IfOk result (IsRenewal library.now units.now self.now) }
    {
        let own = keys_by_name(alloc, units)?;
        let (present, gone) = parted(alloc, library, &own)?;
        let fresh = without_entry(alloc, self.by_key.entries(), &present)?;
        let near = index.near_of(alloc, units)?;
        let far = index.far_of(alloc, units)?;
        let renewed = present_keys(alloc, library, &near, &far)?;
        let unready = not_in(alloc, &self.ready, &renewed)?;
        Ok(Renewal {
            fresh,
            gone,
            renewed,
            unready,
        })
    }

    /// Makes room for new entries and marks, or leaves all unchanged.
    pub fn make_room(&mut self, alloc: Global, renewal: &Renewal) -> Result<(), AllocError>
        ensures ok { OnOk result (HasRoom renewal.now self.old self.new) }
        ensures err { OnErr result (IsTakenBack renewal.now self.old self.new) }
    {
        let is_made = put_blank(alloc, &mut self.by_key, &renewal.fresh).is_ok();
        if is_made && join_all(&mut self.ready, &renewal.unready).is_ok() {
            return Ok(());
        }
        self.take_back(renewal);
        Err(AllocError)
    }

    /// Takes the room back that was made.
    pub fn take_back(&mut self, renewal: &Renewal)
        ensures entries { LosesEntries renewal.now.fresh.items (entry_at self.old) (entry_at self.new) }
        ensures ready { LosesKeys renewal.now.unready.items (can_take self.old) (can_take self.new) }
    {
        take_out(&mut self.by_key, &renewal.fresh);
        leave_all(&mut self.ready, &renewal.unready);
    }

    /// Writes what was found, and gives the index back. Nothing here can fail.
    pub fn carry_out(&mut self, found: CommitEffects) -> Index
        ensures entries { IsCarriedOut found.renewal self.old self.new }
        ensures index { result ≡ found.index }
    {
        let CommitEffects { index, renewal } = found;
        take_out(&mut self.by_key, &renewal.gone);
        leave_all(&mut self.ready, &renewal.gone);
        renew_all(&mut self.by_key, &renewal.renewed);
        index
    }

    /// Hands a key out: it can no longer be taken.
    pub fn hand_out(&mut self, key: &Key)
        ensures entries { ChangesEntry key.now (with_out true) (entry_at self.old) (entry_at self.new) }
        ensures ready { MarksKey key.now false (can_take self.old) (can_take self.new) }
    {
        self.by_key.mark_out(key, true);
        leave(&mut self.ready, key);
    }

    /// Clears the mark that a key is handed out.
    pub fn bring_back(&mut self, key: &Key)
        ensures entries { ChangesEntry key.now (with_out false) (entry_at self.old) (entry_at self.new) }
        ensures ready { self.new.ready ≡ self.old.ready }
    {
        self.by_key.mark_out(key, false);
    }

    /// Lets a key be taken, or leaves all unchanged.
    pub fn make_ready(&mut self, key: &Key) -> Result<(), AllocError>
        ensures entries { self.new.entries ≡ self.old.entries }
        ensures ok { OnOk result (MarksKey key.now true (can_take self.old) (can_take self.new)) }
        ensures err { OnErr result (SameKeys (can_take self.old) (can_take self.new)) }
    {
        join(&mut self.ready, key)
    }

    /// Lets a key no longer be taken.
    pub fn unmake_ready(&mut self, key: &Key)
        ensures entries { self.new.entries ≡ self.old.entries }
        ensures ready { MarksKey key.now false (can_take self.old) (can_take self.new) }
    {
        leave(&mut self.ready, key);
    }

    /// Gives a key its value, with what gave it; it is not handed out then, and can't be taken.
    pub fn keep(&mut self, key: &Key, derivation: Derivation)
        ensures entries { ChangesEntry key.now (with_value derivation) (entry_at self.old) (entry_at self.new) }
        ensures ready { MarksKey key.now false (can_take self.old) (can_take self.new) }
    {
        self.by_key.keep(key, derivation);
        leave(&mut self.ready, key);
    }

    /// Keeps for a pending key the value that a job for another key computed on its way. The key stays pending.
    pub fn store_precomputed(&mut self, key: &Key, found: Arc<Value>)
        ensures entries { ChangesEntry key.now (with_found found) (entry_at self.old) (entry_at self.new) }
        ensures ready { self.new.ready ≡ self.old.ready }
    {
        self.by_key.store_precomputed(key, found);
    }
}

/// The keys that are pending.
fn pending_keys(alloc: Global, entries: &BTreeMap<Key, Entry>) -> Result<Vec<Key>, AllocError>
    ensures keys { IfOk result
        (λ keys. keys.items ≡ keys_with is_unkept entries.now.entries) }
    ensures ordered { IsStrictlySortedBy key_cmp (keys_of entries.now.entries) }
{
    let mut keys = Vec::new(alloc);
    for (key, entry) in entries.iter() {
        if entry.value().is_none() {
            keys.push(*key)?;
        }
    }
    Ok(keys)
}

/// The keys that are handed out.
fn keys_out(alloc: Global, entries: &BTreeMap<Key, Entry>) -> Result<Vec<Key>, AllocError>
    ensures { IfOk result (λ keys. keys.items ≡ keys_with is_handed_out entries.now.entries) }
{
    let mut keys = Vec::new(alloc);
    for (key, entry) in entries.iter() {
        if entry.out {
            keys.push(*key)?;
        }
    }
    Ok(keys)
}

impl Cache for Entries {
    ghost use Rattle.fb_entries.specs.{Found.{found_in, kept_in}, Keyed.{entry_at}};

    ghost kept = { λ it key. kept_in (entry_at it key) };

    ghost found = { λ it key. found_in (entry_at it key) };

    fn value(&self, key: &Key) -> Option<&Arc<Value>> {
        Some(self.by_key.get(key)?.value()?.value())
    }

    fn has_faults(&self, unit: &Name) -> Option<bool> {
        let key = Key {
            kind: Kind::Faults,
            unit: *unit,
        };
        self.by_key.get(&key)?.value()?.has_faults()
    }

    fn found(&self, key: &Key) -> Option<&Arc<Value>> {
        self.by_key.get(key)?.found.as_ref()
    }

    fn previous(&self, key: &Key) -> Option<&Derivation> {
        self.by_key.get(key)?.last.as_ref()
    }
}
