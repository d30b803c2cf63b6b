//! What a commit does to the entries: found and made room for first, and then only written.
ghost use Rattle.std.specs.Prelude.{◌≡◌, not, is_none, map, filter, IfOk, OnOk};
ghost use Rattle.std.specs.BTreeMap as tree;
ghost use Rattle.std.specs.BTreeSet as set;
ghost use Rattle.fb_index.specs.{Library.Texts.{unit_of}, Library.Changes.{edits_of}};
ghost use Rattle.fb_jobs.specs.KeyOrder.{key_cmp};
ghost use Rattle.fb_entries.specs.Keyed.{entry_in};
ghost use Rattle.fb_entries.specs.Marking.{KeepsOtherEntries, HasEntries, LosesEntries, RenewsEntries, KeepsOtherKeys, HasKeys, LosesKeys};

use crate::entry::{Entry, join, leave};
use crate::entry_map::EntryMap;
use fb_index::library::Change;
use fb_jobs::Key;
use fb_text::Name;
use std::alloc::{AllocError, Global};
use std::collections::{BTreeMap, BTreeSet};
use std::sync::Arc;

/// The keys that a commit makes, reaches and ends. Nothing is changed by finding them.
pub struct Renewal {
    /// New keys, which have no entry yet.
    pub fresh: Vec<Key>,
    /// Keys of changed units that the new texts don't have.
    pub gone: Vec<Key>,
    /// New and reached keys, which will wait for a result.
    pub renewed: Vec<Key>,
    /// Those of them that will join the set of the keys that can be taken.
    pub unready: Vec<Key>,
}

impl Drop for Renewal {
    fn drop(self) {
        let Self {
            fresh: _,
            gone: _,
            renewed: _,
            unready: _,
        } = self;
    }
}

/// The units of the changes.
pub(crate) fn changed_units(alloc: Global, changes: &[Change]) -> Result<Vec<Name>, AllocError>
    ensures { IfOk result (λ names. names.items ≡ map unit_of (edits_of changes.now)) }
{
    let mut names = Vec::new(alloc);
    for change in changes {
        names.push(change.unit())?;
    }
    Ok(names)
}

/// The keys of these that have no entry.
pub(crate) fn without_entry(
    alloc: Global,
    entries: &BTreeMap<Key, Entry>,
    keys: &[Key],
) -> Result<Vec<Key>, AllocError>
    ensures { IfOk result
        (λ fresh. fresh.items
        ≡ filter (λ key. is_none (tree.get key_cmp entries.now key)) keys.now) }
{
    let mut fresh = Vec::new(alloc);
    for key in keys {
        if !entries.contains_key(key) {
            fresh.push(*key)?;
        }
    }
    Ok(fresh)
}

/// The keys of these that are not in the set.
pub(crate) fn not_in(
    alloc: Global,
    keys: &BTreeSet<Key>,
    all: &[Key],
) -> Result<Vec<Key>, AllocError>
    ensures { IfOk result
        (λ others. others.items ≡ filter (λ key. not (set.contains key_cmp keys.now key)) all.now) }
{
    let mut others = Vec::new(alloc);
    for key in all {
        if !keys.contains(key) {
            others.push(*key)?;
        }
    }
    Ok(others)
}

/// Makes an entry that waits for a result for each of these keys.
pub(crate) fn put_blank(
    alloc: Global,
    entries: &mut EntryMap,
    keys: &[Key],
) -> Result<(), AllocError>
    ensures others { KeepsOtherEntries keys.now (entry_in entries.old) (entry_in entries.new) }
    ensures there { OnOk result (HasEntries keys.now (entry_in entries.new)) }
{
    for key in keys {
        let shared = Arc::new(alloc, *key)?;
        entries.insert(*key, Entry::blank(shared))?;
    }
    Ok(())
}

/// Takes the entries of these keys out.
pub(crate) fn take_out(entries: &mut EntryMap, keys: &[Key])
    ensures { LosesEntries keys.now (entry_in entries.old) (entry_in entries.new) }
{
    for key in keys {
        entries.remove(key);
    }
}

pub(crate) fn join_all(members: &mut BTreeSet<Key>, keys: &[Key]) -> Result<(), AllocError>
    ensures others { KeepsOtherKeys keys.now (set.contains key_cmp members.old) (set.contains key_cmp members.new) }
    ensures there { OnOk result (HasKeys keys.now (set.contains key_cmp members.new)) }
{
    for key in keys {
        join(members, key)?;
    }
    Ok(())
}

pub(crate) fn leave_all(members: &mut BTreeSet<Key>, keys: &[Key])
    ensures { LosesKeys keys.now (set.contains key_cmp members.old) (set.contains key_cmp members.new) }
{
    for key in keys {
        leave(members, key);
    }
}

/// Lets all of these keys wait for a result.
pub(crate) fn renew_all(entries: &mut EntryMap, keys: &[Key])
    ensures { RenewsEntries keys.now (entry_in entries.old) (entry_in entries.new) }
{
    for key in keys {
        entries.renew(key);
    }
}
