//! What a history begins from.
ghost use Rattle.std.specs.{Prelude.{◌≡◌}, List.{list_any}};
ghost use Rattle.fb_jobs.specs.KeyOrder.{same_key};

use fb_jobs::Key;
use fb_jobs::library::Library;
use std::alloc::Global;
use std::collections::BTreeMap;
use std::marker::Model;

/// What a history begins from: a state, how many calls of each caller came before, and the number of the last one of them that is an event for those
/// who watch. It holds the texts that it began with until it is replaced, those that were changed since too.
pub struct Start {
    pub(crate) most_units: u64,
    pub(crate) library: Library,
    pub(crate) commits: u64,
    pub(crate) pending: Vec<Key>,
    pub(crate) out: Vec<Key>,
    pub(crate) before: u64,
    pub(crate) calls: BTreeMap<u32, u64>,
    pub(crate) last_event: u64,
}

impl Drop for Start {
    fn drop(self) {
        let Self {
            most_units: _,
            library: _,
            commits: _,
            pending: _,
            out: _,
            before: _,
            calls: _,
            last_event: _,
        } = self;
    }
}

impl Model for Start {
    ghost use Rattle.fb_history.specs.BenchView.{Origin};

    ghost Value = { Origin };

    ghost view = { λ it. record { most_units = it.most_units; units = it.library; commits = it.commits; pending = it.pending.items; out = it.out.items; before = it.before; pages = it.calls.entries; last_event = it.last_event } };
}

impl Start {
    ghost use Rattle.std.specs.Prelude.{◌≡◌};
    ghost use Rattle.fb_history.specs.BenchView.{empty_origin, on_page, opened};

    /// No texts, and no calls before.
    pub(crate) fn empty(alloc: Global, most_units: u64) -> Start
        ensures { result ≡ empty_origin most_units }
    {
        Start {
            most_units,
            library: Library::new(alloc),
            commits: 0,
            pending: Vec::new(alloc),
            out: Vec::new(alloc),
            before: 0,
            calls: BTreeMap::new(alloc),
            last_event: 0,
        }
    }

    /// The texts.
    pub fn library(&self) -> &Library
        ensures { result.now ≡ self.now.units }
    {
        &self.library
    }

    /// How many commits were good. No revision is higher.
    pub fn commits(&self) -> u64
        ensures { result ≡ self.now.commits }
    {
        self.commits
    }

    /// Whether the key was pending. It looks at the pending keys one after another.
    pub fn is_pending(&self, key: &Key) -> bool
        ensures { result ≡ (opened self.now).pending key.now }
    {
        is_among(&self.pending, key)
    }

    /// Whether the key was handed out. It looks at those that were, one after another.
    pub fn is_out(&self, key: &Key) -> bool
        ensures { result ≡ (opened self.now).out key.now }
    {
        is_among(&self.out, key)
    }

    /// The number of the last call before it that is an event for those who watch, or 0.
    pub fn last_event(&self) -> u64
        ensures { result ≡ self.now.last_event }
    {
        self.last_event
    }

    /// How many calls the caller had made.
    pub fn turns(&self, caller: u32) -> u64
        ensures { result ≡ on_page self.now.pages caller }
    {
        self.calls.get(&caller).copied().unwrap_or(0)
    }
}

fn is_among(keys: &[Key], key: &Key) -> bool
    ensures { result ≡ list_any (same_key key.now) keys.now }
{
    keys.iter().any(|other| *key == *other)
}
