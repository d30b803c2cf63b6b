//! What is kept of a key.
//! That an entry has the key that it is found under is no invariant: `share_of` compares the two keys, which costs less.
ghost use Rattle.std.specs.{Prelude.{◌≡◌, true, false, IfOk, OnOk, OnErr}, Option.{option_map}};
ghost use Rattle.std.specs.BTreeSet as set;
ghost use Rattle.fb_jobs.specs.{KeyOrder.{key_cmp}, Finished.{value_of}};
ghost use Rattle.fb_entries.specs.Marking.{blank, value_in, MarksKey, SameKeys};

use fb_jobs::{Derivation, Key, Value};
use std::alloc::{AllocError, Global};
use std::collections::BTreeSet;
use std::sync::Arc;

/// What is kept of a key.
pub struct Entry {
    /// The key, to be shared with what is recorded of it.
    pub key: Arc<Key>,
    /// Whether it waits for a result.
    pub is_pending: bool,
    /// Whether it is handed out.
    pub out: bool,
    /// The value of a pending key, if a job for another key computed it on the way.
    pub found: Option<Arc<Value>>,
    /// Its value, with what gave it, or the one that it had before it was pending: a result that equals that shares it.
    pub last: Option<Derivation>,
}

impl Drop for Entry {
    fn drop(self) {
        let Self {
            key: _,
            is_pending: _,
            out: _,
            found: _,
            last: _,
        } = self;
    }
}

impl Entry {
    /// An entry that waits for a result.
    pub(crate) fn blank(key: Arc<Key>) -> Entry
        ensures { result ≡ blank key }
    {
        Entry {
            key,
            is_pending: true,
            out: false,
            found: None,
            last: None,
        }
    }

    /// Its value, with what gave it, unless it is pending.
    pub fn value(&self) -> Option<&Derivation>
        ensures { option_map (λ it. value_of it.now) result ≡ value_in self.now }
    {
        if self.is_pending {
            return None;
        }
        self.last.as_ref()
    }

    /// A share of the key: the entry's own if that is the same.
    pub fn share_of(&self, alloc: Global, key: Key) -> Result<Arc<Key>, AllocError>
        ensures { IfOk result (λ shared. shared.value ≡ key) }
    {
        if *self.key == key {
            let shared = self.key.clone()?;
            return Ok(shared);
        }
        Ok(Arc::new(alloc, key)?)
    }
}

/// Takes a key out of a set.
pub(crate) fn leave(keys: &mut BTreeSet<Key>, key: &Key)
    ensures { MarksKey key.now false (set.contains key_cmp keys.old) (set.contains key_cmp keys.new) }
{
    let _ = keys.remove(key);
}

/// Puts a key into a set.
pub(crate) fn join(keys: &mut BTreeSet<Key>, key: &Key) -> Result<(), AllocError>
    ensures ok { OnOk result (MarksKey key.now true (set.contains key_cmp keys.old) (set.contains key_cmp keys.new)) }
    ensures err { OnErr result (SameKeys (set.contains key_cmp keys.old) (set.contains key_cmp keys.new)) }
{
    match keys.insert(*key) {
        Ok(_) => Ok(()),
        Err(_) => Err(AllocError),
    }
}
