//! What a job knows beside its reads: the nets of its hints, the net of its own unit, and which units have no faults.
ghost use Rattle.std.specs.{Prelude.{◌≡◌, ◌⊎◌, ℕ, List, true, false, [], ◌∷◌, ◌++◌, None, Some, option_map, option_copied, get_or, IfOk, OnOk}, List.{AllZip}};
ghost use Rattle.std.specs.{declared.alloc.Global.{Global}, declared.sync.Arc.{Arc}};
ghost use Rattle.std.specs.BTreeMap as tree;
ghost use Rattle.std.specs.BTreeSet as set;
ghost use Rattle.fb_text.specs.Order.{name_cmp};
ghost use Rattle.fb_deploy.specs.{Flatten.Net.{plain_net}, Library.Texts.{Texts}};
ghost use Rattle.fb_jobs.specs.{Cache.{AreKept}, Keys.{has_key}, declared.values.value.Value.{Value}};
ghost use Rattle.fb_jobs.specs.Cached.{AddsNet, AreBlocking, AreJudged, AreNetsOf, IsBlockedBy, IsFlag, IsCached, IsOwnNet, faults_key, hint_in, is_flagged, judged, net_in, some_faults};
ghost use Rattle.fb_jobs.specs.{Reads.{Seen, reads_for}, Values.{all_seen, seen_of}};

use crate::kept::cache::Cache;
use crate::kept::hints::{Hint, hints_among, net_key};
use crate::keys::key::Key;
use crate::keys::read::Read;
use crate::values::value::Value;
use fb_deploy::flatten::{Hints, KnownFaultless, Net};
use fb_text::Name;
use std::alloc::{AllocError, Global};
use std::collections::{BTreeMap, BTreeSet};
use std::sync::Arc;

/// What a job knows beside its reads: nets of other subapplications, its unit's own net, and units that are present and without faults.
#[derive(Drop)]
pub(crate) struct Cached {
    pub(crate) hints: Vec<Hint>,
    pub(crate) own: Option<Arc<Value>>,
    /// Of each read, by its place, whether its unit is known to be present and without faults. Past the end of the list nothing is known.
    pub(crate) faultless: Vec<bool>,
}

impl Cached {
    /// Only hints.
    pub(crate) fn of_hints(alloc: Global, hints: Vec<Hint>) -> Cached
        ensures hints { result.hints ≡ hints }
        ensures own { result.own ≡ None }
        ensures faultless { result.faultless.items ≡ [] }
    {
        Cached {
            hints,
            own: None,
            faultless: Vec::new(alloc),
        }
    }

    /// What is kept of what was read for the key. For the faults of a unit that is nothing. A new key has had no value.
    pub(crate) fn of_kept<K: Cache>(
        alloc: Global,
        kept: &K,
        key: &Key,
        reads: &[Read],
        is_new: bool,
    ) -> Result<Cached, AllocError>
        ensures { IfOk result (λ it. (texts : Texts) → AreKept texts (K.kept kept.now)
            → AreKept texts (K.found kept.now) → has_key texts key.now ≡ true
            → all_seen reads.now ≡ reads_for texts key.now
            → IsCached (all_seen reads.now) key.now it) }
    {
        if !key.kind.needs_all() {
            return Ok(Cached::of_hints(alloc, Vec::new(alloc)));
        }
        let own = own_net(kept, key)?;
        let Judged {
            faultless,
            faulty,
            is_all,
        } = judged_unless(alloc, kept, reads, own.is_some() && is_new)?;
        Ok(Cached {
            hints: hints_among(alloc, kept, &key.unit, reads)?,
            own: own_or_blocked(alloc, own, is_all, faulty)?,
            faultless,
        })
    }
}

/// Nets by the names of their units, and the units that are present and without faults.
#[derive(Clone, Copy)]
pub(crate) struct CachedNets<'a> {
    pub(crate) nets: &'a BTreeMap<Name, Arc<Value>>,
    pub(crate) faultless: &'a BTreeSet<Name>,
}

impl Hints for CachedNets<'_> {
    ghost hints = { λ it name. hint_in (tree.get name_cmp it.nets.now name) };

    fn net_of(&self, name: &Name) -> Option<&Net> {
        match self.nets.get(name) {
            Some(value) => net_in(value),
            None => None,
        }
    }
}

impl KnownFaultless for CachedNets<'_> {
    ghost faultless = { λ it name. set.contains name_cmp it.faultless.now name };

    fn is_faultless(&self, name: &Name) -> bool {
        self.faultless.contains(name)
    }
}

/// The net that a value is.
fn net_in(value: &Value) -> Option<&Net>
    ensures { option_map plain_net (option_copied result) ≡ net_in value.now }
{
    match value {
        Value::Net(net) => Some(net),
        Value::Faults(_) | Value::Deploy(_) => None,
    }
}

/// The net that an own value is, if there is one.
pub(crate) fn own_net_in(own: &Option<Arc<Value>>) -> Option<&Net>
    ensures { option_map plain_net (option_copied result) ≡ hint_in own.now }
{
    match own {
        Some(value) => net_in(value),
        None => None,
    }
}

fn add_net(nets: &mut BTreeMap<Name, Arc<Value>>, hint: &Hint) -> Result<(), AllocError>
    ensures { OnOk result (AddsNet hint.now nets.old nets.new) }
{
    nets.insert(hint.unit, hint.value.clone()?)?;
    Ok(())
}

/// The nets of hints by the names of their units.
pub(crate) fn nets_of(
    alloc: Global,
    hints: &[Hint],
) -> Result<BTreeMap<Name, Arc<Value>>, AllocError>
    ensures { IfOk result (λ nets. AreNetsOf hints.now nets) }
{
    let mut nets = BTreeMap::new(alloc);
    for hint in hints {
        add_net(&mut nets, hint)?;
    }
    Ok(nets)
}

/// The net of a key's own unit, if it is kept or was computed by a job for another key.
pub(crate) fn own_net<K: Cache>(kept: &K, key: &Key) -> Result<Option<Arc<Value>>, AllocError>
    ensures { IfOk result (IsOwnNet (K.kept kept.now) (K.found kept.now) key.now.unit) }
{
    let wanted = net_key(key.unit);
    if let Some(value) = kept.value(&wanted) {
        return Ok(Some(value.clone()?));
    }
    match kept.found(&wanted) {
        Some(value) => Ok(Some(value.clone()?)),
        None => Ok(None),
    }
}

/// Whether a unit that was read and is present has faults, if that is kept.
fn has_faults<K: Cache>(kept: &K, read: &Read) -> Option<bool>
    ensures { result ≡ judged (K.kept kept.now) (seen_of read.now) }
{
    if read.source.is_none() {
        return None;
    }
    kept.has_faults(&read.name.name())
}

/// Which of the units that were read are known to have faults, and which are known to have none.
#[derive(Drop)]
struct Judged {
    /// Of each read, by its place, whether its unit is known to be present and without faults.
    faultless: Vec<bool>,
    /// The names of those that are known to have faults.
    faulty: Vec<Name>,
    /// Whether it is known of each unit whether it has faults.
    is_all: bool,
}

/// Adds what is known of one more read.
fn judge<K: Cache>(kept: &K, found: &mut Judged, read: &Read) -> Result<(), AllocError>
    ensures { OnOk result ((reads : List Seen) → AreJudged (K.kept kept.now) reads found.old
        → AreJudged (K.kept kept.now) (reads ++ seen_of read.now ∷ []) found.new) }
{
    match has_faults(kept, read) {
        Some(true) => {
            found.faulty.push(read.name.name())?;
            Ok(found.faultless.push(false)?)
        }
        Some(false) => Ok(found.faultless.push(true)?),
        None => {
            found.is_all = false;
            Ok(found.faultless.push(false)?)
        }
    }
}

/// What is known of the faults of what was read: of each unit by one search of what is kept.
fn judged_reads<K: Cache>(alloc: Global, kept: &K, reads: &[Read]) -> Result<Judged, AllocError>
    ensures { IfOk result (AreJudged (K.kept kept.now) (all_seen reads.now)) }
{
    let mut found = Judged {
        faultless: Vec::with_capacity(alloc, reads.len())?,
        faulty: Vec::new(alloc),
        is_all: true,
    };
    for read in reads {
        judge(kept, &mut found, read)?;
    }
    Ok(found)
}

/// The same; nothing for a new key whose own net is known: it needs none of this.
fn judged_unless<K: Cache>(
    alloc: Global,
    kept: &K,
    reads: &[Read],
    is_useless: bool,
) -> Result<Judged, AllocError>
    ensures flags { IfOk result (λ it. (it.faultless.items ≡ [])
        ⊎ AllZip (IsFlag (K.kept kept.now)) (all_seen reads.now) it.faultless.items) }
    ensures faulty { IfOk result (λ it. it.is_all ≡ true
        → AreBlocking (K.kept kept.now) (all_seen reads.now) it.faulty.items) }
{
    if is_useless {
        return Ok(Judged {
            faultless: Vec::new(alloc),
            faulty: Vec::new(alloc),
            is_all: false,
        });
    }
    judged_reads(alloc, kept, reads)
}

/// The net of the own unit if it is known, or else if it is known to be blocked: of all units that it rests on it is known whether they have faults, and
/// some have.
fn own_or_blocked(
    alloc: Global,
    own: Option<Arc<Value>>,
    is_all: bool,
    faulty: Vec<Name>,
) -> Result<Option<Arc<Value>>, AllocError>
    ensures { IfOk result (λ known. (value : Arc Value Global) → known ≡ Some value
        → (own ≡ Some value) ⊎ IsBlockedBy is_all faulty.items value.value) }
{
    if own.is_some() || !is_all || faulty.is_empty() {
        return Ok(own);
    }
    Ok(Some(Arc::new(alloc, Value::Net(Net::Blocked(faulty)))?))
}

/// The list, or nothing of it.
pub(crate) fn unless<T>(is_useless: bool, list: &[T]) -> &[T]
    ensures { (result.now ≡ list.now) ⊎ (result.now ≡ []) }
{
    if is_useless { &list[..0] } else { list }
}

/// Whether the read at a place is flagged.
pub(crate) fn flag_at(flags: &[bool], place: usize) -> bool
    ensures { result ≡ get_or flags.now place false }
{
    match flags.get(place) {
        Some(flag) => *flag,
        None => false,
    }
}

/// The names of the reads that are flagged.
pub(crate) fn flagged_names(
    alloc: Global,
    reads: &[Read],
    flags: &[bool],
) -> Result<BTreeSet<Name>, AllocError>
    ensures { IfOk result (λ names. (name : List ℕ) → set.contains name_cmp names name ≡ true
        → is_flagged (all_seen reads.now) flags.now name ≡ true) }
{
    let mut names = BTreeSet::new(alloc);
    for place in 0..reads.len() {
        if flag_at(flags, place) {
            names.insert(reads[place].name.name())?;
        }
    }
    Ok(names)
}
