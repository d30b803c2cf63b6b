//! The result of a commit, and its record.
ghost use Rattle.std.specs.Prelude.{◌≡◌, ◌+◌, ◌<◌, length, map, take, IfOk, OnOk, OnErr};
ghost use Rattle.fb_entries.specs.{Library.Texts.{unit_of}, Library.Changes.{edit_of, edits_of}, Jobs.Reads.{is_among}, Indexed.{IsIndexOf}};
ghost use Rattle.fb_entries.specs.Renew.{HasRoom, IsTakenBack};
ghost use Rattle.fb_history.specs.{Machine.{most_changes, first_repeated, misfit, first_misfit, refusal}, BenchView.{logged, record_after}};
ghost use Rattle.fb_bench.specs.{Outcomes.{IsOutcome}, Records.{call_of, reply_of}};

use fb_entries::index::Index;
use fb_entries::library::{Change, Library};
use fb_entries::{CommitEffects, Entries, Renewal};
use fb_history::{Call, Committed, History, Record, Reply};
use fb_text::{Name, same_name};
use std::alloc::{AllocError, Global};
use std::sync::Arc;

/// The most changes of a commit.
const MOST_CHANGES: usize = 16;

/// The changes that are recorded: at most one more than a commit may have.
pub(crate) fn first_changes(changes: &[Change]) -> &[Change]
    ensures { result.now ≡ take (most_changes + 1) changes.now }
{
    if MOST_CHANGES < changes.len() {
        &changes[..MOST_CHANGES + 1]
    } else {
        changes
    }
}

/// Whether one of the changes is of the unit.
fn is_changed(changes: &[Change], unit: Name) -> bool
    ensures { result ≡ is_among unit (map unit_of (edits_of changes.now)) }
{
    for change in changes {
        if same_name(&unit, &change.unit()) {
            return true;
        }
    }
    false
}

/// The unit of the first change whose unit an earlier change has.
fn repeated(changes: &[Change]) -> Option<Name>
    ensures { result ≡ first_repeated (map unit_of (edits_of changes.now)) }
{
    for i in 0..changes.len() {
        let unit = changes[i].unit();
        if is_changed(&changes[..i], unit) {
            return Some(unit);
        }
    }
    None
}

/// What is wrong with a change on its own.
fn misfit(library: &Library, change: &Change) -> Option<Committed>
    ensures { result ≡ misfit library.now (edit_of change.now) }
{
    let unit = change.unit();
    let current = library.revision(&unit);
    let base = match change {
        Change::Put { base, source: _ } => *base,
        Change::Remove { unit: _, base } => *base,
    };
    if let Change::Remove { .. } = change {
        if library.source(&unit).is_none() {
            return Some(Committed::NoSuchUnit(unit));
        }
    }
    if base == current {
        None
    } else {
        Some(Committed::StaleBase { unit, current })
    }
}

fn first_misfit(library: &Library, changes: &[Change]) -> Option<Committed>
    ensures { result ≡ first_misfit library.now (edits_of changes.now) }
{
    for change in changes {
        let answer = misfit(library, change);
        if answer.is_some() {
            return answer;
        }
    }
    None
}

/// What is wrong with the changes one by one or together.
pub(crate) fn refusal(library: &Library, changes: &[Change]) -> Option<Committed>
    ensures { result ≡ refusal library.now (edits_of changes.now) }
{
    if changes.len() == 0 {
        return Some(Committed::NoChange);
    }
    if MOST_CHANGES < changes.len() {
        return Some(Committed::TooManyChanges);
    }
    match repeated(changes) {
        Some(unit) => Some(Committed::SameUnitTwice(unit)),
        None => first_misfit(library, changes),
    }
}

/// The result of a commit, found before anything is written.
#[derive(Drop)]
pub(crate) enum Outcome {
    Refused(Committed),
    /// The texts after the commit, and what else it changes.
    Done {
        library: Library,
        found: CommitEffects,
    },
}

/// What a commit is checked by: the present texts, what their units mention, and what is known of their keys.
#[derive(Clone, Copy)]
pub(crate) struct Present<'a> {
    pub(crate) library: &'a Library,
    pub(crate) index: &'a Index,
    pub(crate) entries: &'a Entries,
}

/// The result of the changes; `number` is that of the commit, if it is done.
pub(crate) fn outcome_of(
    alloc: Global,
    most_units: u64,
    number: u64,
    present: &Present<'_>,
    changes: &[Change],
) -> Result<Outcome, AllocError>
    requires { IsIndexOf present.now.library.now present.now.index.now }
    ensures { IfOk result (IsOutcome most_units number present.now.library.now
        (edits_of changes.now) present.now.entries.now) }
{
    let Present {
        library,
        index,
        entries,
    } = *present;
    if let Some(refused) = refusal(library, changes) {
        return Ok(Outcome::Refused(refused));
    }
    let after = library.edited(number, changes)?;
    if most_units < after.len() as u64 {
        return Ok(Outcome::Refused(Committed::TooManyUnits));
    }
    let found = entries.found(alloc, index, library, &after, changes)?;
    Ok(Outcome::Done {
        library: after,
        found,
    })
}

/// A call before it is recorded: who makes it, and what it is answered.
#[derive(Drop)]
pub(crate) struct RecordedCall {
    pub(crate) caller: u32,
    pub(crate) call: Call,
    pub(crate) answer: Reply,
}

/// Records a commit that is done, with room for the entries and marks that it brings, or leaves all unchanged.
pub(crate) fn record_with_room(
    alloc: Global,
    entries: &mut Entries,
    history: &mut History,
    renewal: &Renewal,
    recorded: RecordedCall,
) -> Result<Arc<Record>, AllocError>
    requires { length history.old.log.records < history.old.log.limit }
    ensures room { OnOk result (HasRoom renewal.now entries.old entries.new) }
    ensures back { OnErr result (IsTakenBack renewal.now entries.old entries.new) }
    ensures logged { OnOk result (history.new ≡ logged history.old recorded.caller
        (call_of recorded.call) (reply_of recorded.answer)) }
    ensures share { IfOk result (λ it. it.value ≡ record_after history.old recorded.caller
        (call_of recorded.call) (reply_of recorded.answer)) }
    ensures unlogged { OnErr result (history.new ≡ history.old) }
{
    let RecordedCall {
        caller,
        call,
        answer,
    } = recorded;
    entries.make_room(alloc, renewal)?;
    match history.push(caller, call, answer) {
        Ok(share) => Ok(share),
        Err(error) => {
            entries.take_back(renewal);
            Err(error)
        }
    }
}
