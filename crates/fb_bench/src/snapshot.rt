//! What is shared of a workbench at the moment of a read.
ghost use Rattle.std.specs.{Prelude.{◌≡◌, ◌≤◌, ◌<◌, IfOk, Some, drop, filter, length, map, option_map, slice_get, string_bytes}, List.{filter_map}, List.Sorted.{IsStrictlySortedBy}};
ghost use Rattle.fb_entries.specs.Library.Texts.{names_of};
ghost use Rattle.fb_text.specs.Order.{name_cmp};
ghost use Rattle.fb_history.specs.{Events.{event_of}, Records.{records_in}};
ghost use Rattle.fb_history.specs.Reads.{behind_at, event_in, identity_text, is_behind, revision_of_entry, revisions_behind, showing_in, units_behind};
ghost use Rattle.fb_bench.specs.Snapshots.{shows};

use fb_entries::library::{Library, Spot};
use fb_history::{Counts, Event, Identity, Record, Revision, Showing};
use fb_text::Name;
use std::alloc::{AllocError, Global};
use std::sync::Arc;

/// How many units a read shows at most.
const MOST_UNITS: usize = 1_000;

/// What is shared of a workbench at the moment of a read, so that all that takes long is done later, while others call.
#[derive(Drop)]
pub enum Snapshot {
    /// It is shown as it is.
    Shown(Showing),
    Status {
        counts: Counts,
        workbench: Identity,
    },
    /// The texts, of which the units after a name are shown.
    Units {
        at: u64,
        after: Option<Name>,
        texts: Library,
    },
    /// The records of which the events are shown.
    Records {
        at: u64,
        records: Vec<Arc<Record>>,
    },
}

impl Snapshot {
    /// What the read shows.
    pub fn showing(self, alloc: Global) -> Result<Showing, AllocError>
        ensures { IfOk result (λ shown. showing_in shown ≡ shows self) }
    {
        match self {
            Snapshot::Shown(showing) => Ok(showing),
            Snapshot::Status { counts, workbench } => {
                let workbench = identity_text(alloc, workbench)?;
                Ok(Showing::Status { counts, workbench })
            }
            Snapshot::Units { at, after, texts } => {
                let units = revisions_behind(alloc, &texts, &after)?;
                Ok(Showing::Units { at, units })
            }
            Snapshot::Records { at, records } => {
                let events = events_of(alloc, &records)?;
                Ok(Showing::Events { at, events })
            }
        }
    }
}

/// The identity in 32 hexadecimal digits.
fn identity_text(alloc: Global, it: Identity) -> Result<String, AllocError>
    ensures { IfOk result (λ text. string_bytes text ≡ identity_text it) }
{
    let Identity { high, low } = it;
    format!(in alloc; "{high:016x}{low:016x}")
}

/// The events among the records.
fn events_of(alloc: Global, records: &[Arc<Record>]) -> Result<Vec<Event>, AllocError>
    ensures { IfOk result
        (λ events. map event_in events.items ≡ filter_map event_of (records_in records.now)) }
{
    let mut events = Vec::new(alloc);
    for record in records {
        if let Some(event) = Event::of(alloc, record)? {
            events.push(event)?;
        }
    }
    Ok(events)
}

/// The units after a name, or from the first one, up to `MOST_UNITS`.
fn revisions_behind(
    alloc: Global,
    library: &Library,
    after: &Option<Name>,
) -> Result<Vec<Revision>, AllocError>
    ensures { IfOk result (λ units. units.items ≡ revisions_behind after.now library.now) }
{
    let first = first_behind(library, after);
    let count = (library.len() - first).min(MOST_UNITS);
    let mut units = Vec::with_capacity(alloc, count)?;
    let mut spot = Spot::first();
    for place in first..first + count {
        units.push(revision_at(library, place, &mut spot))?;
    }
    Ok(units)
}

/// The place of the first unit after the name, or of the first one of all.
fn first_behind(library: &Library, after: &Option<Name>) -> usize
    ensures within { result ≤ length library.now }
    ensures behind { drop result library.now ≡ units_behind after.now library.now }
{
    match after {
        None => 0,
        Some(name) => first_behind_name(library, name),
    }
}

fn first_behind_name(library: &Library, name: &Name) -> usize
    ensures within { result ≤ length library.now }
    ensures behind { drop result library.now ≡ filter (is_behind name.now) library.now }
{
    let mut low = 0;
    let mut high = library.len();
    while low < high {
        let middle = low + (high - low) / 2;
        if is_behind(library, middle, name) {
            high = middle;
        } else {
            low = middle + 1;
        }
    }
    low
}

/// Whether the unit at a place is after the name.
fn is_behind(library: &Library, place: usize, name: &Name) -> bool
    requires { place < length library.now }
    ensures behind { result ≡ behind_at name.now library.now place }
    ensures sorted { IsStrictlySortedBy name_cmp (names_of library.now) }
{
    match library.name_at(place) {
        Some(unit) => name.cmp(&unit).is_lt(),
        None => unreachable!(),
    }
}

/// The unit at a place, with its revision.
fn revision_at(library: &Library, place: usize, spot: &mut Spot) -> Revision
    requires { place < length library.now }
    ensures { Some result ≡ option_map revision_of_entry (slice_get library.now place) }
{
    let Some(unit) = library.name_at(place) else {
        unreachable!()
    };
    let number = match library.filed_near(&unit, spot) {
        Some(filed) => filed.revision(),
        None => unreachable!(),
    };
    Revision { unit, number }
}
