//! Records as events for those who watch.
ghost use Rattle.std.specs.{Prelude.{◌≡◌, IfOk}, Option.{option_map}, List.{filter_map}};
ghost use Rattle.fb_history.specs.{Events.{accepts, commit_in, event_of, is_event, put_unit, removed_unit}, Reads.{event_in}, Records.{reply_of, text_edit, text_edits}};

use crate::answers::{Committed, Delivered};
use crate::record::{Call, Record, Reply, TextChange};
use fb_jobs::Key;
use fb_text::Name;
use std::alloc::{AllocError, Global};

/// A good commit, with who made it and the units that it put and removed, or the key whose result was accepted.
#[derive(Drop)]
pub enum Event {
    Commit {
        number: u64,
        caller: u32,
        put: Vec<Name>,
        removed: Vec<Name>,
    },
    Value(Key),
}

impl Event {
    /// The event that the record is, if it is one.
    pub fn of(alloc: Global, it: &Record) -> Result<Option<Event>, AllocError>
        ensures { IfOk result (λ event. option_map event_in event ≡ event_of it.now) }
    {
        match &it.call {
            Call::Commit(changes) => match commit_in(&it.reply) {
                Some(number) => {
                    let put = put_units(alloc, changes.as_slice())?;
                    let removed = removed_units(alloc, changes.as_slice())?;
                    Ok(Some(Event::Commit {
                        number,
                        caller: it.caller,
                        put,
                        removed,
                    }))
                }
                None => Ok(None),
            },
            Call::Deliver(wanted) => Ok(accepts(&it.reply).then_some(Event::Value(*wanted.key))),
            Call::Take | Call::GiveBack(_) | Call::Ask(_) => Ok(None),
        }
    }
}

impl Record {
    /// Whether it is an event for those who watch.
    pub fn is_event(&self) -> bool
        ensures { result ≡ is_event self.now }
    {
        match &self.call {
            Call::Commit(_) => commit_in(&self.reply).is_some(),
            Call::Deliver(_) => accepts(&self.reply),
            Call::Take | Call::GiveBack(_) | Call::Ask(_) => false,
        }
    }
}

/// The number of a good commit.
fn commit_in(reply: &Reply) -> Option<u64>
    ensures { result ≡ commit_in (reply_of reply.now) }
{
    match reply {
        Reply::Committed(answer) => match **answer {
            Committed::Done(number) => Some(number),
            _ => None,
        },
        _ => None,
    }
}

/// Whether a result was accepted.
fn accepts(reply: &Reply) -> bool
    ensures { result ≡ accepts (reply_of reply.now) }
{
    match reply {
        Reply::Accepted => true,
        Reply::NotAccepted(answer) => matches!(**answer, Delivered::Accepted),
        _ => false,
    }
}

fn put_unit(change: &TextChange) -> Option<Name>
    ensures { result ≡ put_unit (text_edit change.now) }
{
    match change {
        TextChange::Put { unit, .. } => Some(*unit),
        TextChange::Remove { .. } => None,
    }
}

fn removed_unit(change: &TextChange) -> Option<Name>
    ensures { result ≡ removed_unit (text_edit change.now) }
{
    match change {
        TextChange::Put { .. } => None,
        TextChange::Remove { unit, .. } => Some(*unit),
    }
}

fn put_units(alloc: Global, changes: &[TextChange]) -> Result<Vec<Name>, AllocError>
    ensures { IfOk result (λ units. units.items ≡ filter_map put_unit (text_edits changes.now)) }
{
    let mut units = Vec::new(alloc);
    for change in changes {
        if let Some(unit) = put_unit(change) {
            units.push(unit)?;
        }
    }
    Ok(units)
}

fn removed_units(alloc: Global, changes: &[TextChange]) -> Result<Vec<Name>, AllocError>
    ensures { IfOk result (λ units. units.items ≡ filter_map removed_unit (text_edits changes.now)) }
{
    let mut units = Vec::new(alloc);
    for change in changes {
        if let Some(unit) = removed_unit(change) {
            units.push(unit)?;
        }
    }
    Ok(units)
}
