//! What is read of a workbench without a record, and what it shows.

use crate::answers::Asked;
use crate::event::Event;
use fb_jobs::Key;
use fb_text::Name;
use std::sync::Arc;

/// The identity of a workbench: 128 bits that are drawn when it is made, or 0.
#[derive(Clone, Copy)]
pub struct Identity {
    pub high: u64,
    pub low: u64,
}

/// Who reads, and of which workbench.
#[derive(Clone, Copy)]
pub struct Reader {
    /// The caller of the session.
    pub session: u32,
    pub workbench: Identity,
}

/// What is read of a workbench. Nothing is recorded of it, and nothing changes.
#[derive(Clone, Copy)]
pub enum Reading {
    Status,
    /// The first thousand units of all, or of those after this name.
    Units(Option<Name>),
    Text(Name),
    Entry(Key),
    /// The events among the two hundred calls after this number.
    Events(u64),
}

/// The counts of a workbench, and the caller of the session that reads them.
#[derive(Clone, Copy)]
pub struct Counts {
    pub session: u32,
    pub calls: u64,
    pub commits: u64,
    pub keys: u64,
    pub pending: u64,
    pub units: u64,
}

/// A unit, with the number of the commit that put it.
#[derive(Clone, Copy)]
pub struct Revision {
    pub unit: Name,
    pub number: u64,
}

/// What a read shows. `at` is the number of the last recorded call then, and of events that of the last call that was looked at.
#[derive(Drop)]
pub enum Showing {
    Status {
        counts: Counts,
        /// The identity of the workbench, in 32 hexadecimal digits.
        workbench: String,
    },
    Units {
        at: u64,
        units: Vec<Revision>,
    },
    Text {
        at: u64,
        base: u64,
        text: Arc<String>,
    },
    NoSuchUnit(Name),
    Entry(Asked),
    Events {
        at: u64,
        events: Vec<Event>,
    },
    /// The history no longer has an event after this number, or there was no call of this number yet.
    Missed(u64),
}
