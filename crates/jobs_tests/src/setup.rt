//! Libraries and jobs for the tests.
ghost use Rattle.std.specs.Prelude.{◌≡◌, true};
ghost use Rattle.fb_jobs.specs.Keys.{has_key};

use fb_jobs::{Job, Key, Kind, has_key};
use fb_library::parse::Source;
use fb_library::{Change, Library};
use fb_text::Name;
use std::alloc::{AllocError, Global};
use std::test::Fail;

// M is between S and T or D, and D also holds S itself. W also rests on a type that is absent. Z maps T.
pub(crate) const NESTED: &[&str] = &[
    "FUNCTION_BLOCK B EVENT_INPUT I; END_EVENT EVENT_OUTPUT O; END_EVENT END_FUNCTION_BLOCK",
    "SUBAPPLICATION S EVENT_INPUT I; END_EVENT FBS F:B; END_FBS EVENT_CONNECTIONS I TO F.I; END_CONNECTIONS END_SUBAPPLICATION",
    "SUBAPPLICATION M EVENT_INPUT I; END_EVENT SUBAPPS N:S; END_SUBAPPS EVENT_CONNECTIONS I TO N.I; END_CONNECTIONS END_SUBAPPLICATION",
    "SUBAPPLICATION T FBS K:B; END_FBS SUBAPPS X:M; END_SUBAPPS EVENT_CONNECTIONS K.O TO X.I; END_CONNECTIONS END_SUBAPPLICATION",
    "SUBAPPLICATION D FBS K:B; END_FBS SUBAPPS X:M; Y:S; END_SUBAPPS EVENT_CONNECTIONS K.O TO X.I; K.O TO Y.I; END_CONNECTIONS END_SUBAPPLICATION",
    "SUBAPPLICATION W FBS F:NO; END_FBS SUBAPPS X:S; END_SUBAPPS END_SUBAPPLICATION",
    "SYSTEM Z APPLICATION A SUBAPPS U:T; END_SUBAPPS END_APPLICATION DEVICE E:DT RESOURCE R:RT END_RESOURCE END_DEVICE MAPPINGS A.U ON E.R; END_MAPPINGS END_SYSTEM",
];

/// The key of this kind of a unit.
pub(crate) fn key_of(kind: Kind, unit: &str) -> Result<Key, Fail> {
    let unit = Name::read(unit)?;
    Ok(Key { kind, unit })
}

// The name of a unit, which is the second word of its text.
fn name_in(text: &str) -> Result<Name, Fail> {
    let unit = text.split_whitespace().nth(1).ok_or("no name")?;
    Ok(Name::read(unit)?)
}

// Adds a change that puts a unit with this text.
fn put(alloc: Global, changes: &mut Vec<Change>, base: u64, text: &str) -> Result<(), Fail> {
    let source = Source::read(alloc, name_in(text)?, text)?;
    changes.push(Change::Put { base, source })?;
    Ok(())
}

/// Changes that put units with these texts.
pub(crate) fn puts(alloc: Global, base: u64, texts: &[&str]) -> Result<Vec<Change>, Fail> {
    let mut changes = Vec::new(alloc);
    for text in texts {
        put(alloc, &mut changes, base, text)?;
    }
    Ok(changes)
}

/// A library of units with these texts.
pub(crate) fn library_of(alloc: Global, texts: &[&str]) -> Result<Library, Fail> {
    let changes = puts(alloc, 0, texts)?;
    Ok(Library::new(alloc).edited(1, &changes)?)
}

/// A job without hints.
pub(crate) fn make(alloc: Global, library: &Library, key: Key) -> Result<Job, AllocError>
    requires { has_key library.now key ≡ true }
{
    Job::make(alloc, library, key, Vec::new(alloc))
}

/// The same, if there is the key.
pub(crate) fn job_for(alloc: Global, library: &Library, key: Key) -> Result<Job, Fail> {
    if !has_key(library, key) {
        return Err(Fail::from("no such key"));
    }
    Ok(make(alloc, library, key)?)
}
