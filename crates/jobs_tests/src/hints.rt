//! Jobs to which the caller passes a net of its choice. What their contract does not admit is found before they are made.
ghost use Rattle.std.specs.Prelude.{◌≡◌, true, IfOk};
ghost use Rattle.fb_library.specs.{Texts.{sources_of}, View.{tree_at}};
ghost use Rattle.fb_flatten.specs.Nets.{has_net_in};
ghost use Rattle.fb_jobs.specs.{Hints.{IsHint, is_other_subapplication}, Keys.{has_key, needs}, Kinds.{needs_all}, Reads.{is_among}};

use crate::setup::{NESTED, library_of};
use crate::told::{job_told, run_told};
use fb_flatten::{has_net, is_subapplication, net};
use fb_jobs::{Hint, Job, Key, Kind, Value, has_key, needed};
use fb_library::Library;
use fb_text::{Name, same_name};
use std::alloc::{AllocError, Global};
use std::process::Abort;
use std::sync::Arc;
use std::test::Fail;

// Whether the key needs the unit of this name.
fn is_needed(alloc: Global, library: &Library, key: Key, unit: &Name) -> Result<bool, AllocError>
    ensures { IfOk result (λ is. is ≡ is_among unit.now (needs library.now key)) }
{
    let names = needed(alloc, library, key)?;
    Ok(names.iter().any(|name| same_name(unit, name)))
}

// Whether a job for the key may take the net of this unit along: that of another subapplication that the key needs.
fn may_take(alloc: Global, library: &Library, key: Key, unit: &Name) -> Result<bool, AllocError>
    ensures other { IfOk result (λ may. may ≡ true
        → is_other_subapplication library.now key.unit unit.now ≡ true) }
    ensures needed { IfOk result (λ may. may ≡ true
        → is_among unit.now (needs library.now key) ≡ true) }
{
    if same_name(&key.unit, unit) || !is_subapplication(library, unit) {
        return Ok(false);
    }
    is_needed(alloc, library, key, unit)
}

// The net of such a unit.
#[tactic(auto, unfolding(fb_jobs::specs::Keys::scratch))]
fn hint_of(alloc: Global, library: &Library, key: Key, unit: Name) -> Result<Hint, AllocError>
    requires net { has_net_in (tree_at (sources_of library.now) unit) ≡ true }
    requires other { is_other_subapplication library.now key.unit unit ≡ true }
    requires needed { is_among unit (needs library.now key) ≡ true }
    ensures { IfOk result (IsHint library.now key) }
{
    let net = net(alloc, library, unit)?;
    Ok(Hint {
        unit,
        value: Arc::new(alloc, Value::Net(net))?,
    })
}

// A job for a net that takes this one along.
fn job_with(alloc: Global, library: &Library, key: Key, hint: Hint) -> Result<Job, AllocError>
    requires has { has_key library.now key ≡ true }
    requires hint { IsHint library.now key hint }
    requires all { needs_all key.kind ≡ true }
{
    let mut hints = Vec::new(alloc);
    hints.push(hint)?;
    Job::make(alloc, library, key, hints)
}

/// A job for the net of the first unit with the net of the second as a hint, or None if this is not allowed.
pub(crate) fn job_taking(
    alloc: Global,
    library: &Library,
    unit: &str,
    taken: &str,
) -> Result<Option<Job>, Fail> {
    let key = Key {
        kind: Kind::Net,
        unit: Name::read(unit)?,
    };
    let taken = Name::read(taken)?;
    if !has_key(library, key) || !has_net(library, &taken) {
        return Err(Fail::from("no net"));
    }
    if !may_take(alloc, library, key, &taken)? {
        return Ok(None);
    }
    let hint = hint_of(alloc, library, key, taken)?;
    Ok(Some(job_with(alloc, library, key, hint)?))
}

/// A unit, one whose net is passed, and the job and its result.
type Row = (&'static str, &'static str, &'static str, &'static str);

// Also the unit itself and those that it does not rest on, whose nets may not be passed.
const TAKEN: &[Row] = &[
    (
        "T",
        "M",
        "4 reads, taking M",
        "4 reads: K:B X.N.F:B; K.O TO X.N.F.I; 0 borders; finding",
    ),
    (
        "T",
        "S",
        "4 reads, taking S",
        "4 reads: K:B X.N.F:B; K.O TO X.N.F.I; 0 borders; finding M",
    ),
    (
        "M",
        "S",
        "3 reads, taking S",
        "3 reads: N.F:B; 1 borders; finding",
    ),
    (
        "W",
        "S",
        "4 reads, taking S",
        "4 reads: blocked by 2; finding",
    ),
    ("T", "T", "", "not taken"),
    ("S", "T", "", "not taken"),
    ("M", "D", "", "not taken"),
    ("T", "W", "", "not taken"),
];

fn compare(rt: &impl Abort, alloc: Global, library: &Library, row: &Row) -> Result<(), Fail> {
    let (unit, taken, job, finished) = *row;
    let Some(made) = job_taking(alloc, library, unit, taken)? else {
        assert_eq!(rt; ("", "not taken"), (job, finished), "{unit} {taken}");
        return Ok(());
    };
    let (job_told, run_told) = (job_told(alloc, &made)?, run_told(alloc, &made)?);
    let told = (job_told.as_str(), run_told.as_str());
    assert_eq!(rt; told, (job, finished), "{unit} {taken}");
    Ok(())
}

#[test]
fn jobs_take_chosen_nets_along(rt: HostRuntime) -> Result<(), Fail> {
    let library = library_of(rt.alloc(), NESTED)?;
    for row in TAKEN {
        compare(&rt, rt.alloc(), &library, row)?;
    }
    Ok(())
}
