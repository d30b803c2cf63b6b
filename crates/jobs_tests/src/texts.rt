//! What is kept of the reads of a job and of its result.
use crate::setup::{NESTED, job_for, key_of, library_of, puts};
use fb_jobs::{Job, Kind, TextReads};
use fb_library::Library;
use std::alloc::Global;
use std::process::Abort;
use std::test::Fail;

// Whether these names were read with texts of these revisions, or with none for 0, and no others.
fn are_kept(texts: &TextReads, wanted: &[(&str, u64)]) -> bool {
    for place in 0..wanted.len() {
        let (name, revision) = wanted[place];
        let Some(read) = texts.get(place) else {
            return false;
        };
        let kept = read.version.map_or(0, |version| version.revision);
        if read.name.as_str() != name || kept != revision {
            return false;
        }
    }
    texts.len() == wanted.len() && texts.get(wanted.len()).is_none()
}

// Whether a job and its result keep these.
fn is_job_of(alloc: Global, job: &Job, wanted: &[(&str, u64)]) -> Result<bool, Fail> {
    let finished = job.run(alloc)?;
    let are_same = job.texts().is_same(finished.texts());
    Ok(are_same && are_kept(job.texts(), wanted) && are_kept(finished.texts(), wanted))
}

/// A key, and the names with revisions that a job for it keeps.
type Row = (Kind, &'static str, &'static [(&'static str, u64)]);

// S has come again, and NO is absent.
const KEPT: &[Row] = &[
    (Kind::Faults, "B", &[("B", 1)]),
    (Kind::Faults, "M", &[("M", 1), ("S", 2)]),
    (Kind::Net, "T", &[("B", 1), ("M", 1), ("S", 2), ("T", 1)]),
    (Kind::Faults, "W", &[("NO", 0), ("S", 2), ("W", 1)]),
    (Kind::Net, "W", &[("B", 1), ("NO", 0), ("S", 2), ("W", 1)]),
    (
        Kind::Deploy,
        "Z",
        &[("B", 1), ("M", 1), ("S", 2), ("T", 1), ("Z", 1)],
    ),
];

fn compare(rt: &impl Abort, alloc: Global, library: &Library, row: &Row) -> Result<(), Fail> {
    let (kind, unit, wanted) = *row;
    let job = job_for(alloc, library, key_of(kind, unit)?)?;
    assert!(rt; is_job_of(alloc, &job, wanted)?, "{unit}");
    Ok(())
}

// The library in which S has come again.
fn edited_once(alloc: Global) -> Result<Library, Fail> {
    let again = puts(alloc, 1, &NESTED[1..2])?;
    let library = library_of(alloc, NESTED)?;
    Ok(library.edited(2, &again)?)
}

#[test]
fn reads_are_kept_with_their_revisions(rt: HostRuntime) -> Result<(), Fail> {
    let library = edited_once(rt.alloc())?;
    for row in KEPT {
        compare(&rt, rt.alloc(), &library, row)?;
    }
    Ok(())
}
