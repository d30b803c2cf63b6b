//! How many owners a text and a value have before and after each call: what is kept of both, and what is handed out, is shared and never copied.
use crate::conversation::new_bench;
use crate::jobs::{key_in, put};
use fb_library::Change;
use fb_wire::bench::{Asked, Bench, Limits, Taken};
use fb_wire::jobs::{Finished, Job};
use std::alloc::Global;
use std::sync::Arc;
use std::test::Fail;

/// A call of the workbench, or a job that is run.
#[derive(Clone, Copy, Debug)]
enum Step {
    /// Two units are put, of which the second holds the first.
    Commit,
    /// The second is put again.
    CommitAgain,
    Take,
    Run,
    Deliver,
    /// The net of the first.
    Ask,
    GiveBack,
}

/// How many owners there are of the first unit's source, of its text, and of the last value that was found.
type Owners = (usize, usize, usize);

// Each step, and the owners after it.
const STEPS: &[(Step, Owners)] = &[
    // the library has the source, and its text has two owners, it and the record
    (Step::Commit, (2, 2, 0)),
    // for its faults: the job has the source, and then the entry has the value
    (Step::Take, (3, 2, 0)),
    (Step::Run, (3, 2, 1)),
    (Step::Deliver, (3, 2, 2)),
    // for the faults of the second, which reads the first too
    (Step::Take, (4, 2, 2)),
    (Step::Run, (4, 2, 1)),
    (Step::Deliver, (4, 2, 2)),
    // for its net
    (Step::Take, (5, 2, 2)),
    (Step::Run, (5, 2, 1)),
    (Step::Deliver, (5, 2, 2)),
    // the answer and the record have the value
    (Step::Ask, (5, 2, 4)),
    // for the net of the second: the job has both
    (Step::Take, (6, 2, 5)),
    (Step::GiveBack, (6, 2, 5)),
    (Step::CommitAgain, (6, 2, 5)),
];

/// A workbench, two changes with the sources of their units, and all that it has handed out.
#[derive(Drop)]
struct Scene {
    bench: Bench,
    changes: Vec<Change>,
    again: Vec<Change>,
    jobs: Vec<Job>,
    results: Vec<Finished>,
    answers: Vec<Asked>,
}

const INNER: &str = "SUBAPPLICATION A END_SUBAPPLICATION";

const OUTER: &str = "SUBAPPLICATION B SUBAPPS X:A; END_SUBAPPS END_SUBAPPLICATION";

fn new_scene(alloc: Global) -> Result<Scene, Fail> {
    let (mut changes, mut again) = (Vec::new(alloc), Vec::new(alloc));
    put(alloc, &mut changes, "A", 0, INNER)?;
    put(alloc, &mut changes, "B", 0, OUTER)?;
    put(alloc, &mut again, "B", 1, OUTER)?;
    Ok(Scene {
        bench: new_bench(alloc, 2, 100)?,
        changes,
        again,
        jobs: Vec::new(alloc),
        results: Vec::new(alloc),
        answers: Vec::new(alloc),
    })
}

impl Scene {
    fn go(&mut self, alloc: Global, step: Step) -> Result<(), Fail> {
        match step {
            Step::Commit => {
                self.bench.commit(1, &self.changes)?;
            }
            Step::CommitAgain => {
                self.bench.commit(1, &self.again)?;
            }
            Step::Take => match self.bench.take(1)? {
                Taken::Job(job) => self.jobs.push(job)?,
                Taken::Nothing => return Err(Fail::from("no job")),
            },
            Step::Run => {
                let job = self.jobs.last().ok_or("no job")?;
                self.results.push(job.run(alloc)?)?;
            }
            Step::Deliver => {
                let finished = self.results.last().ok_or("no result")?;
                self.bench.deliver(1, finished)?;
            }
            Step::Ask => {
                let answer = self.bench.ask(1, key_in("net A")?)?;
                self.answers.push(answer)?;
            }
            Step::GiveBack => {
                let key = self.jobs.last().ok_or("no job")?.key();
                self.bench.give_back(1, key)?;
            }
        }
        Ok(())
    }

    fn value_owners(&self) -> usize {
        match self.results.last() {
            Some(finished) => Arc::strong_count(finished.value()),
            None => 0,
        }
    }

    fn owners(&self) -> Owners {
        match self.changes.first() {
            Some(Change::Put { source, base: _ }) => {
                let text = source.shared_text();
                let values = self.value_owners();
                (Arc::strong_count(source), Arc::strong_count(text), values)
            }
            _ => (0, 0, 0),
        }
    }
}

#[test]
fn texts_and_values_are_shared(rt: HostRuntime) -> Result<(), Fail> {
    let mut scene = new_scene(rt.alloc())?;
    assert_eq!(rt; scene.owners(), (1, 1, 0), "before any call");
    for place in 0..STEPS.len() {
        let (step, owners) = STEPS[place];
        scene.go(rt.alloc(), step)?;
        assert_eq!(rt; scene.owners(), owners, "{step:?}, step {place}");
    }
    Ok(())
}

/// How many times a unit changes on which keys of another rest.
const CHANGES: u64 = 100;

/// The most of its texts that may stay: what was read is kept as a list, of which a few texts are replaced.
const MOST_TEXTS: usize = 16;

// Puts A with a text of its own for each number, and works until nothing is pending.
fn change_inner(alloc: Global, bench: &mut Bench, number: u64) -> Result<Arc<String>, Fail> {
    let mut changes = Vec::new(alloc);
    let base = if number == 0 {
        0
    } else {
        number.saturating_add(1)
    };
    let text = format!(in alloc; "{INNER} (* {number} *)")?;
    put(alloc, &mut changes, "A", base, &text)?;
    bench.commit(1, &changes)?;
    for _ in 0..u64::MAX {
        if !bench.work_once(1)? {
            break;
        }
    }
    match changes.first() {
        Some(Change::Put { source, base: _ }) => Ok(source.shared_text().clone()?),
        _ => Err(Fail::from("no text")),
    }
}

#[test]
fn few_texts_stay_of_a_unit_that_changes(rt: HostRuntime) -> Result<(), Fail> {
    let alloc = rt.alloc();
    let mut bench = new_bench(alloc, 2, 2000)?;
    let mut outer = Vec::new(alloc);
    put(alloc, &mut outer, "B", 0, OUTER)?;
    bench.commit(1, &outer)?;
    let mut texts = Vec::new(alloc);
    for number in 0..CHANGES {
        texts.push(change_inner(alloc, &mut bench, number)?)?;
    }
    bench.checkpoint(Limits::new(2, 2000).ok_or("limits")?)?;
    let count = texts
        .iter()
        .filter(|text| Arc::strong_count(*text) > 1)
        .count();
    assert!(rt; 0 < count && count <= MOST_TEXTS, "{count} texts");
    Ok(())
}
