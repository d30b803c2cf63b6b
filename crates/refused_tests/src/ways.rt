//! The ways to make one of the five calls on a workbench of one thread and at a desk, and what it answers.
use crate::nest::{Given, Which};
use crate::told::{committed_word, returned_word};
use fb_bench::{Answered, Asked, Bench, Delivered, Desk, DeskError, Refused, Request, Solo, Taken};
use fb_jobs::Finished;
use fb_shared::library::Change;

/// How a call is made.
#[derive(Clone, Copy)]
pub(crate) enum Way {
    /// By its own function.
    Alone,
    AsRequest,
    /// At the desk of one caller.
    AtDesk,
}

/// What a call answers, in a word, with how many units a job has read and how many hints it has.
pub(crate) type Answer = (&'static str, usize, usize);

fn answer_of(answered: &Answered) -> Answer {
    match answered {
        Answered::Commit(answer) => (committed_word(answer), 0, 0),
        Answered::Take(Taken::Job(job)) => ("job", job.reads().len(), job.hints().len()),
        Answered::Take(Taken::Nothing) => ("nothing", 0, 0),
        Answered::Deliver(Delivered::Accepted) => ("accepted", 0, 0),
        Answered::Deliver(_) => ("not accepted", 0, 0),
        Answered::GiveBack(answer) => (returned_word(answer), 0, 0),
        Answered::Ask(Asked::Value(_)) => ("value", 0, 0),
        Answered::Ask(Asked::Pending) => ("pending", 0, 0),
        Answered::Ask(Asked::NoSuchKey) => ("no key", 0, 0),
    }
}

fn made_alone(which: Which, bench: &mut Bench, given: &Given) -> Result<Answer, Refused> {
    let answered = match which {
        Which::Commit => Answered::Commit(bench.commit(1, &given.changes)?),
        Which::Take => Answered::Take(bench.take(1)?),
        Which::Deliver => Answered::Deliver(bench.deliver(1, &given.finished)?),
        Which::GiveBack => Answered::GiveBack(bench.give_back(1, given.key)?),
        Which::Ask => Answered::Ask(bench.ask(1, given.key)?),
    };
    Ok(answer_of(&answered))
}

// Both types that a request can lend are named here: the check of loans has to have met them.
fn made_as_request(which: Which, bench: &mut Bench, given: &Given) -> Result<Answer, Refused> {
    let changes: &[Change] = &given.changes;
    let finished: &Finished = &given.finished;
    let request = match which {
        Which::Commit => Request::Commit(changes),
        Which::Take => Request::Take,
        Which::Deliver => Request::Deliver(finished),
        Which::GiveBack => Request::GiveBack(given.key),
        Which::Ask => Request::Ask(given.key),
    };
    let (_record, answered) = bench.perform(1, &request)?;
    Ok(answer_of(&answered))
}

/// What a call answers at a desk.
pub(crate) fn made_at<D: Desk>(
    which: Which,
    desk: &mut D,
    given: &Given,
) -> Result<Answer, DeskError> {
    let answered = match which {
        Which::Commit => Answered::Commit(desk.commit(&given.changes)?),
        Which::Take => Answered::Take(desk.take()?),
        Which::Deliver => Answered::Deliver(desk.deliver(&given.finished)?),
        Which::GiveBack => Answered::GiveBack(desk.give_back(given.key)?),
        Which::Ask => Answered::Ask(desk.ask(given.key)?),
    };
    Ok(answer_of(&answered))
}

fn made_at_desk(which: Which, bench: &mut Bench, given: &Given) -> Result<Answer, Refused> {
    let mut desk = Solo::new(bench, 1);
    match made_at(which, &mut desk, given) {
        Ok(answer) => Ok(answer),
        Err(DeskError::Memory) => Err(Refused::Memory),
        Err(_) => Err(Refused::HistoryFull),
    }
}

/// What a call answers that is made so.
pub(crate) fn made(
    way: Way,
    which: Which,
    bench: &mut Bench,
    given: &Given,
) -> Result<Answer, Refused> {
    match way {
        Way::Alone => made_alone(which, bench, given),
        Way::AsRequest => made_as_request(which, bench, given),
        Way::AtDesk => made_at_desk(which, bench, given),
    }
}
