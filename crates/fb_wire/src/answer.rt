//! The calls of a desk for a request, and the reply.
ghost use Rattle.std.specs.{Prelude.{◌≡◌, ℕ, Some, length, map, option_map}, Option.{option_copied}, Result.{result_ok}};
ghost use Rattle.fb_text.specs.Name.{name_of};
ghost use Rattle.fb_bench.specs.{Calls.{Exchanges, take_reply}, History.Machine.{ToAsk, ToCommit, ToDeliver, ToGiveBack}};
ghost use Rattle.fb_bench.specs.{Requests.{call_for, reply_in}, Records.{listed}};
ghost use Rattle.fb_bench.specs.History.declared.reading.Reading.TheVariants.{Entry, Text, Units};
ghost use Rattle.fb_messages.specs.{ReplyView.{data_of}, RequestView.{change_view, reading_view, request_view}};
ghost use Rattle.fb_wire.specs.Said.{checkpoint_said, commit_said, deliver_said, read_said, reply_said, said_to};
ghost use Rattle.fb_wire.specs.Progress.{KeepsTaken, Progress, answer_in, checked_in, data_in, read_in, refusal_for, unrecorded};
ghost use Rattle.fb_wire.specs.Conversations.{Jobs, call_once, checkpoint_once, commit_plan, deliver_plan, edits_in, job_at, plan_of, read_once, read_plan, take_plan, with_name, work_plan};

use crate::change::{ChangeError, changes_of};
use fb_bench::{
    Answered, Asked, Committed, Delivered, Desk, DeskCheckpointError, DeskError, GivenBack, Limits,
    Reading, Showing, Taken,
};
use fb_library::Change;
use fb_messages::jobs::{Finished, Job, Key, Kind};
use fb_messages::{AskedChange, AskedReading, Refusal, Reply, Request};
use fb_text::Name;
use std::alloc::{AllocError, Global};

/// How many jobs a run may hold.
const MOST_HELD: usize = 64;

/// The word for why a desk does not record a call, or lack of memory.
fn refusal_of(refused: DeskError) -> Result<Refusal, AllocError>
    ensures { result_ok result ≡ refusal_for refused }
{
    match refused {
        DeskError::HistoryFull => Ok(Refusal::HistoryFull),
        DeskError::Behind => Ok(Refusal::Behind),
        DeskError::Memory => Err(AllocError),
    }
}

fn commit_reply(committed: &Committed) -> Reply
    ensures { data_of result ≡ commit_said committed.now }
{
    match committed {
        Committed::Done(number) => Reply::Committed(*number),
        Committed::NoChange => Reply::Refused(Refusal::NoChange),
        Committed::TooManyChanges => Reply::Refused(Refusal::TooManyChanges),
        Committed::SameUnitTwice(unit) => Reply::RefusedUnit(Refusal::SameUnitTwice, *unit),
        Committed::StaleBase { unit, current } => Reply::StaleBase {
            unit: *unit,
            current: *current,
        },
        Committed::NoSuchUnit(unit) => Reply::RefusedUnit(Refusal::NoSuchUnit, *unit),
        Committed::TooManyUnits => Reply::Refused(Refusal::TooManyUnits),
    }
}

fn deliver_reply(delivered: &Delivered) -> Reply
    ensures { data_of result ≡ deliver_said delivered.now }
{
    match delivered {
        Delivered::Accepted => Reply::Delivered,
        Delivered::NoSuchKey => Reply::Refused(Refusal::NoSuchKey),
        Delivered::NotPending => Reply::Refused(Refusal::NotPending),
        Delivered::Stale(unit) => Reply::RefusedUnit(Refusal::Stale, *unit),
    }
}

/// The reply to an answer of a desk. A job gets this number.
fn reply_to(answered: Answered, job_number: u64) -> Reply
    ensures { data_of result ≡ reply_said job_number (reply_in answered) }
{
    match answered {
        Answered::Commit(committed) => commit_reply(&committed),
        Answered::Take(Taken::Job(job)) => Reply::Job(job_number, job.key()),
        Answered::Take(Taken::Nothing) => Reply::NoJob,
        Answered::Deliver(delivered) => deliver_reply(&delivered),
        Answered::GiveBack(GivenBack::Returned) => Reply::GivenBack(true),
        Answered::GiveBack(GivenBack::NothingOut) => Reply::GivenBack(false),
        Answered::Ask(Asked::Value(value)) => Reply::Found(value),
        Answered::Ask(Asked::Pending) => Reply::Pending,
        Answered::Ask(Asked::NoSuchKey) => Reply::Refused(Refusal::NoSuchKey),
    }
}

/// The reply to a call, of which no job is kept.
fn call_reply(performed: Result<Answered, DeskError>) -> Result<Reply, AllocError>
    ensures { option_map (said_to 0) (answer_in reply_in performed) ≡ data_in result }
{
    match performed {
        Ok(answered) => Ok(reply_to(answered, 0)),
        Err(refused) => refused_reply(refused),
    }
}

/// The reply to a call that is not recorded.
fn refused_reply(refused: DeskError) -> Result<Reply, AllocError>
    ensures { (n : ℕ) → option_map (said_to n) (unrecorded refused) ≡ data_in result }
{
    Ok(Reply::Refused(refusal_of(refused)?))
}

fn checkpoint_reply(checked: Result<u64, DeskCheckpointError>) -> Result<Reply, AllocError>
    ensures { option_map checkpoint_said (checked_in checked) ≡ data_in result }
{
    match checked {
        Ok(before) => Ok(Reply::Checkpointed(before)),
        Err(DeskCheckpointError::UnitsOver(_)) => Ok(Reply::Refused(Refusal::UnitsOver)),
        Err(DeskCheckpointError::NumbersOver) => Ok(Reply::Refused(Refusal::NumbersOver)),
        Err(DeskCheckpointError::NotAlone) => Ok(Reply::Refused(Refusal::NotAlone)),
        Err(DeskCheckpointError::Memory) => Err(AllocError),
    }
}

/// Makes one call, whose answer is the reply.
fn answer_call<D: Desk>(desk: &mut D, call: &fb_bench::Request<'_>) -> Result<Reply, AllocError>
    ensures { (held : Jobs)
        → Progress (Exchanges D.step D.checkpoint_step D.read_step)
        (call_once held (call_for call.now)) desk.old result held desk.new }
{
    let performed = desk.perform(call);
    call_reply(performed)
}

fn answer_commit<D: Desk>(
    alloc: Global,
    desk: &mut D,
    asked: &[AskedChange<'_>],
) -> Result<Reply, AllocError>
    ensures { (held : Jobs)
        → Progress (Exchanges D.step D.checkpoint_step D.read_step)
        (commit_plan held (edits_in (map change_view asked.now))) desk.old result held desk.new }
{
    // Works around the borrow checker: both types that a `fb_bench::Request` can borrow must occur in a function that makes one.
    let _finished: Option<&Finished> = None;
    match changes_of(alloc, asked) {
        Ok(changes) => answer_call(desk, &fb_bench::Request::Commit(&changes)),
        Err(ChangeError::Refused(refusal)) => Ok(Reply::Refused(refusal)),
        Err(ChangeError::Memory) => Err(AllocError),
    }
}

fn answer_checkpoint<D: Desk>(desk: &mut D, limits: Limits) -> Result<Reply, AllocError>
    ensures { (held : Jobs)
        → Progress (Exchanges D.step D.checkpoint_step D.read_step) (checkpoint_once held limits) desk.old result held desk.new }
{
    let checked = desk.checkpoint(limits);
    checkpoint_reply(checked)
}

/// Keeps a taken job with those that are held.
fn keep_taken(held: &mut Vec<Job>, taken: Result<Taken, DeskError>) -> Result<Reply, AllocError>
    ensures { KeepsTaken held.old.items (answer_in take_reply taken)
        (data_in result) held.new.items }
{
    match taken {
        Ok(Taken::Job(job)) => {
            let number = held.len() as u64 + 1;
            let key = job.key();
            if held.push(job).is_err() {
                return Err(AllocError);
            }
            Ok(Reply::Job(number, key))
        }
        Ok(Taken::Nothing) => Ok(Reply::NoJob),
        Err(refused) => refused_reply(refused),
    }
}

fn answer_take<D: Desk>(desk: &mut D, held: &mut Vec<Job>) -> Result<Reply, AllocError>
    ensures { Progress (Exchanges D.step D.checkpoint_step D.read_step) (take_plan held.old.items) desk.old result held.new.items desk.new }
{
    if held.len() >= MOST_HELD {
        return Ok(Reply::Refused(Refusal::TooManyJobs));
    }
    let taken = desk.take();
    keep_taken(held, taken)
}

/// The held job of this number, counted from 1.
fn held_job(held: &[Job], number: u64) -> Option<&Job>
    ensures { option_copied result ≡ job_at held.now number }
{
    if number == 0 || number > held.len() as u64 {
        None
    } else {
        Some(&held[(number - 1) as usize])
    }
}

/// Runs a job, and delivers its result.
fn answer_job<D: Desk>(alloc: Global, desk: &mut D, job: &Job) -> Result<Reply, AllocError>
    ensures { (held : Jobs)
        → Progress (Exchanges D.step D.checkpoint_step D.read_step) (call_once held (ToDeliver job.now)) desk.old result held desk.new }
{
    // As above.
    let _changes: &[Change] = &[];
    let finished = job.run(alloc)?;
    answer_call(desk, &fb_bench::Request::Deliver(&finished))
}

fn answer_number<D: Desk>(
    alloc: Global,
    desk: &mut D,
    held: &[Job],
    number: u64,
) -> Result<Reply, AllocError>
    ensures { Progress (Exchanges D.step D.checkpoint_step D.read_step) (deliver_plan held.now number) desk.old result held.now desk.new }
{
    match held_job(held, number) {
        None => Ok(Reply::Refused(Refusal::NoSuchJob)),
        Some(job) => answer_job(alloc, desk, job),
    }
}

fn answer_work<D: Desk>(alloc: Global, desk: &mut D, turns: u64) -> Result<Reply, AllocError>
    ensures { (held : Jobs) → Progress (Exchanges D.step D.checkpoint_step D.read_step) (work_plan held turns 0) desk.old result held desk.new }
{
    let mut accepted = 0;
    for _round in 0..turns {
        let delivered = match desk.work_once(alloc) {
            Ok(Some(delivered)) => delivered,
            Ok(None) => return Ok(Reply::Worked(accepted)),
            Err(refused) => return Ok(Reply::WorkRefused(accepted, refusal_of(refused)?)),
        };
        if let Delivered::Accepted = delivered {
            accepted += 1;
        }
    }
    Ok(Reply::Worked(accepted))
}

/// Asks for the key of a kind and a name.
fn answer_ask_named<D: Desk>(desk: &mut D, kind: Kind, unit: &str) -> Result<Reply, AllocError>
    ensures { (held : Jobs)
        → Progress (Exchanges D.step D.checkpoint_step D.read_step)
        (with_name held (name_of unit.now)
        (λ name. call_once held
        (ToAsk (record { kind = kind; unit = name })))) desk.old result held desk.new }
{
    // As above.
    let _changes: &[Change] = &[];
    let _finished: Option<&Finished> = None;
    match Name::read(unit) {
        Err(_) => Ok(Reply::Refused(Refusal::BadName)),
        Ok(unit) => answer_call(desk, &fb_bench::Request::Ask(Key { kind, unit })),
    }
}

/// Gives back the key of a kind and a name.
fn answer_back_named<D: Desk>(desk: &mut D, kind: Kind, unit: &str) -> Result<Reply, AllocError>
    ensures { (held : Jobs)
        → Progress (Exchanges D.step D.checkpoint_step D.read_step)
        (with_name held (name_of unit.now)
        (λ name. call_once held
        (ToGiveBack (record { kind = kind; unit = name })))) desk.old result held desk.new }
{
    // As above.
    let _changes: &[Change] = &[];
    let _finished: Option<&Finished> = None;
    match Name::read(unit) {
        Err(_) => Ok(Reply::Refused(Refusal::BadName)),
        Ok(unit) => answer_call(desk, &fb_bench::Request::GiveBack(Key { kind, unit })),
    }
}

/// Reads, and what is shown is the reply.
fn answer_reading<D: Desk>(desk: &mut D, reading: &Reading, wait: u64) -> Result<Reply, AllocError>
    ensures { (held : Jobs)
        → Progress (Exchanges D.step D.checkpoint_step D.read_step)
        (read_once held reading.now) desk.old result held desk.new }
{
    let shown = desk.read(reading, wait);
    read_reply(shown)
}

fn read_reply(shown: Result<Option<Showing>, AllocError>) -> Result<Reply, AllocError>
    ensures { option_map read_said (read_in shown) ≡ data_in result }
{
    match shown {
        Ok(Some(shown)) => Ok(Reply::Shown(shown)),
        Ok(None) => Ok(Reply::Refused(Refusal::Behind)),
        Err(error) => Err(error),
    }
}

/// Reads the units after a name.
fn answer_units_behind<D: Desk>(desk: &mut D, after: &str) -> Result<Reply, AllocError>
    ensures { (held : Jobs)
        → Progress (Exchanges D.step D.checkpoint_step D.read_step)
        (with_name held (name_of after.now)
        (λ name. read_once held (Units (Some name)))) desk.old result held desk.new }
{
    match Name::read(after) {
        Err(_) => Ok(Reply::Refused(Refusal::BadName)),
        Ok(after) => answer_reading(desk, &Reading::Units(Some(after)), 0),
    }
}

/// Reads the text of a unit of this name.
fn answer_text<D: Desk>(desk: &mut D, unit: &str) -> Result<Reply, AllocError>
    ensures { (held : Jobs)
        → Progress (Exchanges D.step D.checkpoint_step D.read_step)
        (with_name held (name_of unit.now)
        (λ name. read_once held (Text name))) desk.old result held desk.new }
{
    match Name::read(unit) {
        Err(_) => Ok(Reply::Refused(Refusal::BadName)),
        Ok(unit) => answer_reading(desk, &Reading::Text(unit), 0),
    }
}

/// Reads what is known of the key of a kind and a name.
fn answer_peek<D: Desk>(desk: &mut D, kind: Kind, unit: &str) -> Result<Reply, AllocError>
    ensures { (held : Jobs)
        → Progress (Exchanges D.step D.checkpoint_step D.read_step)
        (with_name held (name_of unit.now)
        (λ name. read_once held
        (Entry (record { kind = kind; unit = name })))) desk.old result held desk.new }
{
    match Name::read(unit) {
        Err(_) => Ok(Reply::Refused(Refusal::BadName)),
        Ok(unit) => answer_reading(desk, &Reading::Entry(Key { kind, unit }), 0),
    }
}

fn answer_read<D: Desk>(desk: &mut D, asked: &AskedReading<'_>) -> Result<Reply, AllocError>
    ensures { (held : Jobs)
        → Progress (Exchanges D.step D.checkpoint_step D.read_step)
        (read_plan held (reading_view asked.now)) desk.old result held desk.new }
{
    match asked {
        AskedReading::Status => answer_reading(desk, &Reading::Status, 0),
        AskedReading::Units(None) => answer_reading(desk, &Reading::Units(None), 0),
        AskedReading::Units(Some(after)) => answer_units_behind(desk, after),
        AskedReading::Text(unit) => answer_text(desk, unit),
        AskedReading::Peek { kind, unit } => answer_peek(desk, *kind, unit),
        AskedReading::Watch { after, wait } => {
            answer_reading(desk, &Reading::Events(*after), *wait)
        }
    }
}

/// Makes the calls of a request, its checkpoint or its read, and gives the reply.
pub(crate) fn answer<D: Desk>(
    alloc: Global,
    desk: &mut D,
    held: &mut Vec<Job>,
    request: &Option<Request<'_>>,
) -> Result<Reply, AllocError>
    ensures { Progress (Exchanges D.step D.checkpoint_step D.read_step)
        (plan_of held.old.items
        (option_map request_view request.now)) desk.old result held.new.items desk.new }
{
    match request {
        None => Ok(Reply::Refused(Refusal::BadRequest)),
        Some(Request::Commit(changes)) => answer_commit(alloc, desk, changes),
        Some(Request::Ask { kind, unit }) => answer_ask_named(desk, *kind, unit),
        Some(Request::Work(turns)) => answer_work(alloc, desk, *turns),
        Some(Request::Take) => answer_take(desk, held),
        Some(Request::Deliver(number)) => answer_number(alloc, desk, held, *number),
        Some(Request::GiveBack { kind, unit }) => answer_back_named(desk, *kind, unit),
        Some(Request::Checkpoint(limits)) => answer_checkpoint(desk, *limits),
        Some(Request::Read(reading)) => answer_read(desk, reading),
    }
}
