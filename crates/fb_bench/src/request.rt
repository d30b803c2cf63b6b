//! Calls to be made, and what is recorded of jobs and results.
ghost use Rattle.std.specs.Prelude.{◌≡◌, IfOk, Some};
ghost use Rattle.fb_history.specs.{Machine.{ToDeliver, OfTake}, Records.{call_of, reply_of}};

use fb_entries::jobs::{Finished, Job, Key};
use fb_entries::library::Change;
use fb_history::{Call, Reply, Wanted};
use std::alloc::AllocError;
use std::sync::Arc;

/// A call to be made.
#[derive(Clone, Copy)]
pub enum Request<'a> {
    Commit(&'a [Change]),
    Take,
    Deliver(&'a Finished),
    GiveBack(Key),
    Ask(Key),
}

/// The delivery of a result, sharing its texts.
pub(crate) fn call_of_result(key: Arc<Key>, finished: &Finished) -> Result<Call, AllocError>
    requires { key.value ≡ finished.now.key }
    ensures { IfOk result (λ it. call_of it ≡ ToDeliver finished.now) }
{
    let reads = finished.texts().clone()?;
    Ok(Call::Deliver(Wanted { key, reads }))
}

/// The job that is handed out, sharing its texts.
pub(crate) fn reply_of_job(key: Arc<Key>, job: &Job) -> Result<Reply, AllocError>
    requires { key.value ≡ job.now.key }
    ensures { IfOk result (λ it. reply_of it ≡ OfTake (Some job.now)) }
{
    let reads = job.texts().clone()?;
    Ok(Reply::Job(Wanted { key, reads }))
}
