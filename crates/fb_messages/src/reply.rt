//! The replies, and their lines.
ghost use Rattle.std.specs.Prelude.{◌≡◌, IfOk};
ghost use Rattle.fb_messages.specs.{Replies.{reply_line}, ReplyView.{data_of, refusal_text}};

use crate::read_reply::shown_line;
use crate::small_reply::{
    job, line_of, one_count, one_text, refused_unit, returned, stale_base, work_refused,
};
use crate::to_json::written_line;
use fb_history::Showing;
use fb_jobs::{Key, Value};
use fb_text::Name;
use std::alloc::{AllocError, Global};
use std::sync::Arc;

/// Why a request is refused, by the word that the reply has.
#[derive(Clone, Copy, Debug, PartialEq, Eq)]
pub enum Refusal {
    BadRequest,
    BadName,
    TextTooLong,
    TooManyJobs,
    NoSuchJob,
    HistoryFull,
    Behind,
    NoChange,
    TooManyChanges,
    SameUnitTwice,
    NoSuchUnit,
    TooManyUnits,
    NoSuchKey,
    NotPending,
    Stale,
    UnitsOver,
    NumbersOver,
    NotAlone,
}

/// The reply to a line.
#[derive(Drop)]
pub enum Reply {
    Committed(u64),
    StaleBase { unit: Name, current: u64 },
    Pending,
    Found(Arc<Value>),
    Worked(u64),
    WorkRefused(u64, Refusal),
    Job(u64, Key),
    NoJob,
    Delivered,
    GivenBack(bool),
    Checkpointed(u64),
    Shown(Showing),
    Refused(Refusal),
    RefusedUnit(Refusal, Name),
}

impl Refusal {
    pub(crate) fn as_str(self) -> &'static str
        ensures { result.now ≡ refusal_text self }
    {
        match self {
            Refusal::BadRequest => "BadRequest",
            Refusal::BadName => "BadName",
            Refusal::TextTooLong => "TextTooLong",
            Refusal::TooManyJobs => "TooManyJobs",
            Refusal::NoSuchJob => "NoSuchJob",
            Refusal::HistoryFull => "HistoryFull",
            Refusal::Behind => "Behind",
            Refusal::NoChange => "NoChange",
            Refusal::TooManyChanges => "TooManyChanges",
            Refusal::SameUnitTwice => "SameUnitTwice",
            Refusal::NoSuchUnit => "NoSuchUnit",
            Refusal::TooManyUnits => "TooManyUnits",
            Refusal::NoSuchKey => "NoSuchKey",
            Refusal::NotPending => "NotPending",
            Refusal::Stale => "Stale",
            Refusal::UnitsOver => "UnitsOver",
            Refusal::NumbersOver => "NumbersOver",
            Refusal::NotAlone => "NotAlone",
        }
    }
}

impl Reply {
    /// The reply's line, with its line feed. Fails if there is no memory for it.
    pub fn line(&self, alloc: Global) -> Result<Vec<u8>, AllocError>
        ensures { IfOk result (λ line. line.items ≡ reply_line (data_of self.now)) }
    {
        match self {
            Reply::Committed(number) => line_of(alloc, one_count(alloc, "commit", *number)),
            Reply::StaleBase { unit, current } => line_of(alloc, stale_base(alloc, unit, *current)),
            Reply::Pending => line_of(alloc, one_text(alloc, "answer", "pending")),
            Reply::Found(value) => written_line(alloc, &**value),
            Reply::Worked(accepted) => line_of(alloc, one_count(alloc, "accepted", *accepted)),
            Reply::WorkRefused(accepted, refusal) => line_of(
                alloc,
                work_refused(alloc, *accepted, *refusal),
            ),
            Reply::Job(number, key) => line_of(alloc, job(alloc, *number, key)),
            Reply::NoJob => line_of(alloc, one_count(alloc, "job", 0)),
            Reply::Delivered => line_of(alloc, one_text(alloc, "delivered", "accepted")),
            Reply::GivenBack(was_out) => line_of(alloc, returned(alloc, *was_out)),
            Reply::Checkpointed(before) => line_of(alloc, one_count(alloc, "checkpoint", *before)),
            Reply::Shown(shown) => shown_line(alloc, shown),
            Reply::Refused(refusal) => line_of(alloc, one_text(alloc, "refused", refusal.as_str())),
            Reply::RefusedUnit(refusal, unit) => line_of(
                alloc,
                refused_unit(alloc, *refusal, unit),
            ),
        }
    }
}
