//! The records of a history. They keep texts, and no trees.
//! A tree takes twenty times its text, and a history keeps every text until the next checkpoint. A recorded question shares the key of its entry:
//! two pointers rather than 66 bytes.
ghost use Rattle.std.specs.Prelude.{◌≡◌, IfOk};
ghost use Rattle.fb_jobs.specs.Library.Changes.{edit_of, edits_of};
ghost use Rattle.fb_history.specs.{Machine.{OfCommit, OfDeliver}, Records.{text_edit, text_edits, reply_of}};

use crate::answers::{Committed, Delivered, GivenBack};
use crate::same::{is_same_call, is_same_reply};
use fb_jobs::library::Change;
use fb_jobs::{Key, TextReads, Value};
use fb_text::Name;
use std::alloc::{AllocError, Global};
use std::marker::Model;
use std::sync::Arc;

/// A key with the texts that a job for it has read. Both are shared with what the workbench keeps.
pub struct Wanted {
    pub key: Arc<Key>,
    pub reads: Arc<TextReads>,
}

impl Drop for Wanted {
    fn drop(self) {
        let Self { key: _, reads: _ } = self;
    }
}

/// A change as it is recorded.
pub enum TextChange {
    Put {
        unit: Name,
        base: u64,
        text: Arc<String>,
    },
    Remove {
        unit: Name,
        base: u64,
    },
}

impl Drop for TextChange {
    fn drop(self) {
        match self {
            Self::Put {
                unit: _,
                base: _,
                text: _,
            }
            | Self::Remove { unit: _, base: _ } => {}
        }
    }
}

impl TextChange {
    fn of_change(change: &Change) -> Result<TextChange, AllocError>
        ensures { IfOk result (λ it. text_edit it ≡ edit_of change.now) }
    {
        match change {
            Change::Put { base, source } => {
                let text = source.shared_text().clone()?;
                Ok(TextChange::Put {
                    unit: source.unit(),
                    base: *base,
                    text,
                })
            }
            Change::Remove { unit, base } => Ok(TextChange::Remove {
                unit: *unit,
                base: *base,
            }),
        }
    }

    /// The changes as they are recorded, sharing their texts, in a box.
    pub fn of_changes(alloc: Global, changes: &[Change]) -> Result<Box<Vec<TextChange>>, AllocError>
        ensures { IfOk result (λ made. text_edits made.value.items ≡ edits_of changes.now) }
    {
        let made = TextChange::all_of(alloc, changes)?;
        Ok(Box::new(alloc, made)?)
    }

    fn all_of(alloc: Global, changes: &[Change]) -> Result<Vec<TextChange>, AllocError>
        ensures { IfOk result (λ made. text_edits made.items ≡ edits_of changes.now) }
    {
        let mut made = Vec::with_capacity(alloc, changes.len())?;
        for change in changes {
            made.push(TextChange::of_change(change)?)?;
        }
        Ok(made)
    }
}

/// A recorded call, in 24 bytes: what is larger is in a box, or is shared with what the workbench keeps of the key.
pub enum Call {
    Commit(Box<Vec<TextChange>>),
    Take,
    Deliver(Wanted),
    GiveBack(Arc<Key>),
    Ask(Arc<Key>),
}

impl Drop for Call {
    fn drop(self) {
        match self {
            Self::Commit(_) | Self::Take | Self::Deliver(_) | Self::GiveBack(_) | Self::Ask(_) => {}
        }
    }
}

/// The answer to a recorded call, in 24 bytes: what is larger is in a box, or is shared.
pub enum Reply {
    Committed(Box<Committed>),
    /// The job that is handed out.
    Job(Wanted),
    /// There is no job to hand out.
    Nothing,
    /// The result is accepted.
    Accepted,
    NotAccepted(Box<Delivered>),
    GivenBack(GivenBack),
    /// The value of the key.
    Value(Arc<Value>),
    /// The key is pending.
    Pending,
    NoSuchKey,
}

impl Drop for Reply {
    fn drop(self) {
        match self {
            Self::Committed(_)
            | Self::Job(_)
            | Self::Nothing
            | Self::Accepted
            | Self::NotAccepted(_)
            | Self::GivenBack(_)
            | Self::Value(_)
            | Self::Pending
            | Self::NoSuchKey => {}
        }
    }
}

impl Reply {
    /// The result of a commit.
    pub fn of_commit(alloc: Global, answer: Committed) -> Result<Reply, AllocError>
        ensures { IfOk result (λ it. reply_of it ≡ OfCommit answer) }
    {
        Ok(Reply::Committed(Box::new(alloc, answer)?))
    }

    /// Whether a result was accepted.
    pub fn of_delivery(alloc: Global, answer: Delivered) -> Result<Reply, AllocError>
        ensures { IfOk result (λ it. reply_of it ≡ OfDeliver answer) }
    {
        match answer {
            Delivered::Accepted => Ok(Reply::Accepted),
            refused => Ok(Reply::NotAccepted(Box::new(alloc, refused)?)),
        }
    }
}

/// One call of the history. `turn` counts its caller's recorded calls up to this one.
pub struct Record {
    pub(crate) caller: u32,
    pub(crate) turn: u64,
    pub(crate) call: Call,
    pub(crate) reply: Reply,
}

impl Drop for Record {
    fn drop(self) {
        let Self {
            caller: _,
            turn: _,
            call: _,
            reply: _,
        } = self;
    }
}

impl Model for Record {
    ghost use Rattle.fb_history.specs.BenchView as bench;

    ghost Value = { bench.Record };

    ghost use Rattle.fb_history.specs.Records.{call_of, reply_of};

    ghost view = { λ it. record { caller = it.caller; turn = it.turn; call = call_of it.call; reply = reply_of it.reply } };
}

impl Record {
    ghost use Rattle.std.specs.Prelude.{◌≡◌, ◌↔◌, IsTrue};
    ghost use Rattle.fb_history.specs.Records.{call_of, reply_of};

    /// Who made the call.
    pub fn caller(&self) -> u32
        ensures { result ≡ self.now.caller }
    {
        self.caller
    }

    /// How many recorded calls its caller had made then, this one included.
    pub fn turn(&self) -> u64
        ensures { result ≡ self.now.turn }
    {
        self.turn
    }

    pub fn call(&self) -> &Call
        ensures { call_of result.now ≡ self.now.call }
    {
        &self.call
    }

    pub fn reply(&self) -> &Reply
        ensures { reply_of result.now ≡ self.now.reply }
    {
        &self.reply
    }

    /// Whether both are the same by content: of one caller and turn, with the same call and the same answer.
    pub fn is_same(&self, other: &Record) -> bool
        ensures { IsTrue result ↔ (self.now ≡ other.now) }
    {
        other.caller == self.caller
            && self.turn == other.turn
            && is_same_call(&self.call, &other.call)
            && is_same_reply(&self.reply, &other.reply)
    }
}
