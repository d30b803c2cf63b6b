//! The reply to one line.
ghost use Rattle.std.specs.Prelude.{◌≡◌, ◌↔◌, [], IfErr, IfOk, IsTrue, false, is_err, true};
ghost use Rattle.fb_bench.specs.Calls.{Exchanges};
ghost use Rattle.fb_wire.specs.{Lines.{is_blank}, Progress.{LineSaid, Progress, StopsInside}, Conversations.{plan_of}};
ghost use Rattle.fb_messages.specs.Requests.{request_of};
ghost use Rattle.fb_streams.specs.Streams.{StaysFlushed, WritesAll};

use crate::answer::answer;
use crate::end::RunEnd;
use fb_bench::Desk;
use fb_messages::jobs::Job;
use fb_messages::{Reply, request_in};
use fb_streams::{Sink, StreamError};
use serde_json::Value;
use std::alloc::{AllocError, Global};

fn is_blank(line: &[u8]) -> bool
    ensures { result ≡ is_blank line.now }
{
    line.iter()
        .all(|b| *b == b' ' || (*b == b'\t' || *b == b'\r'))
}

/// The reply to a line, which is a request or none.
fn answer_line<D: Desk>(
    alloc: Global,
    desk: &mut D,
    held: &mut Vec<Job>,
    line: &[u8],
) -> Result<Reply, AllocError>
    ensures { Progress (Exchanges D.step D.checkpoint_step D.read_step)
        (plan_of held.old.items (request_of D.has_reads line.now)) desk.old result held.new.items desk.new }
{
    let has_reads = desk.answers_reads();
    let mut read = Value::Null;
    let request = request_in(alloc, has_reads, line, &mut read)?;
    answer(alloc, desk, held, &request)
}

/// Writes all the bytes, and flushes.
pub fn write_all<S: Sink>(writer: &mut S, bytes: &[u8]) -> Result<(), StreamError>
    requires { S.has_failed writer.old ≡ false }
    ensures held { WritesAll (S.held writer.old) bytes.now result (S.held writer.new) }
    ensures flushed { IfOk result (λ _. S.is_flushed writer.new ≡ true) }
    ensures failed { S.has_failed writer.new ≡ is_err result }
{
    let mut at = 0;
    while at < bytes.len() {
        match writer.write(&bytes[at..]) {
            Ok(count) => at += count,
            Err(e) => return Err(e),
        }
    }
    writer.flush()
}

/// What a conversation keeps from one piece of the bytes to the next.
#[derive(Drop)]
pub(crate) struct Conversation {
    /// The jobs that were taken, in the order of their numbers.
    pub(crate) held: Vec<Job>,
    /// What was read of the next line.
    pub(crate) line: Vec<u8>,
}

impl Conversation {
    pub(crate) fn new(alloc: Global) -> Conversation
        ensures held { result.held.items ≡ [] }
        ensures line { result.line.items ≡ [] }
    {
        Conversation {
            held: Vec::new(alloc),
            line: Vec::new(alloc),
        }
    }
}

/// Answers the line that was read, and writes its reply.
pub(crate) fn say_line<D: Desk, S: Sink>(
    alloc: Global,
    desk: &mut D,
    conversation: &mut Conversation,
    writer: &mut S,
) -> Result<(), RunEnd>
    requires { S.has_failed writer.old ≡ false }
    ensures said { LineSaid D.has_reads (Exchanges D.step D.checkpoint_step D.read_step) conversation.old.line.items conversation.old.held.items desk.old
        (S.held writer.old) result conversation.new.held.items desk.new (S.held writer.new) }
    ensures flushed { StaysFlushed (S.is_flushed writer.old) (S.has_failed writer.new)
        (S.is_flushed writer.new) }
    ensures failed { IsTrue (S.has_failed writer.new) ↔ (result ≡ Err RunEnd.WriteFailed) }
    ensures inside { IfErr result StopsInside }
{
    if is_blank(&conversation.line) {
        return Ok(());
    }
    let Ok(reply) = answer_line(alloc, desk, &mut conversation.held, &conversation.line) else {
        return Err(RunEnd::Memory);
    };
    let Ok(text) = reply.line(alloc) else {
        return Err(RunEnd::Memory);
    };
    match write_all(writer, &text) {
        Ok(()) => Ok(()),
        Err(_) => Err(RunEnd::WriteFailed),
    }
}
