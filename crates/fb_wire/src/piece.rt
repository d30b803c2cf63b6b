//! Bytes as they come, and the lines in them.
ghost use Rattle.std.specs.Prelude.{◌≡◌, ◌↔◌, ◌≤◌, ◌<◌, ◌+◌, ◌==◌, ℕ, ◌∷◌, [], ◌++◌, IfErr, IsTrue, List, MatchOption, MatchResult, false, length, take};
ghost use Rattle.fb_bench.specs.Calls.{Exchanges};
ghost use Rattle.fb_streams.specs.Streams.{StaysFlushed};
ghost use Rattle.fb_wire.specs.{Lines.{IsLine}, Progress.{Extends, StopsInside}, Turns.{TakesPiece}};

use crate::end::RunEnd;
use crate::line::{Conversation, say_line};
use fb_bench::Desk;
use fb_streams::Sink;
use memchr::memchr;
use std::alloc::Global;

/// How long a line may be.
const MAX_LINE: usize = 1_048_576;

/// How many bytes are before the first line feed.
#[tactic(auto, using(crate::proofs::Cuts::line_before, crate::proofs::Cuts::line_to, crate::proofs::Cuts::take_feed))]
fn line_len(bytes: &[u8]) -> usize
    ensures within { result ≤ length bytes.now }
    ensures line { IsLine (take result bytes.now) }
    ensures end { result < length bytes.now
        → take (result + 1) bytes.now ≡ take result bytes.now ++ 10 ∷ [] }
{
    match memchr(b'\n', bytes) {
        Some(place) => place,
        None => bytes.len(),
    }
}

/// Adds bytes to a line that is not too long.
fn extend_line(line: &mut Vec<u8>, bytes: &[u8]) -> Result<(), RunEnd>
    ensures { Extends line.old.items bytes.now result line.new.items }
{
    if bytes.len() > MAX_LINE || line.len() > MAX_LINE - bytes.len() {
        return Err(RunEnd::LineTooLong);
    }
    match line.extend_from_slice(bytes) {
        Ok(()) => Ok(()),
        Err(_) => Err(RunEnd::Memory),
    }
}

/// Takes the rest of a line and its line feed, and answers the line.
fn end_line<D: Desk, S: Sink>(
    alloc: Global,
    desk: &mut D,
    conversation: &mut Conversation,
    writer: &mut S,
    prefix: &[u8],
) -> Result<(), RunEnd>
    requires open { S.has_failed writer.old ≡ false }
    requires line { IsLine prefix.now }
    // whatever comes after them
    ensures taken { (behind : List ℕ)
        → TakesPiece D.has_reads (Exchanges D.step D.checkpoint_step D.read_step) desk.old conversation.old (S.held writer.old)
        (prefix.now ++ 10 ∷ []) behind result desk.new conversation.new (S.held writer.new) }
    ensures flushed { StaysFlushed (S.is_flushed writer.old) (S.has_failed writer.new)
        (S.is_flushed writer.new) }
    ensures failed { IsTrue (S.has_failed writer.new) ↔ (result ≡ Err RunEnd.WriteFailed) }
    ensures inside { IfErr result StopsInside }
{
    match extend_line(&mut conversation.line, prefix) {
        Ok(()) => {}
        Err(end) => return Err(end),
    }
    match say_line(alloc, desk, conversation, writer) {
        Ok(()) => {
            conversation.line.clear();
            Ok(())
        }
        Err(end) => Err(end),
    }
}

/// Takes the next bytes, and answers each line that has its line feed now.
pub(crate) fn take_piece<D: Desk, S: Sink>(
    alloc: Global,
    desk: &mut D,
    conversation: &mut Conversation,
    writer: &mut S,
    piece: &[u8],
) -> Result<(), RunEnd>
    requires { S.has_failed writer.old ≡ false }
    ensures taken { TakesPiece D.has_reads (Exchanges D.step D.checkpoint_step D.read_step) desk.old conversation.old
        (S.held writer.old) piece.now [] result desk.new conversation.new (S.held writer.new) }
    ensures flushed { StaysFlushed (S.is_flushed writer.old) (S.has_failed writer.new)
        (S.is_flushed writer.new) }
    ensures failed { IsTrue (S.has_failed writer.new) ↔ (result ≡ Err RunEnd.WriteFailed) }
    ensures inside { IfErr result StopsInside }
{
    let mut at = 0;
    while at < piece.len() {
        let rest = &piece[at..];
        let len = line_len(rest);
        if len == rest.len() {
            return extend_line(&mut conversation.line, rest);
        }
        match end_line(alloc, desk, conversation, writer, &rest[..len]) {
            Ok(()) => at += len + 1,
            Err(end) => return Err(end),
        }
    }
    Ok(())
}
