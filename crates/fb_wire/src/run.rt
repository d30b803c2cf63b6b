//! The whole conversation.
ghost use Rattle.std.specs.Prelude.{◌≡◌, ◌↔◌, ◌≤◌, ◌<◌, ◌+◌, ℕ, [], ◌++◌, Err, IfErr, IsTrue, List, Ok, OnOk, false, length};
ghost use Rattle.std.specs.Io.KnownBytes.{Consumes, IsAtEnd};
ghost use Rattle.fb_bench.specs.{Calls.{Exchanges}, Solo.{IsStep}};
ghost use Rattle.fb_streams.specs.Streams.{StaysFlushed};
ghost use Rattle.fb_wire.specs.{Ends.{IsConversation, streams}, Script.{SaysBy}, Turns.{StopsAtEnd, StopsRead, TakesPiece}, Conversations.{Runs}};

use crate::end::RunEnd;
use crate::line::{Conversation, say_line};
use crate::piece::take_piece;
use fb_bench::{Bench, Desk, Solo};
use fb_streams::{Feed, Sink};
use std::alloc::Global;

/// How many bytes one read may give.
const READ_SIZE: usize = 8_192;

/// Answers the last line, which has no line feed, and ends the conversation.
fn end_conversation<D: Desk, S: Sink>(
    alloc: Global,
    desk: &mut D,
    conversation: &mut Conversation,
    writer: &mut S,
) -> RunEnd
    requires { S.has_failed writer.old ≡ false }
    ensures taken { TakesPiece D.has_reads (Exchanges D.step D.checkpoint_step D.read_step) desk.old conversation.old (S.held writer.old) [] []
        (Err result) desk.new conversation.new (S.held writer.new) }
    ensures flushed { StaysFlushed (S.is_flushed writer.old) (S.has_failed writer.new)
        (S.is_flushed writer.new) }
    ensures failed { IsTrue (S.has_failed writer.new) ↔ (result ≡ RunEnd.WriteFailed) }
    ensures end { StopsAtEnd result }
{
    match say_line(alloc, desk, conversation, writer) {
        Ok(()) => RunEnd::End,
        Err(end) => end,
    }
}

/// Reads once, and takes what was read; at the end of the input it ends the conversation.
fn take_turn<F: Feed, S: Sink, D: Desk>(
    alloc: Global,
    reader: &mut F,
    writer: &mut S,
    desk: &mut D,
    conversation: &mut Conversation,
    buffer: &mut [u8],
) -> Result<(), RunEnd>
    requires reader { F.has_failed reader.old ≡ false }
    requires open { F.has_ended reader.old ≡ false }
    requires writer { S.has_failed writer.old ≡ false }
    requires room { 0 < length buffer.old }
    ensures taken { (bytes : List ℕ)
        × (F.given reader.new ≡ F.given reader.old ++ bytes)
        × Consumes (F.left reader.old) (F.left reader.new) bytes
        × TakesPiece D.has_reads (Exchanges D.step D.checkpoint_step D.read_step) desk.old conversation.old (S.held writer.old) bytes [] result desk.new conversation.new
        (S.held writer.new) }
    ensures whole { result ≡ Err RunEnd.End → IsAtEnd (F.left reader.new) }
    ensures turn { F.reads reader.new ≡ F.reads reader.old + 1 }
    ensures gave { OnOk result (length (F.given reader.old) < length (F.given reader.new)) }
    ensures open { OnOk result (F.has_ended reader.new ≡ false) }
    ensures read_failed { IsTrue (F.has_failed reader.new) ↔ (result ≡ Err RunEnd.ReadFailed) }
    ensures flushed { StaysFlushed (S.is_flushed writer.old) (S.has_failed writer.new)
        (S.is_flushed writer.new) }
    ensures write_failed { IsTrue (S.has_failed writer.new) ↔ (result ≡ Err RunEnd.WriteFailed) }
    ensures end { IfErr result StopsRead }
{
    match reader.read(buffer) {
        Ok(count) => {
            if count == 0 {
                Err(end_conversation(alloc, desk, conversation, writer))
            } else {
                take_piece(alloc, desk, conversation, writer, &buffer[..count])
            }
        }
        Err(_) => Err(RunEnd::ReadFailed),
    }
}

/// Answers the lines of the reader, in order, by the calls of the desk, and writes the replies. A turn is one
/// read. If the turns are over before the end of the input, the reader can continue.
pub fn run_lines<F: Feed, S: Sink, D: Desk>(
    alloc: Global,
    reader: &mut F,
    writer: &mut S,
    desk: &mut D,
    turns: u64,
) -> RunEnd
    requires reader { F.has_failed reader.old ≡ false }
    requires open { F.has_ended reader.old ≡ false }
    requires writer { S.has_failed writer.old ≡ false }
    ensures conversation { (conversation : IsConversation D.has_reads result turns
        (streams F.given F.left F.reads F.has_failed S.held S.is_flushed S.has_failed reader.old
        writer.old)
        (streams F.given F.left F.reads F.has_failed S.held S.is_flushed S.has_failed reader.new
        writer.new))
        × Runs (Exchanges D.step D.checkpoint_step D.read_step) desk.old conversation.pairs desk.new }
    ensures open { result ≡ RunEnd.TurnsOver → F.has_ended reader.new ≡ false }
{
    let mut conversation = Conversation::new(alloc);
    let mut buffer = [0; READ_SIZE];
    for _turn in 0..turns {
        match take_turn(alloc, reader, writer, desk, &mut conversation, &mut buffer) {
            Ok(()) => {}
            Err(end) => return end,
        }
    }
    RunEnd::TurnsOver
}

/// Runs the conversation on a workbench, as this caller.
pub fn run_script<F: Feed, S: Sink>(
    alloc: Global,
    reader: &mut F,
    writer: &mut S,
    bench: &mut Bench,
    caller: u32,
    turns: u64,
) -> RunEnd
    requires reader { F.has_failed reader.old ≡ false }
    requires open { F.has_ended reader.old ≡ false }
    requires writer { S.has_failed writer.old ≡ false }
    // Each answer is the machine's, from the state before on: what is written is the script's output, or a prefix of it.
    ensures { (conversation : IsConversation false result turns
        (streams F.given F.left F.reads F.has_failed S.held S.is_flushed S.has_failed reader.old
        writer.old)
        (streams F.given F.left F.reads F.has_failed S.held S.is_flushed S.has_failed reader.new
        writer.new))
        × Runs (IsStep caller) bench.old conversation.pairs bench.new
        × SaysBy result caller bench.old conversation.bytes conversation.out bench.new }
{
    let mut solo = Solo::new(bench, caller);
    run_lines(alloc, reader, writer, &mut solo, turns)
}
