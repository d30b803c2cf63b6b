//! One session.
ghost use Rattle.std.specs.Prelude.{◌≡◌, [], false, map};
ghost use Rattle.fb_wire.specs.{Ends.{IsConversation, streams}, Conversations.{Runs}};
ghost use Rattle.fb_shared.specs.{Locked.Runs.{IsRun}, Seated.{SeatedStep}};
ghost use Rattle.fb_serve.specs.Sessions.{answered_in, call_shown};

use fb_shared::{Receipt, Seat, Seated, Shared};
use fb_wire::{Feed, RunEnd, Sink, run_lines};
use std::alloc::Global;
use std::sync::Wait;

/// How a session ended, its seat, and the receipts of all its answered calls.
#[derive(Drop)]
pub struct Session {
    pub end: RunEnd,
    pub seat: Seat,
    pub receipts: Vec<Receipt>,
}

/// Answers the lines of the reader, in order, by a shared workbench with this seat. A turn is one read.
pub fn run_session<R: Wait, F: Feed, S: Sink>(
    rt: &R,
    alloc: Global,
    shared: &Shared,
    seat: Seat,
    reader: &mut F,
    writer: &mut S,
    turns: u64,
) -> Session
    requires reader { F.has_failed reader.old ≡ false }
    requires open { F.has_ended reader.old ≡ false }
    requires writer { S.has_failed writer.old ≡ false }
    // The calls and their answers are those of the seat's desk, from no receipts on. The calls that were answered, with their replies, are those of the receipts.
    ensures conversation { (conversation : IsConversation false result.end turns
        (streams F.given F.left F.reads F.has_failed S.held S.is_flushed S.has_failed reader.old
        writer.old)
        (streams F.given F.left F.reads F.has_failed S.held S.is_flushed S.has_failed reader.new
        writer.new))
        × (answered_in conversation.pairs ≡ map call_shown result.receipts.items)
        × Runs SeatedStep (record { seat = seat; receipts = [] }) conversation.pairs
        (record { seat = result.seat; receipts = result.receipts.items }) }
    // The receipts are of calls with this seat, one after another.
    ensures run { IsRun seat result.receipts.items result.seat }
{
    let mut desk = Seated {
        rt,
        shared,
        seat,
        receipts: Vec::new(alloc),
    };
    let end = run_lines(alloc, reader, writer, &mut desk, turns);
    let Seated {
        rt: _,
        shared: _,
        seat,
        receipts,
    } = desk;
    Session {
        end,
        seat,
        receipts,
    }
}
