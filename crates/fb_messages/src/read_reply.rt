//! What reads show, as lines of JSON.
ghost use Rattle.fb_history.specs.{Reads.{event_in, showing_in}, Records.{shown_in}};
ghost use Rattle.fb_messages.specs.{Replies.{entry_said, event_said, page, reply_line, revision_said, showing_said}};
ghost use Rattle.std.specs.Prelude.{◌≡◌, IfOk};

use crate::reply::Refusal;
use crate::small_reply::{kind_text, line_of, missed, one_text, refused_unit, status, text_shown};
use crate::to_json::{ToJson, write_three, written_line};
use fb_history::{Asked, Event, Revision, Showing};
use json::Writer;
use std::alloc::{AllocError, Global};

impl ToJson for Revision {
    ghost said = { revision_said };

    fn write(&self, out: &mut Writer) -> Result<(), AllocError> {
        out.begin_array()?;
        self.unit.write(out)?;
        out.u64(self.number)?;
        out.end_array()
    }
}

impl ToJson for Event {
    ghost said = { λ event. event_said (event_in event) };

    fn write(&self, out: &mut Writer) -> Result<(), AllocError> {
        match self {
            Event::Commit {
                number,
                caller,
                put,
                removed,
            } => {
                out.begin_array()?;
                out.string("commit")?;
                out.u64(*number)?;
                out.u64(u64::from(*caller))?;
                put.write(out)?;
                removed.write(out)?;
                out.end_array()
            }
            Event::Value(key) => {
                write_three(out, "value", kind_text(key.kind), key.unit.as_str())
            }
        }
    }
}

/// A page of a list, with the number of a call.
#[derive(Clone, Copy)]
struct Page<'a, L> {
    at: u64,
    name: &'a str,
    list: &'a L,
}

impl<L: ToJson> ToJson for Page<'_, L> {
    ghost said = { λ it. page it.at it.name.now (L.said it.list.now) };

    fn write(&self, out: &mut Writer) -> Result<(), AllocError> {
        out.begin_object()?;
        out.key("at")?;
        out.u64(self.at)?;
        out.key(self.name)?;
        self.list.write(out)?;
        out.end_object()
    }
}

fn page_line<L: ToJson>(alloc: Global, at: u64, name: &str, list: &L) -> Result<Vec<u8>, AllocError>
    ensures { IfOk result (λ line. line.items ≡ reply_line (page at name.now (L.said list.now))) }
{
    written_line(alloc, &Page { at, name, list })
}

fn entry_line(alloc: Global, asked: &Asked) -> Result<Vec<u8>, AllocError>
    ensures { IfOk result (λ line. line.items ≡ reply_line (entry_said (shown_in asked.now))) }
{
    match asked {
        Asked::Value(value) => written_line(alloc, &**value),
        Asked::Pending => line_of(alloc, one_text(alloc, "answer", "pending")),
        Asked::NoSuchKey => {
            line_of(
                alloc,
                one_text(alloc, "refused", Refusal::NoSuchKey.as_str()),
            )
        }
    }
}

/// The line of what a read shows.
#[tactic(auto, using(crate::proofs::Rules::maps))]
pub(crate) fn shown_line(alloc: Global, shown: &Showing) -> Result<Vec<u8>, AllocError>
    ensures { IfOk result (λ line. line.items ≡ reply_line (showing_said (showing_in shown.now))) }
{
    match shown {
        Showing::Status { counts, workbench } => {
            line_of(alloc, status(alloc, counts, workbench.as_str()))
        }
        Showing::Units { at, units } => page_line(alloc, *at, "units", units),
        Showing::Text { at, base, text } => {
            line_of(alloc, text_shown(alloc, *at, *base, text.as_str()))
        }
        Showing::NoSuchUnit(unit) => line_of(alloc, refused_unit(alloc, Refusal::NoSuchUnit, unit)),
        Showing::Entry(asked) => entry_line(alloc, asked),
        Showing::Events { at, events } => page_line(alloc, *at, "events", events),
        Showing::Missed(at) => line_of(alloc, missed(alloc, *at)),
    }
}
