//! Replies of few members, as values of JSON.
ghost use Rattle.std.specs.Prelude.{◌≡◌, IfOk, codes};
ghost use Rattle.serde_json.specs.Data.{Data, string};
ghost use Rattle.fb_messages.specs.{ReplyView.{refusal_text}, Tokens.{Says}};
ghost use Rattle.fb_messages.specs.Replies.{count, job_given, kind_text, missed_said, one_member, refused_base, refused_unit, reply_line, returned, status_said, text_said, work_refused};

use crate::reply::Refusal;
use fb_history::Counts;
use fb_jobs::{Key, Kind};
use fb_text::Name;
use serde_json::{Value, json};
use std::alloc::{AllocError, Global};

/// The line of a value, with its line feed.
pub(crate) fn line_of(alloc: Global, made: Result<Value, AllocError>) -> Result<Vec<u8>, AllocError>
    ensures { (said : Data) → Says made said → IfOk result (λ line. line.items ≡ reply_line said) }
{
    let mut line = made?.to_vec(alloc)?;
    line.push(b'\n')?;
    Ok(line)
}

pub(crate) fn kind_text(kind: Kind) -> &'static str
    ensures { result.now ≡ kind_text kind }
{
    match kind {
        Kind::Faults => "faults",
        Kind::Net => "net",
        Kind::Deploy => "deploy",
    }
}

/// An object with one member, a number.
pub(crate) fn one_count(alloc: Global, name: &str, number: u64) -> Result<Value, AllocError>
    ensures { Says result (one_member name.now (count number)) }
{
    json!(in alloc; {name: number})
}

/// An object with one member, a text.
pub(crate) fn one_text(alloc: Global, name: &str, text: &str) -> Result<Value, AllocError>
    ensures { Says result (one_member name.now (string text.now)) }
{
    json!(in alloc; {name: text})
}

pub(crate) fn returned(alloc: Global, was_out: bool) -> Result<Value, AllocError>
    ensures { Says result (returned was_out) }
{
    json!(in alloc; {"returned": was_out})
}

pub(crate) fn stale_base(alloc: Global, unit: &Name, current: u64) -> Result<Value, AllocError>
    ensures { Says result (refused_base unit.now current) }
{
    json!(in alloc; {"current": current, "refused": "StaleBase", "unit": unit.as_str()})
}

pub(crate) fn work_refused(
    alloc: Global,
    accepted: u64,
    refusal: Refusal,
) -> Result<Value, AllocError>
    ensures { Says result (work_refused accepted (refusal_text refusal)) }
{
    json!(in alloc; {"accepted": accepted, "refused": refusal.as_str()})
}

pub(crate) fn job(alloc: Global, number: u64, key: &Key) -> Result<Value, AllocError>
    ensures { Says result (job_given number key.now) }
{
    json!(in alloc; {"job": number, "kind": kind_text(key.kind), "unit": key.unit.as_str()})
}

pub(crate) fn refused_unit(
    alloc: Global,
    refusal: Refusal,
    unit: &Name,
) -> Result<Value, AllocError>
    ensures { Says result (refused_unit (refusal_text refusal) unit.now) }
{
    json!(in alloc; {"refused": refusal.as_str(), "unit": unit.as_str()})
}

pub(crate) fn status(alloc: Global, counts: &Counts, workbench: &str) -> Result<Value, AllocError>
    ensures { Says result (status_said counts.now workbench.now) }
{
    json!(in alloc; {"status": {
        "calls": counts.calls,
        "commits": counts.commits,
        "keys": counts.keys,
        "pending": counts.pending,
        "session": counts.session,
        "units": counts.units,
        "workbench": workbench,
    }})
}

pub(crate) fn text_shown(alloc: Global, at: u64, base: u64, text: &str) -> Result<Value, AllocError>
    ensures { Says result (text_said at base text.now) }
{
    json!(in alloc; {"at": at, "base": base, "text": text})
}

pub(crate) fn missed(alloc: Global, at: u64) -> Result<Value, AllocError>
    ensures { Says result (missed_said at) }
{
    json!(in alloc; {"at": at, "missed": true})
}
