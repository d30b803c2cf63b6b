//! From a line to the request that it is.
ghost use Rattle.std.specs.Prelude.{◌≡◌, IfOk, codes, map, option_and_then, option_map};
ghost use Rattle.fb_messages.specs.Requests.{change_in, changes_of, checkpoint_in, commit_in, kind_in, member_text, number_at, reading_by, request_in, request_of, small_request_by, units_in};
ghost use Rattle.fb_messages.specs.RequestView.{change_view, reading_view, request_view};
ghost use Rattle.serde_json.specs.View.{items_view, view};

use fb_history::Limits;
use fb_jobs::Kind;
use serde_json::Value;
use std::alloc::{AllocError, Global};

/// How many turns one request for work has at most.
const MOST_TURNS: u64 = 1_000;

/// How many milliseconds a watch waits at most.
const MOST_WAIT: u64 = 30_000;

/// A change of a commit, before its name is read. It lends its texts from the line.
#[derive(Clone, Copy)]
pub enum AskedChange<'a> {
    Put {
        unit: &'a str,
        base: u64,
        text: &'a str,
    },
    Remove {
        unit: &'a str,
        base: u64,
    },
}

/// What is read, before its name is read. It lends its texts from the line.
#[derive(Clone, Copy)]
pub enum AskedReading<'a> {
    Status,
    Units(Option<&'a str>),
    Text(&'a str),
    Peek { kind: Kind, unit: &'a str },
    Watch { after: u64, wait: u64 },
}

/// A request, before its names are read. It lends its texts from the line.
#[derive(Drop)]
pub enum Request<'a> {
    Commit(Vec<AskedChange<'a>>),
    Ask { kind: Kind, unit: &'a str },
    Work(u64),
    Take,
    Deliver(u64),
    GiveBack { kind: Kind, unit: &'a str },
    Checkpoint(Limits),
    Read(AskedReading<'a>),
}

fn member_text<'a>(value: &'a Value, name: &str) -> Option<&'a str>
    ensures { option_map (λ s. s.now) result ≡ member_text name.now (view value.now) }
{
    value.get(name)?.as_str()
}

fn number_at(value: &Value, name: &str) -> Option<u64>
    ensures { result ≡ number_at name.now (view value.now) }
{
    value.get(name)?.as_u64()
}

fn kind_in(value: &Value) -> Option<Kind>
    ensures { result ≡ kind_in (view value.now) }
{
    match member_text(value, "kind")? {
        "faults" => Some(Kind::Faults),
        "net" => Some(Kind::Net),
        "deploy" => Some(Kind::Deploy),
        _ => None,
    }
}

/// A change has one of `put` and `remove`.
fn change_in<'a>(value: &'a Value) -> Option<AskedChange<'a>>
    ensures { option_map change_view result ≡ change_in (view value.now) }
{
    match (value.get("put"), value.get("remove")) {
        (Some(_), None) => Some(AskedChange::Put {
            unit: member_text(value, "put")?,
            base: number_at(value, "base")?,
            text: member_text(value, "text")?,
        }),
        (None, Some(_)) => Some(AskedChange::Remove {
            unit: member_text(value, "remove")?,
            base: number_at(value, "base")?,
        }),
        _ => None,
    }
}

#[tactic(auto, using(crate::proofs::Rules::joins))]
fn changes_of<'a>(
    alloc: Global,
    values: &'a [Value],
) -> Result<Option<Vec<AskedChange<'a>>>, AllocError>
    ensures { IfOk result
        (λ found. option_map (λ changes. map change_view changes.items) found
        ≡ changes_of (items_view values.now)) }
{
    let mut changes = Vec::new(alloc);
    for value in values {
        match change_in(value) {
            Some(change) => changes.push(change)?,
            None => return Ok(None),
        }
    }
    Ok(Some(changes))
}

fn commit_in<'a>(alloc: Global, value: &'a Value) -> Result<Option<Request<'a>>, AllocError>
    ensures { IfOk result (λ found. option_map request_view found ≡ commit_in (view value.now)) }
{
    let Some(values) = value.get("changes").and_then(Value::as_array) else {
        return Ok(None);
    };
    Ok(changes_of(alloc, values)?.map(Request::Commit))
}

#[tactic(auto, using(std::proofs::lemmas::Bool::Decides::nat_tests))]
fn checkpoint_in<'a>(value: &'a Value) -> Option<Request<'a>>
    ensures { option_map request_view result ≡ checkpoint_in (view value.now) }
{
    let units = number_at(value, "units")?;
    let history = number_at(value, "history")?;
    let limits = Limits::new(units, history)?;
    Some(Request::Checkpoint(limits))
}

/// The units are all, or those after one.
fn units_in<'a>(value: &'a Value) -> Option<AskedReading<'a>>
    ensures { option_map reading_view result ≡ units_in (view value.now) }
{
    match value.get("after") {
        None => Some(AskedReading::Units(None)),
        Some(after) => Some(AskedReading::Units(Some(after.as_str()?))),
    }
}

fn reading_by<'a>(op: &str, value: &'a Value) -> Option<AskedReading<'a>>
    ensures { option_map reading_view result ≡ reading_by op.now (view value.now) }
{
    match op {
        "status" => Some(AskedReading::Status),
        "units" => units_in(value),
        "text" => Some(AskedReading::Text(member_text(value, "unit")?)),
        "peek" => Some(AskedReading::Peek {
            kind: kind_in(value)?,
            unit: member_text(value, "unit")?,
        }),
        "watch" => {
            let after = number_at(value, "after")?;
            let wait = number_at(value, "wait")?;
            (wait <= MOST_WAIT).then_some(AskedReading::Watch { after, wait })
        }
        _ => None,
    }
}

/// Any request but a commit.
fn small_request_by<'a>(has_reads: bool, op: &str, value: &'a Value) -> Option<Request<'a>>
    ensures { option_map request_view result
        ≡ small_request_by has_reads op.now (view value.now) }
{
    match op {
        "ask" => Some(Request::Ask {
            kind: kind_in(value)?,
            unit: member_text(value, "unit")?,
        }),
        "work" => {
            let turns = number_at(value, "turns")?;
            (1 <= turns && turns <= MOST_TURNS).then_some(Request::Work(turns))
        }
        "take" => Some(Request::Take),
        "deliver" => Some(Request::Deliver(number_at(value, "job")?)),
        "give_back" => Some(Request::GiveBack {
            kind: kind_in(value)?,
            unit: member_text(value, "unit")?,
        }),
        "checkpoint" => checkpoint_in(value),
        _ if has_reads => Some(Request::Read(reading_by(op, value)?)),
        _ => None,
    }
}

/// The request that a value is, or None: its op is unknown, or a member is missing, is of another kind or out of its
/// range.
#[tactic(auto, unfolding(crate::specs::Requests::request_in))]
fn request_of_value<'a>(
    alloc: Global,
    has_reads: bool,
    value: &'a Value,
) -> Result<Option<Request<'a>>, AllocError>
    ensures { IfOk result
        (λ found. option_map request_view found ≡ request_in has_reads (view value.now)) }
{
    match member_text(value, "op") {
        None => Ok(None),
        Some(op) if op == "commit" => commit_in(alloc, value),
        Some(op) => Ok(small_request_by(has_reads, op, value)),
    }
}

/// The request that a line is, or None; a read only if there are reads. The line is read into `read`, from which the request lends its texts. Fails if there is
/// no memory for the values in it.
#[tactic(auto, using(crate::proofs::Rules::texts), unfolding(crate::specs::Requests::request_of))]
pub fn request_in<'a>(
    alloc: Global,
    has_reads: bool,
    line: &[u8],
    read: &'a mut Value,
) -> Result<Option<Request<'a>>, AllocError>
    ensures { IfOk result
        (λ found. option_map request_view found ≡ request_of has_reads line.now) }
{
    match Value::from_slice(alloc, line) {
        Ok(value) => {
            *read = value;
            request_of_value(alloc, has_reads, read)
        }
        Err(error) if error.is_memory() => Err(AllocError),
        Err(_) => Ok(None),
    }
}
