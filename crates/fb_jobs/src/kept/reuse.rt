//! Decides, without computing, whether the previous value still holds for what was read.
ghost use Rattle.std.specs.{Prelude.{◌≡◌, ℕ, List, Bool, true, IfOk}, List.{AllZip}};
ghost use Rattle.fb_deploy.specs.{Flatten.Hints.{is_whole_net}, Flatten.Net.{plain_net}};
ghost use Rattle.fb_jobs.specs.{Cached.{is_flagged}, Reuse.{AreStillRead, IsStillRead, IsStillText, MentionsTheSame, is_whole_value}};
ghost use Rattle.fb_jobs.specs.Values.{all_seen, seen_of, text_seen};

use crate::kept::cached::flag_at;
use crate::keys::read::Read;
use crate::keys::texts::{TextRead, TextReads};
use crate::values::value::Value;
use fb_deploy::Deploy;
use fb_deploy::flatten::{Net, has_same_interface};
use fb_deploy::parse::Source;
use fb_text::{Name, same_name};
use fb_tree::mention_the_same;
use std::alloc::{AllocError, Global};

/// Whether what is read under a name mentions what was mentioned there.
fn mentions_the_same(before: &TextRead<'_>, now: &Read) -> bool
    ensures { result ≡ true → MentionsTheSame (text_seen before.now) (seen_of now.now) }
{
    match (before.version, &now.source) {
        (None, None) => true,
        (Some(before), Some(now)) => mention_the_same(before.text.mentions(), now.mentions()),
        _ => false,
    }
}

/// Whether this holds at each place.
pub(crate) fn all_mention_the_same(before: &TextReads, now: &[Read]) -> bool
    ensures { result ≡ true → AllZip MentionsTheSame before.now (all_seen now.now) }
{
    if before.len() != now.len() {
        return false;
    }
    for place in 0..now.len() {
        let Some(read) = before.get(place) else {
            return false;
        };
        if !mentions_the_same(&read, &now[place]) {
            return false;
        }
    }
    true
}

/// Whether the text of a unit on which `unit` rests is the text before, or is of another unit and still a block type with the same interface.
fn is_still_text(
    alloc: Global,
    unit: &Name,
    name: &Name,
    before: &Source,
    now: &Source,
) -> Result<bool, AllocError>
    ensures { IfOk result
        (λ is. is ≡ true → IsStillText unit.now name.now before.now.text now.now.text) }
{
    if before.text() == now.text() {
        return Ok(true);
    }
    if same_name(name, unit) {
        return Ok(false);
    }
    has_same_interface(alloc, before, now)
}

/// Whether what is read under a name is what was read before, given whether its unit is known to have no faults.
fn is_still_read(
    alloc: Global,
    unit: &Name,
    is_faultless: bool,
    before: &Read,
    now: &Read,
) -> Result<bool, AllocError>
    ensures { IfOk result (λ is. is ≡ true → (faultless : List ℕ → Bool)
        → (is_faultless ≡ true → faultless now.now.name ≡ true)
        → IsStillRead unit.now faultless (seen_of before.now) (seen_of now.now)) }
{
    let name = now.name.name();
    if !same_name(&before.name.name(), &name) {
        return Ok(false);
    }
    match (&before.source, &now.source) {
        (None, None) => Ok(true),
        (Some(source), Some(other)) if is_faultless => {
            is_still_text(alloc, unit, &name, source, other)
        }
        _ => Ok(false),
    }
}

/// Whether this holds at each place. `faultless` shows for each read, by its place, whether its unit is known to be without faults.
pub(crate) fn are_still_read(
    alloc: Global,
    unit: &Name,
    faultless: &[bool],
    before: &[Read],
    now: &[Read],
) -> Result<bool, AllocError>
    ensures { IfOk result (λ are. are ≡ true
        → AreStillRead unit.now (is_flagged (all_seen now.now) faultless.now)
        (all_seen before.now) (all_seen now.now)) }
{
    if before.len() != now.len() {
        return Ok(false);
    }
    for place in 0..now.len() {
        let is_faultless = flag_at(faultless, place);
        if !is_still_read(alloc, unit, is_faultless, &before[place], &now[place])? {
            return Ok(false);
        }
    }
    Ok(true)
}

fn is_whole(net: &Net) -> bool
    ensures { result ≡ is_whole_net (plain_net net.now) }
{
    match net {
        Net::TooLarge | Net::Flat(_) => true,
        Net::Blocked(_) | Net::Recursive(_) => false,
    }
}

/// Whether a value is a net that nothing blocked and in which no type reaches itself, or a plan by such a net.
pub(crate) fn is_whole_value(value: &Value) -> bool
    ensures { result ≡ is_whole_value value.now }
{
    match value {
        Value::Net(net) | Value::Deploy(Deploy::Stopped(net)) => is_whole(net),
        Value::Deploy(Deploy::Faulty(_) | Deploy::Plan(_)) => true,
        Value::Faults(_) => false,
    }
}
