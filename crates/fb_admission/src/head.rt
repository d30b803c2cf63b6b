//! The first line of a connection.
ghost use Rattle.std.specs.Prelude.{◌≡◌, ◌↔◌, ◌<◌, ◌≤◌, IfErr, IfOk, IsTrue, List, MatchOption, None, false, is_some, length, ℕ};
ghost use Rattle.std.specs.List.{position};
ghost use Rattle.fb_admission.specs.Heads.{BeginsRequest, IsFirstLine, ProvesNothing, ShowsSort};
ghost use Rattle.fb_admission.specs.Heads.{is_blank, is_feed, is_mark};
ghost use Rattle.fb_secret.specs.Exchange.{IsAnswer};

use fb_secret::host_answer;
use std::alloc::{AllocError, Global};

/// How many bytes of a first line are waited for.
const FIRST_LINE_SIZE: usize = 8_192;

/// The place of the first line feed.
fn first_feed(bytes: &[u8]) -> Option<usize>
    ensures { result ≡ position is_feed bytes.now }
{
    bytes.iter().position(|byte| *byte == b'\n')
}

/// The first line, with its line feed, and what comes after it.
fn first_line(bytes: &[u8]) -> Option<(&[u8], &[u8])>
    ensures { MatchOption result (position is_feed bytes.now ≡ None)
        (λ parts. IsFirstLine bytes.now parts.0.now parts.1.now) }
{
    match first_feed(bytes) {
        Some(end) => Some(bytes.split_at(end + 1)),
        None => None,
    }
}

/// Takes the first line off the bytes, and gives what the host answers to it, if it proves the secret for this challenge. None if there is no line or it
/// does not. Then, and without memory, the bytes stay as they are.
#[tactic(auto, using(crate::proofs::FirstLines::foreign))]
pub fn take_proof(
    alloc: Global,
    head: &mut Vec<u8>,
    secret: &[u8],
    challenge: &[u8],
) -> Result<Option<Vec<u8>>, AllocError>
    ensures proof { IfOk result (λ answer.
        MatchOption answer
        (ProvesNothing secret.now challenge.now head.old.items × (head.new.items ≡ head.old.items))
        (λ bytes. (line : List ℕ)
        × IsFirstLine head.old.items line head.new.items
        × IsAnswer secret.now challenge.now line bytes.items)) }
    ensures memory { IfErr result (λ _. head.new.items ≡ head.old.items) }
{
    let Some((line, rest)) = first_line(head) else {
        return Ok(None);
    };
    let Some(answer) = host_answer(alloc, secret, challenge, line)? else {
        return Ok(None);
    };
    *head = rest.to_vec(alloc)?;
    Ok(Some(answer))
}

/// Whether the byte is a space, a tab or an end of a line.
fn is_blank(byte: u8) -> bool
    ensures { result ≡ is_blank byte }
{
    byte == b' ' || (byte == b'\t' || (byte == b'\n' || byte == b'\r'))
}

/// The place of the first byte that is no blank.
fn first_mark(bytes: &[u8]) -> Option<usize>
    ensures { result ≡ position is_mark bytes.now }
{
    bytes.iter().position(|byte| !is_blank(*byte))
}

/// Whether the bytes begin as a request does: the first one that is no blank is a `{`. No request of HTTP and no greeting of TLS begins so.
pub fn begins_request(bytes: &[u8]) -> bool
    ensures { IsTrue result ↔ BeginsRequest bytes.now }
{
    match first_mark(bytes) {
        Some(place) => bytes.get(place).copied() == Some(b'{'),
        None => false,
    }
}

/// Whether a line has ended.
fn has_line(bytes: &[u8]) -> bool
    ensures { result ≡ is_some (position is_feed bytes.now) }
{
    first_feed(bytes).is_some()
}

/// Whether the bytes show of what sort they are: the first one that is no blank begins no request, or its line has ended.
fn shows_sort(bytes: &[u8]) -> bool
    ensures { ShowsSort bytes.now (position is_mark bytes.now) result }
{
    match first_mark(bytes) {
        Some(place) => !begins_request(bytes) || has_line(bytes.split_at(place).1),
        None => false,
    }
}

/// Whether enough was read to check a connection: its first line, or, if there is no secret, the line of its first request, or another first byte.
pub(crate) fn is_enough(head: &[u8], has_secret: bool) -> bool
    ensures size { 8192 ≤ length head.now → IsTrue result }
    ensures secret { length head.now < 8192 → IsTrue has_secret
        → result ≡ is_some (position is_feed head.now) }
    ensures open { length head.now < 8192 → has_secret ≡ false
        → ShowsSort head.now (position is_mark head.now) result }
{
    if FIRST_LINE_SIZE <= head.len() {
        return true;
    }
    if has_secret {
        has_line(head)
    } else {
        shows_sort(head)
    }
}
