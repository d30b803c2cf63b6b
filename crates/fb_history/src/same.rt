//! Whether two records have the same content.
ghost use Rattle.std.specs.Prelude.{◌≡◌, ◌↔◌, IsTrue, string_bytes};
ghost use Rattle.fb_history.specs.Records.{wanted_job, text_edit, text_edits, call_of, reply_of};

use crate::answers::{Committed, Delivered, GivenBack};
use crate::record::{Call, Reply, TextChange, Wanted};
use fb_jobs::{Key, is_one_name, is_same_value};

/// Whether both are the same call.
pub(crate) fn is_same_call(a: &Call, b: &Call) -> bool
    ensures { IsTrue result ↔ (call_of a.now ≡ call_of b.now) }
{
    match (a, b) {
        (Call::Commit(a), Call::Commit(b)) => are_same_changes(a.as_slice(), b.as_slice()),
        (Call::Take, Call::Take) => true,
        (Call::Deliver(a), Call::Deliver(b)) => is_same_wanted(a, b),
        (Call::GiveBack(a), Call::GiveBack(b)) => is_one_key(a, b),
        (Call::Ask(a), Call::Ask(b)) => is_one_key(a, b),
        _ => false,
    }
}

/// Whether both are the same answer.
pub(crate) fn is_same_reply(a: &Reply, b: &Reply) -> bool
    ensures { IsTrue result ↔ (reply_of a.now ≡ reply_of b.now) }
{
    match (a, b) {
        (Reply::Committed(a), Reply::Committed(b)) => is_same_end(a, b),
        (Reply::Job(a), Reply::Job(b)) => is_same_wanted(a, b),
        (Reply::Nothing, Reply::Nothing) => true,
        (Reply::Accepted, Reply::Accepted) => true,
        (Reply::Accepted, Reply::NotAccepted(b)) => is_same_delivery(&Delivered::Accepted, b),
        (Reply::NotAccepted(a), Reply::Accepted) => is_same_delivery(a, &Delivered::Accepted),
        (Reply::NotAccepted(a), Reply::NotAccepted(b)) => is_same_delivery(a, b),
        (Reply::GivenBack(a), Reply::GivenBack(b)) => is_same_return(a, b),
        (Reply::Value(a), Reply::Value(b)) => is_same_value(a, b),
        (Reply::Pending, Reply::Pending) => true,
        (Reply::NoSuchKey, Reply::NoSuchKey) => true,
        _ => false,
    }
}

fn is_one_key(a: &Key, b: &Key) -> bool
    ensures { IsTrue result ↔ (a.now ≡ b.now) }
{
    *a == *b
}

fn is_same_text(a: &String, b: &String) -> bool
    ensures { IsTrue result ↔ (string_bytes a.now ≡ string_bytes b.now) }
{
    a.as_str() == b.as_str()
}

fn is_same_change(a: &TextChange, b: &TextChange) -> bool
    ensures { IsTrue result ↔ (text_edit a.now ≡ text_edit b.now) }
{
    match (a, b) {
        (
            TextChange::Put {
                unit: of_a,
                base: a,
                text: text_a,
            },
            TextChange::Put {
                unit: of_b,
                base: b,
                text: text_b,
            },
        ) => { is_one_name(of_a, of_b) && a == b && is_same_text(text_a, text_b) }
        (
            TextChange::Remove {
                unit: of_a,
                base: a,
            },
            TextChange::Remove {
                unit: of_b,
                base: b,
            },
        ) => { is_one_name(of_a, of_b) && a == b }
        _ => false,
    }
}

fn are_same_changes(a: &[TextChange], b: &[TextChange]) -> bool
    ensures { IsTrue result ↔ (text_edits a.now ≡ text_edits b.now) }
{
    if a.len() != b.len() {
        return false;
    }
    for place in 0..a.len() {
        if !is_same_change(&a[place], &b[place]) {
            return false;
        }
    }
    true
}

fn is_same_wanted(a: &Wanted, b: &Wanted) -> bool
    ensures { IsTrue result ↔ (wanted_job a.now ≡ wanted_job b.now) }
{
    is_one_key(&a.key, &b.key) && a.reads.is_same(&b.reads)
}

fn is_same_end(a: &Committed, b: &Committed) -> bool
    ensures { IsTrue result ↔ (a.now ≡ b.now) }
{
    match (a, b) {
        (Committed::Done(a), Committed::Done(b)) => a == b,
        (Committed::NoChange, Committed::NoChange) => true,
        (Committed::TooManyChanges, Committed::TooManyChanges) => true,
        (Committed::SameUnitTwice(a), Committed::SameUnitTwice(b)) => is_one_name(a, b),
        (
            Committed::StaleBase {
                unit: of_a,
                current: a,
            },
            Committed::StaleBase {
                unit: of_b,
                current: b,
            },
        ) => is_one_name(of_a, of_b) && a == b,
        (Committed::NoSuchUnit(a), Committed::NoSuchUnit(b)) => is_one_name(a, b),
        (Committed::TooManyUnits, Committed::TooManyUnits) => true,
        _ => false,
    }
}

fn is_same_delivery(a: &Delivered, b: &Delivered) -> bool
    ensures { IsTrue result ↔ (a.now ≡ b.now) }
{
    match (a, b) {
        (Delivered::Accepted, Delivered::Accepted) => true,
        (Delivered::NoSuchKey, Delivered::NoSuchKey) => true,
        (Delivered::NotPending, Delivered::NotPending) => true,
        (Delivered::Stale(a), Delivered::Stale(b)) => is_one_name(a, b),
        _ => false,
    }
}

fn is_same_return(a: &GivenBack, b: &GivenBack) -> bool
    ensures { IsTrue result ↔ (a.now ≡ b.now) }
{
    match (a, b) {
        (GivenBack::Returned, GivenBack::Returned) => true,
        (GivenBack::NothingOut, GivenBack::NothingOut) => true,
        _ => false,
    }
}
