//! Whether two values have the same content.
ghost use Rattle.std.specs.Prelude.{◌≡◌, ◌↔◌, IsTrue, map};
ghost use Rattle.fb_deploy.specs.{Flatten.Net.{plain_net}, Deploy.{plain_deploy, planned}, Library.Filed.{filed_text}};
ghost use Rattle.fb_jobs.specs.{Texts.{text_of}, Values.{finding_of}};

use crate::values::value::Value;
use fb_deploy::flatten::Net;
use fb_deploy::library::Version;
use fb_deploy::placing::Misplaced;
use fb_deploy::{Deploy, Plan};
use fb_text::{Name, same_name};
use std::sync::Arc;

/// Whether two names are one, by content.
pub fn is_one_name(a: &Name, b: &Name) -> bool
    ensures { IsTrue result ↔ (a.now ≡ b.now) }
{
    same_name(a, b)
}

/// Whether both lists have the same items, if items that compare equal are the same.
pub(crate) fn are_equal<T: PartialEq>(a: &[T], b: &[T]) -> bool
    requires { (x y : T) → IsTrue (T.eq x y) ↔ (x ≡ y) }
    ensures { IsTrue result ↔ (a.now ≡ b.now) }
{
    a == b
}

fn is_same_net(a: &Net, b: &Net) -> bool
    ensures { IsTrue result ↔ (plain_net a.now ≡ plain_net b.now) }
{
    match (a, b) {
        (Net::Blocked(a), Net::Blocked(b)) => are_equal(a, b),
        (Net::Recursive(a), Net::Recursive(b)) => are_equal(a, b),
        (Net::TooLarge, Net::TooLarge) => true,
        (Net::Flat(a), Net::Flat(b)) => a.is_same(b),
        _ => false,
    }
}

fn is_same_misplaced(a: &Misplaced, b: &Misplaced) -> bool
    ensures { IsTrue result ↔ (a.now ≡ b.now) }
{
    match (a, b) {
        (Misplaced::Unmapped(a), Misplaced::Unmapped(b)) => a == b,
        (Misplaced::NoSuchBlock(a), Misplaced::NoSuchBlock(b)) => a == b,
        _ => false,
    }
}

fn are_same_misplaced(a: &[Misplaced], b: &[Misplaced]) -> bool
    ensures { IsTrue result ↔ (a.now ≡ b.now) }
{
    if a.len() != b.len() {
        return false;
    }
    for place in 0..a.len() {
        if !is_same_misplaced(&a[place], &b[place]) {
            return false;
        }
    }
    true
}

fn is_same_plan(a: &Plan, b: &Plan) -> bool
    ensures { IsTrue result
        ↔ (planned a.now.cuts a.now.resources ≡ planned b.now.cuts b.now.resources) }
{
    a.is_same(b)
}

fn is_same_deploy(a: &Deploy, b: &Deploy) -> bool
    ensures { IsTrue result ↔ (plain_deploy a.now ≡ plain_deploy b.now) }
{
    match (a, b) {
        (Deploy::Stopped(a), Deploy::Stopped(b)) => is_same_net(a, b),
        (Deploy::Faulty(a), Deploy::Faulty(b)) => are_same_misplaced(a, b),
        (Deploy::Plan(a), Deploy::Plan(b)) => is_same_plan(a, b),
        _ => false,
    }
}

/// Whether both are the same value.
pub fn is_same_value(a: &Value, b: &Value) -> bool
    ensures { IsTrue result ↔ (finding_of a.now ≡ finding_of b.now) }
{
    match (a, b) {
        (Value::Faults(a), Value::Faults(b)) => are_equal(a, b),
        (Value::Net(a), Value::Net(b)) => is_same_net(a, b),
        (Value::Deploy(a), Value::Deploy(b)) => is_same_deploy(a, b),
        _ => false,
    }
}

fn is_same_version(a: &Version, b: &Version) -> bool
    ensures { IsTrue result ↔ (filed_text a.now ≡ filed_text b.now) }
{
    is_one_name(&a.unit, &b.unit) && a.revision == b.revision && a.text.as_str() == b.text.as_str()
}

/// Whether both are the same text of the same unit with the same revision, or none.
fn is_same_text(a: &Option<Arc<Version>>, b: &Option<Arc<Version>>) -> bool
    ensures { IsTrue result ↔ (text_of a.now ≡ text_of b.now) }
{
    match (a, b) {
        (None, None) => true,
        (Some(a), Some(b)) => is_same_version(a, b),
        _ => false,
    }
}

/// Whether both lists have the same texts, one after the other.
pub(crate) fn are_same_texts(a: &[Option<Arc<Version>>], b: &[Option<Arc<Version>>]) -> bool
    ensures { IsTrue result ↔ (map text_of a.now ≡ map text_of b.now) }
{
    if a.len() != b.len() {
        return false;
    }
    for place in 0..a.len() {
        if !is_same_text(&a[place], &b[place]) {
            return false;
        }
    }
    true
}
