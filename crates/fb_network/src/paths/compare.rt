//! Texts in two parts, compared without joining these.
ghost use Rattle.std.specs.{Prelude.{◌≡◌, ◌≤◌, ◌++◌, length}, Ordering.{eq_by_cmp, ordering_then}};
ghost use Rattle.fb_tree.specs.Text.Order.{name_cmp};

use std::cmp::Ordering;

/// The order of two texts, or else of two others.
fn compare_both(first: &[u8], start: &[u8], rest: &[u8], end: &[u8]) -> Ordering
    ensures { result ≡ ordering_then (name_cmp first.now start.now) (name_cmp rest.now end.now) }
{
    first.cmp(start).then_with(|| rest.cmp(end))
}

/// The order of a text in one part and a text in two.
fn compare_whole(whole: &[u8], start: &[u8], end: &[u8]) -> Ordering
    ensures { result ≡ name_cmp whole.now (start.now ++ end.now) }
{
    if whole.len() < start.len() {
        return whole.cmp(start);
    }
    let (first, rest) = whole.split_at(start.len());
    compare_both(first, start, rest, end)
}

/// The order of two texts, or else of a text in one part and a text in two.
fn compare_then_whole(
    first: &[u8],
    other: &[u8],
    whole: &[u8],
    start: &[u8],
    end: &[u8],
) -> Ordering
    ensures { result
        ≡ ordering_then (name_cmp first.now other.now)
        (name_cmp whole.now (start.now ++ end.now)) }
{
    first
        .cmp(other)
        .then_with(|| compare_whole(whole, start, end))
}

/// The order of two texts, each in two parts, the first part of the first no longer than that of the second.
fn compare_shorter(start: &[u8], end: &[u8], other_start: &[u8], other_end: &[u8]) -> Ordering
    requires { length start.now ≤ length other_start.now }
    ensures { result ≡ name_cmp (start.now ++ end.now) (other_start.now ++ other_end.now) }
{
    let (first, rest) = other_start.split_at(start.len());
    compare_then_whole(start, first, end, rest, other_end)
}

/// The order of a text in one part and a text in two. Texts are compared faster than bytes, but can be cut only between characters.
fn compare_text(text: &str, start: &str, end: &str) -> Ordering
    ensures { result ≡ name_cmp text.now (start.now ++ end.now) }
{
    if text.len() < start.len() {
        return text.cmp(start);
    }
    match text.split_at_checked(start.len()) {
        Some((first, rest)) => first.cmp(start).then_with(|| rest.cmp(end)),
        None => compare_whole(text.as_bytes(), start.as_bytes(), end.as_bytes()),
    }
}

/// The order of two texts, each in two parts, the first part of the first no longer than that of the second.
fn compare_short(start: &str, end: &str, other_start: &str, other_end: &str) -> Ordering
    requires { length start.now ≤ length other_start.now }
    ensures { result ≡ name_cmp (start.now ++ end.now) (other_start.now ++ other_end.now) }
{
    match other_start.split_at_checked(start.len()) {
        Some((first, rest)) => start
            .cmp(first)
            .then_with(|| compare_text(end, rest, other_end)),
        None => {
            let (start, end) = (start.as_bytes(), end.as_bytes());
            compare_shorter(start, end, other_start.as_bytes(), other_end.as_bytes())
        }
    }
}

/// The order of two texts, each in two parts.
#[tactic(auto, using(crate::proofs::Texts::by_parts, crate::proofs::Texts::turned))]
pub fn compare_parts(start: &str, end: &str, other_start: &str, other_end: &str) -> Ordering
    ensures { result ≡ name_cmp (start.now ++ end.now) (other_start.now ++ other_end.now) }
{
    if start.len() == other_start.len() {
        return start.cmp(other_start).then_with(|| end.cmp(other_end));
    }
    if start.len() < other_start.len() {
        compare_short(start, end, other_start, other_end)
    } else {
        compare_short(other_start, other_end, start, end).reverse()
    }
}

/// Whether two texts, each in two parts, are equal. Ends differ more often than starts.
#[tactic(auto, using(crate::proofs::Tellings::texts))]
pub fn is_same_text(start: &str, end: &str, other_start: &str, other_end: &str) -> bool
    ensures { result
        ≡ eq_by_cmp name_cmp (start.now ++ end.now) (other_start.now ++ other_end.now) }
{
    if start.len() == other_start.len() {
        return end == other_end && start == other_start;
    }
    if start.len() + end.len() != other_start.len() + other_end.len() {
        return false;
    }
    compare_parts(start, end, other_start, other_end).is_eq()
}
