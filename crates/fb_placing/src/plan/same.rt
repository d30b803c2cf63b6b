//! Whether two plans have the same content. It takes no memory.
ghost use Rattle.std.specs.Prelude.{◌≡◌, ◌↔◌, ◌<◌, IsTrue, length, map, slice_get};
ghost use Rattle.fb_tree.specs.Text.Order.{name_cmp};
ghost use Rattle.fb_network.specs.{LinkOrder.{link_cmp}, Numbered.{link_numbered}};

use crate::plan::Plan;
use crate::plan::shown::ResourcePlan;
use crate::plan::text_parts::is_same_text;
use fb_network::{Flat, compare_parts, sort_number};
use std::cmp::Ordering;

/// The order of the paths at which two links begin, each of its own flat network.
fn compare_froms(flat: &Flat, a: u32, other: &Flat, b: u32) -> Ordering
    ensures { result
        ≡ name_cmp (link_numbered flat.now a).from (link_numbered other.now b).from }
{
    let (start, end) = flat.link_from(a);
    let (other_start, other_end) = other.link_from(b);
    compare_parts(start, end, other_start, other_end)
}

/// The order of the paths at which two links end, each of its own flat network.
fn compare_tos(flat: &Flat, a: u32, other: &Flat, b: u32) -> Ordering
    ensures { result ≡ name_cmp (link_numbered flat.now a).to (link_numbered other.now b).to }
{
    let (start, end) = flat.link_to(a);
    let (other_start, other_end) = other.link_to(b);
    compare_parts(start, end, other_start, other_end)
}

/// The order of two links, each of its own flat network.
fn compare_links(flat: &Flat, a: u32, other: &Flat, b: u32) -> Ordering
    ensures { result ≡ link_cmp (link_numbered flat.now a) (link_numbered other.now b) }
{
    let sorts = sort_number(flat.link_sort(a)).cmp(&sort_number(other.link_sort(b)));
    let froms = sorts.then_with(|| compare_froms(flat, a, other, b));
    froms.then_with(|| compare_tos(flat, a, other, b))
}

/// Whether both are the same link, each of its own flat network.
fn is_same_link(flat: &Flat, a: u32, other: &Flat, b: u32) -> bool
    ensures { IsTrue result ↔ (link_numbered flat.now a ≡ link_numbered other.now b) }
{
    compare_links(flat, a, other, b).is_eq()
}

/// Whether both lists have the same links, each list of its own flat network.
pub(crate) fn are_same_links(flat: &Flat, a: &[u32], other: &Flat, b: &[u32]) -> bool
    ensures { IsTrue result
        ↔ (map (link_numbered flat.now) a.now ≡ map (link_numbered other.now) b.now) }
{
    if a.len() != b.len() {
        return false;
    }
    for place in 0..a.len() {
        if !is_same_link(flat, a[place], other, b[place]) {
            return false;
        }
    }
    true
}

/// Whether both resources have the same command at a place.
fn is_same_command(a: &ResourcePlan<'_>, b: &ResourcePlan<'_>, place: usize) -> bool
    requires a { place < length a.now.commands }
    requires b { place < length b.now.commands }
    ensures { IsTrue result ↔ (slice_get a.now.commands place ≡ slice_get b.now.commands place) }
{
    is_same_text(&a.parts(place), &b.parts(place))
}

/// Whether both resources have the same commands.
#[tactic(auto, using(crate::proofs::TextPartLemmas::same_by_items))]
fn are_same_commands(a: &ResourcePlan<'_>, b: &ResourcePlan<'_>) -> bool
    ensures { IsTrue result ↔ (a.now.commands ≡ b.now.commands) }
{
    if a.command_count() != b.command_count() {
        return false;
    }
    for place in 0..a.command_count() {
        if !is_same_command(a, b, place) {
            return false;
        }
    }
    true
}

/// Whether both are the same resource with the same commands.
fn is_same_resource(a: &ResourcePlan<'_>, b: &ResourcePlan<'_>) -> bool
    ensures { IsTrue result ↔ (a.now ≡ b.now) }
{
    a.name() == b.name() && are_same_commands(a, b)
}

/// Whether both plans have the same resources with the same commands.
#[tactic(auto, using(crate::proofs::TextPartLemmas::same_by_items))]
pub(crate) fn are_same_resources(a: &Plan, b: &Plan) -> bool
    ensures { IsTrue result ↔ (a.now.resources ≡ b.now.resources) }
{
    if a.resource_count() != b.resource_count() {
        return false;
    }
    for place in 0..a.resource_count() {
        if !is_same_resource(&a.resource(place), &b.resource(place)) {
            return false;
        }
    }
    true
}
