//! Whether entries of two flat networks are the same. It takes no memory.
ghost use Rattle.std.specs.Prelude.{◌≡◌, ◌↔◌, IsTrue, map};
ghost use Rattle.fb_network.specs.Laid.{block_at, border_at, link_at};

use crate::flat::entries::{Edge, Join, Leaf, is_equal_edge, is_equal_join};
use crate::paths::place::is_same_place;
use crate::paths::prefixes::Prefixes;

fn is_same_leaf(prefixes: &Prefixes, a: &Leaf, others: &Prefixes, b: &Leaf) -> bool
    ensures { IsTrue result ↔ (block_at prefixes.now a.now ≡ block_at others.now b.now) }
{
    is_same_place(prefixes, &a.place, others, &b.place) && a.type_name.is(&b.type_name.name())
}

fn is_same_join(prefixes: &Prefixes, a: &Join, others: &Prefixes, b: &Join) -> bool
    ensures { IsTrue result ↔ (link_at prefixes.now a.now ≡ link_at others.now b.now) }
{
    is_equal_join(prefixes, a, others, b)
}

fn is_same_edge(prefixes: &Prefixes, a: &Edge, others: &Prefixes, b: &Edge) -> bool
    ensures { IsTrue result ↔ (border_at prefixes.now a.now ≡ border_at others.now b.now) }
{
    is_equal_edge(prefixes, a, others, b)
}

/// Whether both lists have the same blocks, each list among its own prefixes.
pub fn are_same_leaves(prefixes: &Prefixes, a: &[Leaf], others: &Prefixes, b: &[Leaf]) -> bool
    ensures { IsTrue result ↔ (map (block_at prefixes.now) a.now ≡ map (block_at others.now) b.now) }
{
    if a.len() != b.len() {
        return false;
    }
    for place in 0..a.len() {
        if !is_same_leaf(prefixes, &a[place], others, &b[place]) {
            return false;
        }
    }
    true
}

/// Whether both lists have the same links, each list among its own prefixes.
pub fn are_same_joins(prefixes: &Prefixes, a: &[Join], others: &Prefixes, b: &[Join]) -> bool
    ensures { IsTrue result ↔ (map (link_at prefixes.now) a.now ≡ map (link_at others.now) b.now) }
{
    if a.len() != b.len() {
        return false;
    }
    for place in 0..a.len() {
        if !is_same_join(prefixes, &a[place], others, &b[place]) {
            return false;
        }
    }
    true
}

/// Whether both lists have the same borders, each list among its own prefixes.
pub fn are_same_edges(prefixes: &Prefixes, a: &[Edge], others: &Prefixes, b: &[Edge]) -> bool
    ensures { IsTrue result
        ↔ (map (border_at prefixes.now) a.now ≡ map (border_at others.now) b.now) }
{
    if a.len() != b.len() {
        return false;
    }
    for place in 0..a.len() {
        if !is_same_edge(prefixes, &a[place], others, &b[place]) {
            return false;
        }
    }
    true
}
