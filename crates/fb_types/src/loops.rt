//! The types that reach themselves.
ghost use Rattle.std.specs.{Prelude.{◌≡◌, ℕ, List, filter, Contains, ◌↔◌, IfOk}, List.Sorted.{IsStrictlySortedBy}};
ghost use Rattle.fb_tree.specs.Text.Order.{name_cmp};
ghost use Rattle.fb_iface.specs.Library.Seen.{has_name};
ghost use Rattle.fb_types.specs.Reaches.{IsRecursive, RecursivePart};

use crate::cycles::cycles;
use crate::graph::explore;
use crate::search::all_inner_first;
use fb_iface::library::View;
use fb_tree::text::Name;
use std::alloc::{AllocError, Global};
use std::collections::BTreeSet;

/// The names among these that reach themselves, in the same order.
pub fn recursive<V: View>(alloc: Global, view: &V, names: &[Name]) -> Result<Vec<Name>, AllocError>
    ensures exact { IfOk result
        (λ found. RecursivePart (V.sources view.now) names.now found.items) }
    ensures members { IfOk result (λ found. (v : List ℕ)
        → Contains found.items v ↔ (Contains names.now v × IsRecursive (V.sources view.now) v)) }
    ensures sorted { IsStrictlySortedBy name_cmp names.now
        → IfOk result (λ found. IsStrictlySortedBy name_cmp found.items) }
{
    recursive_part(alloc, view, names)
}

/// The names among these that reach themselves. If the search lists all names, there are none.
fn recursive_part<V: View>(alloc: Global, view: &V, names: &[Name]) -> Result<Vec<Name>, AllocError>
    ensures { IfOk result (λ found. RecursivePart (V.sources view.now) names.now found.items) }
{
    let order = all_inner_first(alloc, view, names)?;
    if order.is_some() {
        return Ok(Vec::new(alloc));
    }
    by_cycles(alloc, view, names)
}

/// The names among these that reach themselves, by the cycles among all that the names rest on.
fn by_cycles<V: View>(alloc: Global, view: &V, names: &[Name]) -> Result<Vec<Name>, AllocError>
    ensures { IfOk result (λ found. RecursivePart (V.sources view.now) names.now found.items) }
{
    let graph = explore(alloc, view, names)?;
    let found = cycles(alloc, graph, names)?;
    those_in(alloc, names, &found)
}

/// Those of the names that are in the set.
fn those_in(alloc: Global, names: &[Name], set: &BTreeSet<Name>) -> Result<Vec<Name>, AllocError>
    ensures { IfOk result (λ found. found.items ≡ filter (has_name set.now.keys) names.now) }
{
    let mut found = Vec::new(alloc);
    for name in names {
        if set.contains(name) {
            found.push(*name)?;
        }
    }
    Ok(found)
}
