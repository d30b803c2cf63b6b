//! The names of a graph that reach themselves.
//! They are found as strongly connected components, in n log n steps. The proof holds for any order of the names.
ghost use Rattle.std.specs.{Prelude.{◌≡◌, ℕ, List, [], true, false, ◌||◌, if◌then◌else◌, filter, Contains, ◌↔◌, IfOk, OnOk}, Ordering.{eq_by_cmp}};
ghost use Rattle.fb_tree.specs.Text.Order.{name_cmp};
ghost use Rattle.fb_iface.specs.Library.Seen.{has_name, Opens};
ghost use Rattle.fb_types.specs.Graph.{Follows, IsReverse, IsDecided, AreDecided, edges_at, edges_within};

use crate::graph::{Edges, Graph};
use fb_iface::library::names_of;
use fb_tree::text::Name;
use std::alloc::{AllocError, Global};
use std::collections::BTreeSet;

/// Names of the graph that reach themselves, all of these names that do among them.
pub(crate) fn cycles(
    alloc: Global,
    graph: Graph,
    names: &[Name],
) -> Result<BTreeSet<Name>, AllocError>
    requires reverse { IsReverse graph.forth graph.back }
    requires outside { (u : List ℕ) → has_name graph.names.keys u ≡ false
        → edges_at graph.forth u ≡ [] }
    ensures { IfOk result (λ found. (u : List ℕ) → Contains names.now u
        → (Contains found.keys u ↔ Follows (edges_at graph.forth) u u)) }
{
    let Graph {
        names: mut undecided,
        forth,
        back,
        mut left,
    } = graph;
    let mut found = BTreeSet::new(alloc);
    // The name that was left last comes first: then a walk back stays in one round, and each edge is walked once each way.
    // What is found is the same in any order. The second call decides the names again, so that nothing must be known of `left`.
    left.reverse();
    decide_all(
        alloc,
        &forth,
        &back,
        left.as_slice(),
        &mut undecided,
        &mut found,
    )?;
    decide_all(alloc, &forth, &back, names, &mut undecided, &mut found)?;
    Ok(found)
}

/// Decides each of the names that is undecided, with its round.
fn decide_all(
    alloc: Global,
    forth: &Edges,
    back: &Edges,
    names: &[Name],
    undecided: &mut BTreeSet<Name>,
    found: &mut BTreeSet<Name>,
) -> Result<(), AllocError>
    requires reverse { IsReverse forth.now back.now }
    requires decided { IsDecided (edges_at forth.now) undecided.old.keys found.old.keys }
    ensures decided { OnOk result
        (IsDecided (edges_at forth.now) undecided.new.keys found.new.keys) }
    ensures these { OnOk result (AreDecided names.now undecided.old.keys undecided.new.keys) }
{
    for name in names {
        if undecided.contains(name) {
            let round = round_of(alloc, forth, back, name, undecided)?;
            settle(name, round.as_slice(), undecided, found)?;
        }
    }
    Ok(())
}

/// The round of a name: the names that it reaches and that reach it, which are undecided.
fn round_of(
    alloc: Global,
    forth: &Edges,
    back: &Edges,
    name: &Name,
    undecided: &BTreeSet<Name>,
) -> Result<Vec<Name>, AllocError>
    requires reverse { IsReverse forth.now back.now }
    requires whole { (v : List ℕ) → Follows (edges_at forth.now) name.now v
        → Follows (edges_at forth.now) v name.now
        → has_name undecided.now.keys v ≡ true }
    ensures { IfOk result (λ round. (v : List ℕ) → Contains round.items v
        ↔ (Follows (edges_at forth.now) name.now v × Follows (edges_at forth.now) v name.now)) }
{
    let behind = walk(alloc, back, name, undecided)?;
    let round = walk(alloc, forth, name, &behind)?;
    names_of(alloc, &round)
}

/// The name is decided with its round, and the round is found.
fn settle(
    name: &Name,
    round: &[Name],
    undecided: &mut BTreeSet<Name>,
    found: &mut BTreeSet<Name>,
) -> Result<(), AllocError>
    ensures undecided { OnOk result ((u : List ℕ) → has_name undecided.new.keys u
        ≡ (if has_name round.now u || eq_by_cmp name_cmp u name.now then false
        else has_name undecided.old.keys u)) }
    ensures found { OnOk result ((u : List ℕ) → has_name found.new.keys u
        ≡ (has_name found.old.keys u || has_name round.now u)) }
{
    let _ = undecided.remove(name);
    for other in round {
        let _ = undecided.remove(other);
        found.insert(*other)?;
    }
    Ok(())
}

/// What is reached from a name by one or more edges that stay in the set.
fn walk(
    alloc: Global,
    edges: &Edges,
    from: &Name,
    within: &BTreeSet<Name>,
) -> Result<BTreeSet<Name>, AllocError>
    ensures { IfOk result
        (λ seen. (v : List ℕ) → Contains seen.keys v
        ↔ Follows (edges_within edges.now within.now) from.now v) }
{
    let mut seen = BTreeSet::new(alloc);
    let mut pending = Vec::new(alloc);
    pending.push(*from)?;
    while let Some(name) = pending.pop() {
        let Some(next) = edges.get(&name) else {
            continue;
        };
        open_new(next.as_slice(), within, &mut seen, &mut pending)?;
    }
    Ok(seen)
}

/// Sees each name that is in the set, and opens it if it is new.
fn open_new(
    names: &[Name],
    within: &BTreeSet<Name>,
    seen: &mut BTreeSet<Name>,
    pending: &mut Vec<Name>,
) -> Result<(), AllocError>
    ensures { OnOk result
        (Opens (filter (has_name within.now.keys) names.now)
        seen.old.keys pending.old.items seen.new.keys pending.new.items) }
{
    for name in names {
        if within.contains(name) && seen.insert(*name)? {
            pending.push(*name)?;
        }
    }
    Ok(())
}
