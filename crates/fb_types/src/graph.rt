//! The parts of names, as a graph.
ghost use Rattle.std.specs.{Prelude.{◌≡◌, ℕ, List, [], ◌∷◌, ◌++◌, ◌||◌, ◌&&◌, if◌then◌else◌, IfOk, OnOk}, Ordering.{eq_by_cmp}};
ghost use Rattle.fb_tree.specs.Text.Order.{name_cmp};
ghost use Rattle.fb_iface.specs.Library.Seen.{has_name};
ghost use Rattle.fb_types.specs.Graph.{IsGraph, edges_at};

use crate::search::{Step, enter_all};
use fb_iface::library::{View, part_mentions};
use fb_tree::text::Name;
use std::alloc::{AllocError, Global};
use std::collections::{BTreeMap, BTreeSet};

/// Where the edges from each name lead.
pub(crate) type Edges = BTreeMap<Name, Vec<Name>>;

/// Some names with their parts at all depths, and what is a part of what.
#[derive(Drop)]
pub(crate) struct Graph {
    pub(crate) names: BTreeSet<Name>,
    /// From each name to its parts.
    pub(crate) forth: Edges,
    /// From each name to what it is a part of.
    pub(crate) back: Edges,
    /// The names in the order in which a search in depth leaves them.
    pub(crate) left: Vec<Name>,
}

/// The graph of the names and their parts at all depths, by a depth-first search.
pub(crate) fn explore<V: View>(alloc: Global, view: &V, begun: &[Name]) -> Result<Graph, AllocError>
    ensures { IfOk result
        (λ graph. IsGraph (V.sources view.now) begun.now graph.names.keys graph.forth graph.back) }
{
    let mut names = BTreeSet::new(alloc);
    let mut forth = BTreeMap::new(alloc);
    let mut back = BTreeMap::new(alloc);
    let mut left = Vec::new(alloc);
    let mut steps = Vec::new(alloc);
    enter_all(begun, &mut steps)?;
    while let Some(step) = steps.pop() {
        match step {
            Step::Leave(name) => left.push(name)?,
            Step::Enter(name) => {
                if !names.insert(name)? {
                    continue;
                }
                steps.push(Step::Leave(name))?;
                let mentioned = part_mentions(view, &name);
                enter_all(mentioned, &mut steps)?;
                add_edges(mentioned, name, &mut back)?;
                let edges = mentioned.to_vec(alloc)?;
                set_edges(name, edges, &mut forth)?;
            }
        }
    }
    Ok(Graph {
        names,
        forth,
        back,
        left,
    })
}

/// Adds an edge from each of the names.
fn add_edges(from: &[Name], to: Name, edges: &mut Edges) -> Result<(), AllocError>
    ensures { OnOk result ((u v : List ℕ) → has_name (edges_at edges.new u) v
        ≡ (has_name (edges_at edges.old u) v || (has_name from.now u && eq_by_cmp name_cmp v to))) }
{
    for name in from {
        add_edge(*name, to, edges)?;
    }
    Ok(())
}

/// Adds an edge.
fn add_edge(from: Name, to: Name, edges: &mut Edges) -> Result<(), AllocError>
    ensures { OnOk result ((u : List ℕ) → edges_at edges.new u
        ≡ (if eq_by_cmp name_cmp from u then edges_at edges.old u
        ++ to ∷ [] else edges_at edges.old u)) }
{
    edges.entry(from)?.or_default().push(to)?;
    Ok(())
}

/// Sets all edges from a name.
fn set_edges(from: Name, to: Vec<Name>, edges: &mut Edges) -> Result<(), AllocError>
    ensures { OnOk result ((u : List ℕ) → edges_at edges.new u
        ≡ (if eq_by_cmp name_cmp from u then to.items else edges_at edges.old u)) }
{
    let _ = edges.insert(from, to)?;
    Ok(())
}
