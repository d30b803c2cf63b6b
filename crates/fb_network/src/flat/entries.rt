//! Blocks, links and borders by numbers.
ghost use Rattle.std.specs.{Prelude.{◌≡◌, ◌++◌, IfOk, OnOk, map}, Ordering.{eq_by_cmp}};
ghost use Rattle.fb_network.specs.{Laid.{block_at, border_at, edge_moved, join_moved, leaf_moved, link_at}, LinkOrder.{border_cmp, link_cmp}};

use crate::flat::{Border, FlatBlock, Link};
use crate::network::{is_same_sort, sort_number};
use crate::paths::place::{Place, compare_places, is_same_place, moved, path_of};
use crate::paths::prefixes::Prefixes;
use fb_tree::Sort;
use fb_tree::text::{CompactName, Name, same_name};
use std::alloc::{AllocError, Global};
use std::cmp::Ordering;

/// A block, with the name of its type.
#[derive(Debug, Drop)]
pub struct Leaf {
    pub place: Place,
    pub type_name: CompactName,
}

// Each block of a net takes this number of bytes, and the text of its path.
const _: () = prove!(size_of::<Leaf>() == 32);

/// A link.
#[derive(Clone, Copy, Debug)]
pub struct Join {
    pub sort: Sort,
    pub from: Place,
    pub to: Place,
}

/// A border.
#[derive(Clone, Copy, Debug)]
pub struct Edge {
    pub sort: Sort,
    pub port: Name,
    pub place: Place,
}

/// Adds blocks of an inner network, with `by` added to the numbers of their prefixes.
pub fn push_leaves_moved(leaves: &mut Vec<Leaf>, by: u32, inner: &[Leaf]) -> Result<(), AllocError>
    ensures { OnOk result (leaves.new.items ≡ leaves.old.items ++ map (leaf_moved by) inner.now) }
{
    leaves.reserve(inner.len())?;
    for leaf in inner {
        leaves.push(Leaf {
            place: moved(&leaf.place, by)?,
            type_name: leaf.type_name.clone()?,
        })?;
    }
    Ok(())
}

/// Adds links of an inner network, with `by` added to the numbers of their prefixes.
pub fn push_joins_moved(joins: &mut Vec<Join>, by: u32, inner: &[Join]) -> Result<(), AllocError>
    ensures { OnOk result (joins.new.items ≡ joins.old.items ++ map (join_moved by) inner.now) }
{
    joins.reserve(inner.len())?;
    for join in inner {
        joins.push(Join {
            sort: join.sort,
            from: moved(&join.from, by)?,
            to: moved(&join.to, by)?,
        })?;
    }
    Ok(())
}

/// Borders of an inner network, with `by` added to the numbers of their prefixes.
pub fn edges_moved(alloc: Global, by: u32, inner: &[Edge]) -> Result<Vec<Edge>, AllocError>
    ensures { IfOk result (λ edges. edges.items ≡ map (edge_moved by) inner.now) }
{
    let mut edges = Vec::with_capacity(alloc, inner.len())?;
    for edge in inner {
        edges.push(Edge {
            sort: edge.sort,
            port: edge.port,
            place: moved(&edge.place, by)?,
        })?;
    }
    Ok(edges)
}

/// The order of two links by sort and paths.
pub fn compare_joins(prefixes: &Prefixes, a: &Join, b: &Join) -> Ordering
    ensures { result ≡ link_cmp (link_at prefixes.now a.now) (link_at prefixes.now b.now) }
{
    let sorts = sort_number(a.sort).cmp(&sort_number(b.sort));
    let froms = sorts.then_with(|| compare_places(prefixes, &a.from, &b.from));
    froms.then_with(|| compare_places(prefixes, &a.to, &b.to))
}

/// The order of two borders by sort, port and path.
pub fn compare_edges(prefixes: &Prefixes, a: &Edge, b: &Edge) -> Ordering
    ensures { result ≡ border_cmp (border_at prefixes.now a.now) (border_at prefixes.now b.now) }
{
    let sorts = sort_number(a.sort).cmp(&sort_number(b.sort));
    let ports = sorts.then_with(|| a.port.cmp(&b.port));
    ports.then_with(|| compare_places(prefixes, &a.place, &b.place))
}

/// Whether two links, each among its own prefixes, are equal. Links in order differ more often in where they end.
#[tactic(auto, using(crate::proofs::Tellings::tellings))]
pub fn is_equal_join(prefixes: &Prefixes, a: &Join, others: &Prefixes, b: &Join) -> bool
    ensures { result
        ≡ eq_by_cmp link_cmp (link_at prefixes.now a.now) (link_at others.now b.now) }
{
    is_same_sort(a.sort, b.sort)
        && is_same_place(prefixes, &a.to, others, &b.to)
        && is_same_place(prefixes, &a.from, others, &b.from)
}

/// Whether two borders, each among its own prefixes, are equal.
#[tactic(auto, using(crate::proofs::Tellings::tellings))]
pub fn is_equal_edge(prefixes: &Prefixes, a: &Edge, others: &Prefixes, b: &Edge) -> bool
    ensures { result
        ≡ eq_by_cmp border_cmp (border_at prefixes.now a.now) (border_at others.now b.now) }
{
    is_same_sort(a.sort, b.sort)
        && is_same_place(prefixes, &a.place, others, &b.place)
        && same_name(&a.port, &b.port)
}

/// The blocks as plain values.
pub fn plain_blocks(
    alloc: Global,
    prefixes: &Prefixes,
    leaves: &[Leaf],
) -> Result<Vec<FlatBlock>, AllocError>
    ensures { IfOk result (λ blocks. blocks.items ≡ map (block_at prefixes.now) leaves.now) }
{
    let mut blocks = Vec::with_capacity(alloc, leaves.len())?;
    for leaf in leaves {
        blocks.push(FlatBlock {
            path: path_of(alloc, prefixes, &leaf.place)?,
            type_name: leaf.type_name.name(),
        })?;
    }
    Ok(blocks)
}

/// The links as plain values.
pub fn plain_links(
    alloc: Global,
    prefixes: &Prefixes,
    joins: &[Join],
) -> Result<Vec<Link>, AllocError>
    ensures { IfOk result (λ links. links.items ≡ map (link_at prefixes.now) joins.now) }
{
    let mut links = Vec::with_capacity(alloc, joins.len())?;
    for join in joins {
        links.push(Link {
            sort: join.sort,
            from: path_of(alloc, prefixes, &join.from)?,
            to: path_of(alloc, prefixes, &join.to)?,
        })?;
    }
    Ok(links)
}

/// The borders as plain values.
pub fn plain_borders(
    alloc: Global,
    prefixes: &Prefixes,
    edges: &[Edge],
) -> Result<Vec<Border>, AllocError>
    ensures { IfOk result (λ borders. borders.items ≡ map (border_at prefixes.now) edges.now) }
{
    let mut borders = Vec::with_capacity(alloc, edges.len())?;
    for edge in edges {
        borders.push(Border {
            sort: edge.sort,
            port: edge.port,
            place: path_of(alloc, prefixes, &edge.place)?,
        })?;
    }
    Ok(borders)
}
