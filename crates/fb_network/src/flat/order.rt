//! Entries in order, each once.
ghost use Rattle.std.specs.{Prelude.{IsTrue, OnOk}, List.Sorted.{IsPermutation}};
ghost use Rattle.fb_network.specs.{Laid.{border_at, link_at}, LinkOrder.{border_cmp, link_cmp}, Once.{IsOnce}};

use crate::flat::entries::{
    Edge, Join, compare_edges, compare_joins, is_equal_edge, is_equal_join,
};
use crate::network::sort_number;
use crate::paths::prefixes::Prefixes;
use std::alloc::AllocError;

/// Whether each link is below the next.
fn joins_rise(prefixes: &Prefixes, joins: &[Join]) -> bool
    ensures { IsTrue result → IsOnce (link_at prefixes.now) link_cmp joins.now joins.now }
{
    for i in 1..joins.len() {
        if !compare_joins(prefixes, &joins[i - 1], &joins[i]).is_lt() {
            return false;
        }
    }
    true
}

/// Brings the links of each sort together, and leaves those of one sort as they follow each other. Inner networks come one after the other, and each
/// has its links in order: then those of one sort often are in order, and sorting them by their texts compares few.
fn gather_sorts(joins: &mut Vec<Join>) -> Result<(), AllocError>
    ensures { OnOk result (IsPermutation joins.old.items joins.new.items) }
{
    joins.sort_by_key(|join| sort_number(join.sort))
}

/// Sorts links by their texts and removes duplicates. Those of a network inside one instance are in order already.
pub fn sort_joins(prefixes: &Prefixes, joins: &mut Vec<Join>) -> Result<(), AllocError>
    ensures { OnOk result (IsOnce (link_at prefixes.now) link_cmp joins.old.items joins.new.items) }
{
    if !joins_rise(prefixes, joins.as_slice()) {
        gather_sorts(joins)?;
        joins.sort_by(|a, b| compare_joins(prefixes, a, b))?;
        joins.dedup_by(|a, b| is_equal_join(prefixes, a, prefixes, b));
    }
    Ok(())
}

/// Sorts borders by their texts and removes duplicates.
pub fn sort_edges(prefixes: &Prefixes, edges: &mut Vec<Edge>) -> Result<(), AllocError>
    ensures { OnOk result
        (IsOnce (border_at prefixes.now) border_cmp edges.old.items edges.new.items) }
{
    edges.sort_by(|a, b| compare_edges(prefixes, a, b))?;
    edges.dedup_by(|a, b| is_equal_edge(prefixes, a, prefixes, b));
    Ok(())
}
