//! Flat networks that are being composed.
ghost use Rattle.std.specs.Prelude.{◌≡◌, [], IfOk, length};
ghost use Rattle.fb_network.specs.{Laid.{IsLaid}, Reading.{IsFinish, TakesIn}};

use crate::flat::entries::{Edge, Join, Leaf, edges_moved, push_joins_moved, push_leaves_moved};
use crate::flat::order::{sort_edges, sort_joins};
use crate::flat::{Flat, Tables};
use crate::paths::prefixes::Prefixes;
use fb_tree::text::Name;
use std::alloc::{AllocError, Global};
use std::sync::Arc;

/// The prefixes, the blocks and the links that a flat network has so far.
#[derive(Debug, Drop)]
pub struct Draft {
    pub prefixes: Prefixes,
    pub leaves: Vec<Leaf>,
    pub joins: Vec<Join>,
}

impl Draft {
    /// A draft without blocks and links.
    pub fn new(alloc: Global) -> Draft
        ensures prefixes { result.prefixes ≡ [] }
        ensures leaves { result.leaves.items ≡ [] }
        ensures joins { result.joins.items ≡ [] }
    {
        Draft {
            prefixes: Prefixes::new(alloc),
            leaves: Vec::new(alloc),
            joins: Vec::new(alloc),
        }
    }
}

/// Takes in what the instance of that name holds, and gives the instance's borders.
pub fn take_in(
    alloc: Global,
    draft: &mut Draft,
    name: &Name,
    inner: &Flat,
) -> Result<Vec<Edge>, AllocError>
    ensures { IfOk result (λ edges. TakesIn draft.old draft.new name.now inner.now edges.items) }
{
    let tables = &*inner.tables;
    let before = draft.prefixes.count()?;
    draft.prefixes.push_within(name, &tables.prefixes)?;
    push_leaves_moved(&mut draft.leaves, before, &tables.leaves)?;
    push_joins_moved(&mut draft.joins, before, &tables.joins)?;
    edges_moved(alloc, before, &tables.edges)
}

/// The flat network of a draft and of borders, these and the links in order, each once.
pub fn finish(alloc: Global, draft: Draft, mut edges: Vec<Edge>) -> Result<Flat, AllocError>
    requires { IsLaid (length draft.prefixes) draft.leaves.items draft.joins.items edges.items }
    ensures { IfOk result (IsFinish draft edges.items) }
{
    let Draft {
        mut prefixes,
        mut leaves,
        mut joins,
    } = draft;
    sort_joins(&prefixes, &mut joins)?;
    sort_edges(&prefixes, &mut edges)?;
    // A net is kept for long.
    prefixes.shrink_to_fit();
    leaves.shrink_to_fit();
    joins.shrink_to_fit();
    edges.shrink_to_fit();
    let tables = Tables {
        prefixes,
        leaves,
        joins,
        edges,
    };
    let tables = Arc::new(alloc, tables)?;
    Ok(Flat { tables })
}
