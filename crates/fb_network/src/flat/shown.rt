//! Entries of a flat network, whose places are written over texts that are used again.
ghost use Rattle.std.specs.Prelude.{◌≡◌, ◌<◌, IfOk, Some, length, map, slice_get, string_bytes};
ghost use Rattle.fb_network.specs.Laid.{block_at, border_at, link_at};

use crate::flat::Flat;
use crate::flat::entries::{Edge, Join, Leaf};
use crate::paths::place::put_path;
use crate::paths::prefixes::Prefixes;
use fb_tree::Sort;
use fb_tree::text::Name;
use std::alloc::AllocError;

fn put_leaf(
    prefixes: &Prefixes,
    leaves: &[Leaf],
    place: usize,
    path: &mut String,
) -> Result<Name, AllocError>
    requires { place < length leaves.now }
    ensures { IfOk result (λ type_name. slice_get (map (block_at prefixes.now) leaves.now) place
        ≡ Some (record { path = string_bytes path.new; type_name = type_name })) }
{
    let leaf = &leaves[place];
    put_path(prefixes, &leaf.place, path)?;
    Ok(leaf.type_name.name())
}

fn put_join(
    prefixes: &Prefixes,
    joins: &[Join],
    place: usize,
    from: &mut String,
    to: &mut String,
) -> Result<Sort, AllocError>
    requires { place < length joins.now }
    ensures { IfOk result (λ sort. slice_get (map (link_at prefixes.now) joins.now) place
        ≡ Some (record {
          sort = sort;
          from = string_bytes from.new;
          to = string_bytes to.new;
        })) }
{
    let join = &joins[place];
    put_path(prefixes, &join.from, from)?;
    put_path(prefixes, &join.to, to)?;
    Ok(join.sort)
}

fn put_edge(
    prefixes: &Prefixes,
    edges: &[Edge],
    place: usize,
    at: &mut String,
) -> Result<(Sort, Name), AllocError>
    requires { place < length edges.now }
    ensures { IfOk result (λ found. slice_get (map (border_at prefixes.now) edges.now) place
        ≡ Some (record { sort = found.0; port = found.1; place = string_bytes at.new })) }
{
    let edge = &edges[place];
    put_path(prefixes, &edge.place, at)?;
    Ok((edge.sort, edge.port))
}

impl Flat {
    /// How many borders there are.
    pub fn border_count(&self) -> usize
        ensures { result ≡ length self.now.borders }
    {
        self.tables.edges.len()
    }

    /// Writes the path of a block over a text, and gives the name of its type.
    pub fn put_block(&self, place: usize, path: &mut String) -> Result<Name, AllocError>
        requires { place < length self.now.blocks }
        ensures { IfOk result (λ type_name. slice_get self.now.blocks place
            ≡ Some (record { path = string_bytes path.new; type_name = type_name })) }
    {
        put_leaf(&self.tables.prefixes, &self.tables.leaves, place, path)
    }

    /// Writes the two places of a link over texts, and gives its sort.
    pub fn put_link(
        &self,
        place: usize,
        from: &mut String,
        to: &mut String,
    ) -> Result<Sort, AllocError>
        requires { place < length self.now.links }
        ensures { IfOk result (λ sort. slice_get self.now.links place ≡ Some (record {
          sort = sort;
          from = string_bytes from.new;
          to = string_bytes to.new;
        })) }
    {
        put_join(&self.tables.prefixes, &self.tables.joins, place, from, to)
    }

    /// Writes the place of a border over a text, and gives its sort and its port.
    pub fn put_border(&self, place: usize, at: &mut String) -> Result<(Sort, Name), AllocError>
        requires { place < length self.now.borders }
        ensures { IfOk result (λ found. slice_get self.now.borders place ≡ Some (record {
          sort = found.0;
          port = found.1;
          place = string_bytes at.new;
        })) }
    {
        put_edge(&self.tables.prefixes, &self.tables.edges, place, at)
    }
}
