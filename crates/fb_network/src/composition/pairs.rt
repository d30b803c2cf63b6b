//! The links and the borders of a connection.
ghost use Rattle.std.specs.Prelude.{◌≡◌, ◌++◌, OnOk};
ghost use Rattle.fb_network.specs.Behind.{edges_of_end, join_pairs, joins_from};

use crate::flat::entries::{Edge, Join};
use crate::network::End;
use crate::paths::place::Place;
use fb_tree::Sort;
use fb_tree::text::Name;
use std::alloc::AllocError;

fn push_joins_from(
    joins: &mut Vec<Join>,
    sort: Sort,
    from: Place,
    tos: &[Place],
) -> Result<(), AllocError>
    ensures { OnOk result (joins.new.items ≡ joins.old.items ++ joins_from sort tos.now from) }
{
    for to in tos {
        joins.push(Join {
            sort,
            from,
            to: *to,
        })?;
    }
    Ok(())
}

/// Adds a link from each of the first places to each of the others.
pub fn push_join_pairs(
    joins: &mut Vec<Join>,
    sort: Sort,
    froms: &[Place],
    tos: &[Place],
) -> Result<(), AllocError>
    ensures { OnOk result (joins.new.items ≡ joins.old.items ++ join_pairs sort froms.now tos.now) }
{
    for from in froms {
        push_joins_from(joins, sort, *from, tos)?;
    }
    Ok(())
}

fn push_port_edges(
    edges: &mut Vec<Edge>,
    sort: Sort,
    port: &Name,
    places: &[Place],
) -> Result<(), AllocError>
    ensures { OnOk result
        (edges.new.items ≡ edges.old.items ++ edges_of_end sort (End.Own port.now) places.now) }
{
    for place in places {
        edges.push(Edge {
            sort,
            port: *port,
            place: *place,
        })?;
    }
    Ok(())
}

/// Adds the borders of an end that is an own port, at the places to which the other end leads.
pub fn push_end_edges(
    edges: &mut Vec<Edge>,
    sort: Sort,
    end: &End,
    places: &[Place],
) -> Result<(), AllocError>
    ensures { OnOk result
        (edges.new.items ≡ edges.old.items ++ edges_of_end sort end.now places.now) }
{
    match end {
        End::Own(port) => push_port_edges(edges, sort, port, places),
        End::Of(_, _) => Ok(()),
    }
}
