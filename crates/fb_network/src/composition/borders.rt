//! The borders of a network, not yet in order.
ghost use Rattle.std.specs.{Prelude.{◌≡◌, ◌++◌, IfOk, OnOk}, BTreeMap.{get}};
ghost use Rattle.fb_tree.specs.Text.Order.{name_cmp};
ghost use Rattle.fb_network.specs.{Behind.{connection_edges, edges_of_end, places_behind}, Standing.{AreEdgesOf}};

use crate::composition::behind::behind;
use crate::composition::links::own_text;
use crate::composition::pairs::push_end_edges;
use crate::flat::entries::Edge;
use crate::network::table::Table;
use crate::network::{Connection, End, Network};
use crate::paths::place::Place;
use fb_tree::Sort;
use std::alloc::{AllocError, Global};

/// Adds the borders of an end that is an own port, at the places to which the other end leads, which is itself at the place `own`.
fn push_borders_of_end(
    alloc: Global,
    edges: &mut Vec<Edge>,
    table: &Table,
    sort: Sort,
    end: &End,
    other: &End,
    own: Place,
) -> Result<(), AllocError>
    ensures { OnOk result
        (edges.new.items ≡ edges.old.items
        ++ edges_of_end sort end.now (places_behind (get name_cmp table.now) sort own other.now)) }
{
    match end {
        End::Own(_) => {
            let places = behind(alloc, table, sort, other, own)?;
            push_end_edges(edges, sort, end, &places)
        }
        End::Of(_, _) => Ok(()),
    }
}

fn push_connection_borders(
    alloc: Global,
    edges: &mut Vec<Edge>,
    table: &Table,
    connection: &Connection,
    from: Place,
    to: Place,
) -> Result<(), AllocError>
    ensures { OnOk result
        (edges.new.items ≡ edges.old.items
        ++ connection_edges (get name_cmp table.now) from to connection.now) }
{
    let sort = connection.sort;
    let source = &connection.source;
    let destination = &connection.destination;
    push_borders_of_end(alloc, edges, table, sort, source, destination, to)?;
    push_borders_of_end(alloc, edges, table, sort, destination, source, from)
}

/// The borders of a network, by its own connections.
pub fn borders_of_network(
    alloc: Global,
    network: &Network,
    table: &Table,
) -> Result<Vec<Edge>, AllocError>
    ensures { IfOk result
        (λ edges. AreEdgesOf network.now (get name_cmp table.now) edges.items
        network.now.connections) }
{
    let connections = network.connections();
    let sources = network.instances().len();
    let mut edges = Vec::new(alloc);
    for place in 0..connections.len() {
        let from = own_text(sources, place)?;
        let to = own_text(connections.len(), from.end as usize)?;
        push_connection_borders(alloc, &mut edges, table, &connections[place], from, to)?;
    }
    Ok(edges)
}
