//! The links by the connections of a network itself.
ghost use Rattle.std.specs.{Prelude.{◌≡◌, ◌+◌, [], ◌∷◌, length, map, IfOk, OnOk}, List.{All}, BTreeMap.{get}};
ghost use Rattle.fb_tree.specs.Text.Order.{name_cmp};
ghost use Rattle.fb_network.specs.Ready as ready;
ghost use Rattle.fb_network.specs.{Network.{place_of}, Clean.{adapter_at}, Composed.{adapter_links, link_pairs, links_of_sort}, Laid.{path_at}};
ghost use Rattle.fb_network.specs.{Reading.{IsPlaceBelow}, Standing.{AddsConnections, AddsLinks, HasInstances, HasOwn, IsTable, Says, end_text, own_place}};

use crate::composition::behind::behind;
use crate::composition::draft::Draft;
use crate::composition::members::{port_names, push_adapter_joins, push_member_prefixes};
use crate::composition::pairs::push_join_pairs;
use crate::network::adapters::find_adapter;
use crate::network::look_up::Networks;
use crate::network::table::Table;
use crate::network::{Connection, Network, Port};
use crate::paths::place::{Place, number};
use fb_tree::Sort;
use std::alloc::{AllocError, Global};
use std::sync::Arc;

/// The place of the text of that number, after `before` others of the network's own.
pub fn own_text(before: usize, place: usize) -> Result<Place, AllocError>
    ensures { IfOk result (λ text. text ≡ own_place (before + place)) }
{
    match before.checked_add(place) {
        Some(end) => Ok(Place {
            prefix: 0,
            end: number(end)?,
        }),
        None => Err(AllocError),
    }
}

/// Adds the links of an adapter's ports between plugs and sockets.
fn push_members(
    alloc: Global,
    draft: &mut Draft,
    ports: &[Port],
    plugs: &[Place],
    sockets: &[Place],
) -> Result<(), AllocError>
    requires plugs { All (IsPlaceBelow (length draft.old.prefixes)) plugs.now }
    requires sockets { All (IsPlaceBelow (length draft.old.prefixes)) sockets.now }
    ensures { OnOk result
        (AddsLinks draft.old draft.new
        (adapter_links ports.now (map (path_at draft.old.prefixes) plugs.now)
        (map (path_at draft.old.prefixes) sockets.now))) }
{
    let names = Arc::new(alloc, port_names(alloc, ports)?)?;
    let plugged = push_member_prefixes(alloc, &mut draft.prefixes, plugs, &names)?;
    let socketed = push_member_prefixes(alloc, &mut draft.prefixes, sockets, &names)?;
    push_adapter_joins(&mut draft.joins, ports, &plugged, &socketed)
}

/// Adds a link from each of the first places to each of the others.
fn push_pairs(
    draft: &mut Draft,
    sort: Sort,
    froms: &[Place],
    tos: &[Place],
) -> Result<(), AllocError>
    requires froms { All (IsPlaceBelow (length draft.old.prefixes)) froms.now }
    requires tos { All (IsPlaceBelow (length draft.old.prefixes)) tos.now }
    ensures { OnOk result
        (AddsLinks draft.old draft.new
        (link_pairs sort (map (path_at draft.old.prefixes) froms.now)
        (map (path_at draft.old.prefixes) tos.now))) }
{
    push_join_pairs(&mut draft.joins, sort, froms, tos)
}

/// Adds the links by a connection: from each place to which its source leads to each to which its destination leads.
fn push_between<V: Networks>(
    alloc: Global,
    draft: &mut Draft,
    view: &V,
    network: &Network,
    table: &Table,
    connection: &Connection,
    froms: &[Place],
    tos: &[Place],
) -> Result<(), AllocError>
    requires table { HasInstances (get name_cmp table.now) network.now.instances }
    requires froms { All (IsPlaceBelow (length draft.old.prefixes)) froms.now }
    requires tos { All (IsPlaceBelow (length draft.old.prefixes)) tos.now }
    ensures { OnOk result
        (AddsLinks draft.old draft.new
        (links_of_sort connection.now.sort
        (adapter_at (V.networks view.now) network.now (place_of connection.now.source))
        (map (path_at draft.old.prefixes) froms.now)
        (map (path_at draft.old.prefixes) tos.now))) }
{
    match connection.sort {
        Sort::Event => push_pairs(draft, Sort::Event, froms, tos),
        Sort::Data => push_pairs(draft, Sort::Data, froms, tos),
        Sort::Adapter => match find_adapter(view, network, table, &connection.source) {
            Some(adapter) => push_members(alloc, draft, adapter.ports(), froms, tos),
            None => Ok(()),
        },
    }
}

/// Adds the links by a connection, whose ends are themselves at these places.
fn push_connection_links<V: Networks>(
    alloc: Global,
    draft: &mut Draft,
    view: &V,
    network: &Network,
    table: &Table,
    connection: &Connection,
    source: Place,
    destination: Place,
) -> Result<(), AllocError>
    requires table { (nets : ready.Nets)
        × IsTable draft.old.prefixes nets (get name_cmp table.now) network.now.instances }
    requires source { Says draft.old.prefixes source (end_text connection.now.source) }
    requires destination { Says draft.old.prefixes destination
        (end_text connection.now.destination) }
    ensures { OnOk result
        (AddsConnections (V.networks view.now) network.now (get name_cmp table.now) draft.old
        draft.new (connection.now ∷ [])) }
{
    let sort = connection.sort;
    let froms = behind(alloc, table, sort, &connection.source, source)?;
    let tos = behind(alloc, table, sort, &connection.destination, destination)?;
    push_between(alloc, draft, view, network, table, connection, &froms, &tos)
}

/// Adds the links by all connections.
pub fn push_links<V: Networks>(
    alloc: Global,
    draft: &mut Draft,
    view: &V,
    network: &Network,
    table: &Table,
) -> Result<(), AllocError>
    requires table { (nets : ready.Nets)
        × IsTable draft.old.prefixes nets (get name_cmp table.now) network.now.instances }
    requires own { HasOwn draft.old.prefixes network.now }
    ensures { OnOk result
        (AddsConnections (V.networks view.now) network.now (get name_cmp table.now) draft.old
        draft.new network.now.connections) }
{
    let connections = network.connections();
    let sources = network.instances().len();
    for place in 0..connections.len() {
        let source = own_text(sources, place)?;
        let destination = own_text(connections.len(), source.end as usize)?;
        push_connection_links(
            alloc,
            draft,
            view,
            network,
            table,
            &connections[place],
            source,
            destination,
        )?;
    }
    Ok(())
}
