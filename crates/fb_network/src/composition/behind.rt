//! The places of blocks to which an end of a connection leads.
ghost use Rattle.std.specs.{Prelude.{◌≡◌, IfOk}, BTreeMap.{get}};
ghost use Rattle.fb_tree.specs.Text.Order.{name_cmp};
ghost use Rattle.fb_network.specs.Behind.{border_places_at, edge_belongs, places_behind, places_of_standing};

use crate::flat::entries::Edge;
use crate::network::table::{Standing, Table};
use crate::network::{End, InstanceKind, is_same_sort};
use crate::paths::place::Place;
use fb_tree::Sort;
use fb_tree::text::{Name, same_name};
use std::alloc::{AllocError, Global};

fn is_border_of(edge: &Edge, sort: Sort, port: &Name) -> bool
    ensures { result ≡ edge_belongs sort port.now edge.now }
{
    is_same_sort(edge.sort, sort) && same_name(&edge.port, port)
}

/// The places to which a port of a subapplication instance leads.
fn border_places_of(
    alloc: Global,
    borders: &[Edge],
    sort: Sort,
    port: &Name,
) -> Result<Vec<Place>, AllocError>
    ensures { IfOk result
        (λ places. places.items ≡ border_places_at sort port.now borders.now) }
{
    let mut places = Vec::new(alloc);
    for edge in borders {
        if is_border_of(edge, sort, port) {
            places.push(edge.place)?;
        }
    }
    Ok(places)
}

/// The places to which a port of an instance leads. The place of the port itself is `own`.
fn places_of(
    alloc: Global,
    standing: &Standing,
    sort: Sort,
    port: &Name,
    own: Place,
) -> Result<Vec<Place>, AllocError>
    ensures { IfOk result
        (λ places. places.items ≡ places_of_standing sort port.now own standing.now) }
{
    match standing.instance.kind {
        InstanceKind::Block => {
            let mut places = Vec::new(alloc);
            places.push(own)?;
            Ok(places)
        }
        InstanceKind::Subapplication => border_places_of(alloc, &standing.borders, sort, port),
    }
}

/// The places to which an end leads: the port of a block itself, or those to which the port of a subapplication instance leads inside.
pub fn behind(
    alloc: Global,
    table: &Table,
    sort: Sort,
    end: &End,
    own: Place,
) -> Result<Vec<Place>, AllocError>
    ensures { IfOk result
        (λ places. places.items ≡ places_behind (get name_cmp table.now) sort own end.now) }
{
    match end {
        End::Own(_) => Ok(Vec::new(alloc)),
        End::Of(name, port) => match table.get(name) {
            Some(standing) => places_of(alloc, standing, sort, port, own),
            None => Ok(Vec::new(alloc)),
        },
    }
}
