//! The links of an adapter's ports between plugs and sockets (IEC 61499-1, 5.5).
ghost use Rattle.std.specs.{Prelude.{◌≡◌, ◌++◌, IfOk, OnOk, length, map}, List.{All}};
ghost use Rattle.fb_network.specs.{Laid.{path_at}, Reading.{Grows, IsPlaceBelow}};
ghost use Rattle.fb_network.specs.Behind.{AreMembers, adapter_joins, join_on_side, member_joins, plug_joins};

use crate::flat::entries::Join;
use crate::network::Port;
use crate::paths::path::Path;
use crate::paths::place::{Place, number, put_path};
use crate::paths::prefixes::Prefixes;
use fb_tree::Side;
use std::alloc::{AllocError, Global};
use std::sync::Arc;

/// The names of an adapter's ports.
pub fn port_names(alloc: Global, ports: &[Port]) -> Result<Vec<Path>, AllocError>
    ensures { IfOk result (λ names. names.items ≡ map (λ port. port.name) ports.now) }
{
    let mut names = Vec::with_capacity(alloc, ports.len())?;
    for port in ports {
        names.push(Path::of(alloc, &port.name)?)?;
    }
    Ok(names)
}

/// Adds the prefix of what is below each of the places, and gives their numbers.
pub fn push_member_prefixes(
    alloc: Global,
    prefixes: &mut Prefixes,
    places: &[Place],
    names: &Arc<Vec<Path>>,
) -> Result<Vec<u32>, AllocError>
    requires { All (IsPlaceBelow (length prefixes.old)) places.now }
    ensures grows { IfOk result (λ _. Grows prefixes.old prefixes.new) }
    ensures members { IfOk result
        (λ numbers. AreMembers prefixes.new names.now.value.items numbers.items
        (map (path_at prefixes.old) places.now)) }
{
    let mut numbers = Vec::with_capacity(alloc, places.len())?;
    let mut path = String::new(alloc);
    for place in places {
        put_path(prefixes, place, &mut path)?;
        numbers.push(prefixes.count()?)?;
        prefixes.push(&path, "", names.clone()?)?;
    }
    Ok(numbers)
}

fn join_at(port: &Port, plug: Place, socket: Place) -> Join
    ensures { result ≡ join_on_side port.now.side port.now plug socket }
{
    match port.side {
        Side::Output => Join {
            sort: port.sort,
            from: plug,
            to: socket,
        },
        Side::Input => Join {
            sort: port.sort,
            from: socket,
            to: plug,
        },
    }
}

/// Adds the links of an adapter's ports between a plug and a socket, whose prefixes these are: its outputs lead from the plug to the socket,
/// its inputs from the socket to the plug.
fn push_member_joins(
    joins: &mut Vec<Join>,
    ports: &[Port],
    plug: u32,
    socket: u32,
) -> Result<(), AllocError>
    ensures { OnOk result
        (joins.new.items ≡ joins.old.items ++ member_joins plug socket 0 ports.now) }
{
    for place in 0..ports.len() {
        let end = number(place)?;
        let plugged = Place { prefix: plug, end };
        let socketed = Place {
            prefix: socket,
            end,
        };
        joins.push(join_at(&ports[place], plugged, socketed))?;
    }
    Ok(())
}

fn push_plug_joins(
    joins: &mut Vec<Join>,
    ports: &[Port],
    plug: u32,
    sockets: &[u32],
) -> Result<(), AllocError>
    ensures { OnOk result (joins.new.items ≡ joins.old.items ++ plug_joins ports.now sockets.now plug) }
{
    for socket in sockets {
        push_member_joins(joins, ports, plug, *socket)?;
    }
    Ok(())
}

/// Adds the links of an adapter's ports between each plug and each socket, whose prefixes these are.
pub fn push_adapter_joins(
    joins: &mut Vec<Join>,
    ports: &[Port],
    plugs: &[u32],
    sockets: &[u32],
) -> Result<(), AllocError>
    ensures { OnOk result
        (joins.new.items ≡ joins.old.items ++ adapter_joins ports.now plugs.now sockets.now) }
{
    for plug in plugs {
        push_plug_joins(joins, ports, *plug, sockets)?;
    }
    Ok(())
}
