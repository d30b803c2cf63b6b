//! The networks of units as plain values (IEC 61499-1, 5.4: subapplication types).
ghost use Rattle.std.specs.{Prelude.{◌≡◌, IfOk, map}, List.{filter_map}};
ghost use Rattle.fb_tree.specs.Tree.{decl_tree, instance_tree, network_tree};
ghost use Rattle.fb_types.specs.Networks.{network_of, plain_connection, plain_end, plain_instance, plain_network};

use crate::ports::ports_of_type;
use fb_network as plain;
use fb_network::{InstanceKind, Port};
use fb_tree::{Connection, Decl, End, Instance, Network, Role};
use std::alloc::{AllocError, Global};

/// The network of a unit. A block type or an adapter type has only ports; a system or a structure has no network of its own.
pub fn network(alloc: Global, decl: &Decl) -> Result<plain::Network, AllocError>
    ensures { IfOk result (λ network. network ≡ network_of (decl_tree decl.now)) }
{
    match decl {
        Decl::Block(declared) | Decl::Adapter(declared) => {
            let ports = ports_of_type(alloc, declared)?;
            Ok(plain::Network::new(ports, Vec::new(alloc), Vec::new(alloc)))
        }
        Decl::Subapplication(declared) => {
            let ports = ports_of_type(alloc, declared)?;
            network_with(alloc, ports, &declared.network)
        }
        Decl::System(_) | Decl::Structure(_) => {
            let ports = Vec::new(alloc);
            Ok(plain::Network::new(ports, Vec::new(alloc), Vec::new(alloc)))
        }
    }
}

/// The instances and connections of a network, with these ports.
pub fn network_with(
    alloc: Global,
    ports: Vec<Port>,
    network: &Network,
) -> Result<plain::Network, AllocError>
    ensures { IfOk result (λ it. it ≡ plain_network ports.items (network_tree network.now)) }
{
    let instances = instances_of(alloc, network.instances.as_slice())?;
    let connections = connections_of(alloc, network.connections.as_slice())?;
    Ok(plain::Network::new(ports, instances, connections))
}

/// The blocks and subapplications, in the order of the text.
fn instances_of(alloc: Global, instances: &[Instance]) -> Result<Vec<plain::Instance>, AllocError>
    ensures { IfOk result
        (λ found. found.items ≡ filter_map (λ i. plain_instance (instance_tree i)) instances.now) }
{
    let mut found = Vec::new(alloc);
    for instance in instances {
        if let Some(it) = instance_of(instance) {
            found.push(it)?;
        }
    }
    Ok(found)
}

/// The block or the subapplication; plugs and sockets are ports.
fn instance_of(instance: &Instance) -> Option<plain::Instance>
    ensures { result ≡ plain_instance (instance_tree instance.now) }
{
    let kind = match instance.role {
        Role::Plug | Role::Socket => return None,
        Role::Block => InstanceKind::Block,
        Role::Subapplication => InstanceKind::Subapplication,
    };
    Some(plain::Instance {
        name: instance.name.name.name(),
        kind,
        type_name: instance.type_name.name.name(),
    })
}

fn connections_of(
    alloc: Global,
    connections: &[Connection],
) -> Result<Vec<plain::Connection>, AllocError>
    ensures { IfOk result (λ found. found.items ≡ map plain_connection connections.now) }
{
    let mut found = Vec::new(alloc);
    for connection in connections {
        found.push(plain::Connection {
            sort: connection.sort,
            source: end_of(&connection.source),
            destination: end_of(&connection.destination),
        })?;
    }
    Ok(found)
}

fn end_of(end: &End) -> plain::End
    ensures { result ≡ plain_end end.now }
{
    match &end.port {
        None => plain::End::Own(end.name.name.name()),
        Some(port) => plain::End::Of(end.name.name.name(), port.name.name()),
    }
}
