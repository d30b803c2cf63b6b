//! Flat networks, composed of those of inner types.
use crate::told::flat_told;
use fb_network::{
    Connection, End, Flat, FlatApplication, Instance, InstanceKind, Network, Port, compose_by_part,
    join,
};
use fb_tree::text::Name;
use fb_tree::{Side, Sort};
use std::alloc::Global;
use std::collections::BTreeMap;
use std::process::Abort;
use std::test::Fail;

fn connection(source: End, destination: End) -> Connection {
    let sort = Sort::Event;
    Connection {
        sort,
        source,
        destination,
    }
}

fn instance(name: Name, kind: InstanceKind, type_name: Name) -> Instance {
    Instance {
        name,
        kind,
        type_name,
    }
}

/// A block whose event is joined to itself and to the network's own event.
fn looped_network(alloc: Global) -> Result<Network, Fail> {
    let [name, type_name, event] = [Name::read("B")?, Name::read("T")?, Name::read("E")?];
    let end = End::Of(name, event);
    let instances = vec![in alloc; instance(name, InstanceKind::Block, type_name)]?;
    let connections = vec![in alloc; connection(end, end), connection(End::Own(event), end)]?;
    Ok(Network::new(Vec::new(alloc), instances, connections))
}

/// A block, a link from it to itself, and a border.
fn looped(alloc: Global) -> Result<Flat, Fail> {
    let types: BTreeMap<Name, Network> = BTreeMap::new(alloc);
    let nets: BTreeMap<Name, Flat> = BTreeMap::new(alloc);
    let network = looped_network(alloc)?;
    Ok(compose_by_part(alloc, &types, &network, &nets)?)
}

/// Adds an application.
fn add(
    alloc: Global,
    applications: &mut Vec<FlatApplication>,
    application: &str,
) -> Result<(), Fail> {
    let name = Name::read(application)?;
    let flat = looped(alloc)?;
    Ok(applications.push(FlatApplication { name, flat })?)
}

/// Compares a flat network with what is expected.
fn compare(rt: &impl Abort, alloc: Global, flat: &Flat, expected: &str) -> Result<(), Fail> {
    assert_eq!(rt; flat_told(alloc, flat)?.as_str(), expected);
    Ok(())
}

/// Compares the applications and their system, which has no borders.
fn compare_system(
    rt: &impl Abort,
    alloc: Global,
    applications: &[FlatApplication],
) -> Result<(), Fail> {
    for application in applications {
        let expected = "B:T; Event B.E TO B.E; Event E AT B.E";
        compare(rt, alloc, &application.flat, expected)?;
    }
    let expected = "Z.B:T; A.B:T; Event A.B.E TO A.B.E; Event Z.B.E TO Z.B.E";
    compare(rt, alloc, &join(alloc, applications)?, expected)
}

#[test]
fn a_system_has_what_its_applications_hold(rt: HostRuntime) -> Result<(), Fail> {
    let mut applications = Vec::new(rt.alloc());
    add(rt.alloc(), &mut applications, "Z")?;
    add(rt.alloc(), &mut applications, "A")?;
    compare_system(&rt, rt.alloc(), applications.as_slice())
}

/// The flat network of an application `A`, whose network is a loop.
fn joined(alloc: Global) -> Result<Flat, Fail> {
    let mut applications = Vec::new(alloc);
    add(alloc, &mut applications, "A")?;
    Ok(join(alloc, &applications)?)
}

/// A network whose one instance, `A`, is a subapplication of that type.
fn holder(alloc: Global, type_name: Name) -> Result<Network, Fail> {
    let instance = instance(Name::read("A")?, InstanceKind::Subapplication, type_name);
    let instances = vec![in alloc; instance]?;
    Ok(Network::new(Vec::new(alloc), instances, Vec::new(alloc)))
}

/// The flat network of a subapplication `A`, whose network is a loop.
fn held(alloc: Global) -> Result<Flat, Fail> {
    let types: BTreeMap<Name, Network> = BTreeMap::new(alloc);
    let type_name = Name::read("S")?;
    let mut nets = BTreeMap::new(alloc);
    nets.insert(type_name, looped(alloc)?)?;
    let network = holder(alloc, type_name)?;
    Ok(compose_by_part(alloc, &types, &network, &nets)?)
}

#[test]
fn flat_networks_are_told_by_what_they_say(rt: HostRuntime) -> Result<(), Fail> {
    let joined: Flat = joined(rt.alloc())?;
    assert!(rt; joined.is_same(&held(rt.alloc())?));
    assert!(rt; !joined.is_same(&looped(rt.alloc())?));
    Ok(())
}

/// Compares the flat network of a network without subapplications.
fn compare_composed(
    rt: &impl Abort,
    alloc: Global,
    types: &BTreeMap<Name, Network>,
    network: &Network,
    expected: &str,
) -> Result<(), Fail> {
    let nets: BTreeMap<Name, Flat> = BTreeMap::new(alloc);
    let flat = compose_by_part(alloc, types, network, &nets)?;
    compare(rt, alloc, &flat, expected)
}

#[test]
fn a_network_of_nothing_is_flat(rt: HostRuntime) -> Result<(), Fail> {
    let alloc = rt.alloc();
    let nothing = Network::new(Vec::new(alloc), Vec::new(alloc), Vec::new(alloc));
    compare_composed(&rt, alloc, &BTreeMap::new(alloc), &nothing, "")
}

/// An event input.
fn input(name: Name) -> Port {
    Port {
        sort: Sort::Event,
        side: Side::Input,
        name,
        adapter: None,
    }
}

/// A network whose event input is joined to that of its block.
fn bordered(alloc: Global, type_name: Name, name: Name, event: Name) -> Result<Network, Fail> {
    Ok(Network::new(
        vec![in alloc; input(event)]?,
        vec![in alloc; instance(name, InstanceKind::Block, type_name)]?,
        vec![in alloc; connection(End::Own(event), End::Of(name, event))]?,
    ))
}

#[test]
fn a_block_behind_a_border(rt: HostRuntime) -> Result<(), Fail> {
    let alloc = rt.alloc();
    let [type_name, name, event] = [Name::read("B")?, Name::read("F")?, Name::read("I")?];
    let inner = Network::new(
        vec![in alloc; input(event)]?,
        Vec::new(alloc),
        Vec::new(alloc),
    );
    let mut types = BTreeMap::new(alloc);
    types.insert(type_name, inner)?;
    let outer = bordered(alloc, type_name, name, event)?;
    compare_composed(&rt, alloc, &types, &outer, "F:B; Event I AT F.I")
}
