//! The ports of a type as plain values (IEC 61499-1, 5.2: interfaces of function block types; 5.5: adapters).
ghost use Rattle.std.specs.Prelude.{◌≡◌, ◌++◌, IfOk, OnOk, map};
ghost use Rattle.fb_tree.specs.Tree.{type_tree};
ghost use Rattle.fb_iface.specs.Ports.{data_on, events_on, instances_as, meanings_in_type};
ghost use Rattle.fb_types.specs.Ports.{plain_adapter, plain_data, plain_event, plain_ports};

use fb_iface::{Ports, is_beside, is_same_role, is_same_side};
use fb_network::Port;
use fb_tree::text::Name;
use fb_tree::{Role, Side, Sort, TypeDeclaration};
use std::alloc::{AllocError, Global};

/// The ports of a type: events and data, inputs before outputs, then plugs and sockets.
pub fn ports_of_type(alloc: Global, declared: &TypeDeclaration) -> Result<Vec<Port>, AllocError>
    ensures { IfOk result
        (λ ports. ports.items ≡ plain_ports (meanings_in_type (type_tree declared.now))) }
{
    let names = Ports::of_type(alloc, declared)?;
    let mut ports = Vec::new(alloc);
    push_events(Side::Input, &names, &mut ports)?;
    push_events(Side::Output, &names, &mut ports)?;
    push_data(Side::Input, &names, &mut ports)?;
    push_data(Side::Output, &names, &mut ports)?;
    push_adapters(Side::Output, Role::Plug, &names, &mut ports)?;
    push_adapters(Side::Input, Role::Socket, &names, &mut ports)?;
    Ok(ports)
}

fn push_events(side: Side, names: &Ports<'_>, ports: &mut Vec<Port>) -> Result<(), AllocError>
    ensures { OnOk result
        (ports.new.items ≡ ports.old.items ++ map (plain_event side) (events_on side names.now)) }
{
    for (name, event) in names.events().iter() {
        if is_same_side(event.side(), side) {
            ports.push(port(Sort::Event, side, *name, None))?;
        }
    }
    Ok(())
}

fn push_data(side: Side, names: &Ports<'_>, ports: &mut Vec<Port>) -> Result<(), AllocError>
    ensures { OnOk result
        (ports.new.items ≡ ports.old.items ++ map (plain_data side) (data_on side names.now)) }
{
    for (name, variable) in names.variables().iter() {
        if is_beside(side, variable.section()) {
            ports.push(port(Sort::Data, side, *name, None))?;
        }
    }
    Ok(())
}

/// The plugs as outputs, or the sockets as inputs.
fn push_adapters(
    side: Side,
    role: Role,
    names: &Ports<'_>,
    ports: &mut Vec<Port>,
) -> Result<(), AllocError>
    ensures { OnOk result
        (ports.new.items ≡ ports.old.items ++ map (plain_adapter side) (instances_as role names.now)) }
{
    for (name, instance) in names.instances().iter() {
        if is_same_role(instance.role(), role) {
            let adapter = Some(instance.type_name().name.name());
            ports.push(port(Sort::Adapter, side, *name, adapter))?;
        }
    }
    Ok(())
}

fn port(sort: Sort, side: Side, name: Name, adapter: Option<Name>) -> Port
    ensures { result ≡ record { sort = sort; side = side; name = name; adapter = adapter } }
{
    Port {
        sort,
        side,
        name,
        adapter,
    }
}
