//! Names that are declared again in their name space.
ghost use Rattle.std.specs.{Prelude.{◌≡◌, ◌<◌, ◌↔◌, ◌++◌, length, map, IfOk, IsTrue, OnOk}, List.{flat_map, list_any}};
ghost use Rattle.fb_tree.specs.Tree.{chart_tree, decl_tree, device_tree, instance_tree, interface_tree, network_tree, structure_tree, system_tree, type_tree};
ghost use Rattle.fb_iface.specs.{Declarations.{duplicate_faults, space_duplicates}, Fault.{fault_at}, Names.{first_ones, is_same}};
ghost use Rattle.fb_iface.specs.declared.code.Code.TheVariants.{Duplicate};
ghost use Rattle.fb_iface.specs.Ports.{events_in, instances_in, meanings_in, meanings_in_type, variables_in};
ghost use Rattle.fb_iface.specs.Spaces.{chart_spaces, interface_spaces, network_spaces, parameter_names, resource_names, structure_spaces, system_spaces, type_spaces};

use crate::code::Code;
use crate::fault::Fault;
use crate::named::Named;
use crate::ports::Ports;
use fb_tree::text::{Name, NameUse, WideUse};
use fb_tree::{
    Application, Chart, Decl, Device, Instance, Interface, Network, Role, Structure, System,
    TypeDeclaration, Variables,
};
use std::alloc::{AllocError, Global};
use std::collections::HashSet;

/// Reports second and later declarations in each name space of a unit with these ports.
pub fn report_duplicates(
    alloc: Global,
    own: &Ports<'_>,
    decl: &Decl,
    found: &mut Vec<Fault>,
) -> Result<(), AllocError>
    requires { own.now ≡ meanings_in (decl_tree decl.now) }
    ensures { OnOk result
        (found.new.items ≡ found.old.items ++ duplicate_faults (decl_tree decl.now)) }
{
    match decl {
        Decl::Block(declared) | Decl::Adapter(declared) | Decl::Subapplication(declared) => {
            report_in_type(alloc, own, declared, found)
        }
        Decl::System(system) => report_in_system(alloc, system, found),
        Decl::Structure(structure) => report_in_structure(alloc, structure, found),
    }
}

fn report_in_type(
    alloc: Global,
    own: &Ports<'_>,
    declared: &TypeDeclaration,
    found: &mut Vec<Fault>,
) -> Result<(), AllocError>
    requires { own.now ≡ meanings_in_type (type_tree declared.now) }
    ensures { OnOk result (found.new.items
        ≡ found.old.items ++ flat_map space_duplicates (type_spaces (type_tree declared.now))) }
{
    report_in_interface(alloc, own, &declared.interface, found)?;
    report_in_chart(alloc, &declared.chart, found)?;
    report_in_own_network(alloc, own, &declared.network, found)
}

fn report_in_interface(
    alloc: Global,
    own: &Ports<'_>,
    interface: &Interface,
    found: &mut Vec<Fault>,
) -> Result<(), AllocError>
    requires events { own.now.events ≡ first_ones (events_in (interface_tree interface.now)) }
    requires variables { own.now.variables ≡ first_ones (variables_in (interface_tree interface.now)) }
    ensures { OnOk result (found.new.items
        ≡ found.old.items
        ++ flat_map space_duplicates (interface_spaces (interface_tree interface.now))) }
{
    report_events(alloc, own.events().len(), interface, found)?;
    report_variables(alloc, own.variables().len(), interface, found)
}

/// Reports those among the events, of which this number have different names.
fn report_events(
    alloc: Global,
    different: usize,
    interface: &Interface,
    found: &mut Vec<Fault>,
) -> Result<(), AllocError>
    requires { different ≡ length (first_ones (events_in (interface_tree interface.now))) }
    ensures { OnOk result (found.new.items
        ≡ found.old.items ++ space_duplicates (map (λ e. e.name) interface.now.events.items)) }
{
    if different < interface.events.len() {
        report_repeated(alloc, interface.events.as_slice(), found)
    } else {
        Ok(())
    }
}

/// Reports those among the variables, of which this number have different names.
fn report_variables(
    alloc: Global,
    different: usize,
    interface: &Interface,
    found: &mut Vec<Fault>,
) -> Result<(), AllocError>
    requires { different ≡ length (first_ones (variables_in (interface_tree interface.now))) }
    ensures { OnOk result (found.new.items
        ≡ found.old.items
        ++ space_duplicates (flat_map (λ v. v.names.items) interface.now.variables.items)) }
{
    let groups = interface.variables.as_slice();
    if are_more(groups, different) {
        let variables = variable_names(alloc, groups)?;
        report_repeated(alloc, variables.as_slice(), found)
    } else {
        Ok(())
    }
}

/// Whether there are more variables than this.
pub(crate) fn are_more(groups: &[Variables], count: usize) -> bool
    ensures { IsTrue result ↔ (count < length (flat_map (λ v. v.names.items) groups.now)) }
{
    let mut left = count;
    for group in groups {
        if left < group.names.len() {
            return true;
        }
        left -= group.names.len();
    }
    false
}

/// Reports those among the fields of a structure.
fn report_in_structure(
    alloc: Global,
    structure: &Structure,
    found: &mut Vec<Fault>,
) -> Result<(), AllocError>
    ensures { OnOk result (found.new.items
        ≡ found.old.items
        ++ flat_map space_duplicates (structure_spaces (structure_tree structure.now))) }
{
    let fields = variable_names(alloc, structure.fields.as_slice())?;
    report_repeated(alloc, fields.as_slice(), found)
}

fn variable_names(alloc: Global, variables: &[Variables]) -> Result<Vec<WideUse>, AllocError>
    ensures { IfOk result (λ names. names.items ≡ flat_map (λ v. v.names.items) variables.now) }
{
    let mut names = Vec::new(alloc);
    for group in variables {
        add_names(group.names.as_slice(), &mut names)?;
    }
    Ok(names)
}

fn add_names(uses: &[NameUse], names: &mut Vec<WideUse>) -> Result<(), AllocError>
    ensures { OnOk result (names.new.items ≡ names.old.items ++ uses.now) }
{
    for used in uses {
        names.push(WideUse::of(used))?;
    }
    Ok(())
}

fn report_in_chart(alloc: Global, chart: &Chart, found: &mut Vec<Fault>) -> Result<(), AllocError>
    ensures { OnOk result (found.new.items
        ≡ found.old.items ++ flat_map space_duplicates (chart_spaces (chart_tree chart.now))) }
{
    report_repeated(alloc, chart.states.as_slice(), found)?;
    report_repeated(alloc, chart.algorithms.as_slice(), found)
}

/// Reports those among the instances of a network, and among the parameters of each.
fn report_in_network(
    alloc: Global,
    network: &Network,
    found: &mut Vec<Fault>,
) -> Result<(), AllocError>
    ensures { OnOk result (found.new.items
        ≡ found.old.items
        ++ flat_map space_duplicates (network_spaces (network_tree network.now))) }
{
    report_repeated(alloc, network.instances.as_slice(), found)?;
    report_in_instances(alloc, network, found)
}

/// Reports those among the instances of the network of a type with these ports, and among the parameters of each.
fn report_in_own_network(
    alloc: Global,
    own: &Ports<'_>,
    network: &Network,
    found: &mut Vec<Fault>,
) -> Result<(), AllocError>
    requires { own.now.instances ≡ first_ones (instances_in (network_tree network.now)) }
    ensures { OnOk result (found.new.items
        ≡ found.old.items
        ++ flat_map space_duplicates (network_spaces (network_tree network.now))) }
{
    if own.instances().len() < network.instances.len() {
        report_in_network(alloc, network, found)
    } else {
        report_in_instances(alloc, network, found)
    }
}

/// Reports those among the parameters of each instance.
fn report_in_instances(
    alloc: Global,
    network: &Network,
    found: &mut Vec<Fault>,
) -> Result<(), AllocError>
    ensures { OnOk result (found.new.items ≡ found.old.items
        ++ flat_map (λ i. space_duplicates (parameter_names (instance_tree i))) network.now.instances.items) }
{
    for instance in &network.instances {
        report_in_instance(alloc, instance, found)?;
    }
    Ok(())
}

/// Reports those among the parameters of a block instance. Parameters of others are not checked.
fn report_in_instance(
    alloc: Global,
    instance: &Instance,
    found: &mut Vec<Fault>,
) -> Result<(), AllocError>
    ensures { OnOk result (found.new.items
        ≡ found.old.items ++ space_duplicates (parameter_names (instance_tree instance.now))) }
{
    match instance.role {
        Role::Block => report_repeated(alloc, instance.parameters.as_slice(), found),
        Role::Plug | Role::Socket | Role::Subapplication => Ok(()),
    }
}

fn report_in_system(
    alloc: Global,
    system: &System,
    found: &mut Vec<Fault>,
) -> Result<(), AllocError>
    ensures { OnOk result (found.new.items
        ≡ found.old.items ++ flat_map space_duplicates (system_spaces (system_tree system.now))) }
{
    report_repeated(alloc, system.applications.as_slice(), found)?;
    report_in_applications(alloc, system.applications.as_slice(), found)?;
    report_repeated(alloc, system.devices.as_slice(), found)?;
    report_in_devices(alloc, system.devices.as_slice(), found)
}

fn report_in_applications(
    alloc: Global,
    applications: &[Application],
    found: &mut Vec<Fault>,
) -> Result<(), AllocError>
    ensures { OnOk result (found.new.items ≡ found.old.items
        ++ flat_map
        (λ a. flat_map space_duplicates
        (network_spaces (network_tree a.network))) applications.now) }
{
    for application in applications {
        report_in_network(alloc, &application.network, found)?;
    }
    Ok(())
}

/// Reports those among the resources of each device.
fn report_in_devices(
    alloc: Global,
    devices: &[Device],
    found: &mut Vec<Fault>,
) -> Result<(), AllocError>
    ensures { OnOk result (found.new.items ≡ found.old.items
        ++ flat_map (λ d. space_duplicates (map (λ r. r.name) d.resources.items)) devices.now) }
{
    for device in devices {
        report_repeated(alloc, device.resources.as_slice(), found)?;
    }
    Ok(())
}

/// Up to this number of declarations are compared with each other; of more, the names are kept in a set.
const FEW: usize = 8;

/// Reports each declaration of one name space whose name is before it.
fn report_repeated<T: Named>(
    alloc: Global,
    declarations: &[T],
    found: &mut Vec<Fault>,
) -> Result<(), AllocError>
    ensures { OnOk result
        (found.new.items ≡ found.old.items ++ space_duplicates (map T.name_of declarations.now)) }
{
    if declarations.len() <= FEW {
        report_among_few(declarations, found)
    } else {
        report_among_many(alloc, declarations, found)
    }
}

/// Reports them by comparing each name with those before it.
fn report_among_few<T: Named>(declarations: &[T], found: &mut Vec<Fault>) -> Result<(), AllocError>
    ensures { OnOk result
        (found.new.items ≡ found.old.items ++ space_duplicates (map T.name_of declarations.now)) }
{
    for (i, declaration) in declarations.iter().enumerate() {
        let name = declaration.name();
        if is_declared(&declarations[..i], name.name()) {
            found.push(duplicate_at(&name))?;
        }
    }
    Ok(())
}

/// Whether one of the declarations has the name.
fn is_declared<T: Named>(declarations: &[T], name: &Name) -> bool
    ensures { result ≡ list_any (λ d. is_same (T.name_of d).name name.now) declarations.now }
{
    declarations
        .iter()
        .any(|declaration| declaration.is_named(name))
}

/// Reports them by a set of the names so far.
fn report_among_many<T: Named>(
    alloc: Global,
    declarations: &[T],
    found: &mut Vec<Fault>,
) -> Result<(), AllocError>
    ensures { OnOk result
        (found.new.items ≡ found.old.items ++ space_duplicates (map T.name_of declarations.now)) }
{
    let mut seen = HashSet::with_capacity(alloc, declarations.len())?;
    for declaration in declarations {
        let name = declaration.name();
        if !seen.insert(*name.name())? {
            found.push(duplicate_at(&name))?;
        }
    }
    Ok(())
}

/// A fault at a name that is declared again.
fn duplicate_at(name: &WideUse) -> Fault
    ensures { result ≡ fault_at Duplicate name.now }
{
    Fault {
        code: Code::Duplicate,
        span: name.place().span(),
    }
}
