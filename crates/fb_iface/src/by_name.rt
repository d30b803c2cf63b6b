//! What names mean among the ports of a unit: by tables, or in the tree of a type that declares few names.
ghost use Rattle.std.specs.{Prelude.{◌≡◌}, List.{find}, Option.{option_copied}};
ghost use Rattle.fb_tree.specs.Tree.{interface_tree, network_tree};
ghost use Rattle.fb_iface.specs.{Names.{has_name, is_same, stands_for}, Ports.{events_in, instances_in, variables_in}};

use crate::named::Named;
use crate::ports::{DeclaredEvent, DeclaredInstance, DeclaredVariable, Ports};
use crate::repeats::are_more;
use fb_tree::text::Name;
use fb_tree::{Interface, Network, TypeDeclaration, Variables};
use std::alloc::{AllocError, Global};
use std::marker::Model;

/// The most names that a type without tables declares. Most types are asked for few names, and to search these in the tree takes less time
/// than to make tables of all. Where many instances have a type of more names, tables take less.
const FEW: usize = 40;

/// Where names are looked up.
#[derive(Drop)]
enum Lookup<'a> {
    Tables(Ports<'a>),
    Tree(&'a TypeDeclaration),
}

/// What names mean among the ports of a unit. A name that is declared more than once means its first declaration.
pub struct PortsByName<'a> {
    lookup: Lookup<'a>,
}

impl<'a> Drop for PortsByName<'a> {
    fn drop(self) {
        let Self { lookup: _ } = self;
    }
}

impl<'a> Model for PortsByName<'a> {
    ghost use Rattle.fb_iface.specs.{ByName.{meanings_by}, Ports.{Meanings}};

    ghost Value = { Meanings };

    ghost view = { λ p. meanings_by p.lookup };
}

impl<'a> PortsByName<'a> {
    ghost use Rattle.std.specs.Prelude.{IfOk};
    ghost use Rattle.fb_tree.specs.Tree.{type_tree};
    ghost use Rattle.fb_iface.specs.Ports.{meanings_in_type};

    /// What names mean by these tables.
    pub(crate) fn by_tables(ports: Ports<'a>) -> PortsByName<'a>
        ensures { result ≡ ports.entry }
    {
        PortsByName {
            lookup: Lookup::Tables(ports),
        }
    }

    /// What names mean among the ports of a type.
    pub(crate) fn of_type(
        alloc: Global,
        declared: &'a TypeDeclaration,
    ) -> Result<PortsByName<'a>, AllocError>
        ensures { IfOk result (λ ports. ports ≡ meanings_in_type (type_tree declared.now)) }
    {
        if declares_few(declared) {
            Ok(PortsByName {
                lookup: Lookup::Tree(declared),
            })
        } else {
            Ok(PortsByName::by_tables(Ports::of_type(alloc, declared)?))
        }
    }

    /// The event that the name means.
    pub fn event(&self, name: &Name) -> Option<DeclaredEvent<'a>>
        ensures { result ≡ stands_for self.now.events name.now }
    {
        match &self.lookup {
            Lookup::Tables(ports) => ports.event(name),
            Lookup::Tree(declared) => find_event(&declared.interface, name),
        }
    }

    /// The variable that the name means, an internal one too.
    pub fn variable(&self, name: &Name) -> Option<DeclaredVariable<'a>>
        ensures { result ≡ stands_for self.now.variables name.now }
    {
        match &self.lookup {
            Lookup::Tables(ports) => ports.variable(name),
            Lookup::Tree(declared) => find_variable(&declared.interface, name),
        }
    }

    /// The instance, plug or socket that the name means.
    pub fn instance(&self, name: &Name) -> Option<DeclaredInstance<'a>>
        ensures { result ≡ stands_for self.now.instances name.now }
    {
        match &self.lookup {
            Lookup::Tables(ports) => ports.instance(name),
            Lookup::Tree(declared) => find_instance(&declared.network, name),
        }
    }
}

/// Whether a type declares few names.
fn declares_few(declared: &TypeDeclaration) -> bool {
    let interface = &declared.interface;
    let others = interface
        .events
        .len()
        .saturating_add(declared.network.instances.len());
    others <= FEW && !are_more(interface.variables.as_slice(), FEW - others)
}

/// The first event with this name.
fn find_event<'a>(interface: &'a Interface, name: &Name) -> Option<DeclaredEvent<'a>>
    ensures { result ≡ stands_for (events_in (interface_tree interface.now)) name.now }
{
    match first_named(interface.events.as_slice(), name) {
        Some(event) => Some(DeclaredEvent { event }),
        None => None,
    }
}

/// The first variable with this name.
fn find_variable<'a>(interface: &'a Interface, name: &Name) -> Option<DeclaredVariable<'a>>
    ensures { result ≡ stands_for (variables_in (interface_tree interface.now)) name.now }
{
    match first_group(interface.variables.as_slice(), name) {
        Some(group) => Some(DeclaredVariable { group }),
        None => None,
    }
}

/// The first variables that are declared together and among which one has this name.
fn first_group<'a>(groups: &'a [Variables], name: &Name) -> Option<&'a Variables>
    ensures { option_copied result ≡ find (λ v. has_name v.names.items name.now) groups.now }
{
    groups.iter().find(|group| is_among(group, name))
}

/// Whether one of the variables that are declared together has this name.
fn is_among(group: &Variables, name: &Name) -> bool
    ensures { result ≡ has_name group.now.names.items name.now }
{
    group.names.iter().any(|declared| declared.name.is(name))
}

/// The first instance with this name.
fn find_instance<'a>(network: &'a Network, name: &Name) -> Option<DeclaredInstance<'a>>
    ensures { result ≡ stands_for (instances_in (network_tree network.now)) name.now }
{
    match first_named(network.instances.as_slice(), name) {
        Some(instance) => Some(DeclaredInstance { instance }),
        None => None,
    }
}

/// The first declaration of a name.
fn first_named<'a, T: Named>(declarations: &'a [T], name: &Name) -> Option<&'a T>
    ensures { option_copied result ≡ find (λ d. is_same (T.name_of d).name name.now) declarations.now }
{
    declarations
        .iter()
        .find(|declaration| declaration.is_named(name))
}
