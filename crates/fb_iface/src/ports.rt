//! The ports of a unit (IEC 61499-1, 5.2: interfaces of function block types; 5.5: adapters).
ghost use Rattle.std.specs.{Prelude.{◌≡◌, IfOk, OnOk, map}, List.{flat_map}};
ghost use Rattle.fb_tree.specs.Tree.{interface_tree, network_tree, variables_tree};
ghost use Rattle.fb_iface.specs.{Names.{first_ones, with_firsts}, Ports.{events_in, instances_in, same_role, same_side, variables_together}};
ghost use Rattle.fb_iface.specs.Sides.{is_data_on};

use crate::names::declare;
use fb_tree::text::{Name, NameUse};
use fb_tree::{
    Event, Instance, Interface, Network, Role, Section, Side, TypeDeclaration, TypeUse, Variables,
};
use indexmap::IndexMap;
use std::alloc::{AllocError, Global};
use std::marker::Model;

/// An event of an interface, with its type if one is written: a view into the tree that declares it.
#[derive(Drop)]
pub struct DeclaredEvent<'a> {
    pub(crate) event: &'a Event,
}

impl<'a> Model for DeclaredEvent<'a> {
    ghost use Rattle.fb_iface.specs.Ports.{DeclaredEvent as Meaning};

    ghost Value = { Meaning };

    ghost view = { λ d. record { side = d.event.now.side; type_name = d.event.now.type_name } };
}

impl<'a> DeclaredEvent<'a> {
    ghost use Rattle.std.specs.Option.{option_copied};

    /// Its side.
    pub fn side(&self) -> Side
        ensures { result ≡ self.now.side }
    {
        self.event.side
    }

    /// The name of its type, if one is written.
    pub fn type_name(&self) -> Option<&'a NameUse>
        ensures { option_copied result ≡ self.now.type_name }
    {
        self.event.type_name.as_ref()
    }
}

/// A variable of an interface, or a field of a structure: a view into the tree that declares it.
#[derive(Drop)]
pub struct DeclaredVariable<'a> {
    pub(crate) group: &'a Variables,
}

impl<'a> Model for DeclaredVariable<'a> {
    ghost use Rattle.fb_iface.specs.Ports.{DeclaredVariable as Meaning};

    ghost Value = { Meaning };

    ghost view = { λ d. record { section = d.group.now.section; type_use = d.group.now.type_use } };
}

impl<'a> DeclaredVariable<'a> {
    /// Its section.
    pub fn section(&self) -> Section
        ensures { result ≡ self.now.section }
    {
        self.group.section
    }

    /// Its type.
    pub fn type_use(&self) -> &'a TypeUse
        ensures { result.now ≡ self.now.type_use }
    {
        &self.group.type_use
    }
}

/// An instance, a plug or a socket: a view into the tree that declares it.
#[derive(Drop)]
pub struct DeclaredInstance<'a> {
    pub(crate) instance: &'a Instance,
}

impl<'a> Model for DeclaredInstance<'a> {
    ghost use Rattle.fb_iface.specs.Ports.{DeclaredInstance as Meaning};

    ghost Value = { Meaning };

    ghost view = { λ d. record { role = d.instance.now.role; type_name = d.instance.now.type_name } };
}

impl<'a> DeclaredInstance<'a> {
    /// Its role.
    pub fn role(&self) -> Role
        ensures { result ≡ self.now.role }
    {
        self.instance.role
    }

    /// The name of its type.
    pub fn type_name(&self) -> &'a NameUse
        ensures { result.now ≡ self.now.type_name }
    {
        &self.instance.type_name
    }
}

/// What the events, variables and instances of a unit are, by their names, in the order of the text. A name that is declared more than once
/// means its first declaration: an internal variable or an instance may hide a port of that name.
pub struct Ports<'a> {
    events: IndexMap<Name, DeclaredEvent<'a>>,
    variables: IndexMap<Name, DeclaredVariable<'a>>,
    instances: IndexMap<Name, DeclaredInstance<'a>>,
}

impl<'a> Drop for Ports<'a> {
    fn drop(self) {
        let Self {
            events: _,
            variables: _,
            instances: _,
        } = self;
    }
}

impl<'a> Model for Ports<'a> {
    ghost use Rattle.fb_iface.specs.Ports.{Meanings};

    ghost Value = { Meanings };

    ghost view = { λ p. record { events = p.events.entries; variables = p.variables.entries; instances = p.instances.entries } };
}

impl<'a> Ports<'a> {
    ghost use Rattle.std.specs.Prelude.{[]};
    ghost use Rattle.fb_tree.specs.Tree.{type_tree};
    ghost use Rattle.fb_iface.specs.{Names.{stands_for}, Ports.{meanings_in_network, meanings_in_type}};

    /// No ports.
    pub fn new(alloc: Global) -> Ports<'a>
        ensures { result ≡ record { events = []; variables = []; instances = [] } }
    {
        Ports {
            events: IndexMap::new(alloc),
            variables: IndexMap::new(alloc),
            instances: IndexMap::new(alloc),
        }
    }

    /// The ports of a type.
    pub fn of_type(alloc: Global, declared: &'a TypeDeclaration) -> Result<Ports<'a>, AllocError>
        ensures { IfOk result (λ ports. ports ≡ meanings_in_type (type_tree declared.now)) }
    {
        Ok(Ports {
            events: event_table(alloc, &declared.interface)?,
            variables: variable_table(alloc, declared.interface.variables.as_slice())?,
            instances: instance_table(alloc, &declared.network)?,
        })
    }

    /// The instances of a network, which has no events and variables of its own.
    pub fn of_network(alloc: Global, network: &'a Network) -> Result<Ports<'a>, AllocError>
        ensures { IfOk result (λ ports. ports ≡ meanings_in_network (network_tree network.now)) }
    {
        Ok(Ports {
            events: IndexMap::new(alloc),
            variables: IndexMap::new(alloc),
            instances: instance_table(alloc, network)?,
        })
    }

    /// The event that the name means.
    #[tactic(auto, using(crate::proofs::TableLemmas::found_by_name))]
    pub fn event(&self, name: &Name) -> Option<DeclaredEvent<'a>>
        ensures { result ≡ stands_for self.now.events name.now }
    {
        match self.events.get(name) {
            Some(found) => Some(DeclaredEvent { event: found.event }),
            None => None,
        }
    }

    /// The variable that the name means, an internal one too.
    #[tactic(auto, using(crate::proofs::TableLemmas::found_by_name))]
    pub fn variable(&self, name: &Name) -> Option<DeclaredVariable<'a>>
        ensures { result ≡ stands_for self.now.variables name.now }
    {
        match self.variables.get(name) {
            Some(found) => Some(DeclaredVariable { group: found.group }),
            None => None,
        }
    }

    /// The instance, plug or socket that the name means.
    #[tactic(auto, using(crate::proofs::TableLemmas::found_by_name))]
    pub fn instance(&self, name: &Name) -> Option<DeclaredInstance<'a>>
        ensures { result ≡ stands_for self.now.instances name.now }
    {
        match self.instances.get(name) {
            Some(found) => Some(DeclaredInstance {
                instance: found.instance,
            }),
            None => None,
        }
    }

    /// The events by their names: the event inputs are those of the side `Input`.
    pub fn events(&self) -> &IndexMap<Name, DeclaredEvent<'a>>
        ensures { result.now.entries ≡ self.now.events }
    {
        &self.events
    }

    /// The variables by their names, internal ones too: the data inputs are those in a section beside `Input` ([`is_beside`]).
    pub fn variables(&self) -> &IndexMap<Name, DeclaredVariable<'a>>
        ensures { result.now.entries ≡ self.now.variables }
    {
        &self.variables
    }

    /// The instances by their names, plugs and sockets too.
    pub fn instances(&self) -> &IndexMap<Name, DeclaredInstance<'a>>
        ensures { result.now.entries ≡ self.now.instances }
    {
        &self.instances
    }
}

/// Whether two sides are the same.
pub fn is_same_side(a: Side, b: Side) -> bool
    ensures { result ≡ same_side a b }
{
    match (a, b) {
        (Side::Input, Side::Input) | (Side::Output, Side::Output) => true,
        _ => false,
    }
}

/// Whether two roles are the same.
pub fn is_same_role(a: Role, b: Role) -> bool
    ensures { result ≡ same_role a b }
{
    match (a, b) {
        (Role::Plug, Role::Plug) => true,
        (Role::Socket, Role::Socket) => true,
        (Role::Block, Role::Block) => true,
        (Role::Subapplication, Role::Subapplication) => true,
        _ => false,
    }
}

/// Whether variables of this section are data of this side, so that they may go along with its events.
pub fn is_beside(side: Side, section: Section) -> bool
    ensures { result ≡ is_data_on side section }
{
    match (side, section) {
        (Side::Input, Section::Input) | (Side::Output, Section::Output) => true,
        _ => false,
    }
}

/// The events of an interface by their names.
fn event_table<'a>(
    alloc: Global,
    interface: &'a Interface,
) -> Result<IndexMap<Name, DeclaredEvent<'a>>, AllocError>
    ensures { IfOk result
        (λ table. table.entries ≡ first_ones (events_in (interface_tree interface.now))) }
{
    let mut table = IndexMap::with_capacity(alloc, interface.events.len())?;
    for event in &interface.events {
        declare(event.name.name.name(), DeclaredEvent { event }, &mut table)?;
    }
    Ok(table)
}

/// Variables or fields by their names.
pub(crate) fn variable_table<'a>(
    alloc: Global,
    groups: &'a [Variables],
) -> Result<IndexMap<Name, DeclaredVariable<'a>>, AllocError>
    ensures { IfOk result (λ table. table.entries
        ≡ first_ones (flat_map variables_together (map variables_tree groups.now))) }
{
    let mut table = IndexMap::with_capacity(alloc, count_of(groups))?;
    for group in groups {
        declare_together(group, &mut table)?;
    }
    Ok(table)
}

/// How many variables there are. This reads the first name of each group, and does little beside, so that the processor fetches many
/// groups at once: while it fills the table it would wait for each.
fn count_of(groups: &[Variables]) -> usize {
    let mut count: usize = 0;
    for group in groups {
        if is_named(group) {
            count = count.saturating_add(group.names.len());
        }
    }
    count
}

/// Whether there are names, and the first is not empty.
fn is_named(group: &Variables) -> bool {
    match group.names.first() {
        Some(first) => !first.name.as_str().is_empty(),
        None => false,
    }
}

/// Declares the variables that are declared together.
fn declare_together<'a>(
    group: &'a Variables,
    table: &mut IndexMap<Name, DeclaredVariable<'a>>,
) -> Result<(), AllocError>
    ensures { OnOk result (table.new.entries
        ≡ with_firsts table.old.entries (variables_together (variables_tree group.now))) }
{
    for name in &group.names {
        declare(name.name.name(), DeclaredVariable { group }, table)?;
    }
    Ok(())
}

/// The instances of a network by their names.
fn instance_table<'a>(
    alloc: Global,
    network: &'a Network,
) -> Result<IndexMap<Name, DeclaredInstance<'a>>, AllocError>
    ensures { IfOk result
        (λ table. table.entries ≡ first_ones (instances_in (network_tree network.now))) }
{
    let mut table = IndexMap::with_capacity(alloc, network.instances.len())?;
    for instance in &network.instances {
        let name = instance.name.name.name();
        declare(name, DeclaredInstance { instance }, &mut table)?;
    }
    Ok(table)
}
