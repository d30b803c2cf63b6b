//! Laws of the ports of units: which ports there are, and in which order.
ghost use Rattle.fb_laws.specs.Ports.{AdaptersAreDeclared, DataAreDeclared, EventsAreDeclared, InstancesStandForFirst, InternalVariablesAreNoPorts, NamesStandForFirst, PortsComeAsDeclared, PortsHaveOwnNames, StructuresHaveNoPorts, SystemsHaveNoPorts, WholeTextsHaveInterfaces};

/// A text has an interface if it spells a unit: the ports of what it declares.
pub fn whole_texts_have_interfaces()
    ensures { WholeTextsHaveInterfaces }
{}

/// The event inputs and the event outputs of a type are those that it declares, each by the first event of its name.
pub fn events_are_declared()
    ensures { EventsAreDeclared }
{}

/// The data inputs and the data outputs of a type are those that it declares, each by the first variable of its name.
#[tactic(auto, using(crate::proofs::PortRows::data_declared))]
pub fn data_are_declared()
    ensures { DataAreDeclared }
{}

/// The plugs and the sockets of a type are those that it declares, each by the first instance of its name.
pub fn adapters_are_declared()
    ensures { AdaptersAreDeclared }
{}

/// A name that an internal variable has first is no data input and no data output.
pub fn internal_variables_are_no_ports()
    ensures { InternalVariablesAreNoPorts }
{}

/// A name means its first declaration in its name space.
#[tactic(auto, using(crate::proofs::PortRows::stand_for_first))]
pub fn names_stand_for_first()
    ensures { NamesStandForFirst }
{}

/// In the network of an application a name means its first instance.
pub fn instances_stand_for_first()
    ensures { InstancesStandForFirst }
{}

/// Each list of ports has a name once at most.
#[tactic(auto, using(crate::proofs::PortRows::own_names))]
pub fn ports_have_own_names()
    ensures { PortsHaveOwnNames }
{}

/// In each list of ports the one that is declared first comes first.
#[tactic(auto, using(crate::proofs::PortRows::come_as_declared))]
pub fn ports_come_as_declared()
    ensures { PortsComeAsDeclared }
{}

/// A system has no ports.
pub fn systems_have_no_ports()
    ensures { SystemsHaveNoPorts }
{}

/// A structure has no ports.
pub fn structures_have_no_ports()
    ensures { StructuresHaveNoPorts }
{}
