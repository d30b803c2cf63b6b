//! What the sections of a declaration hold.

ghost use Rattle.fb_parse.specs.Contents.{charts_merged, contents_tree, interfaces_merged, joined, merged, networks_merged, nothing, of_adapters, of_algorithm, of_connections, of_events, of_instances, of_states, of_transitions, of_variables};
ghost use Rattle.fb_tree.specs.Tree.{algorithm_tree, chart_tree, event_tree, instance_tree, interface_tree, network_tree, state_tree, transition_tree, variables_tree};
ghost use Rattle.std.specs.Prelude.{◌≡◌, ◌++◌, IfOk, OnOk, map};

use fb_tree::{
    Algorithm, Chart, Connection, Event, Instance, Interface, Network, State, Transition, Variables,
};
use std::alloc::{AllocError, Global};
use std::mem;

/// What sections hold, in the order of the text.
#[derive(Drop)]
pub struct Contents {
    pub interface: Interface,
    pub network: Network,
    pub chart: Chart,
}

impl Contents {
    /// Of no section, or of one that is not kept.
    pub fn nothing(alloc: Global) -> Contents
        ensures { contents_tree result ≡ nothing }
    {
        Contents {
            interface: Interface {
                events: Vec::new(alloc),
                variables: Vec::new(alloc),
            },
            network: Network {
                instances: Vec::new(alloc),
                connections: Vec::new(alloc),
                is_written: false,
            },
            chart: Chart {
                states: Vec::new(alloc),
                transitions: Vec::new(alloc),
                algorithms: Vec::new(alloc),
                is_written: false,
            },
        }
    }

    pub fn of_events(alloc: Global, events: Vec<Event>) -> Contents
        ensures { contents_tree result ≡ of_events (map event_tree events.items) }
    {
        let mut contents = Contents::nothing(alloc);
        contents.interface.events = events;
        contents
    }

    pub fn of_variables(alloc: Global, variables: Vec<Variables>) -> Contents
        ensures { contents_tree result ≡ of_variables (map variables_tree variables.items) }
    {
        let mut contents = Contents::nothing(alloc);
        contents.interface.variables = variables;
        contents
    }

    /// Of plugs or sockets.
    pub fn of_adapters(alloc: Global, instances: Vec<Instance>) -> Contents
        ensures { contents_tree result ≡ of_adapters (map instance_tree instances.items) }
    {
        let mut contents = Contents::nothing(alloc);
        contents.network.instances = instances;
        contents
    }

    /// Of block or subapplication instances.
    pub fn of_instances(alloc: Global, instances: Vec<Instance>) -> Contents
        ensures { contents_tree result ≡ of_instances (map instance_tree instances.items) }
    {
        let mut contents = Contents::nothing(alloc);
        contents.network.instances = instances;
        contents.network.is_written = true;
        contents
    }

    pub fn of_connections(alloc: Global, connections: Vec<Connection>) -> Contents
        ensures { contents_tree result ≡ of_connections connections.items }
    {
        let mut contents = Contents::nothing(alloc);
        contents.network.connections = connections;
        contents.network.is_written = true;
        contents
    }

    pub fn of_states(alloc: Global, states: Vec<State>) -> Contents
        ensures { contents_tree result ≡ of_states (map state_tree states.items) }
    {
        let mut contents = Contents::nothing(alloc);
        contents.chart.states = states;
        contents.chart.is_written = true;
        contents
    }

    pub fn of_transitions(alloc: Global, transitions: Vec<Transition>) -> Contents
        ensures { contents_tree result ≡ of_transitions (map transition_tree transitions.items) }
    {
        let mut contents = Contents::nothing(alloc);
        contents.chart.transitions = transitions;
        contents
    }

    pub fn of_algorithm(alloc: Global, algorithm: Algorithm) -> Result<Contents, AllocError>
        ensures { IfOk result
            (λ contents. contents_tree contents ≡ of_algorithm (algorithm_tree algorithm)) }
    {
        let mut contents = Contents::nothing(alloc);
        contents.chart.algorithms.push(algorithm)?;
        Ok(contents)
    }

    /// Gives back the room that is not used.
    fn shrink(&mut self)
        ensures { contents_tree self.new ≡ contents_tree self.old }
    {
        self.interface.events.shrink_to_fit();
        self.interface.variables.shrink_to_fit();
        self.network.instances.shrink_to_fit();
        self.network.connections.shrink_to_fit();
        self.chart.states.shrink_to_fit();
        self.chart.transitions.shrink_to_fit();
        self.chart.algorithms.shrink_to_fit();
    }

    /// Appends what another section holds.
    fn append(&mut self, other: Contents) -> Result<(), AllocError>
        ensures { IfOk result
            (λ _. contents_tree self.new ≡ merged (contents_tree self.old) (contents_tree other)) }
    {
        append_interface(&mut self.interface, other.interface)?;
        append_network(&mut self.network, other.network)?;
        append_chart(&mut self.chart, other.chart)
    }
}

/// Appends a list, which becomes the whole if nothing was there.
fn append_list<T: Drop>(whole: &mut Vec<T>, part: &mut Vec<T>) -> Result<(), AllocError>
    ensures { OnOk result (whole.new.items ≡ whole.old.items ++ part.old.items) }
{
    if whole.is_empty() {
        mem::swap(whole, part);
        return Ok(());
    }
    whole.append(part)
}

fn append_interface(whole: &mut Interface, mut part: Interface) -> Result<(), AllocError>
    ensures { IfOk result (λ _. interface_tree whole.new
        ≡ interfaces_merged (interface_tree whole.old) (interface_tree part)) }
{
    append_list(&mut whole.events, &mut part.events)?;
    append_list(&mut whole.variables, &mut part.variables)
}

fn append_network(whole: &mut Network, mut part: Network) -> Result<(), AllocError>
    ensures { IfOk result (λ _. network_tree whole.new
        ≡ networks_merged (network_tree whole.old) (network_tree part)) }
{
    append_list(&mut whole.instances, &mut part.instances)?;
    append_list(&mut whole.connections, &mut part.connections)?;
    whole.is_written = whole.is_written || part.is_written;
    Ok(())
}

fn append_chart(whole: &mut Chart, mut part: Chart) -> Result<(), AllocError>
    ensures { IfOk result (λ _. chart_tree whole.new
        ≡ charts_merged (chart_tree whole.old) (chart_tree part)) }
{
    append_list(&mut whole.states, &mut part.states)?;
    append_list(&mut whole.transitions, &mut part.transitions)?;
    append_list(&mut whole.algorithms, &mut part.algorithms)?;
    whole.is_written = whole.is_written || part.is_written;
    Ok(())
}

/// What all sections hold.
#[tactic(auto, using(crate::proofs::Joining::joined_of_push))]
pub fn joined(alloc: Global, sections: Vec<Contents>) -> Result<Contents, AllocError>
    ensures { IfOk result
        (λ contents. contents_tree contents ≡ joined (map contents_tree sections.items)) }
{
    let mut contents = Contents::nothing(alloc);
    for section in sections {
        contents.append(section)?;
    }
    contents.shrink();
    Ok(contents)
}
