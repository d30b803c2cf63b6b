//! The sections of declarations, each as what it holds.

ghost use Rattle.fb_structured_text.specs.{Forms.Form.{as_value}, Forms.Gives.{Gives}, Forms.Reading.{read}};
ghost use Rattle.fb_parse.specs.Contents.{contents_tree, of_instances, of_variables};
ghost use Rattle.fb_parse.specs.Grammar.{adapter_section, application_section, block_section, chart_section, data_section, interface_section, network_section, service_section, subapplication_section};
ghost use Rattle.fb_sections.specs.{Interface.{internal_variables}, Network.{subapplications}};
ghost use Rattle.std.specs.Prelude.{◌≡◌};

use crate::chart::{algorithm, transitions};
use crate::contents::Contents;
use fb_sections::{
    blocks, connections, data_variables, events, internal_variables, plugs, service, sockets,
    states, subapplications,
};
use fb_structured_text::grammar::{Kind, Stop, Tokens, is_next};
use std::alloc::Global;

/// What begins a section of an interface.
const INTERFACE: [Kind; 6] = [
    Kind::EventInput,
    Kind::EventOutput,
    Kind::VarInput,
    Kind::VarOutput,
    Kind::Plugs,
    Kind::Sockets,
];

/// What begins a section of block instances or of connections.
const NETWORK: [Kind; 4] = [
    Kind::Fbs,
    Kind::EventConnections,
    Kind::DataConnections,
    Kind::AdapterConnections,
];

/// Events or data.
#[tactic(auto, unfolding(crate::specs::Grammar::data_section, crate::specs::Grammar::events))]
fn data_section(alloc: Global, tokens: &mut Tokens<'_>) -> Result<Contents, Stop>
    ensures { Gives contents_tree result tokens.new (read data_section tokens.old) }
{
    if is_next(tokens, &[Kind::EventInput, Kind::EventOutput]) {
        let events = events(alloc, tokens)?;
        Ok(Contents::of_events(alloc, events))
    } else {
        let variables = data_variables(alloc, tokens)?;
        Ok(Contents::of_variables(alloc, variables))
    }
}

/// A section that is not kept.
#[tactic(auto, unfolding(crate::specs::Grammar::service_section))]
fn service_section(alloc: Global, tokens: &mut Tokens<'_>) -> Result<Contents, Stop>
    ensures { Gives contents_tree result tokens.new (read service_section tokens.old) }
{
    service(tokens)?;
    Ok(Contents::nothing(alloc))
}

/// Events, data, plugs or sockets.
#[tactic(auto, unfolding(crate::specs::Grammar::interface_section, crate::specs::Grammar::data_section, crate::specs::Grammar::events, crate::specs::Grammar::data_variables, crate::specs::Grammar::plugs))]
fn interface_section(alloc: Global, tokens: &mut Tokens<'_>) -> Result<Contents, Stop>
    ensures { Gives contents_tree result tokens.new (read interface_section tokens.old) }
{
    if is_next(
        tokens,
        &[
            Kind::EventInput,
            Kind::EventOutput,
            Kind::VarInput,
            Kind::VarOutput,
        ],
    ) {
        data_section(alloc, tokens)
    } else if is_next(tokens, &[Kind::Plugs]) {
        let instances = plugs(alloc, tokens)?;
        Ok(Contents::of_adapters(alloc, instances))
    } else {
        let instances = sockets(alloc, tokens)?;
        Ok(Contents::of_adapters(alloc, instances))
    }
}

/// Block instances or connections.
#[tactic(auto, unfolding(crate::specs::Grammar::network_section, crate::specs::Grammar::blocks))]
fn network_section(alloc: Global, tokens: &mut Tokens<'_>) -> Result<Contents, Stop>
    ensures { Gives contents_tree result tokens.new (read network_section tokens.old) }
{
    if is_next(tokens, &[Kind::Fbs]) {
        let instances = blocks(alloc, tokens)?;
        Ok(Contents::of_instances(alloc, instances))
    } else {
        let connections = connections(alloc, tokens)?;
        Ok(Contents::of_connections(alloc, connections))
    }
}

/// States, transitions or an algorithm.
#[tactic(auto, unfolding(crate::specs::Grammar::chart_section, crate::specs::Grammar::states, crate::specs::Chart::transitions))]
fn chart_section(alloc: Global, tokens: &mut Tokens<'_>) -> Result<Contents, Stop>
    ensures { Gives contents_tree result tokens.new (read chart_section tokens.old) }
{
    if is_next(tokens, &[Kind::EcStates]) {
        let states = states(alloc, tokens)?;
        Ok(Contents::of_states(alloc, states))
    } else if is_next(tokens, &[Kind::EcTransitions]) {
        let transitions = transitions(alloc, tokens)?;
        Ok(Contents::of_transitions(alloc, transitions))
    } else {
        let algorithm = algorithm(alloc, tokens)?;
        Ok(Contents::of_algorithm(alloc, algorithm)?)
    }
}

/// Internal variables.
fn internal_section(alloc: Global, tokens: &mut Tokens<'_>) -> Result<Contents, Stop>
    ensures { Gives contents_tree result tokens.new
        (read (as_value of_variables internal_variables) tokens.old) }
{
    let variables = internal_variables(alloc, tokens)?;
    Ok(Contents::of_variables(alloc, variables))
}

/// A section of a block type.
#[tactic(auto, unfolding(crate::specs::Grammar::block_section, crate::specs::Grammar::interface_section, crate::specs::Grammar::data_section, crate::specs::Grammar::network_section, crate::specs::Grammar::chart_section, crate::specs::Grammar::events, crate::specs::Grammar::data_variables, crate::specs::Grammar::internal_variables, crate::specs::Grammar::plugs, crate::specs::Grammar::sockets, crate::specs::Grammar::blocks, crate::specs::Grammar::connections, crate::specs::Grammar::states, crate::specs::Chart::transitions, crate::specs::Chart::algorithm))]
pub fn block_section(alloc: Global, tokens: &mut Tokens<'_>) -> Result<Contents, Stop>
    ensures { Gives contents_tree result tokens.new (read block_section tokens.old) }
{
    if is_next(tokens, &INTERFACE) {
        interface_section(alloc, tokens)
    } else if is_next(tokens, &[Kind::Var]) {
        internal_section(alloc, tokens)
    } else if is_next(tokens, &NETWORK) {
        network_section(alloc, tokens)
    } else if is_next(
        tokens,
        &[Kind::EcStates, Kind::EcTransitions, Kind::Algorithm],
    ) {
        chart_section(alloc, tokens)
    } else {
        service_section(alloc, tokens)
    }
}

/// A section of an adapter type.
#[tactic(auto, unfolding(crate::specs::Grammar::adapter_section, crate::specs::Grammar::data_section, crate::specs::Grammar::events, crate::specs::Grammar::data_variables))]
pub fn adapter_section(alloc: Global, tokens: &mut Tokens<'_>) -> Result<Contents, Stop>
    ensures { Gives contents_tree result tokens.new (read adapter_section tokens.old) }
{
    if is_next(
        tokens,
        &[
            Kind::EventInput,
            Kind::EventOutput,
            Kind::VarInput,
            Kind::VarOutput,
        ],
    ) {
        data_section(alloc, tokens)
    } else {
        service_section(alloc, tokens)
    }
}

/// Subapplication instances.
fn subapplication_instances(alloc: Global, tokens: &mut Tokens<'_>) -> Result<Contents, Stop>
    ensures { Gives contents_tree result tokens.new (read (as_value of_instances subapplications) tokens.old) }
{
    let instances = subapplications(alloc, tokens)?;
    Ok(Contents::of_instances(alloc, instances))
}

/// A section of an application.
#[tactic(auto, unfolding(crate::specs::Grammar::application_section, crate::specs::Grammar::network_section, crate::specs::Grammar::blocks, crate::specs::Grammar::connections))]
pub fn application_section(alloc: Global, tokens: &mut Tokens<'_>) -> Result<Contents, Stop>
    ensures { Gives contents_tree result tokens.new (read application_section tokens.old) }
{
    if is_next(tokens, &NETWORK) {
        network_section(alloc, tokens)
    } else {
        subapplication_instances(alloc, tokens)
    }
}

/// A section of a subapplication type.
#[tactic(auto, unfolding(crate::specs::Grammar::subapplication_section, crate::specs::Grammar::application_section, crate::specs::Grammar::interface_section, crate::specs::Grammar::data_section, crate::specs::Grammar::events, crate::specs::Grammar::data_variables, crate::specs::Grammar::plugs, crate::specs::Grammar::sockets, crate::specs::Grammar::network_section, crate::specs::Grammar::blocks, crate::specs::Grammar::connections, crate::specs::Grammar::subapplications))]
pub fn subapplication_section(alloc: Global, tokens: &mut Tokens<'_>) -> Result<Contents, Stop>
    ensures { Gives contents_tree result tokens.new (read subapplication_section tokens.old) }
{
    if is_next(tokens, &INTERFACE) {
        interface_section(alloc, tokens)
    } else if is_next(
        tokens,
        &[
            Kind::Fbs,
            Kind::EventConnections,
            Kind::DataConnections,
            Kind::AdapterConnections,
            Kind::Subapps,
        ],
    ) {
        application_section(alloc, tokens)
    } else {
        service_section(alloc, tokens)
    }
}
