//! Instances with their parameters.

ghost use Rattle.fb_grammar.specs.{Gives.{GivesEach}, Reading.{read}};
ghost use Rattle.fb_sections.specs.Network.{blocks, instance, listed_parameters, optional_parameters, parameter, parameters, plugs, sockets, inner_subapplication, subapplications};
ghost use Rattle.fb_tree.specs.Tree.{InstanceTree, ParameterTree, instance_tree, parameter_tree};
ghost use Rattle.std.specs.Prelude.{◌≡◌, map};

use crate::constants::constant;
use crate::frame::section;
use fb_grammar::{Kind, NAMES, Reader, Stop, Tokens, is_next, key, listed, name};
use fb_tree::{Instance, Parameter, Role};
use std::alloc::Global;

/// Reads parameters.
#[derive(Drop)]
struct ParameterReader;

impl Reader for ParameterReader {
    type Item = Parameter;

    ghost Tree = { ParameterTree };

    ghost view = { parameter_tree };

    ghost reads = { λ _. read parameter };

    #[tactic(auto, unfolding(crate::specs::Network::parameter))]
    fn read(&self, alloc: Global, tokens: &mut Tokens<'_>) -> Result<Parameter, Stop> {
        let name = name(alloc, tokens)?;
        key(tokens, Kind::Assign)?;
        let value = constant(alloc, tokens)?;
        let parameter = Parameter { name, value };
        Ok(parameter)
    }
}

/// Parameters with commas between them, or none.
#[tactic(auto, unfolding(crate::specs::Network::listed_parameters, crate::specs::Network::parameter, fb_grammar::specs::Words::name))]
fn listed_parameters(alloc: Global, tokens: &mut Tokens<'_>) -> Result<Vec<Parameter>, Stop>
    ensures { GivesEach parameter_tree result tokens.new (read listed_parameters tokens.old) }
{
    if is_next(tokens, &NAMES) {
        listed(&ParameterReader, alloc, tokens)
    } else {
        Ok(Vec::new(alloc))
    }
}

/// Parameters in parentheses, if they are written.
#[tactic(auto, unfolding(crate::specs::Network::optional_parameters, crate::specs::Network::parameters))]
pub fn optional_parameters(alloc: Global, tokens: &mut Tokens<'_>) -> Result<Vec<Parameter>, Stop>
    ensures { GivesEach parameter_tree result tokens.new (read optional_parameters tokens.old) }
{
    if !is_next(tokens, &[Kind::OpenParenthesis]) {
        return Ok(Vec::new(alloc));
    }
    key(tokens, Kind::OpenParenthesis)?;
    let parameters = listed_parameters(alloc, tokens)?;
    key(tokens, Kind::CloseParenthesis)?;
    Ok(parameters)
}

/// Reads instances with parameters, in a role.
#[derive(Drop)]
struct InstanceReader {
    role: Role,
}

impl Reader for InstanceReader {
    type Item = Instance;

    ghost Tree = { InstanceTree };

    ghost view = { instance_tree };

    ghost reads = { λ reader. read (instance reader.role) };

    #[tactic(auto, unfolding(crate::specs::Network::instance))]
    fn read(&self, alloc: Global, tokens: &mut Tokens<'_>) -> Result<Instance, Stop> {
        let own_name = name(alloc, tokens)?;
        key(tokens, Kind::Colon)?;
        let type_name = name(alloc, tokens)?;
        let parameters = optional_parameters(alloc, tokens)?;
        key(tokens, Kind::Semicolon)?;
        let instance = Instance {
            role: self.role,
            name: own_name,
            type_name,
            parameters,
        };
        Ok(instance)
    }
}

/// A section of plugs.
#[tactic(auto, unfolding(crate::specs::Network::plugs, crate::specs::Network::instance, fb_grammar::specs::Words::name))]
pub fn plugs(alloc: Global, tokens: &mut Tokens<'_>) -> Result<Vec<Instance>, Stop>
    ensures { GivesEach instance_tree result tokens.new (read plugs tokens.old) }
{
    section(
        Kind::Plugs,
        &InstanceReader { role: Role::Plug },
        Kind::EndPlugs,
        alloc,
        tokens,
    )
}

/// A section of sockets.
#[tactic(auto, unfolding(crate::specs::Network::sockets, crate::specs::Network::instance, fb_grammar::specs::Words::name))]
pub fn sockets(alloc: Global, tokens: &mut Tokens<'_>) -> Result<Vec<Instance>, Stop>
    ensures { GivesEach instance_tree result tokens.new (read sockets tokens.old) }
{
    section(
        Kind::Sockets,
        &InstanceReader { role: Role::Socket },
        Kind::EndSockets,
        alloc,
        tokens,
    )
}

/// A section of block instances.
#[tactic(auto, unfolding(crate::specs::Network::blocks, crate::specs::Network::instance, fb_grammar::specs::Words::name))]
pub fn blocks(alloc: Global, tokens: &mut Tokens<'_>) -> Result<Vec<Instance>, Stop>
    ensures { GivesEach instance_tree result tokens.new (read blocks tokens.old) }
{
    section(
        Kind::Fbs,
        &InstanceReader { role: Role::Block },
        Kind::EndFbs,
        alloc,
        tokens,
    )
}

/// Reads subapplication instances, which have no parameters.
#[derive(Drop)]
struct SubapplicationReader;

impl Reader for SubapplicationReader {
    type Item = Instance;

    ghost Tree = { InstanceTree };

    ghost view = { instance_tree };

    ghost reads = { λ _. read inner_subapplication };

    #[tactic(auto, unfolding(crate::specs::Network::inner_subapplication))]
    fn read(&self, alloc: Global, tokens: &mut Tokens<'_>) -> Result<Instance, Stop> {
        let own_name = name(alloc, tokens)?;
        key(tokens, Kind::Colon)?;
        let type_name = name(alloc, tokens)?;
        key(tokens, Kind::Semicolon)?;
        let instance = Instance {
            role: Role::Subapplication,
            name: own_name,
            type_name,
            parameters: Vec::new(alloc),
        };
        Ok(instance)
    }
}

/// A section of subapplication instances.
#[tactic(auto, unfolding(crate::specs::Network::subapplications, crate::specs::Network::inner_subapplication, fb_grammar::specs::Words::name))]
pub fn subapplications(alloc: Global, tokens: &mut Tokens<'_>) -> Result<Vec<Instance>, Stop>
    ensures { GivesEach instance_tree result tokens.new (read subapplications tokens.old) }
{
    section(
        Kind::Subapps,
        &SubapplicationReader,
        Kind::EndSubapps,
        alloc,
        tokens,
    )
}
