//! Mappings, resources and devices.

ghost use Rattle.fb_grammar.specs.{Gives.{Gives, GivesEach}, Reading.{read}, Lexemes.{name_use}};
ghost use Rattle.fb_sections.specs.SystemParts.{device, header, header_tree, mapping, mappings, optional_semicolon, path, resource};
ghost use Rattle.fb_tree.specs.Tree.{MappingTree, ResourceTree, device_tree, mapping_tree, parameter_tree, resource_tree};
ghost use Rattle.std.specs.Prelude.{◌≡◌, Ok, map};

use crate::frame::section;
use crate::instances::optional_parameters;
use fb_grammar::{Kind, NameReader, Reader, Stop, Tokens, is_next, key, name, separated, several};
use fb_tree::text::NameUse;
use fb_tree::{Device, Mapping, Parameter, Resource};
use std::alloc::Global;

/// Names with points between them.
#[tactic(auto, unfolding(crate::specs::SystemParts::path), using(fb_grammar::proofs::Repeating::as_they_are))]
fn path(alloc: Global, tokens: &mut Tokens<'_>) -> Result<Vec<NameUse>, Stop>
    ensures { Gives (λ names. names.items) result tokens.new (read path tokens.old) }
{
    separated(&NameReader, Kind::Point, alloc, tokens)
}

/// Reads mappings.
#[derive(Drop)]
struct MappingReader;

impl Reader for MappingReader {
    type Item = Mapping;

    ghost Tree = { MappingTree };

    ghost view = { mapping_tree };

    ghost reads = { λ _. read mapping };

    #[tactic(auto, unfolding(crate::specs::SystemParts::mapping))]
    fn read(&self, alloc: Global, tokens: &mut Tokens<'_>) -> Result<Mapping, Stop> {
        let path = path(alloc, tokens)?;
        key(tokens, Kind::NameOn)?;
        let device = name(alloc, tokens)?;
        key(tokens, Kind::Point)?;
        let resource = name(alloc, tokens)?;
        key(tokens, Kind::Semicolon)?;
        let mapping = Mapping {
            path,
            device,
            resource,
        };
        Ok(mapping)
    }
}

/// A section of mappings.
#[tactic(auto, unfolding(crate::specs::SystemParts::mappings, crate::specs::SystemParts::mapping, crate::specs::SystemParts::path, fb_grammar::specs::Words::name))]
pub fn mappings(alloc: Global, tokens: &mut Tokens<'_>) -> Result<Vec<Mapping>, Stop>
    ensures { GivesEach mapping_tree result tokens.new (read mappings tokens.old) }
{
    section(
        Kind::Mappings,
        &MappingReader,
        Kind::EndMappings,
        alloc,
        tokens,
    )
}

/// Passes over a semicolon, if there is one.
#[tactic(auto, unfolding(crate::specs::SystemParts::optional_semicolon))]
pub fn optional_semicolon(tokens: &mut Tokens<'_>)
    ensures { read optional_semicolon tokens.old ≡ Ok (tt, tokens.new) }
{
    if is_next(tokens, &[Kind::Semicolon]) {
        tokens.take();
    }
}

/// How a device or a resource begins.
#[derive(Drop)]
struct HeaderParts {
    name: NameUse,
    type_name: NameUse,
    parameters: Vec<Parameter>,
}

#[tactic(auto, unfolding(crate::specs::SystemParts::header))]
fn header(alloc: Global, tokens: &mut Tokens<'_>) -> Result<HeaderParts, Stop>
    ensures { Gives header_tree result tokens.new (read header tokens.old) }
{
    let own_name = name(alloc, tokens)?;
    key(tokens, Kind::Colon)?;
    let type_name = name(alloc, tokens)?;
    let parameters = optional_parameters(alloc, tokens)?;
    let header = HeaderParts {
        name: own_name,
        type_name,
        parameters,
    };
    optional_semicolon(tokens);
    Ok(header)
}

/// Reads resources.
#[derive(Drop)]
struct ResourceReader;

impl Reader for ResourceReader {
    type Item = Resource;

    ghost Tree = { ResourceTree };

    ghost view = { resource_tree };

    ghost reads = { λ _. read resource };

    #[tactic(auto, unfolding(crate::specs::SystemParts::resource))]
    fn read(&self, alloc: Global, tokens: &mut Tokens<'_>) -> Result<Resource, Stop> {
        key(tokens, Kind::Resource)?;
        let header = header(alloc, tokens)?;
        key(tokens, Kind::EndResource)?;
        let resource = Resource {
            name: header.name,
            type_name: header.type_name,
            parameters: header.parameters,
        };
        Ok(resource)
    }
}

/// A device with its resources.
#[tactic(auto, unfolding(crate::specs::SystemParts::device, crate::specs::SystemParts::resource))]
pub fn device(alloc: Global, tokens: &mut Tokens<'_>) -> Result<Device, Stop>
    ensures { Gives device_tree result tokens.new (read device tokens.old) }
{
    key(tokens, Kind::Device)?;
    let header = header(alloc, tokens)?;
    let resources = several(&ResourceReader, alloc, &[Kind::Resource], tokens)?;
    key(tokens, Kind::EndDevice)?;
    let device = Device {
        name: header.name,
        type_name: header.type_name,
        parameters: header.parameters,
        resources,
    };
    Ok(device)
}
