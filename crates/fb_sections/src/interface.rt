//! Events and variables.

ghost use Rattle.fb_grammar.specs.{Gives.{Gives, GivesEach}, Reading.{read}};
ghost use Rattle.fb_sections.specs.Interface.{data_variables, event, events, fields, initial, internal_variables, variables, with_names};
ghost use Rattle.fb_tree.specs.Tree.{EventTree, VariablesTree, constant_tree, event_tree, variables_tree};
ghost use Rattle.std.specs.Prelude.{◌≡◌, map, option_map};

use crate::constants::{constant, type_use};
use crate::frame::{optional_name, section};
use fb_grammar::{Kind, Reader, Stop, Tokens, is_next, key, name, names};
use fb_tree::text::NameUse;
use fb_tree::{Constant, Event, Section, Side, Variables};
use std::alloc::Global;

/// The names after WITH, if it is written.
#[tactic(auto, unfolding(crate::specs::Interface::with_names))]
fn with_names(alloc: Global, tokens: &mut Tokens<'_>) -> Result<Vec<NameUse>, Stop>
    ensures { Gives (λ names. names.items) result tokens.new (read with_names tokens.old) }
{
    if !is_next(tokens, &[Kind::With]) {
        return Ok(Vec::new(alloc));
    }
    key(tokens, Kind::With)?;
    names(alloc, tokens)
}

/// Reads events of a side.
#[derive(Drop)]
struct EventReader {
    side: Side,
}

impl Reader for EventReader {
    type Item = Event;

    ghost Tree = { EventTree };

    ghost view = { event_tree };

    ghost reads = { λ reader. read (event reader.side) };

    #[tactic(auto, unfolding(crate::specs::Interface::event))]
    fn read(&self, alloc: Global, tokens: &mut Tokens<'_>) -> Result<Event, Stop> {
        let name = name(alloc, tokens)?;
        let type_name = optional_name(alloc, tokens, Kind::Colon)?;
        let with = with_names(alloc, tokens)?;
        key(tokens, Kind::Semicolon)?;
        let event = Event {
            side: self.side,
            name,
            type_name,
            with,
        };
        Ok(event)
    }
}

/// A section of events.
#[tactic(auto, unfolding(crate::specs::Interface::events, crate::specs::Interface::event, fb_grammar::specs::Words::name))]
pub fn events(alloc: Global, tokens: &mut Tokens<'_>) -> Result<Vec<Event>, Stop>
    ensures { GivesEach event_tree result tokens.new (read events tokens.old) }
{
    if is_next(tokens, &[Kind::EventInput]) {
        section(
            Kind::EventInput,
            &EventReader { side: Side::Input },
            Kind::EndEvent,
            alloc,
            tokens,
        )
    } else {
        section(
            Kind::EventOutput,
            &EventReader { side: Side::Output },
            Kind::EndEvent,
            alloc,
            tokens,
        )
    }
}

/// The initial value, if one is written.
#[tactic(auto, unfolding(crate::specs::Interface::initial))]
fn initial(alloc: Global, tokens: &mut Tokens<'_>) -> Result<Option<Constant>, Stop>
    ensures { Gives (option_map constant_tree) result tokens.new (read initial tokens.old) }
{
    if !is_next(tokens, &[Kind::Assign]) {
        return Ok(None);
    }
    key(tokens, Kind::Assign)?;
    let value = constant(alloc, tokens)?;
    Ok(Some(value))
}

/// Reads variables of a section.
#[derive(Drop)]
struct VariablesReader {
    section: Section,
}

impl Reader for VariablesReader {
    type Item = Variables;

    ghost Tree = { VariablesTree };

    ghost view = { variables_tree };

    ghost reads = { λ reader. read (variables reader.section) };

    #[tactic(auto, unfolding(crate::specs::Interface::variables))]
    fn read(&self, alloc: Global, tokens: &mut Tokens<'_>) -> Result<Variables, Stop> {
        let names = names(alloc, tokens)?;
        key(tokens, Kind::Colon)?;
        let type_use = match type_use(alloc, tokens) {
            Ok(found) => found,
            Err(stop) => return Err(stop),
        };
        let initial = initial(alloc, tokens)?;
        key(tokens, Kind::Semicolon)?;
        let variables = Variables {
            section: self.section,
            names,
            type_use,
            initial,
        };
        Ok(variables)
    }
}

/// A section of data inputs or outputs.
#[tactic(auto, unfolding(crate::specs::Interface::data_variables, crate::specs::Interface::variables, fb_grammar::specs::Words::names, fb_grammar::specs::Words::name))]
pub fn data_variables(alloc: Global, tokens: &mut Tokens<'_>) -> Result<Vec<Variables>, Stop>
    ensures { GivesEach variables_tree result tokens.new (read data_variables tokens.old) }
{
    if is_next(tokens, &[Kind::VarInput]) {
        section(
            Kind::VarInput,
            &VariablesReader {
                section: Section::Input,
            },
            Kind::EndVar,
            alloc,
            tokens,
        )
    } else {
        section(
            Kind::VarOutput,
            &VariablesReader {
                section: Section::Output,
            },
            Kind::EndVar,
            alloc,
            tokens,
        )
    }
}

/// A section of internal variables.
#[tactic(auto, unfolding(crate::specs::Interface::internal_variables, crate::specs::Interface::variables, fb_grammar::specs::Words::names, fb_grammar::specs::Words::name))]
pub fn internal_variables(alloc: Global, tokens: &mut Tokens<'_>) -> Result<Vec<Variables>, Stop>
    ensures { GivesEach variables_tree result tokens.new (read internal_variables tokens.old) }
{
    section(
        Kind::Var,
        &VariablesReader {
            section: Section::Internal,
        },
        Kind::EndVar,
        alloc,
        tokens,
    )
}

/// The fields of a structure between their words.
#[tactic(auto, unfolding(crate::specs::Interface::fields, crate::specs::Interface::variables, fb_grammar::specs::Words::names, fb_grammar::specs::Words::name))]
pub fn fields(alloc: Global, tokens: &mut Tokens<'_>) -> Result<Vec<Variables>, Stop>
    ensures { GivesEach variables_tree result tokens.new (read fields tokens.old) }
{
    section(
        Kind::Struct,
        &VariablesReader {
            section: Section::Field,
        },
        Kind::EndStruct,
        alloc,
        tokens,
    )
}
