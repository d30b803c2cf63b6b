//! The declarations of units.

ghost use Rattle.fb_structured_text.specs.{Forms.Gives.{Gives}, Forms.Reading.{read}};
ghost use Rattle.fb_parse.specs.{Contents.{contents_tree}, Grammar.{adapter, application, block, structure, subapplication, type_of, unit}};
ghost use Rattle.fb_tree.specs.Tree.{application_tree, decl_tree, structure_tree, type_tree};
ghost use Rattle.std.specs.Prelude.{◌≡◌};

use crate::frame::{Frame, Named, framed};
use crate::system::system;
use fb_sections::{fields, optional_semicolon};
use fb_structured_text::grammar::{Kind, Stop, Tokens, is_next, key, name};
use fb_tree::{Application, Decl, Structure, TypeDeclaration};
use std::alloc::Global;

/// What begins a section of a block type.
const BLOCK: [Kind; 15] = [
    Kind::EventInput,
    Kind::EventOutput,
    Kind::VarInput,
    Kind::VarOutput,
    Kind::Plugs,
    Kind::Sockets,
    Kind::Var,
    Kind::Fbs,
    Kind::EventConnections,
    Kind::DataConnections,
    Kind::AdapterConnections,
    Kind::EcStates,
    Kind::EcTransitions,
    Kind::Algorithm,
    Kind::Service,
];

/// What begins a section of an adapter type.
const ADAPTER: [Kind; 5] = [
    Kind::EventInput,
    Kind::EventOutput,
    Kind::VarInput,
    Kind::VarOutput,
    Kind::Service,
];

/// What begins a section of a subapplication type.
const SUBAPPLICATION: [Kind; 12] = [
    Kind::EventInput,
    Kind::EventOutput,
    Kind::VarInput,
    Kind::VarOutput,
    Kind::Plugs,
    Kind::Sockets,
    Kind::Fbs,
    Kind::EventConnections,
    Kind::DataConnections,
    Kind::AdapterConnections,
    Kind::Subapps,
    Kind::Service,
];

/// What begins a section of an application.
const APPLICATION: [Kind; 5] = [
    Kind::Fbs,
    Kind::EventConnections,
    Kind::DataConnections,
    Kind::AdapterConnections,
    Kind::Subapps,
];

fn type_of(named: Named) -> TypeDeclaration
    ensures { type_tree result ≡ type_of (named.name, contents_tree named.contents) }
{
    TypeDeclaration {
        name: named.name,
        interface: named.contents.interface,
        network: named.contents.network,
        chart: named.contents.chart,
    }
}

#[tactic(auto, unfolding(crate::specs::Grammar::block), using(crate::proofs::Predictive::block_sections_begin))]
fn block(alloc: Global, tokens: &mut Tokens<'_>) -> Result<TypeDeclaration, Stop>
    ensures { Gives type_tree result tokens.new (read block tokens.old) }
{
    let named = framed(
        alloc,
        Kind::FunctionBlock,
        Frame::Block,
        &BLOCK,
        Kind::EndFunctionBlock,
        tokens,
    )?;
    Ok(type_of(named))
}

#[tactic(auto, unfolding(crate::specs::Grammar::adapter), using(crate::proofs::Predictive::adapter_sections_begin))]
fn adapter(alloc: Global, tokens: &mut Tokens<'_>) -> Result<TypeDeclaration, Stop>
    ensures { Gives type_tree result tokens.new (read adapter tokens.old) }
{
    let named = framed(
        alloc,
        Kind::Adapter,
        Frame::Adapter,
        &ADAPTER,
        Kind::EndAdapter,
        tokens,
    )?;
    Ok(type_of(named))
}

#[tactic(auto, unfolding(crate::specs::Grammar::subapplication), using(crate::proofs::Predictive::subapplication_sections_begin))]
fn subapplication(alloc: Global, tokens: &mut Tokens<'_>) -> Result<TypeDeclaration, Stop>
    ensures { Gives type_tree result tokens.new (read subapplication tokens.old) }
{
    let named = framed(
        alloc,
        Kind::Subapplication,
        Frame::Subapplication,
        &SUBAPPLICATION,
        Kind::EndSubapplication,
        tokens,
    )?;
    Ok(type_of(named))
}

/// An application of a system.
#[tactic(auto, unfolding(crate::specs::Grammar::application), using(crate::proofs::Predictive::application_sections_begin))]
pub fn application(alloc: Global, tokens: &mut Tokens<'_>) -> Result<Application, Stop>
    ensures { Gives application_tree result tokens.new (read application tokens.old) }
{
    let named = framed(
        alloc,
        Kind::Application,
        Frame::Application,
        &APPLICATION,
        Kind::EndApplication,
        tokens,
    )?;
    let application = Application {
        name: named.name,
        network: named.contents.network,
    };
    Ok(application)
}

#[tactic(auto, unfolding(crate::specs::Grammar::structure))]
fn structure(alloc: Global, tokens: &mut Tokens<'_>) -> Result<Structure, Stop>
    ensures { Gives structure_tree result tokens.new (read structure tokens.old) }
{
    key(tokens, Kind::TypeWord)?;
    let name = name(alloc, tokens)?;
    key(tokens, Kind::Colon)?;
    let fields = fields(alloc, tokens)?;
    optional_semicolon(tokens);
    key(tokens, Kind::EndType)?;
    let structure = Structure { name, fields };
    Ok(structure)
}

/// A unit at the start of the tokens.
#[tactic(auto, unfolding(crate::specs::Grammar::unit, crate::specs::Grammar::block, crate::specs::Grammar::adapter, crate::specs::Grammar::subapplication, crate::specs::Grammar::system))]
pub fn unit(alloc: Global, tokens: &mut Tokens<'_>) -> Result<Decl, Stop>
    ensures { Gives decl_tree result tokens.new (read unit tokens.old) }
{
    if is_next(tokens, &[Kind::FunctionBlock]) {
        let block = block(alloc, tokens)?;
        Ok(Decl::Block(block))
    } else if is_next(tokens, &[Kind::Adapter]) {
        let adapter = adapter(alloc, tokens)?;
        Ok(Decl::Adapter(adapter))
    } else if is_next(tokens, &[Kind::Subapplication]) {
        let subapplication = subapplication(alloc, tokens)?;
        Ok(Decl::Subapplication(subapplication))
    } else if is_next(tokens, &[Kind::System]) {
        let system = system(alloc, tokens)?;
        Ok(Decl::System(system))
    } else {
        let structure = structure(alloc, tokens)?;
        Ok(Decl::Structure(structure))
    }
}
