//! System configurations.

ghost use Rattle.fb_structured_text.specs.{Forms.Form.{as_value, many}, Forms.Gives.{Gives}, Forms.Reading.{read}};
ghost use Rattle.fb_parse.specs.Grammar.{system, system_section};
ghost use Rattle.fb_parse.specs.SystemContents.{SystemContentsTree, of_application, of_device, of_mappings, system_contents_tree, system_joined, systems_merged};
ghost use Rattle.fb_tree.specs.Tree.{application_tree, device_tree, mapping_tree, system_tree};
ghost use Rattle.std.specs.Prelude.{◌≡◌, IfOk, map};

use crate::units::application;
use fb_sections::{device, mappings};
use fb_structured_text::grammar::{Kind, Reader, Stop, Tokens, is_next, key, name, several};
use fb_tree::{Application, Device, Mapping, System};
use std::alloc::{AllocError, Global};

/// What the sections of a system hold, in the order of the text.
#[derive(Drop)]
pub struct SystemContents {
    pub applications: Vec<Application>,
    pub devices: Vec<Device>,
    pub mappings: Vec<Mapping>,
}

impl SystemContents {
    fn of_application(alloc: Global, application: Application) -> Result<SystemContents, AllocError>
        ensures { IfOk result (λ contents. system_contents_tree contents
            ≡ of_application (application_tree application)) }
    {
        let mut applications = Vec::new(alloc);
        applications.push(application)?;
        Ok(SystemContents {
            applications,
            devices: Vec::new(alloc),
            mappings: Vec::new(alloc),
        })
    }

    fn of_device(alloc: Global, device: Device) -> Result<SystemContents, AllocError>
        ensures { IfOk result (λ contents. system_contents_tree contents
            ≡ of_device (device_tree device)) }
    {
        let mut devices = Vec::new(alloc);
        devices.push(device)?;
        Ok(SystemContents {
            applications: Vec::new(alloc),
            devices,
            mappings: Vec::new(alloc),
        })
    }

    fn of_mappings(alloc: Global, mappings: Vec<Mapping>) -> SystemContents
        ensures { system_contents_tree result ≡ of_mappings (map mapping_tree mappings.items) }
    {
        SystemContents {
            applications: Vec::new(alloc),
            devices: Vec::new(alloc),
            mappings,
        }
    }

    /// Appends what another section holds.
    fn append(&mut self, mut other: SystemContents) -> Result<(), AllocError>
        ensures { IfOk result (λ _. system_contents_tree self.new
            ≡ systems_merged (system_contents_tree self.old) (system_contents_tree other)) }
    {
        self.applications.append(&mut other.applications)?;
        self.devices.append(&mut other.devices)?;
        self.mappings.append(&mut other.mappings)
    }
}

/// What all sections hold.
#[tactic(auto, using(crate::proofs::Joining::system_joined_of_push))]
fn joined(alloc: Global, sections: Vec<SystemContents>) -> Result<SystemContents, AllocError>
    ensures { IfOk result (λ contents. system_contents_tree contents
        ≡ system_joined (map system_contents_tree sections.items)) }
{
    let mut contents = SystemContents::of_mappings(alloc, Vec::new(alloc));
    for section in sections {
        contents.append(section)?;
    }
    Ok(contents)
}

/// An application, a device or mappings.
#[tactic(auto, unfolding(crate::specs::Grammar::system_section, crate::specs::Grammar::application, crate::specs::Grammar::device))]
fn system_section(alloc: Global, tokens: &mut Tokens<'_>) -> Result<SystemContents, Stop>
    ensures { Gives system_contents_tree result tokens.new (read system_section tokens.old) }
{
    if is_next(tokens, &[Kind::Application]) {
        let application = application(alloc, tokens)?;
        Ok(SystemContents::of_application(alloc, application)?)
    } else if is_next(tokens, &[Kind::Device]) {
        let device = device(alloc, tokens)?;
        Ok(SystemContents::of_device(alloc, device)?)
    } else {
        let mappings = mappings(alloc, tokens)?;
        Ok(SystemContents::of_mappings(alloc, mappings))
    }
}

/// Reads the sections of a system.
#[derive(Drop)]
struct SystemReader;

impl Reader for SystemReader {
    type Item = SystemContents;

    ghost Tree = { SystemContentsTree };

    ghost view = { system_contents_tree };

    ghost reads = { λ _. read system_section };

    fn read(&self, alloc: Global, tokens: &mut Tokens<'_>) -> Result<SystemContents, Stop> {
        system_section(alloc, tokens)
    }
}

/// Sections of a system, as long as they come.
#[tactic(auto, unfolding(crate::specs::Grammar::system_section, crate::specs::Grammar::application, crate::specs::Grammar::device, crate::specs::Grammar::mappings))]
fn sections(alloc: Global, tokens: &mut Tokens<'_>) -> Result<SystemContents, Stop>
    ensures { Gives system_contents_tree result tokens.new
        (read (as_value system_joined (many system_section)) tokens.old) }
{
    let firsts = [Kind::Application, Kind::Device, Kind::Mappings];
    let sections = several(&SystemReader, alloc, &firsts, tokens)?;
    Ok(joined(alloc, sections)?)
}

#[tactic(auto, unfolding(crate::specs::Grammar::system))]
pub fn system(alloc: Global, tokens: &mut Tokens<'_>) -> Result<System, Stop>
    ensures { Gives system_tree result tokens.new (read system tokens.old) }
{
    key(tokens, Kind::System)?;
    let name = name(alloc, tokens)?;
    let contents = sections(alloc, tokens)?;
    key(tokens, Kind::EndSystem)?;
    let system = System {
        name,
        applications: contents.applications,
        devices: contents.devices,
        mappings: contents.mappings,
    };
    Ok(system)
}
