//! Plans: a flat network, and the commands of each resource by numbers.
//!
//! Commands are made in three steps. Those that make a block (`Created`) or set a parameter (`PlacedCommand`, the only one with a text of its own) are sorted
//! by their places. Then all commands of the system follow each other, each with its resource (`AssignedCommand`). At last each resource has a list of its own
//! (`ResourceCommands`). From there to the reply a command is a `CommandIndex`, whose text `ResourcePlan` puts together when it is asked.
ghost use Rattle.std.specs.Prelude.{◌≡◌, ◌↔◌, IsTrue};
ghost use Rattle.fb_placing.specs.CommandIndexes.{plain_plan};

pub(crate) mod assigned_commands;
pub(crate) mod build;
mod by_resource;
pub(crate) mod command;
pub(crate) mod command_index;
mod constants;
mod create_commands;
pub(crate) mod resources;
mod same;
pub(crate) mod shown;
pub(crate) mod text_parts;
mod write_commands;

use crate::plan::command::Command;
use crate::plan::command_index::ResourceCommands;
use crate::plan::same::{are_same_links, are_same_resources};
use fb_network::Flat;
use std::alloc::Global;
use std::marker::Model;

/// The links between resources, and the commands of each resource, in the order of the text. They refer to blocks and
/// links of the flat network by number, and share its tables.
#[derive(Debug)]
pub struct Plan {
    flat: Flat,
    writes: Vec<Command>,
    cuts: Vec<u32>,
    resources: Vec<ResourceCommands>,
}

impl Drop for Plan {
    fn drop(self) {
        let Self {
            flat: _,
            writes: _,
            cuts: _,
            resources: _,
        } = self;
    }
}

impl Model for Plan {
    ghost use Rattle.fb_placing.specs.{PlainPlan.{PlainPlan}, CommandIndexes.{plain_plan}};

    ghost Value = { PlainPlan };

    ghost view = { λ it. plain_plan it.flat it.writes.items it.cuts.items it.resources.items };
}

impl Plan {
    /// The plan of this flat network, with these commands that set parameters, and these numbers.
    pub(crate) fn new(
        flat: Flat,
        writes: Vec<Command>,
        cuts: Vec<u32>,
        resources: Vec<ResourceCommands>,
    ) -> Plan
        ensures { result ≡ plain_plan flat writes.items cuts.items resources.items }
    {
        Plan {
            flat,
            writes,
            cuts,
            resources,
        }
    }

    /// Where its lists are allocated.
    pub fn allocator(&self) -> Global {
        *self.cuts.allocator()
    }

    /// Whether both have the same content. It takes no memory.
    pub fn is_same(&self, other: &Plan) -> bool
        ensures { IsTrue result ↔ (self.now ≡ other.now) }
    {
        are_same_links(&self.flat, &self.cuts, &other.flat, &other.cuts)
            && are_same_resources(self, other)
    }
}
