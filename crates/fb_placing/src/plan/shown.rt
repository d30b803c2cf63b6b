//! What a plan says. Its texts are written over texts that are used again.
ghost use Rattle.std.specs.Prelude.{◌≡◌, ◌<◌, IfOk, OnOk, Some, length, slice_get, string_bytes};
ghost use Rattle.fb_placing.specs.TextParts.{joined};

use crate::plan::Plan;
use crate::plan::command::Command;
use crate::plan::command_index::{ResourceCommands, parts_of};
use crate::plan::text_parts::{write_both, write_parts};
use fb_network::{Flat, Path};
use fb_tree::Sort;
use std::alloc::AllocError;
use std::marker::Model;

/// A resource, as `DEVICE.RESOURCE`, with its commands in their order: a view into a plan.
#[derive(Drop)]
pub struct ResourcePlan<'a> {
    flat: &'a Flat,
    writes: &'a [Command],
    resource: &'a ResourceCommands,
}

impl<'a> Model for ResourcePlan<'a> {
    ghost use Rattle.fb_placing.specs.{PlainResource.{PlainResource}, CommandIndexes.{plain_resource}};

    ghost Value = { PlainResource };

    ghost view = { λ it. plain_resource it.flat.now it.writes.now it.resource.now };
}

impl<'a> ResourcePlan<'a> {
    pub fn name(&self) -> &'a Path
        ensures { result.now ≡ self.now.name }
    {
        &self.resource.name
    }

    /// How many commands it has.
    pub fn command_count(&self) -> usize
        ensures { result ≡ length self.now.commands }
    {
        self.resource.items.len()
    }

    /// The parts of the text of a command.
    pub(crate) fn parts(&self, place: usize) -> [&'a str; 6]
        requires { place < length self.now.commands }
        ensures { slice_get self.now.commands place ≡ Some (joined result) }
    {
        let it = self.resource;
        parts_of(self.flat, self.writes, &it.name, it.items[place])
    }

    /// Writes a command over a text.
    pub fn put_command(&self, place: usize, text: &mut String) -> Result<(), AllocError>
        requires { place < length self.now.commands }
        ensures { OnOk result (slice_get self.now.commands place ≡ Some (string_bytes text.new)) }
    {
        write_parts(text, &self.parts(place))
    }
}

impl Plan {
    /// How many links there are between resources.
    pub fn cut_count(&self) -> usize
        ensures { result ≡ length self.now.cuts }
    {
        self.cuts.len()
    }

    /// Writes the two places of a link between resources over texts, and gives its sort.
    pub fn put_cut(
        &self,
        place: usize,
        from: &mut String,
        to: &mut String,
    ) -> Result<Sort, AllocError>
        requires { place < length self.now.cuts }
        ensures { IfOk result (λ sort. slice_get self.now.cuts place ≡ Some (record {
          sort = sort;
          from = string_bytes from.new;
          to = string_bytes to.new;
        })) }
    {
        let link = self.cuts[place];
        let (start, end) = self.flat.link_from(link);
        write_both(from, start, end)?;
        let (start, end) = self.flat.link_to(link);
        write_both(to, start, end)?;
        Ok(self.flat.link_sort(link))
    }

    /// How many resources there are.
    pub fn resource_count(&self) -> usize
        ensures { result ≡ length self.now.resources }
    {
        self.resources.len()
    }

    /// The resource of that number, in the order of the text.
    pub fn resource(&self, place: usize) -> ResourcePlan<'_>
        requires { place < length self.now.resources }
        ensures { slice_get self.now.resources place ≡ Some result }
    {
        ResourcePlan {
            flat: &self.flat,
            writes: &self.writes,
            resource: &self.resources[place],
        }
    }
}
