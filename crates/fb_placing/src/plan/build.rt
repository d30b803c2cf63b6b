//! The commands for each resource of a system, and the links that are left.
ghost use Rattle.std.specs.Prelude.{◌≡◌, ◌++◌, IfOk, List, OnOk, map, ℕ};
ghost use Rattle.fb_library.specs.View.{tree_at};
ghost use Rattle.fb_network.specs.{Numbered.{link_numbered}, PlainFlat.{PlainFlat}};
ghost use Rattle.fb_placing.specs.{Commands.{commands_in}, Cuts.{cuts_of, home_at}, CommandIndexes.{plain_command, plain_resource}};
ghost use Rattle.fb_placing.specs.{PlacedCommands.{create_commands}, ByResource.{AreListed, indexes_at}};
ghost use Rattle.fb_placing.specs.{SystemCommands.{connection_commands, without_place, start_command}, Resources.{resource_plan, resource_plans}};
ghost use Rattle.fb_placing.specs.HomeTable.{home_by_path};

use crate::homes::Home;
use crate::homes::table::{HomeTable, home_table};
use crate::plan::Plan;
use crate::plan::assigned_commands::{
    AssignedCommand, push_creates, push_links, push_starts, push_writes,
};
use crate::plan::by_resource::{indexes_from, lists_of};
use crate::plan::command::Command;
use crate::plan::command_index::{CommandIndex, ResourceCommands};
use crate::plan::resources::resources_of;
use crate::plan::write_commands::{PlacedCommand, write_commands};
use fb_library::View;
use fb_network::{Flat, Path};
use fb_tree::text::Name;
use std::alloc::{AllocError, Global};

/// All commands: blocks are made first, then parameters are set, then connections are made, then resources are started. Adds the links
/// that are cut.
fn system_commands<'a>(
    alloc: Global,
    homes: &HomeTable<'a>,
    placed: &'a [PlacedCommand],
    resources: &'a [Path],
    flat: &Flat,
    cuts: &mut Vec<u32>,
) -> Result<Vec<AssignedCommand<'a>>, AllocError>
    ensures cuts { OnOk result (map (link_numbered flat.now) cuts.new.items
        ≡ map (link_numbered flat.now) cuts.old.items
        ++ cuts_of (home_by_path homes.now.by_path) flat.now.links) }
    ensures commands { IfOk result (λ commands.
        map (plain_command flat.now (map (λ l. l.command) placed.now)) commands.items
        ≡ map without_place (create_commands (home_by_path homes.now.by_path) flat.now.blocks)
        ++ map without_place placed.now
        ++ connection_commands (home_by_path homes.now.by_path) flat.now.links
        ++ map start_command resources.now) }
{
    let mut commands = Vec::new(alloc);
    push_creates(alloc, homes, flat, &mut commands)?;
    push_writes(placed, &mut commands)?;
    push_links(alloc, homes, flat, cuts, &mut commands)?;
    push_starts(resources, &mut commands)?;
    Ok(commands)
}

/// A resource with its commands.
fn resource_of_commands(
    alloc: Global,
    commands: &[AssignedCommand<'_>],
    names: &[Path],
    lists: &[Vec<CommandIndex>],
    name: &Path,
) -> Result<ResourceCommands, AllocError>
    requires { AreListed names.now (indexes_at lists.now) commands.now }
    ensures { IfOk result (λ it. (flat : PlainFlat) (writes : List (List ℕ))
        → plain_resource flat writes it
        ≡ resource_plan (map (plain_command flat writes) commands.now) name.now) }
{
    let items = indexes_from(alloc, commands, names, lists, name)?;
    let name = name.copy()?;
    Ok(ResourceCommands { name, items })
}

/// Each resource with its commands.
fn resources_of_commands(
    alloc: Global,
    commands: &[AssignedCommand<'_>],
    names: &[Path],
) -> Result<Vec<ResourceCommands>, AllocError>
    ensures { IfOk result (λ all. (flat : PlainFlat) (writes : List (List ℕ))
        → map (plain_resource flat writes) all.items
        ≡ resource_plans (map (plain_command flat writes) commands.now) names.now) }
{
    let lists = lists_of(alloc, commands, names)?;
    let mut all = Vec::with_capacity(alloc, names.len())?;
    for name in names {
        all.push(resource_of_commands(alloc, commands, names, &lists, name)?)?;
    }
    Ok(all)
}

/// Each resource with all commands that are for it. Adds the links that are cut.
fn resources_with_commands(
    alloc: Global,
    homes: &HomeTable<'_>,
    placed: &[PlacedCommand],
    names: &[Path],
    flat: &Flat,
    cuts: &mut Vec<u32>,
) -> Result<Vec<ResourceCommands>, AllocError>
    ensures cuts { OnOk result (map (link_numbered flat.now) cuts.new.items
        ≡ map (link_numbered flat.now) cuts.old.items
        ++ cuts_of (home_by_path homes.now.by_path) flat.now.links) }
    ensures resources { IfOk result (λ all.
        map (plain_resource flat.now (map (λ l. l.command) placed.now)) all.items
        ≡ resource_plans
        (map without_place (create_commands (home_by_path homes.now.by_path) flat.now.blocks)
        ++ map without_place placed.now
        ++ connection_commands (home_by_path homes.now.by_path) flat.now.links
        ++ map start_command names.now) names.now) }
{
    let commands = system_commands(alloc, homes, placed, names, flat, cuts)?;
    resources_of_commands(alloc, &commands, names)
}

/// The commands without their places and resources.
fn command_texts(alloc: Global, placed: Vec<PlacedCommand>) -> Result<Vec<Command>, AllocError>
    ensures { IfOk result (λ commands. commands.items ≡ map (λ l. l.command) placed.items) }
{
    let mut commands = Vec::with_capacity(alloc, placed.len())?;
    for command in placed {
        commands.push(command.command)?;
    }
    Ok(commands)
}

/// The links between resources and the commands of each resource, of a system whose blocks have these homes.
pub fn plan_of<V: View>(
    alloc: Global,
    view: &V,
    system: &Name,
    flat: &Flat,
    homes: &[Home],
) -> Result<Plan, AllocError>
    ensures cuts { IfOk result (λ plan. plan.cuts ≡ cuts_of (home_at homes.now) flat.now.links) }
    ensures resources { IfOk result (λ plan. plan.resources
        ≡ commands_in (V.sources view.now) system.now
        (tree_at (V.sources view.now) system.now) flat.now homes.now) }
{
    let names = resources_of(alloc, view, system)?;
    let table = home_table(alloc, homes)?;
    let placed = write_commands(alloc, view, system, homes)?;
    let mut cuts = Vec::new(alloc);
    let resources = resources_with_commands(alloc, &table, &placed, &names, flat, &mut cuts)?;
    let writes = command_texts(alloc, placed)?;
    let flat = flat.share()?;
    Ok(Plan::new(flat, writes, cuts, resources))
}
