//! The commands of a system by numbers, each with the resource that it is for.
ghost use Rattle.std.specs.{Prelude.{◌≡◌, [], ◌∷◌, ◌++◌, IfOk, OnOk, List, ℕ, map, option_copied}, List.{cons_option}};
ghost use Rattle.fb_network.specs.{Numbered.{link_numbered}, PlainFlat.{PlainFlat}};
ghost use Rattle.fb_placing.specs.{Created.{created_command}, Cuts.{cuts_of}, CommandIndexes.{plain_command}, PlacedCommands.{create_commands}};
ghost use Rattle.fb_placing.specs.{SystemCommands.{connection_commands, without_place, connection_on, start_command}, HomeTable.{home_by_path}};

use crate::homes::cuts::same_home;
use crate::homes::end_finder::EndFinder;
use crate::homes::table::HomeTable;
use crate::numbers::number;
use crate::plan::command_index::CommandIndex;
use crate::plan::create_commands::{Created, created_in_order};
use crate::plan::write_commands::PlacedCommand;
use fb_network::{Flat, Path};
use std::alloc::{AllocError, Global};

/// A command by number, and the resource that it is for.
#[derive(Clone, Copy, Debug)]
pub(crate) struct AssignedCommand<'a> {
    pub resource: &'a Path,
    pub index: CommandIndex,
}

/// Adds the commands that make these blocks.
fn push_created<'a>(
    created: &[Created<'a>],
    commands: &mut Vec<AssignedCommand<'a>>,
) -> Result<(), AllocError>
    ensures { OnOk result ((flat : PlainFlat) (writes : List (List ℕ))
        → map (plain_command flat writes) commands.new.items
        ≡ map (plain_command flat writes) commands.old.items
        ++ map without_place (map (created_command flat) created.now)) }
{
    for it in created {
        commands.push(AssignedCommand {
            resource: it.resource,
            index: CommandIndex::Create(it.block),
        })?;
    }
    Ok(())
}

/// Adds the commands that make blocks, by the bytes of their paths.
pub(crate) fn push_creates<'a>(
    alloc: Global,
    homes: &HomeTable<'a>,
    flat: &Flat,
    commands: &mut Vec<AssignedCommand<'a>>,
) -> Result<(), AllocError>
    ensures { OnOk result ((writes : List (List ℕ))
        → map (plain_command flat.now writes) commands.new.items
        ≡ map (plain_command flat.now writes) commands.old.items
        ++ map without_place (create_commands (home_by_path homes.now.by_path) flat.now.blocks)) }
{
    let created = created_in_order(alloc, homes, flat)?;
    push_created(&created, commands)
}

/// Adds these commands, which set parameters, by their numbers.
pub(crate) fn push_writes<'a>(
    placed: &'a [PlacedCommand],
    commands: &mut Vec<AssignedCommand<'a>>,
) -> Result<(), AllocError>
    ensures { OnOk result ((flat : PlainFlat)
        → map (plain_command flat (map (λ l. l.command) placed.now)) commands.new.items
        ≡ map (plain_command flat (map (λ l. l.command) placed.now)) commands.old.items
        ++ map without_place placed.now) }
{
    commands.reserve(placed.len())?;
    for i in 0..placed.len() {
        commands.push(AssignedCommand {
            resource: &placed[i].resource,
            index: CommandIndex::Write(number(i)?),
        })?;
    }
    Ok(())
}

/// Adds the command that makes a link, if it has a resource.
fn push_connection<'a>(
    flat: &Flat,
    link: u32,
    resource: Option<&'a Path>,
    commands: &mut Vec<AssignedCommand<'a>>,
) -> Result<(), AllocError>
    ensures { OnOk result ((writes : List (List ℕ))
        → map (plain_command flat.now writes) commands.new.items
        ≡ map (plain_command flat.now writes) commands.old.items
        ++ cons_option (connection_on (option_copied resource.entry) (link_numbered flat.now link)) []) }
{
    if let Some(resource) = resource {
        commands.push(AssignedCommand {
            resource,
            index: CommandIndex::Connect(link),
        })?;
    }
    Ok(())
}

/// Adds a link to those that are cut, or the command that makes it.
fn push_link<'a>(
    flat: &Flat,
    link: u32,
    ends: &mut EndFinder<'a, '_>,
    cuts: &mut Vec<u32>,
    commands: &mut Vec<AssignedCommand<'a>>,
) -> Result<(), AllocError>
    ensures homes { ends.new.homes.now ≡ ends.old.homes.now }
    ensures cuts { OnOk result (map (link_numbered flat.now) cuts.new.items
        ≡ map (link_numbered flat.now) cuts.old.items
        ++ cuts_of (home_by_path ends.old.homes.now.by_path) (link_numbered flat.now link ∷ [])) }
    ensures commands { OnOk result ((writes : List (List ℕ))
        → map (plain_command flat.now writes) commands.new.items
        ≡ map (plain_command flat.now writes) commands.old.items
        ++ connection_commands (home_by_path ends.old.homes.now.by_path) (link_numbered flat.now link ∷ [])) }
{
    let (start, end) = flat.link_from(link);
    let from = ends.home(start, end)?;
    let (start, end) = flat.link_to(link);
    let to = ends.home(start, end)?;
    if same_home(from, to) {
        push_connection(flat, link, from, commands)
    } else {
        cuts.push(link)?;
        Ok(())
    }
}

/// Adds the links that are cut, and the commands that make the others.
pub(crate) fn push_links<'a>(
    alloc: Global,
    homes: &HomeTable<'a>,
    flat: &Flat,
    cuts: &mut Vec<u32>,
    commands: &mut Vec<AssignedCommand<'a>>,
) -> Result<(), AllocError>
    ensures cuts { OnOk result (map (link_numbered flat.now) cuts.new.items
        ≡ map (link_numbered flat.now) cuts.old.items
        ++ cuts_of (home_by_path homes.now.by_path) flat.now.links) }
    ensures commands { OnOk result ((writes : List (List ℕ))
        → map (plain_command flat.now writes) commands.new.items
        ≡ map (plain_command flat.now writes) commands.old.items
        ++ connection_commands (home_by_path homes.now.by_path) flat.now.links) }
{
    let count = number(flat.link_count())?;
    commands.reserve(flat.link_count())?;
    let mut ends = EndFinder::new(alloc, homes);
    for link in 0..count {
        push_link(flat, link, &mut ends, cuts, commands)?;
    }
    Ok(())
}

/// Adds the commands that start resources.
pub(crate) fn push_starts<'a>(
    resources: &'a [Path],
    commands: &mut Vec<AssignedCommand<'a>>,
) -> Result<(), AllocError>
    ensures { OnOk result ((flat : PlainFlat) (writes : List (List ℕ))
        → map (plain_command flat writes) commands.new.items
        ≡ map (plain_command flat writes) commands.old.items ++ map start_command resources.now) }
{
    for resource in resources {
        commands.push(AssignedCommand {
            resource,
            index: CommandIndex::Start,
        })?;
    }
    Ok(())
}
