//! Commands in the order of the places that they are about.
ghost use Rattle.std.specs.{Prelude.{◌≡◌, ◌++◌, IfOk, OnOk, map, Some, refl}, List.{flat_map}, Ordering.{eq_by_cmp, as_partial_cmp}};
ghost use Rattle.std.specs.Cmp.{eq_by_cmp_equiv, partial_equiv_from_equiv, partial_order_from_total};
ghost use Rattle.fb_tree.specs.{Text.Order.{in_order, name_cmp}, Tree.{parameter_tree}};
ghost use Rattle.fb_library.specs.View.{tree_at};
ghost use Rattle.fb_placing.specs.{Resolved.{plain_resolved}, Systems.{applications_in}};
ghost use Rattle.fb_placing.specs.PlacedCommands.{home_commands, command_cmp, command_cmp_total, commands_at, write_command, write_commands};

use crate::homes::Home;
use crate::paths::resolver::{Resolved, Resolver};
use crate::plan::command::Command;
use crate::plan::constants::written;
use fb_library::View;
use fb_network::{Path, sort_once};
use fb_tree::Parameter;
use fb_tree::text::Name;
use std::alloc::{AllocError, Global};
use std::cmp::Ordering;

/// A command, the place that it is about, and the resource that it is for. Commands are ordered by the bytes of their places.
#[derive(Debug, Drop)]
pub struct PlacedCommand {
    pub place: Path,
    pub command: Command,
    pub resource: Path,
}

impl PartialEq for PlacedCommand {
    ghost eq = { eq_by_cmp command_cmp };

    ghost laws = { partial_equiv_from_equiv (eq_by_cmp_equiv command_cmp_total) };

    fn eq(&self, other: &PlacedCommand) -> bool {
        self.cmp(other).is_eq()
    }
}

impl Eq for PlacedCommand {
    ghost laws = { eq_by_cmp_equiv command_cmp_total };
}

impl PartialOrd for PlacedCommand {
    ghost partial_cmp = { as_partial_cmp command_cmp };

    ghost laws = { partial_order_from_total command_cmp_total };

    fn partial_cmp(&self, other: &PlacedCommand) -> Option<Ordering> {
        Some(self.cmp(other))
    }
}

impl Ord for PlacedCommand {
    ghost cmp = { command_cmp };

    ghost total = { command_cmp_total };

    ghost matches_partial_cmp = { λ a b. refl };

    ghost matches_eq = { λ a b. refl };

    fn cmp(&self, other: &PlacedCommand) -> Ordering {
        let places = self.place.cmp(&other.place);
        let commands = places.then_with(|| self.command.cmp(&other.command));
        commands.then_with(|| self.resource.cmp(&other.resource))
    }
}

/// The commands in order, each once.
fn sorted_commands(placed: Vec<PlacedCommand>) -> Result<Vec<PlacedCommand>, AllocError>
    ensures { IfOk result (λ sorted. sorted.items ≡ in_order command_cmp placed.items) }
{
    let mut sorted = placed;
    sort_once(&mut sorted)?;
    Ok(sorted)
}

/// The command that sets a parameter of a block.
fn write_command(
    alloc: Global,
    text: &str,
    home: &Home,
    parameter: &Parameter,
) -> Result<PlacedCommand, AllocError>
    ensures { IfOk result
        (λ line. line ≡ write_command text.now home.now (parameter_tree parameter.now)) }
{
    let place = home.path.then(alloc, &parameter.name.name.name())?;
    let value = written(alloc, text, &parameter.value)?;
    let parts = ["WRITE ", place.as_str(), " ", value.as_str()];
    let command = Command::of_parts(alloc, &parts)?;
    let resource = home.resource.copy()?;
    Ok(PlacedCommand {
        place,
        command,
        resource,
    })
}

fn push_write_commands(
    alloc: Global,
    text: &str,
    home: &Home,
    parameters: &[Parameter],
    placed: &mut Vec<PlacedCommand>,
) -> Result<(), AllocError>
    ensures { OnOk result (placed.new.items
        ≡ placed.old.items
        ++ map (write_command text.now home.now) (map parameter_tree parameters.now)) }
{
    for parameter in parameters {
        placed.push(write_command(alloc, text, home, parameter)?)?;
    }
    Ok(())
}

/// Adds the commands that set the parameters of what is at a home's path.
fn push_commands_of<V: View>(
    alloc: Global,
    resolver: &Resolver<'_, V>,
    home: &Home,
    it: &Resolved<'_>,
    placed: &mut Vec<PlacedCommand>,
) -> Result<(), AllocError>
    ensures { OnOk result (placed.new.items
        ≡ placed.old.items
        ++ commands_at resolver.now.sources home.now (Some (plain_resolved it.now))) }
{
    let parameters = it.instance.parameters.as_slice();
    if parameters.is_empty() {
        return Ok(());
    }
    push_write_commands(alloc, resolver.text(it), home, parameters, placed)
}

/// Adds the commands that set the parameters of a block.
fn push_home_commands<V: View>(
    alloc: Global,
    resolver: &mut Resolver<'_, V>,
    home: &Home,
    placed: &mut Vec<PlacedCommand>,
) -> Result<(), AllocError>
    ensures same { resolver.new ≡ resolver.old }
    ensures placed { OnOk result (placed.new.items ≡ placed.old.items
        ++ home_commands resolver.old.sources resolver.old.system
        (applications_in (tree_at resolver.old.sources resolver.old.system)) home.now) }
{
    match resolver.resolve(home.path.as_str()) {
        Ok(Some(it)) => push_commands_of(alloc, resolver, home, &it, placed),
        Ok(None) => Ok(()),
        Err(error) => Err(error),
    }
}

/// The commands that set the parameters of blocks, in the order of the blocks.
fn all_home_commands<V: View>(
    alloc: Global,
    view: &V,
    system: &Name,
    homes: &[Home],
) -> Result<Vec<PlacedCommand>, AllocError>
    ensures { IfOk result (λ placed. placed.items
        ≡ flat_map
        (home_commands (V.sources view.now) system.now
        (applications_in (tree_at (V.sources view.now) system.now))) homes.now) }
{
    let mut resolver = Resolver::new(alloc, view, system)?;
    let mut placed = Vec::new(alloc);
    for home in homes {
        push_home_commands(alloc, &mut resolver, home, &mut placed)?;
    }
    Ok(placed)
}

/// The commands that set the parameters of blocks, by the bytes of their places.
pub(crate) fn write_commands<V: View>(
    alloc: Global,
    view: &V,
    system: &Name,
    homes: &[Home],
) -> Result<Vec<PlacedCommand>, AllocError>
    ensures { IfOk result (λ placed. placed.items
        ≡ write_commands (V.sources view.now) system.now
        (applications_in (tree_at (V.sources view.now) system.now)) homes.now) }
{
    sorted_commands(all_home_commands(alloc, view, system, homes)?)
}
