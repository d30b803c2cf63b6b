//! The commands for each resource, picked out in one walk.
ghost use Rattle.std.specs.Prelude.{◌≡◌, ◌<◌, [], ℕ, IfNone, IfOk, IfSome, OnOk, Some, length};
ghost use Rattle.fb_placing.specs.ByResource.{AreListed, IsFirst, IsFirstPlace, IsNowhere, indexes_at, indexes_more, indexes_of};

use crate::plan::assigned_commands::AssignedCommand;
use crate::plan::command_index::CommandIndex;
use fb_network::Path;
use std::alloc::{AllocError, Global};

/// The first place of a name.
fn place_of(names: &[Path], name: &Path) -> Option<usize>
    ensures found { IfSome result (λ place. IsFirstPlace names.now place name.now) }
    ensures none { IfNone result (IsNowhere names.now name.now) }
{
    for place in 0..names.len() {
        if names[place].as_str() == name.as_str() {
            return Some(place);
        }
    }
    None
}

/// The first place of a name. The place that was found last is looked at first.
fn place_near(names: &[Path], last: usize, name: &Path) -> Option<usize>
    requires { IsFirst names.now last }
    ensures found { IfSome result (λ place. IsFirstPlace names.now place name.now) }
    ensures none { IfNone result (IsNowhere names.now name.now) }
{
    if let Some(there) = names.get(last) {
        if there.as_str() == name.as_str() {
            return Some(last);
        }
    }
    place_of(names, name)
}

/// Adds an item to a list.
fn push_index(
    lists: &mut [Vec<CommandIndex>],
    place: usize,
    item: CommandIndex,
) -> Result<(), AllocError>
    requires { place < length lists.old }
    ensures items { OnOk result ((k : ℕ)
        → indexes_at lists.new k ≡ indexes_more (indexes_at lists.old) place item k) }
    ensures count { OnOk result (length lists.new ≡ length lists.old) }
{
    lists[place].push(item)?;
    Ok(())
}

/// This number of lists without items.
fn empty_lists(alloc: Global, count: usize) -> Result<Vec<Vec<CommandIndex>>, AllocError>
    ensures items { IfOk result (λ lists. (k : ℕ) → k < count → indexes_at lists.items k ≡ Some []) }
    ensures count { IfOk result (λ lists. length lists.items ≡ count) }
{
    let mut lists = Vec::with_capacity(alloc, count)?;
    for _ in 0..count {
        lists.push(Vec::new(alloc))?;
    }
    Ok(lists)
}

/// The items for each name, at its first place.
pub(crate) fn lists_of(
    alloc: Global,
    commands: &[AssignedCommand<'_>],
    names: &[Path],
) -> Result<Vec<Vec<CommandIndex>>, AllocError>
    ensures { IfOk result (λ lists. AreListed names.now (indexes_at lists.items) commands.now) }
{
    let mut lists = empty_lists(alloc, names.len())?;
    let mut last = 0;
    for command in commands {
        if let Some(place) = place_near(names, last, command.resource) {
            push_index(&mut lists, place, command.index)?;
            last = place;
        }
    }
    Ok(lists)
}

/// The items of all commands that are for a resource.
fn indexes_for(
    alloc: Global,
    commands: &[AssignedCommand<'_>],
    name: &Path,
) -> Result<Vec<CommandIndex>, AllocError>
    ensures { IfOk result (λ items. items.items ≡ indexes_of commands.now name.now) }
{
    let mut items = Vec::new(alloc);
    for command in commands {
        if name.as_str() == command.resource.as_str() {
            items.push(command.index)?;
        }
    }
    Ok(items)
}

/// A copy of the items.
fn copied(alloc: Global, list: &[CommandIndex]) -> Result<Vec<CommandIndex>, AllocError>
    ensures { IfOk result (λ items. items.items ≡ list.now) }
{
    let mut items = Vec::with_capacity(alloc, list.len())?;
    items.extend_from_slice(list)?;
    Ok(items)
}

/// The items of the commands for a resource, from these lists if it is among the names.
pub(crate) fn indexes_from(
    alloc: Global,
    commands: &[AssignedCommand<'_>],
    names: &[Path],
    lists: &[Vec<CommandIndex>],
    name: &Path,
) -> Result<Vec<CommandIndex>, AllocError>
    requires { AreListed names.now (indexes_at lists.now) commands.now }
    ensures { IfOk result (λ items. items.items ≡ indexes_of commands.now name.now) }
{
    if let Some(place) = place_of(names, name) {
        if let Some(list) = lists.get(place) {
            // A copy, since a later resource may have the same name, and then gets the same items.
            return copied(alloc, list);
        }
    }
    // For the proof: not reached, since each name that is asked for is one of `names`, and so has a list.
    indexes_for(alloc, commands, name)
}
