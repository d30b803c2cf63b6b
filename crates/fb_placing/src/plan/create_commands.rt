//! The blocks that are made, in the order of their paths.
ghost use Rattle.std.specs.{Prelude.{◌≡◌, [], ◌++◌, IfOk, OnOk, List, ℕ, map, option_copied}, List.{cons_option, filter_map}, Ordering.{ordering_then}};
ghost use Rattle.fb_tree.specs.Text.Order.{in_order, name_cmp};
ghost use Rattle.fb_network.specs.{Numbered.{block_numbered}, Once.{IsOnce}};
ghost use Rattle.fb_placing.specs.{Created.{created_command}, PlacedCommands.{create_command, create_commands, command_cmp}, HomeTable.{home_by_path}};

use crate::homes::table::{HomeTable, home_by_path};
use crate::numbers::number;
use crate::plan::text_parts::write_both;
use fb_network::{Flat, Path, compare_parts};
use std::alloc::{AllocError, Global};
use std::cmp::Ordering;

/// A block that is made, and the resource on which it is.
#[derive(Clone, Copy, Debug)]
pub(crate) struct Created<'a> {
    pub block: u32,
    pub resource: &'a Path,
}

/// The home of a block. The text is written again.
fn home_of_block<'a>(
    homes: &HomeTable<'a>,
    flat: &Flat,
    block: u32,
    text: &mut String,
) -> Result<Option<&'a Path>, AllocError>
    ensures { IfOk result (λ home. option_copied home
        ≡ home_by_path homes.now.by_path (block_numbered flat.now block).path) }
{
    let (start, end) = flat.block_path(block);
    write_both(text, start, end)?;
    Ok(home_by_path(&homes.by_path, text.as_str()))
}

/// Adds a block, if it has a home.
fn push_created<'a>(
    homes: &HomeTable<'a>,
    flat: &Flat,
    block: u32,
    text: &mut String,
    created: &mut Vec<Created<'a>>,
) -> Result<(), AllocError>
    ensures { OnOk result (map (created_command flat.now) created.new.items
        ≡ map (created_command flat.now) created.old.items
        ++ cons_option (create_command (home_by_path homes.now.by_path) (block_numbered flat.now block)) []) }
{
    if let Some(resource) = home_of_block(homes, flat, block, text)? {
        created.push(Created { block, resource })?;
    }
    Ok(())
}

/// The blocks that have homes, in the order of the text.
fn all_created<'a>(
    alloc: Global,
    homes: &HomeTable<'a>,
    flat: &Flat,
) -> Result<Vec<Created<'a>>, AllocError>
    ensures { IfOk result (λ created. map (created_command flat.now) created.items
        ≡ filter_map (create_command (home_by_path homes.now.by_path)) flat.now.blocks) }
{
    let count = number(flat.block_count())?;
    let mut text = String::new(alloc);
    let mut created = Vec::with_capacity(alloc, flat.block_count())?;
    for block in 0..count {
        push_created(homes, flat, block, &mut text, &mut created)?;
    }
    Ok(created)
}

/// The order of the paths of two blocks.
fn compare_paths(flat: &Flat, a: u32, b: u32) -> Ordering
    ensures { result
        ≡ name_cmp (block_numbered flat.now a).path (block_numbered flat.now b).path }
{
    let (start, end) = flat.block_path(a);
    let (other_start, other_end) = flat.block_path(b);
    compare_parts(start, end, other_start, other_end)
}

/// An order, or else that of two texts.
fn or_of_texts(first: Ordering, a: &str, b: &str) -> Ordering
    ensures { result ≡ ordering_then first (name_cmp a.now b.now) }
{
    first.then_with(|| a.cmp(b))
}

/// The order of the paths of two blocks, of the names of their types, and of their resources.
fn compare_each(flat: &Flat, a: &Created<'_>, b: &Created<'_>) -> Ordering
    ensures { result ≡ ordering_then
        (ordering_then
        (name_cmp (block_numbered flat.now a.now.block).path
        (block_numbered flat.now b.now.block).path)
        (name_cmp (block_numbered flat.now a.now.block).type_name
        (block_numbered flat.now b.now.block).type_name))
        (name_cmp a.now.resource.now b.now.resource.now) }
{
    let paths = compare_paths(flat, a.block, b.block);
    let types = or_of_texts(paths, flat.block_type(a.block), flat.block_type(b.block));
    or_of_texts(types, a.resource.as_str(), b.resource.as_str())
}

/// The order of the commands that make two blocks.
fn compare_created(flat: &Flat, a: &Created<'_>, b: &Created<'_>) -> Ordering
    ensures { result ≡ command_cmp (created_command flat.now a.now) (created_command flat.now b.now) }
{
    compare_each(flat, a, b)
}

/// Sorts blocks by their commands and removes duplicates.
fn sort_created(flat: &Flat, created: &mut Vec<Created<'_>>) -> Result<(), AllocError>
    ensures { OnOk result
        (IsOnce (created_command flat.now) command_cmp created.old.items created.new.items) }
{
    created.sort_by(|a, b| compare_created(flat, a, b))?;
    created.dedup_by(|a, b| compare_created(flat, a, b).is_eq());
    Ok(())
}

/// The blocks that have homes, by the bytes of their paths.
pub(crate) fn created_in_order<'a>(
    alloc: Global,
    homes: &HomeTable<'a>,
    flat: &Flat,
) -> Result<Vec<Created<'a>>, AllocError>
    ensures { IfOk result (λ created. map (created_command flat.now) created.items
        ≡ create_commands (home_by_path homes.now.by_path) flat.now.blocks) }
{
    let mut created = all_created(alloc, homes, flat)?;
    sort_created(flat, &mut created)?;
    Ok(created)
}
