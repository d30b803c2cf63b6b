//! The homes of the blocks of a system.
ghost use Rattle.std.specs.{Prelude.{◌≡◌, [], ◌∷◌, ◌++◌, length, List, map, IfOk, OnOk}, HashMap.{get_by_text}};
ghost use Rattle.fb_tree.specs.Tree.{mapping_tree};
ghost use Rattle.fb_library.specs.View.{tree_at};
ghost use Rattle.fb_network.specs.{Numbered.{block_numbered}, declared.flat.FlatBlock.{FlatBlock}};
ghost use Rattle.fb_placing.specs.{Homes.{unmatched, block_home, block_homes, homeless, homes_of, misplaced, plain_homes}, Mappings.{names_used, resource_at}};
ghost use Rattle.fb_placing.specs.{Systems.{applications_in, mappings_in}, declared.homes.Misplaced.TheVariants.{NoSuchBlock, Unmapped}};

pub(crate) mod cuts;
pub(crate) mod end_finder;
mod mappings;
mod sorted;
pub(crate) mod table;

use crate::homes::mappings::{mapping_table, path_of_names};
use crate::homes::sorted::sorted_paths;
use crate::numbers::number;
use crate::paths::resolver::Resolver;
use fb_library::{View, tree_by_name};
use fb_network::{Flat, FlatBlock, Path, PathTable, nearest};
use fb_tree::text::{Name, NameUse};
use fb_tree::{Decl, Mapping};
use std::alloc::{AllocError, Global};

/// The path of a block, and the resource on which it is, as `DEVICE.RESOURCE`.
#[derive(Debug)]
pub struct Home {
    pub path: Path,
    pub resource: Path,
}

impl Drop for Home {
    fn drop(self) {
        let Self {
            path: _,
            resource: _,
        } = self;
    }
}

/// A path at which blocks and mappings do not meet.
#[derive(Debug)]
pub enum Misplaced {
    /// A block that no mapping places.
    Unmapped(Path),
    /// A mapping of what is no application, block or subapplication instance.
    NoSuchBlock(Path),
}

impl Drop for Misplaced {
    fn drop(self) {
        match self {
            Self::Unmapped(_) | Self::NoSuchBlock(_) => {}
        }
    }
}

/// The homes of the blocks of a system, or what is misplaced.
#[derive(Drop)]
pub enum Homes {
    Faulty(Vec<Misplaced>),
    On(Vec<Home>),
}

/// The mappings of a system.
fn mappings_of<'a, V: View>(view: &'a V, system: &Name) -> &'a [Mapping]
    ensures { map mapping_tree result.now ≡ mappings_in (tree_at (V.sources view.now) system.now) }
{
    match tree_by_name(view, system) {
        Some(Decl::System(it)) => it.mappings.as_slice(),
        _ => &[],
    }
}

/// The home of a block, by a table of what is mapped.
fn block_home(
    alloc: Global,
    table: &PathTable,
    flat: &Flat,
    block: u32,
) -> Result<Option<Home>, AllocError>
    ensures { IfOk result (λ home. home
        ≡ block_home (get_by_text table.now) (block_numbered flat.now block)) }
{
    let (start, end) = flat.block_path(block);
    let path = Path::of_parts(alloc, start, end)?;
    match nearest(table, path.as_str()) {
        Some(resource) => {
            let resource = resource.copy()?;
            Ok(Some(Home { path, resource }))
        }
        None => Ok(None),
    }
}

/// The homes of the blocks, by a table of what is mapped.
fn block_homes(alloc: Global, table: &PathTable, flat: &Flat) -> Result<Vec<Home>, AllocError>
    ensures { IfOk result
        (λ homes. homes.items ≡ block_homes (get_by_text table.now) flat.now.blocks) }
{
    let count = number(flat.block_count())?;
    let mut homes = Vec::with_capacity(alloc, flat.block_count())?;
    for block in 0..count {
        if let Some(home) = block_home(alloc, table, flat, block)? {
            homes.push(home)?;
        }
    }
    Ok(homes)
}

/// The paths of blocks without a home.
fn homeless(alloc: Global, table: &PathTable, blocks: &[FlatBlock]) -> Result<Vec<Path>, AllocError>
    ensures { IfOk result (λ paths. paths.items ≡ homeless (get_by_text table.now) blocks.now) }
{
    let mut paths = Vec::new(alloc);
    for block in blocks {
        if nearest(table, block.path.as_str()).is_none() {
            paths.push(block.path.copy()?)?;
        }
    }
    Ok(paths)
}

/// The paths of blocks without a home, in a flat network whose blocks have this number of homes. If each has one, no home is looked up.
fn homeless_blocks(
    alloc: Global,
    table: &PathTable,
    flat: &Flat,
    homes: usize,
) -> Result<Vec<Path>, AllocError>
    requires { homes ≡ length (block_homes (get_by_text table.now) flat.now.blocks) }
    ensures { IfOk result
        (λ paths. paths.items ≡ homeless (get_by_text table.now) flat.now.blocks) }
{
    if homes == flat.block_count() {
        return Ok(Vec::new(alloc));
    }
    let blocks = flat.plain_blocks(alloc)?;
    homeless(alloc, table, &blocks)
}

/// The names of a mapping's path.
fn names_of(alloc: Global, names: &[NameUse]) -> Result<Vec<&str>, AllocError>
    ensures { IfOk result (λ texts. map (λ n. n.now) texts.items ≡ names_used names.now) }
{
    let mut texts = Vec::new(alloc);
    for name in names {
        texts.push(name.name.as_str())?;
    }
    Ok(texts)
}

/// Adds the path of a mapping if it leads nowhere.
fn push_unmatched<V: View>(
    alloc: Global,
    resolver: &mut Resolver<'_, V>,
    mapping: &Mapping,
    paths: &mut Vec<Path>,
) -> Result<(), AllocError>
    ensures same { resolver.new ≡ resolver.old }
    ensures paths { OnOk result (paths.new.items ≡ paths.old.items
        ++ unmatched resolver.old.sources resolver.old.system
        (applications_in (tree_at resolver.old.sources resolver.old.system))
        (mapping_tree mapping.now ∷ [])) }
{
    let path = mapping.path.as_slice();
    let names = names_of(alloc, path)?;
    if let Some((first, others)) = path.split_first() {
        let nowhere = resolver.leads_nowhere(&names)?;
        if nowhere {
            paths.push(path_of_names(alloc, first, others)?)?;
        }
    }
    Ok(())
}

/// The paths of mappings that lead nowhere.
fn unmatched<V: View>(
    alloc: Global,
    view: &V,
    system: &Name,
    mappings: &[Mapping],
) -> Result<Vec<Path>, AllocError>
    ensures { IfOk result (λ paths. paths.items
        ≡ unmatched (V.sources view.now) system.now
        (applications_in (tree_at (V.sources view.now) system.now))
        (map mapping_tree mappings.now)) }
{
    let mut resolver = Resolver::new(alloc, view, system)?;
    let mut paths = Vec::new(alloc);
    for mapping in mappings {
        push_unmatched(alloc, &mut resolver, mapping, &mut paths)?;
    }
    Ok(paths)
}

/// Adds blocks that no mapping places.
fn push_unmapped(paths: Vec<Path>, found: &mut Vec<Misplaced>) -> Result<(), AllocError>
    ensures { OnOk result (found.new.items ≡ found.old.items ++ map (λ p. Unmapped p) paths.items) }
{
    for path in paths {
        found.push(Misplaced::Unmapped(path))?;
    }
    Ok(())
}

/// Adds mappings that lead nowhere.
fn push_no_such_block(paths: Vec<Path>, found: &mut Vec<Misplaced>) -> Result<(), AllocError>
    ensures { OnOk result
        (found.new.items ≡ found.old.items ++ map (λ p. NoSuchBlock p) paths.items) }
{
    for path in paths {
        found.push(Misplaced::NoSuchBlock(path))?;
    }
    Ok(())
}

/// Blocks that no mapping places, of which these are the paths, and then mappings that lead nowhere, each by the bytes of their paths.
fn misplaced_in<V: View>(
    alloc: Global,
    view: &V,
    system: &Name,
    unmapped: Vec<Path>,
) -> Result<Vec<Misplaced>, AllocError>
    ensures { IfOk result (λ found. (blocks : List FlatBlock) → unmapped.items
        ≡ homeless (resource_at (mappings_in (tree_at (V.sources view.now) system.now))) blocks
        → found.items
        ≡ misplaced (V.sources view.now) system.now
        (tree_at (V.sources view.now) system.now) blocks) }
{
    let mut found = Vec::new(alloc);
    push_unmapped(sorted_paths(unmapped)?, &mut found)?;
    let nowhere = sorted_paths(unmatched(alloc, view, system, mappings_of(view, system))?)?;
    push_no_such_block(nowhere, &mut found)?;
    Ok(found)
}

/// The homes of the blocks of a system, in the order of the blocks, or what is misplaced.
pub fn homes_of<V: View>(
    alloc: Global,
    view: &V,
    system: &Name,
    flat: &Flat,
) -> Result<Homes, AllocError>
    ensures { IfOk result (λ homes. plain_homes homes
        ≡ homes_of (V.sources view.now) system.now flat.now.blocks) }
{
    let table = mapping_table(alloc, mappings_of(view, system))?;
    let homes = block_homes(alloc, &table, flat)?;
    let unmapped = homeless_blocks(alloc, &table, flat, homes.len())?;
    let found = misplaced_in(alloc, view, system, unmapped)?;
    if found.is_empty() {
        Ok(Homes::On(homes))
    } else {
        Ok(Homes::Faulty(found))
    }
}
