//! Mappings by their paths.
ghost use Rattle.std.specs.{Prelude.{◌≡◌, ◌∷◌, map, IfOk, string_bytes}, HashMap.{get_by_text}};
ghost use Rattle.fb_tree.specs.Tree.{mapping_tree};
ghost use Rattle.fb_network.specs.Printed.{printed};
ghost use Rattle.fb_placing.specs.Mappings.{mapping_home, mapping_path, names_used, resource_at};

use crate::first_entry::insert_first;
use fb_network::{Path, PathTable};
use fb_tree::Mapping;
use fb_tree::text::NameUse;
use std::alloc::{AllocError, Global};
use std::collections::HashMap;

/// The names with points between.
fn joined(alloc: Global, names: &[NameUse]) -> Result<String, AllocError>
    ensures { IfOk result (λ text. string_bytes text ≡ printed (names_used names.now)) }
{
    let mut text = String::new(alloc);
    for (i, name) in names.iter().enumerate() {
        if i > 0 {
            text.push('.')?;
        }
        text.push_str(name.name.as_str())?;
    }
    Ok(text)
}

/// The path of a mapping.
fn path_text(alloc: Global, mapping: &Mapping) -> Result<String, AllocError>
    ensures { IfOk result (λ text. string_bytes text ≡ mapping_path (mapping_tree mapping.now)) }
{
    joined(alloc, mapping.path.as_slice())
}

/// The path of a mapping that has these names.
pub(crate) fn path_of_names(
    alloc: Global,
    first: &NameUse,
    others: &[NameUse],
) -> Result<Path, AllocError>
    ensures { IfOk result (λ path. path ≡ printed (names_used (first.now ∷ others.now))) }
{
    let mut path = Path::of(alloc, &first.name.name())?;
    for name in others {
        path = path.then(alloc, &name.name.name())?;
    }
    Ok(path)
}

/// The resource of a mapping.
fn home(alloc: Global, mapping: &Mapping) -> Result<Path, AllocError>
    ensures { IfOk result (λ path. path ≡ mapping_home (mapping_tree mapping.now)) }
{
    Path::of_two(
        alloc,
        &mapping.device.name.name(),
        &mapping.resource.name.name(),
    )
}

/// The resources by the paths that are mapped to them.
pub(crate) fn mapping_table(alloc: Global, mappings: &[Mapping]) -> Result<PathTable, AllocError>
    ensures { IfOk result
        (λ table. get_by_text table ≡ resource_at (map mapping_tree mappings.now)) }
{
    let mut table = HashMap::new(alloc);
    for mapping in mappings {
        let text = path_text(alloc, mapping)?;
        insert_first(&mut table, text, home(alloc, mapping)?)?;
    }
    Ok(table)
}
