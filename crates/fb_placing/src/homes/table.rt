//! Homes by the paths of blocks, none of which is copied.
//! `nearest_home` reads borrowed texts, and `nearest` of `fb_network` owned ones: a trait for both would be longer than their nine statements.
ghost use Rattle.std.specs.{Prelude.{◌≡◌, ℕ, List, IfOk, IsTrue, OnOk, Some, None, if◌then◌else◌, option_copied}, Option.{option_or}, Str.{bytes_eq}};
ghost use Rattle.fb_placing.specs.{Cuts.{home_at}, Points.{AreApart}, HomeTable.{home_by_path}};
ghost use Rattle.fb_network.specs.Prefixes.{nearest};

use crate::homes::Home;
use crate::paths::split::split_last;
use fb_network::Path;
use std::alloc::{AllocError, Global};
use std::collections::HashMap;

/// Resources by the paths of the blocks that are on them.
pub(crate) type ByPath<'a> = HashMap<&'a str, &'a Path>;

/// Resources by the paths of the blocks that are on them, and whether no block of these is inside another one.
#[derive(Drop)]
pub(crate) struct HomeTable<'a> {
    pub by_path: ByPath<'a>,
    pub apart: bool,
    ghost are_apart: { IsTrue apart → AreApart (home_by_path by_path) },
}

/// Adds the meaning of a path, if it has none yet.
fn add_home<'a>(
    by_path: &mut ByPath<'a>,
    path: &'a str,
    resource: &'a Path,
) -> Result<(), AllocError>
    ensures { OnOk result ((q : List ℕ) → home_by_path by_path.new q
        ≡ option_or (home_by_path by_path.old q)
        (if bytes_eq path.now q then Some resource.now else None)) }
{
    if !by_path.contains_key(path) {
        by_path.insert(path, resource)?;
    }
    Ok(())
}

/// The homes of blocks by their paths.
fn homes_by_path<'a>(alloc: Global, homes: &'a [Home]) -> Result<ByPath<'a>, AllocError>
    ensures { IfOk result (λ by_path. home_by_path by_path ≡ home_at homes.now) }
{
    let mut by_path = HashMap::new(alloc);
    by_path.reserve(homes.len())?;
    for home in homes {
        add_home(&mut by_path, home.path.as_str(), &home.resource)?;
    }
    Ok(by_path)
}

/// What a path means.
pub(crate) fn home_by_path<'a>(by_path: &ByPath<'a>, path: &str) -> Option<&'a Path>
    ensures { option_copied result ≡ home_by_path by_path.now path.now }
{
    match by_path.get(path) {
        Some(resource) => Some(*resource),
        None => None,
    }
}

/// What the longest prefix of the path means, of those that mean something.
pub(crate) fn nearest_home<'a>(by_path: &ByPath<'a>, path: &str) -> Option<&'a Path>
    ensures { option_copied result ≡ nearest (home_by_path by_path.now) path.now }
{
    if let Some(found) = home_by_path(by_path, path) {
        return Some(found);
    }
    for i in (0..path.len()).rev() {
        if path.as_bytes()[i] == b'.' {
            if let Some(found) = home_by_path(by_path, &path[..i]) {
                return Some(found);
            }
        }
    }
    None
}

/// Whether no block of these is inside another one. A path before several blocks beside each other is looked at once.
fn are_apart(by_path: &ByPath<'_>, homes: &[Home]) -> bool
    requires { home_by_path by_path.now ≡ home_at homes.now }
    ensures { IsTrue result → AreApart (home_by_path by_path.now) }
{
    let mut last = "";
    if nearest_home(by_path, last).is_some() {
        return false;
    }
    for home in homes {
        if let Some((outer, _)) = split_last(home.path.as_str()) {
            if outer != last {
                if nearest_home(by_path, outer).is_some() {
                    return false;
                }
                last = outer;
            }
        }
    }
    true
}

/// The homes of blocks by their paths.
pub(crate) fn home_table<'a>(alloc: Global, homes: &'a [Home]) -> Result<HomeTable<'a>, AllocError>
    ensures { IfOk result (λ table. home_by_path table.by_path ≡ home_at homes.now) }
{
    let by_path = homes_by_path(alloc, homes)?;
    let apart = are_apart(&by_path, homes);
    Ok(HomeTable { by_path, apart })
}
