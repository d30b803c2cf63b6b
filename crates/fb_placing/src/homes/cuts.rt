//! Links between blocks with different homes.
ghost use Rattle.std.specs.Prelude.{◌≡◌, IfOk, option_copied};
ghost use Rattle.fb_placing.specs.Cuts.{cuts_of, home_at, same_home};

use crate::homes::Home;
use crate::homes::table::home_table;
use crate::plan::assigned_commands::push_links;
use crate::plan::command_index::plain_links;
use fb_network::{Flat, Link, Path};
use std::alloc::{AllocError, Global};

/// Whether two homes are the same.
pub(crate) fn same_home(a: Option<&Path>, b: Option<&Path>) -> bool
    ensures { result ≡ same_home (option_copied a.entry) (option_copied b.entry) }
{
    match (a, b) {
        (None, None) => true,
        (Some(a), Some(b)) => a.as_str() == b.as_str(),
        _ => false,
    }
}

/// The links whose two homes differ, where blocks have these homes, in the order of the links.
pub fn cuts_of(alloc: Global, homes: &[Home], flat: &Flat) -> Result<Vec<Link>, AllocError>
    ensures { IfOk result (λ cuts. cuts.items ≡ cuts_of (home_at homes.now) flat.now.links) }
{
    let table = home_table(alloc, homes)?;
    let mut cuts = Vec::new(alloc);
    let mut commands = Vec::new(alloc);
    push_links(alloc, &table, flat, &mut cuts, &mut commands)?;
    plain_links(alloc, flat, &cuts)
}
