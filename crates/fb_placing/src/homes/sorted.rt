//! Paths in order.
ghost use Rattle.std.specs.Prelude.{◌≡◌, IfOk};
ghost use Rattle.fb_tree.specs.Text.Order.{names_in_order};

use fb_network::{Path, sort_once};
use std::alloc::AllocError;

/// The paths by their bytes, each once.
pub(crate) fn sorted_paths(paths: Vec<Path>) -> Result<Vec<Path>, AllocError>
    ensures { IfOk result (λ sorted. sorted.items ≡ names_in_order paths.items) }
{
    let mut sorted = paths;
    sort_once(&mut sorted)?;
    Ok(sorted)
}
