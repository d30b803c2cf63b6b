//! The names of paths.
ghost use Rattle.std.specs.Prelude.{◌≡◌, map, IfOk};
ghost use Rattle.fb_placing.specs.Resolved.{path_names};

use std::alloc::{AllocError, Global};

/// The names of a path: what is between its points.
pub fn path_names<'a>(alloc: Global, path: &'a str) -> Result<Vec<&'a str>, AllocError>
    ensures { IfOk result (λ names. map (λ n. n.now) names.items ≡ path_names path.now) }
{
    let mut names = Vec::new(alloc);
    let mut start = 0;
    for i in 0..path.len() {
        if path.as_bytes()[i] == b'.' {
            names.push(&path[start..i])?;
            start = i + 1;
        }
    }
    names.push(&path[start..])?;
    Ok(names)
}
