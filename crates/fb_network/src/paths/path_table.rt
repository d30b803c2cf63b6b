//! Prefixes of paths, and what they mean.
ghost use Rattle.std.specs.{Prelude.{◌≡◌, option_copied}, HashMap.{get_by_text}};
ghost use Rattle.fb_network.specs.Prefixes.{nearest};

use crate::paths::path::Path;
use std::collections::HashMap;

/// Paths by the texts that mean them.
pub type PathTable = HashMap<String, Path>;

/// The meaning of the longest prefix of the path that has one.
pub fn nearest<'a>(table: &'a PathTable, path: &str) -> Option<&'a Path>
    ensures { option_copied result ≡ nearest (get_by_text table.now) path.now }
{
    if let Some(found) = table.get(path) {
        return Some(found);
    }
    for i in (0..path.len()).rev() {
        if path.as_bytes()[i] == b'.' {
            if let Some(found) = table.get(&path[..i]) {
                return Some(found);
            }
        }
    }
    None
}
