//! Paths that occur twice.
ghost use Rattle.std.specs.Prelude.{◌≡◌, ◌++◌, IfOk, OnOk, map};
ghost use Rattle.fb_netcheck.specs.Paths.{PathUse, repeated_faults};

use fb_iface::{Code, Fault};
use fb_tree::text::{Name, Span};
use std::alloc::{AllocError, Global};
use std::collections::HashSet;

/// What has a path, names with points between, with its place.
pub trait Placed {
    ghost path_of: { Self → PathUse };

    /// The names of the path.
    fn path(&self, alloc: Global) -> Result<Vec<Name>, AllocError>
        ensures { IfOk result (λ path. path.items ≡ (path_of self.now).names) };

    /// Its place.
    fn place(&self) -> Span
        ensures { result ≡ (path_of self.now).span };
}

/// Reports each path that also occurs before its place.
pub fn report_repeated<T: Placed>(
    alloc: Global,
    code: Code,
    items: &[T],
    found: &mut Vec<Fault>,
) -> Result<(), AllocError>
    ensures { OnOk result
        (found.new.items ≡ found.old.items ++ repeated_faults code (map T.path_of items.now)) }
{
    if items.len() < 2 {
        return Ok(());
    }
    let mut seen = HashSet::with_capacity(alloc, items.len())?;
    for item in items {
        let path = item.path(alloc)?;
        if !seen.insert(path)? {
            let span = item.place();
            found.push(Fault { code, span })?;
        }
    }
    Ok(())
}
