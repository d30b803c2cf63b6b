//! Walks from name to name.
ghost use Rattle.std.specs.{Prelude.{◌≡◌, IfOk, OnOk}, List.Sorted.{IsStrictlySortedBy}};
ghost use Rattle.fb_parse.specs.Text.Order.{name_cmp};
ghost use Rattle.fb_library.specs.Seen.{Opens};

use fb_parse::text::Name;
use std::alloc::{AllocError, Global};
use std::collections::BTreeSet;

/// Sees each name, and opens it if it is new.
pub fn open_new(
    names: &[Name],
    seen: &mut BTreeSet<Name>,
    pending: &mut Vec<Name>,
) -> Result<(), AllocError>
    ensures { OnOk result
        (Opens names.now seen.old.keys pending.old.items seen.new.keys pending.new.items) }
{
    for name in names {
        if seen.insert(*name)? {
            pending.push(*name)?;
        }
    }
    Ok(())
}

/// The names of a set, in order.
pub fn names_of(alloc: Global, set: &BTreeSet<Name>) -> Result<Vec<Name>, AllocError>
    ensures items { IfOk result (λ names. names.items ≡ set.now.keys) }
    ensures ordered { IsStrictlySortedBy name_cmp set.now.keys }
{
    set.iter().copied().collect(alloc)
}
