//! Declarations by name, in which a name may be declared more than once.
ghost use Rattle.std.specs.Prelude.{◌≡◌, OnOk};
ghost use Rattle.fb_iface.specs.Names.{with_first};

use fb_tree::text::Name;
use indexmap::IndexMap;
use std::alloc::AllocError;

/// Declares a name, unless it is declared already: then it keeps its first meaning.
pub(crate) fn declare<D: Drop>(
    name: Name,
    declared: D,
    table: &mut IndexMap<Name, D>,
) -> Result<(), AllocError>
    ensures { OnOk result (table.new.entries ≡ with_first table.old.entries (name, declared)) }
{
    if let Some(first) = table.insert(name, declared)? {
        table.insert(name, first)?;
    }
    Ok(())
}
