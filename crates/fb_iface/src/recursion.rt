//! Structures that carry themselves.
ghost use Rattle.std.specs.Prelude.{◌≡◌, ◌++◌, IfOk, OnOk};
ghost use Rattle.fb_tree.specs.Tree.{decl_tree};
ghost use Rattle.fb_iface.specs.Recursion.{carries_itself, recursion_faults};

use crate::code::Code;
use crate::fault::Fault;
use fb_library::{View, carried};
use fb_tree::Decl;
use fb_tree::text::Name;
use std::alloc::{AllocError, Global};

/// Reports a structure that carries itself.
pub fn report_recursion<V: View>(
    alloc: Global,
    view: &V,
    unit: &Name,
    decl: &Decl,
    found: &mut Vec<Fault>,
) -> Result<(), AllocError>
    ensures { OnOk result (found.new.items ≡ found.old.items
        ++ recursion_faults (V.sources view.now) unit.now (decl_tree decl.now)) }
{
    if let Decl::Structure(structure) = decl {
        if carries_itself(alloc, view, unit)? {
            found.push(Fault::at(Code::StructRecursive, &structure.name))?;
        }
    }
    Ok(())
}

/// Whether the unit carries itself.
fn carries_itself<V: View>(alloc: Global, view: &V, unit: &Name) -> Result<bool, AllocError>
    ensures { IfOk result
        (λ itself. itself ≡ carries_itself (V.sources view.now) unit.now) }
{
    let names = carried(alloc, view, &[*unit])?;
    Ok(names.as_slice().contains(unit))
}
