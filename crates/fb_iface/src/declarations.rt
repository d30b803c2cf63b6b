//! The check of what a unit declares.
ghost use Rattle.std.specs.Prelude.{◌≡◌, ◌++◌, IfOk, OnOk, Some};
ghost use Rattle.fb_tree.specs.Tree.{decl_tree};
ghost use Rattle.fb_iface.specs.{Declarations.{declaration_faults, declared_name, iface_faults_of, mixed_faults, name_faults}, Fault.{faults_in_order}};
ghost use Rattle.fb_iface.specs.Ports.{meanings_in};

use crate::code::Code;
use crate::fault::{Fault, sorted_faults};
use crate::initial_values::report_literals;
use crate::instance_types::report_types;
use crate::interfaces::ports_of;
use crate::ports::Ports;
use crate::recursion::report_recursion;
use crate::repeats::report_duplicates;
use crate::withs::report_withs;
use fb_library::{View, tree_by_name};
use fb_tree::Decl;
use fb_tree::text::{Name, NameUse};
use std::alloc::{AllocError, Global};

/// The faults of what a unit declares, in order, each once.
pub fn iface_faults<V: View>(alloc: Global, view: &V, unit: &Name) -> Result<Vec<Fault>, AllocError>
    ensures { IfOk result
        (λ faults. faults.items ≡ faults_in_order (iface_faults_of (V.sources view.now) unit.now)) }
{
    let mut found = Vec::new(alloc);
    let decl = match tree_by_name(view, unit) {
        Some(decl) => decl,
        None => return Ok(found),
    };
    let own = ports_of(alloc, decl)?;
    report_declarations(alloc, view, unit, decl, &own, &mut found)?;
    sorted_faults(alloc, found.as_slice())
}

/// Reports the faults of what a unit declares, as they are found. The unit has these ports.
pub fn report_declarations<V: View>(
    alloc: Global,
    view: &V,
    unit: &Name,
    decl: &Decl,
    own: &Ports<'_>,
    found: &mut Vec<Fault>,
) -> Result<(), AllocError>
    requires { own.now ≡ meanings_in (decl_tree decl.now) }
    ensures { OnOk result (found.new.items
        ≡ found.old.items
        ++ declaration_faults (V.sources view.now) unit.now (Some (decl_tree decl.now))) }
{
    report_name(decl, unit, found)?;
    report_duplicates(alloc, own, decl, found)?;
    report_mixed(decl, found)?;
    report_types(view, decl, found)?;
    report_withs(own, decl, found)?;
    report_literals(decl, found)?;
    report_recursion(alloc, view, unit, decl, found)
}

/// Reports a declared name that is not the unit's.
fn report_name(decl: &Decl, unit: &Name, found: &mut Vec<Fault>) -> Result<(), AllocError>
    ensures { OnOk result
        (found.new.items ≡ found.old.items ++ name_faults unit.now (decl_tree decl.now)) }
{
    let name = name_of(decl);
    if !name.name.is(unit) {
        found.push(Fault::at(Code::NameDiffers, name))?;
    }
    Ok(())
}

/// The name that a text declares.
fn name_of(decl: &Decl) -> &NameUse
    ensures { result.now ≡ declared_name (decl_tree decl.now) }
{
    match decl {
        Decl::Block(declared) | Decl::Adapter(declared) | Decl::Subapplication(declared) => {
            &declared.name
        }
        Decl::System(system) => &system.name,
        Decl::Structure(structure) => &structure.name,
    }
}

/// Reports a block type with a chart and with a network.
fn report_mixed(decl: &Decl, found: &mut Vec<Fault>) -> Result<(), AllocError>
    ensures { OnOk result (found.new.items ≡ found.old.items ++ mixed_faults (decl_tree decl.now)) }
{
    if let Decl::Block(declared) = decl {
        if declared.chart.is_written && declared.network.is_written {
            found.push(Fault::at(Code::MixedKind, &declared.name))?;
        }
    }
    Ok(())
}
