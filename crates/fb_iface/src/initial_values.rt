//! Initial values that do not fit their type.
ghost use Rattle.std.specs.Prelude.{◌≡◌, ◌++◌, map, OnOk};
ghost use Rattle.fb_tree.specs.Tree.{decl_tree, variables_tree};
ghost use Rattle.fb_iface.specs.{Declarations.{literal_faults_of}, Literals.{initial_faults, literal_faults}};

use crate::fault::Fault;
use crate::literals::report_constant;
use fb_tree::{Decl, Variables};
use std::alloc::AllocError;

/// Reports the initial values that do not fit their type.
pub fn report_literals(decl: &Decl, found: &mut Vec<Fault>) -> Result<(), AllocError>
    ensures { OnOk result
        (found.new.items ≡ found.old.items ++ literal_faults_of (decl_tree decl.now)) }
{
    match decl {
        Decl::Block(declared) | Decl::Adapter(declared) | Decl::Subapplication(declared) => {
            report_in_groups(declared.interface.variables.as_slice(), found)
        }
        Decl::System(_) => Ok(()),
        Decl::Structure(structure) => report_in_groups(structure.fields.as_slice(), found),
    }
}

/// Reports those of variables or fields.
fn report_in_groups(groups: &[Variables], found: &mut Vec<Fault>) -> Result<(), AllocError>
    ensures { OnOk result
        (found.new.items ≡ found.old.items ++ literal_faults (map variables_tree groups.now)) }
{
    for group in groups {
        report_initial(group, found)?;
    }
    Ok(())
}

fn report_initial(group: &Variables, found: &mut Vec<Fault>) -> Result<(), AllocError>
    ensures { OnOk result
        (found.new.items ≡ found.old.items ++ initial_faults (variables_tree group.now)) }
{
    match &group.initial {
        Some(constant) => report_constant(&group.type_use, constant, found),
        None => Ok(()),
    }
}
