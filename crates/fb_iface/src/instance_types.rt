//! The check of the types of instances, plugs and sockets.
ghost use Rattle.std.specs.{Prelude.{◌≡◌, ◌++◌, OnOk}, List.{flat_map}};
ghost use Rattle.fb_tree.specs.Tree.{decl_tree, instance_tree, network_tree};
ghost use Rattle.fb_iface.specs.Types.{instance_faults, type_faults};

use crate::code::Code;
use crate::fault::Fault;
use crate::instances::is_suited;
use fb_library::{View, tree_by_name};
use fb_tree::{Application, Decl, Instance, Network, kind};
use std::alloc::AllocError;

/// Reports the types that are absent, broken or of another kind.
pub fn report_types<V: View>(
    view: &V,
    decl: &Decl,
    found: &mut Vec<Fault>,
) -> Result<(), AllocError>
    ensures { OnOk result (found.new.items
        ≡ found.old.items ++ type_faults (V.sources view.now) (decl_tree decl.now)) }
{
    match decl {
        Decl::Block(declared) | Decl::Adapter(declared) | Decl::Subapplication(declared) => {
            report_in_network(view, &declared.network, found)
        }
        Decl::System(system) => report_in_applications(view, system.applications.as_slice(), found),
        Decl::Structure(_) => Ok(()),
    }
}

fn report_in_applications<V: View>(
    view: &V,
    applications: &[Application],
    found: &mut Vec<Fault>,
) -> Result<(), AllocError>
    ensures { OnOk result (found.new.items ≡ found.old.items
        ++ flat_map
        (λ a. flat_map (instance_faults (V.sources view.now))
        (network_tree a.network).instances) applications.now) }
{
    for application in applications {
        report_in_network(view, &application.network, found)?;
    }
    Ok(())
}

fn report_in_network<V: View>(
    view: &V,
    network: &Network,
    found: &mut Vec<Fault>,
) -> Result<(), AllocError>
    ensures { OnOk result (found.new.items ≡ found.old.items
        ++ flat_map (instance_faults (V.sources view.now)) (network_tree network.now).instances) }
{
    for instance in &network.instances {
        report_instance(view, instance, found)?;
    }
    Ok(())
}

/// Reports the type of one instance.
fn report_instance<V: View>(
    view: &V,
    instance: &Instance,
    found: &mut Vec<Fault>,
) -> Result<(), AllocError>
    ensures { OnOk result (found.new.items ≡ found.old.items
        ++ instance_faults (V.sources view.now) (instance_tree instance.now)) }
{
    match tree_by_name(view, &instance.type_name.name.name()) {
        None => found.push(Fault::at(Code::UnknownType, &instance.type_name))?,
        Some(decl) => {
            if !is_suited(instance.role, kind(decl)) {
                found.push(Fault::at(Code::WrongKind, &instance.type_name))?;
            }
        }
    }
    Ok(())
}
