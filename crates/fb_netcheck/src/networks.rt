//! The check of networks.
ghost use Rattle.std.specs.{Prelude.{◌≡◌, ◌++◌, IfOk, OnOk}, List.{flat_map}};
ghost use Rattle.fb_tree.specs.Tree.{application_tree, decl_tree, network_tree, type_tree};
ghost use Rattle.fb_iface.specs.Fault.{faults_in_order};
ghost use Rattle.fb_netcheck.specs.{Settings.{place_in}, Networks.{application_network, declared_faults, net_faults_of, network_faults, type_network}};

use crate::connections::report_connections;
use crate::parameters::report_parameters;
use crate::repeats::{report_second_adapters, report_second_sources};
use crate::setting::Setting;
use fb_iface::library::{View, tree_by_name};
use fb_iface::{Fault, Scope, sorted_faults};
use fb_tree::text::Name;
use fb_tree::{Application, Decl, Network, System, TypeDeclaration, UnitKind};
use std::alloc::{AllocError, Global};

/// The faults of the networks of a unit, in order, each once.
pub fn net_faults<V: View>(alloc: Global, view: &V, unit: &Name) -> Result<Vec<Fault>, AllocError>
    ensures { IfOk result
        (λ faults. faults.items ≡ faults_in_order (net_faults_of (V.sources view.now) unit.now)) }
{
    let mut found = Vec::new(alloc);
    let decl = match tree_by_name(view, unit) {
        Some(decl) => decl,
        None => return Ok(found),
    };
    report_networks(alloc, view, unit, decl, &mut found)?;
    sorted_faults(alloc, found.as_slice())
}

/// Reports the faults of the networks of a unit, as they are found.
pub fn report_networks<V: View>(
    alloc: Global,
    view: &V,
    unit: &Name,
    decl: &Decl,
    found: &mut Vec<Fault>,
) -> Result<(), AllocError>
    ensures { OnOk result
        (found.new.items
        ≡ found.old.items ++ declared_faults (V.sources view.now) unit.now (decl_tree decl.now)) }
{
    match decl {
        Decl::Block(declared) => report_in_type(
            alloc,
            view,
            unit,
            UnitKind::Block,
            declared,
            found,
        ),
        Decl::Adapter(_) | Decl::Structure(_) => Ok(()),
        Decl::Subapplication(declared) => {
            report_in_type(alloc, view, unit, UnitKind::Subapplication, declared, found)
        }
        Decl::System(system) => report_in_system(alloc, view, unit, system, found),
    }
}

fn report_in_type<V: View>(
    alloc: Global,
    view: &V,
    unit: &Name,
    kind: UnitKind,
    declared: &TypeDeclaration,
    found: &mut Vec<Fault>,
) -> Result<(), AllocError>
    ensures { OnOk result (found.new.items
        ≡ found.old.items
        ++ type_network (V.sources view.now) unit.now kind (type_tree declared.now)) }
{
    let scope = Scope::of_type(alloc, view, declared)?;
    let unit = *unit;
    let here = Setting { unit, kind, scope };
    report_network(alloc, view, &here, &declared.network, found)
}

fn report_in_system<V: View>(
    alloc: Global,
    view: &V,
    unit: &Name,
    system: &System,
    found: &mut Vec<Fault>,
) -> Result<(), AllocError>
    ensures { OnOk result (found.new.items ≡ found.old.items
        ++ flat_map
        (λ a. application_network (V.sources view.now) unit.now
        (application_tree a)) system.now.applications.items) }
{
    for application in &system.applications {
        report_application(alloc, view, unit, application, found)?;
    }
    Ok(())
}

fn report_application<V: View>(
    alloc: Global,
    view: &V,
    unit: &Name,
    application: &Application,
    found: &mut Vec<Fault>,
) -> Result<(), AllocError>
    ensures { OnOk result (found.new.items
        ≡ found.old.items
        ++ application_network (V.sources view.now) unit.now (application_tree application.now)) }
{
    let scope = Scope::of_network(alloc, view, &application.network)?;
    let unit = *unit;
    let kind = UnitKind::System;
    let here = Setting { unit, kind, scope };
    report_network(alloc, view, &here, &application.network, found)
}

/// Reports the faults of a network, as they are found.
pub fn report_network<V: View>(
    alloc: Global,
    view: &V,
    here: &Setting<'_>,
    network: &Network,
    found: &mut Vec<Fault>,
) -> Result<(), AllocError>
    ensures { OnOk result (found.new.items
        ≡ found.old.items
        ++ network_faults (V.sources view.now) (place_in here.now) (network_tree network.now)) }
{
    let connections = network.connections.as_slice();
    report_connections(alloc, view, here, connections, found)?;
    report_second_sources(alloc, connections, found)?;
    report_second_adapters(alloc, connections, found)?;
    report_parameters(&here.scope, network.instances.as_slice(), found)
}
