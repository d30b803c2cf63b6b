//! All faults of a unit.
ghost use Rattle.std.specs.Prelude.{◌≡◌, ◌++◌, IfOk, OnOk};
ghost use Rattle.fb_tree.specs.Tree.{chart_tree, decl_tree, type_tree};
ghost use Rattle.fb_tree.specs.declared.kinds.UnitKind.TheVariants as kinds;
ghost use Rattle.fb_netcheck.specs.{Parse.Body.{Whole, body_tree}, Iface.Ports.{meanings_in_type}, Networks.{type_network, type_place}, Settings.{place_in}};
ghost use Rattle.fb_faults.specs.Faults.{block_faults, chart_here, faults_here, faults_of, reported_in};

use crate::mappings::report_mappings;
use fb_ecc::report_charts;
use fb_expr::report_expressions;
use fb_netcheck::iface::{
    Code, Fault, Ports, Scope, Structures, ports_of, report_declarations, sorted_faults,
};
use fb_netcheck::library::View;
use fb_netcheck::parse::Body;
use fb_netcheck::{Setting, report_network, report_networks};
use fb_tree::text::Name;
use fb_tree::{Chart, Decl, TypeDeclaration, UnitKind};
use std::alloc::{AllocError, Global};

/// All faults of a unit, in the order of their places and then of their codes, each once.
pub fn faults<V: View>(alloc: Global, view: &V, unit: &Name) -> Result<Vec<Fault>, AllocError>
    ensures { IfOk result (λ faults. faults.items ≡ faults_of (V.sources view.now) unit.now) }
{
    let mut found = Vec::new(alloc);
    let source = match view.get(unit) {
        Some(source) => source,
        None => return Ok(found),
    };
    report_body(alloc, view, unit, source.body(), &mut found)?;
    sorted_faults(alloc, found.as_slice())
}

/// Reports the place of a broken text, or the faults of what a text declares.
fn report_body<V: View>(
    alloc: Global,
    view: &V,
    unit: &Name,
    body: &Body,
    found: &mut Vec<Fault>,
) -> Result<(), AllocError>
    ensures { OnOk result (found.new.items
        ≡ found.old.items ++ reported_in (V.sources view.now) unit.now (body_tree body.now)) }
{
    match body {
        Body::Tree(decl) => report_declared(alloc, view, unit, decl, found)?,
        Body::Broken(span) => found.push(Fault {
            code: Code::Syntax,
            span: *span,
        })?,
    }
    Ok(())
}

/// Reports the faults of what a unit declares. Its ports are read once for all checks.
fn report_declared<V: View>(
    alloc: Global,
    view: &V,
    unit: &Name,
    decl: &Decl,
    found: &mut Vec<Fault>,
) -> Result<(), AllocError>
    ensures { OnOk result (found.new.items
        ≡ found.old.items
        ++ reported_in (V.sources view.now) unit.now (Whole (decl_tree decl.now))) }
{
    let own = ports_of(alloc, decl)?;
    report_declarations(alloc, view, unit, decl, &own, found)?;
    match decl {
        Decl::Block(declared) => report_block(alloc, view, unit, own, declared, found),
        Decl::Adapter(_) | Decl::Structure(_) => Ok(()),
        Decl::Subapplication(declared) => {
            report_subapplication(alloc, view, unit, own, declared, found)
        }
        Decl::System(system) => {
            report_networks(alloc, view, unit, decl, found)?;
            report_mappings(alloc, system, found)
        }
    }
}

/// The place of the network of a type of this kind, by the ports of the type.
fn setting_of<'a, V: View>(
    alloc: Global,
    view: &'a V,
    unit: &Name,
    kind: UnitKind,
    own: Ports<'a>,
    declared: &TypeDeclaration,
) -> Result<Setting<'a>, AllocError>
    requires { own ≡ meanings_in_type (type_tree declared.now) }
    ensures { IfOk result (λ here. place_in here
        ≡ (type_place (V.sources view.now) unit.now kind (type_tree declared.now)).0) }
{
    let scope = Scope::new(alloc, view, own, &declared.network)?;
    let unit = *unit;
    Ok(Setting { unit, kind, scope })
}

/// Reports the faults of the chart and of the network of a block type with these ports. Both have one scope.
fn report_block<V: View>(
    alloc: Global,
    view: &V,
    unit: &Name,
    own: Ports<'_>,
    declared: &TypeDeclaration,
    found: &mut Vec<Fault>,
) -> Result<(), AllocError>
    requires { own ≡ meanings_in_type (type_tree declared.now) }
    ensures { OnOk result (found.new.items
        ≡ found.old.items ++ block_faults (V.sources view.now) unit.now (type_tree declared.now)) }
{
    let here = setting_of(alloc, view, unit, UnitKind::Block, own, declared)?;
    report_here(alloc, view, &here, declared, found)
}

/// Reports the faults of the chart and of the network of a type, whose network is at this place.
fn report_here<V: View>(
    alloc: Global,
    view: &V,
    here: &Setting<'_>,
    declared: &TypeDeclaration,
    found: &mut Vec<Fault>,
) -> Result<(), AllocError>
    ensures { OnOk result (found.new.items ≡ found.old.items
        ++ faults_here (V.sources view.now) (place_in here.now) (type_tree declared.now)) }
{
    report_chart(alloc, view, here, &declared.chart, found)?;
    report_network(alloc, view, here, &declared.network, found)
}

/// Reports the faults of a chart. Without one, what values carry isn't read.
fn report_chart<V: View>(
    alloc: Global,
    view: &V,
    here: &Setting<'_>,
    chart: &Chart,
    found: &mut Vec<Fault>,
) -> Result<(), AllocError>
    ensures { OnOk result (found.new.items
        ≡ found.old.items
        ++ chart_here (V.sources view.now) (place_in here.now) (chart_tree chart.now)) }
{
    if chart.states.is_empty() && chart.transitions.is_empty() && chart.algorithms.is_empty() {
        return Ok(());
    }
    let structures = Structures::near(alloc, view, &here.unit)?;
    report_expressions(&here.scope, &structures, chart, found)?;
    report_charts(alloc, &here.scope, chart, found)
}

/// Reports the faults of the network of a subapplication with these ports.
fn report_subapplication<V: View>(
    alloc: Global,
    view: &V,
    unit: &Name,
    own: Ports<'_>,
    declared: &TypeDeclaration,
    found: &mut Vec<Fault>,
) -> Result<(), AllocError>
    requires { own ≡ meanings_in_type (type_tree declared.now) }
    ensures { OnOk result (found.new.items
        ≡ found.old.items
        ++ type_network (V.sources view.now) unit.now kinds.Subapplication
        (type_tree declared.now)) }
{
    let kind = UnitKind::Subapplication;
    let here = setting_of(alloc, view, unit, kind, own, declared)?;
    report_network(alloc, view, &here, &declared.network, found)
}
