//! The check of execution control charts (IEC 61499-1, 5.2.1).
ghost use Rattle.std.specs.Prelude.{◌≡◌, ◌++◌, IfOk, OnOk};
ghost use Rattle.fb_tree.specs.Tree.{chart_tree, type_tree};
ghost use Rattle.fb_iface.specs.{Fault.{faults_in_order}, ScopeTypes.{scope_in}, Scope.{scope_of_type}};
ghost use Rattle.fb_ecc.specs.Charts.{chart_faults, ecc_faults_of};

use crate::algorithms::report_algorithms;
use crate::events::report_events;
use crate::states::report_states;
use fb_iface::library::{View, tree_by_name};
use fb_iface::{Fault, Scope, sorted_faults};
use fb_tree::text::Name;
use fb_tree::{Chart, Decl, TypeDeclaration};
use std::alloc::{AllocError, Global};

/// The faults of a unit's execution control chart, in order, each once.
pub fn ecc_faults<V: View>(alloc: Global, view: &V, unit: &Name) -> Result<Vec<Fault>, AllocError>
    ensures { IfOk result
        (λ faults. faults.items ≡ faults_in_order (ecc_faults_of (V.sources view.now) unit.now)) }
{
    let mut found = Vec::new(alloc);
    let declared = match tree_by_name(view, unit) {
        Some(Decl::Block(declared)) => declared,
        _ => return Ok(found),
    };
    report_block(alloc, view, declared, &mut found)?;
    sorted_faults(alloc, found.as_slice())
}

/// Reports the faults of a block type. If it has no chart, what names mean isn't read.
fn report_block<V: View>(
    alloc: Global,
    view: &V,
    declared: &TypeDeclaration,
    found: &mut Vec<Fault>,
) -> Result<(), AllocError>
    ensures { OnOk result (found.new.items ≡ found.old.items
        ++ chart_faults (scope_of_type (V.sources view.now) (type_tree declared.now))
        (chart_tree declared.now.chart)) }
{
    let chart = &declared.chart;
    if chart.states.is_empty() && chart.transitions.is_empty() {
        return Ok(());
    }
    let scope = Scope::of_type(alloc, view, declared)?;
    report_charts(alloc, &scope, chart, found)
}

/// Reports the faults of a chart, as they are found.
pub fn report_charts(
    alloc: Global,
    scope: &Scope<'_>,
    chart: &Chart,
    found: &mut Vec<Fault>,
) -> Result<(), AllocError>
    ensures { OnOk result
        (found.new.items
        ≡ found.old.items ++ chart_faults (scope_in scope.now) (chart_tree chart.now)) }
{
    report_states(alloc, chart, found)?;
    report_events(scope, chart, found)?;
    report_algorithms(alloc, chart, found)
}
