//! The check of the expressions and statements of a unit (IEC 61499-1, 5.2.1 and 5.2.2: execution control charts and algorithms).
ghost use Rattle.std.specs.{Prelude.{◌≡◌, ◌++◌, IfOk, OnOk}, List.{flat_map}};
ghost use Rattle.fb_tree.specs.Tree.{algorithm_tree, chart_tree, condition_tree, transition_tree};
ghost use Rattle.fb_iface.specs.{CachedFields.{structures_in}, Fault.{faults_in_order}, ScopeTypes.{scope_in}};
ghost use Rattle.fb_expr.specs.{Charts.{algorithm_faults, expr_faults_of, expression_faults, guard_faults, transition_faults}, Names.{names_in}};

use crate::expressions::judge_at;
use crate::names::Names;
use crate::rules::ClassPlace;
use crate::statements::report_statements;
use fb_iface::library::{View, tree_by_name};
use fb_iface::{Fault, Scope, Structures, sorted_faults};
use fb_tree::text::Name;
use fb_tree::{Algorithm, Chart, Condition, Decl, Transition};
use std::alloc::{AllocError, Global};

/// The faults of the expressions and statements of a unit, in order, each once: names that are no variables, and values that do not suit
/// what is done with them.
pub fn expr_faults<V: View>(alloc: Global, view: &V, unit: &Name) -> Result<Vec<Fault>, AllocError>
    ensures { IfOk result
        (λ faults. faults.items ≡ faults_in_order (expr_faults_of (V.sources view.now) unit.now)) }
{
    let mut found = Vec::new(alloc);
    let declared = match tree_by_name(view, unit) {
        Some(Decl::Block(declared)) => declared,
        _ => return Ok(found),
    };
    let scope = Scope::of_type(alloc, view, declared)?;
    let structures = Structures::near(alloc, view, unit)?;
    report_expressions(&scope, &structures, &declared.chart, &mut found)?;
    sorted_faults(alloc, found.as_slice())
}

/// Reports the faults of the expressions of guards and of the statements of algorithms, as they are found.
pub fn report_expressions(
    scope: &Scope<'_>,
    structures: &Structures<'_>,
    chart: &Chart,
    found: &mut Vec<Fault>,
) -> Result<(), AllocError>
    ensures { OnOk result (found.new.items ≡ found.old.items
        ++ expression_faults
        (record { scope = scope_in scope.now; fields = structures_in structures.now })
        (chart_tree chart.now)) }
{
    let names = Names { scope, structures };
    report_transitions(names, chart.transitions.as_slice(), found)?;
    report_algorithms(names, chart.algorithms.as_slice(), found)
}

fn report_transitions(
    names: Names<'_>,
    transitions: &[Transition],
    found: &mut Vec<Fault>,
) -> Result<(), AllocError>
    ensures { OnOk result (found.new.items ≡ found.old.items
        ++ flat_map
        (λ t. transition_faults (names_in names.entry) (transition_tree t)) transitions.now) }
{
    for transition in transitions {
        report_guard(names, &transition.condition, found)?;
    }
    Ok(())
}

/// Reports the faults of a guard, if there is one.
fn report_guard(
    names: Names<'_>,
    condition: &Condition,
    found: &mut Vec<Fault>,
) -> Result<(), AllocError>
    ensures { OnOk result
        (found.new.items
        ≡ found.old.items ++ guard_faults (names_in names.entry) (condition_tree condition.now)) }
{
    match condition {
        Condition::Always(_) | Condition::Event(_) => Ok(()),
        Condition::Guarded(_, test) | Condition::Guard(test) => {
            judge_at(ClassPlace::Condition, names, test, found)
        }
    }
}

fn report_algorithms(
    names: Names<'_>,
    algorithms: &[Algorithm],
    found: &mut Vec<Fault>,
) -> Result<(), AllocError>
    ensures { OnOk result (found.new.items ≡ found.old.items
        ++ flat_map
        (λ a. algorithm_faults (names_in names.entry) (algorithm_tree a)) algorithms.now) }
{
    for algorithm in algorithms {
        report_statements(names, algorithm.statements.as_slice(), found)?;
    }
    Ok(())
}
