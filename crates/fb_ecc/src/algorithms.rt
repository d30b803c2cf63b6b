//! Algorithms of actions.
ghost use Rattle.std.specs.{Prelude.{◌≡◌, ◌++◌, ℕ, List, map, nat_eq, IfOk, OnOk}, List.{flat_map}, HashSet.{contains}, Cmp.Lexicographic.{pointwise}};
ghost use Rattle.fb_tree.specs.Tree.{chart_tree, state_tree};
ghost use Rattle.fb_iface.specs.Names.{has_name};
ghost use Rattle.fb_ecc.specs.Algorithms.{algorithm_fault, algorithm_faults, run_faults};

use fb_iface::{Code, Fault};
use fb_tree::text::Name;
use fb_tree::{Action, Algorithm, Chart, State};
use std::alloc::{AllocError, Global};
use std::collections::HashSet;

/// Reports the algorithms of actions that are not declared.
pub fn report_algorithms(
    alloc: Global,
    chart: &Chart,
    found: &mut Vec<Fault>,
) -> Result<(), AllocError>
    ensures { OnOk result
        (found.new.items ≡ found.old.items ++ algorithm_faults (chart_tree chart.now)) }
{
    let declared = declared_algorithms(alloc, chart.algorithms.as_slice())?;
    report_run(&declared, chart.states.as_slice(), found)
}

/// The names of the algorithms.
fn declared_algorithms(alloc: Global, algorithms: &[Algorithm]) -> Result<HashSet<Name>, AllocError>
    ensures { IfOk result (λ declared. (name : List ℕ) →
        contains (pointwise nat_eq) declared name ≡ has_name (map (λ a. a.name) algorithms.now) name) }
{
    let mut declared = HashSet::with_capacity(alloc, algorithms.len())?;
    for algorithm in algorithms {
        declared.insert(algorithm.name.name.name())?;
    }
    Ok(declared)
}

/// Reports those of each state.
fn report_run(
    declared: &HashSet<Name>,
    states: &[State],
    found: &mut Vec<Fault>,
) -> Result<(), AllocError>
    ensures { OnOk result (found.new.items ≡ found.old.items
        ++ flat_map
        (λ s. flat_map (run_faults (contains (pointwise nat_eq) declared.now))
        (state_tree s).actions) states.now) }
{
    for state in states {
        report_run_by(declared, state.actions.as_slice(), found)?;
    }
    Ok(())
}

/// Reports those of each action.
fn report_run_by(
    declared: &HashSet<Name>,
    actions: &[Action],
    found: &mut Vec<Fault>,
) -> Result<(), AllocError>
    ensures { OnOk result (found.new.items
        ≡ found.old.items ++ flat_map (run_faults (contains (pointwise nat_eq) declared.now)) actions.now) }
{
    for action in actions {
        report_action(declared, action, found)?;
    }
    Ok(())
}

/// Reports the algorithm of an action.
fn report_action(
    declared: &HashSet<Name>,
    action: &Action,
    found: &mut Vec<Fault>,
) -> Result<(), AllocError>
    ensures { OnOk result (found.new.items
        ≡ found.old.items ++ run_faults (contains (pointwise nat_eq) declared.now) action.now) }
{
    if let Some(name) = &action.algorithm {
        if !declared.contains(&name.name.name()) {
            found.push(Fault::at(Code::AlgorithmUnknown, name))?;
        }
    }
    Ok(())
}
