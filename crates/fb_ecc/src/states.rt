//! States of transitions.
ghost use Rattle.std.specs.{Prelude.{◌≡◌, ◌++◌, ℕ, List, map, nat_eq, IfOk, OnOk}, List.{flat_map}, HashSet.{contains}, Cmp.Lexicographic.{pointwise}};
ghost use Rattle.fb_tree.specs.Tree.{chart_tree, transition_tree};
ghost use Rattle.fb_iface.specs.Names.{has_name};
ghost use Rattle.fb_ecc.specs.States.{transition_faults, state_fault, state_faults};

use fb_iface::{Code, Fault};
use fb_tree::text::{Name, NameUse};
use fb_tree::{Chart, State, Transition};
use std::alloc::{AllocError, Global};
use std::collections::HashSet;

/// Reports the states of transitions that are not listed.
pub fn report_states(alloc: Global, chart: &Chart, found: &mut Vec<Fault>) -> Result<(), AllocError>
    ensures { OnOk result
        (found.new.items ≡ found.old.items ++ state_faults (chart_tree chart.now)) }
{
    let listed = listed_states(alloc, chart.states.as_slice())?;
    report_ends(&listed, chart.transitions.as_slice(), found)
}

/// The names of the states.
fn listed_states(alloc: Global, states: &[State]) -> Result<HashSet<Name>, AllocError>
    ensures { IfOk result (λ listed. (name : List ℕ) →
        contains (pointwise nat_eq) listed name ≡ has_name (map (λ s. s.name) states.now) name) }
{
    let mut listed = HashSet::with_capacity(alloc, states.len())?;
    for state in states {
        listed.insert(state.name.name.name())?;
    }
    Ok(listed)
}

/// Reports those of each transition.
fn report_ends(
    listed: &HashSet<Name>,
    transitions: &[Transition],
    found: &mut Vec<Fault>,
) -> Result<(), AllocError>
    ensures { OnOk result (found.new.items ≡ found.old.items
        ++ flat_map
        (λ t. transition_faults (contains (pointwise nat_eq) listed.now)
        (transition_tree t)) transitions.now) }
{
    for transition in transitions {
        report_state(listed, &transition.source, found)?;
        report_state(listed, &transition.destination, found)?;
    }
    Ok(())
}

/// Reports a state that is not listed.
fn report_state(
    listed: &HashSet<Name>,
    name: &NameUse,
    found: &mut Vec<Fault>,
) -> Result<(), AllocError>
    ensures { OnOk result
        (found.new.items ≡ found.old.items ++ state_fault (contains (pointwise nat_eq) listed.now) name.now) }
{
    if !listed.contains(&name.name.name()) {
        found.push(Fault::at(Code::StateUnknown, name))?;
    }
    Ok(())
}
