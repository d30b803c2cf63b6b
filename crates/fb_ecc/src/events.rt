//! Events of transitions and of actions.
ghost use Rattle.std.specs.{Prelude.{◌≡◌, ◌++◌, OnOk}, List.{flat_map}, Option.{option_copied, option_map}};
ghost use Rattle.fb_tree.specs.Tree.{chart_tree, condition_tree, state_tree, transition_tree};
ghost use Rattle.fb_tree.specs.declared.interface.Side.TheVariants as sides;
ghost use Rattle.fb_iface.specs.ScopeTypes.{scope_in};
ghost use Rattle.fb_ecc.specs.Events.{event_among, event_behind, event_faults, event_in, event_named, event_of_adapter, event_on, opposite, sent_faults, side_through, span_from, trigger_faults, written_fault};

use fb_iface::{Code, DeclaredInstance, Fault, PortsByName, Scope, is_same_side};
use fb_tree::text::{Name, NameUse, Span};
use fb_tree::{Action, Chart, Condition, End, Role, Side, State, Transition};
use std::alloc::AllocError;

/// What an event that is written names.
#[derive(Clone, Copy, Debug)]
pub enum EventTarget {
    /// An event of the side that is required there.
    Found,
    /// No such event.
    Unknown,
    /// A port of a plug or socket whose type is absent, broken or of the wrong kind.
    NotChecked,
}

/// Reports the events of transitions that are no event inputs, and those of actions that are no event outputs.
pub fn report_events(
    scope: &Scope<'_>,
    chart: &Chart,
    found: &mut Vec<Fault>,
) -> Result<(), AllocError>
    ensures { OnOk result
        (found.new.items
        ≡ found.old.items ++ event_faults (scope_in scope.now) (chart_tree chart.now)) }
{
    report_triggers(scope, chart.transitions.as_slice(), found)?;
    report_sent(scope, chart.states.as_slice(), found)
}

/// Reports the events of transitions that are no event inputs.
fn report_triggers(
    scope: &Scope<'_>,
    transitions: &[Transition],
    found: &mut Vec<Fault>,
) -> Result<(), AllocError>
    ensures { OnOk result (found.new.items ≡ found.old.items
        ++ flat_map
        (λ t. trigger_faults (scope_in scope.now) (transition_tree t)) transitions.now) }
{
    for transition in transitions {
        report_written(scope, Side::Input, event_of(&transition.condition), found)?;
    }
    Ok(())
}

/// The event of a condition.
fn event_of(condition: &Condition) -> Option<&End>
    ensures { option_copied result ≡ event_in (condition_tree condition.now) }
{
    match condition {
        Condition::Event(event) | Condition::Guarded(event, _) => Some(event),
        Condition::Always(_) | Condition::Guard(_) => None,
    }
}

/// Reports the events of actions that are no event outputs.
fn report_sent(
    scope: &Scope<'_>,
    states: &[State],
    found: &mut Vec<Fault>,
) -> Result<(), AllocError>
    ensures { OnOk result (found.new.items ≡ found.old.items
        ++ flat_map
        (λ s. flat_map (sent_faults (scope_in scope.now)) (state_tree s).actions) states.now) }
{
    for state in states {
        report_sent_by(scope, state.actions.as_slice(), found)?;
    }
    Ok(())
}

/// Reports those of each action.
fn report_sent_by(
    scope: &Scope<'_>,
    actions: &[Action],
    found: &mut Vec<Fault>,
) -> Result<(), AllocError>
    ensures { OnOk result
        (found.new.items
        ≡ found.old.items ++ flat_map (sent_faults (scope_in scope.now)) actions.now) }
{
    for action in actions {
        report_written(scope, Side::Output, action.event.as_ref(), found)?;
    }
    Ok(())
}

/// Reports an event that is written and is not of this side.
fn report_written(
    scope: &Scope<'_>,
    side: Side,
    event: Option<&End>,
    found: &mut Vec<Fault>,
) -> Result<(), AllocError>
    ensures { OnOk result (found.new.items
        ≡ found.old.items ++ written_fault (scope_in scope.now) side (option_copied event.entry)) }
{
    if let Some(event) = event {
        match target_of(scope, side, event) {
            EventTarget::Unknown => found.push(Fault {
                code: Code::EventUnknown,
                span: span_of(event),
            })?,
            EventTarget::Found | EventTarget::NotChecked => {}
        }
    }
    Ok(())
}

/// From the first name of a reference to the end of its last.
fn span_of(event: &End) -> Span
    ensures { result ≡ span_from event.now.name.span event.now.port }
{
    match &event.port {
        Some(port) => event.name.span.through(port.span).span(),
        None => event.name.span.span(),
    }
}

/// What a reference names, if it must be an event of this side.
fn target_of(scope: &Scope<'_>, side: Side, event: &End) -> EventTarget
    ensures { result ≡ event_named (scope_in scope.now) side event.now.name event.now.port }
{
    let name = event.name.name.name();
    match &event.port {
        Some(port) => { target_behind(scope, scope.own().instance(&name), side, &port.name.name()) }
        None => target_among(scope.own(), side, &name),
    }
}

/// What a name means among ports.
fn target_among(ports: &PortsByName<'_>, side: Side, name: &Name) -> EventTarget
    ensures { result ≡ event_among side ports.now name.now }
{
    match ports.event(name) {
        Some(event) if is_same_side(event.side(), side) => EventTarget::Found,
        _ => EventTarget::Unknown,
    }
}

/// What a port of a plug or socket is.
fn target_behind(
    scope: &Scope<'_>,
    instance: Option<DeclaredInstance<'_>>,
    side: Side,
    name: &Name,
) -> EventTarget
    ensures { result ≡ event_behind (scope_in scope.now) side
        instance.entry name.now }
{
    match instance {
        Some(instance) => match through(instance.role(), side) {
            Some(side) => target_of_adapter(scope.instance_ports(&instance), side, name),
            None => EventTarget::Unknown,
        },
        None => EventTarget::Unknown,
    }
}

/// What a port of an adapter is. One whose type is not usable is not checked.
fn target_of_adapter(ports: Option<&PortsByName<'_>>, side: Side, name: &Name) -> EventTarget
    ensures { result ≡ event_of_adapter (option_map (λ p. p.now) ports.entry) name.now side }
{
    match ports {
        Some(ports) => target_among(ports, side, name),
        None => EventTarget::NotChecked,
    }
}

/// The side that events of this side have in the type of a plug or socket.
fn through(role: Role, side: Side) -> Option<Side>
    ensures { result ≡ side_through role side }
{
    match role {
        Role::Plug => Some(side),
        Role::Socket => Some(other(side)),
        Role::Block | Role::Subapplication => None,
    }
}

fn other(side: Side) -> Side
    ensures { result ≡ opposite side }
{
    match side {
        Side::Input => Side::Output,
        Side::Output => Side::Input,
    }
}
