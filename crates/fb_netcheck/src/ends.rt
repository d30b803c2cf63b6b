//! What the ends of connections name (IEC 61499-1, 5.3: composite types; 5.4: subapplication types; 5.5: adapters).
ghost use Rattle.std.specs.{Prelude.{◌≡◌}, Option.{option_and_then, option_map}};
ghost use Rattle.fb_iface.specs.{ScopeTypes.{scope_in}, Names.{stands_for}, Scope.{instance_ports}};
ghost use Rattle.fb_netcheck.specs.Settings.{place_in};
ghost use Rattle.fb_netcheck.specs.Ends.{adapter_port, data_port, end_span, event_port, holder_of, is_right, last_name, port_in, right_side, target, target_in, target_of, target_of_instance};

use crate::setting::Setting;
use fb_iface::{
    DeclaredEvent, DeclaredInstance, DeclaredVariable, PortsByName, UsedName, UsedType,
    is_same_side,
};
use fb_tree::text::{Name, NameUse, Span};
use fb_tree::{End, Role, Section, Side, Sort, UnitKind};

/// The side of an end in its connection.
#[derive(Clone, Copy, Debug, PartialEq, Eq)]
pub enum Position {
    Source,
    Destination,
}

/// Whose port an end names.
#[derive(Clone, Copy, Debug, PartialEq, Eq)]
pub enum Holder {
    Own,
    OfInstance,
    OfPlug,
    OfSocket,
}

/// What flows through a port.
#[derive(Drop)]
pub enum Flow<'a> {
    Event,
    Data(UsedType<'a>),
    Adapter(UsedName<'a>),
}

/// A port. Among adapters a socket is an input and a plug an output.
#[derive(Drop)]
pub struct Port<'a> {
    pub side: Side,
    pub flow: Flow<'a>,
}

/// What an end names.
#[derive(Drop)]
pub enum Target<'a> {
    /// No port of the connection's sort.
    Unknown,
    /// A port of a type that is absent, broken or of the wrong kind.
    NotChecked,
    Found(Holder, Port<'a>),
}

/// The side of the port at an end, by whose port it is.
fn side_at(position: Position, holder: Holder) -> Side
    ensures { result ≡ right_side position holder }
{
    match (position, holder) {
        (Position::Source, Holder::Own | Holder::OfPlug) => Side::Input,
        (Position::Source, Holder::OfInstance | Holder::OfSocket) => Side::Output,
        (Position::Destination, Holder::Own | Holder::OfPlug) => Side::Output,
        (Position::Destination, Holder::OfInstance | Holder::OfSocket) => Side::Input,
    }
}

/// Whether it is a port of the right side.
pub fn is_right_target(position: Position, target: &Target<'_>) -> bool
    ensures { result ≡ is_right position target.now }
{
    match target {
        Target::Unknown | Target::NotChecked => false,
        Target::Found(holder, port) => is_same_side(port.side, side_at(position, *holder)),
    }
}

/// The place of an end.
pub fn span_of(end: &End) -> Span
    ensures { result ≡ end_span end.now }
{
    end.name.span.through(last(end).span).span()
}

fn last(end: &End) -> &NameUse
    ensures { result.now ≡ last_name end.now.name end.now.port }
{
    match &end.port {
        Some(port) => port,
        None => &end.name,
    }
}

/// What an end of a connection names.
pub fn target_at<'a>(here: &Setting<'a>, sort: Sort, end: &End) -> Target<'a>
    ensures { result ≡ target (place_in here.now) sort end.now }
{
    let name = end.name.name.name();
    let own = here.scope.own();
    match &end.port {
        None => found(Holder::Own, port_by_name(sort, own, &name)),
        Some(port) => {
            let instance = own.instance(&name);
            target_at_instance(here, sort, instance, &port.name.name())
        }
    }
}

/// A port of an instance, plug or socket.
fn target_at_instance<'a>(
    here: &Setting<'a>,
    sort: Sort,
    instance: Option<DeclaredInstance<'_>>,
    name: &Name,
) -> Target<'a>
    ensures { result ≡ target_of_instance here.now.kind sort instance.entry
        (option_and_then (instance_ports (scope_in here.now.scope)) instance.entry) name.now }
{
    match instance {
        None => Target::Unknown,
        Some(instance) => match held_by(here.kind, sort, instance.role()) {
            None => Target::Unknown,
            Some(holder) => {
                let ports = here.scope.instance_ports(&instance);
                target_at_type(holder, sort, ports, name)
            }
        },
    }
}

/// Whose port it is.
fn held_by(kind: UnitKind, sort: Sort, role: Role) -> Option<Holder>
    ensures { result ≡ holder_of kind sort role }
{
    match (kind, sort, role) {
        (_, _, Role::Block | Role::Subapplication) => Some(Holder::OfInstance),
        (UnitKind::Block, Sort::Event | Sort::Data, Role::Plug) => Some(Holder::OfPlug),
        (UnitKind::Block, Sort::Event | Sort::Data, Role::Socket) => Some(Holder::OfSocket),
        _ => None,
    }
}

/// A port of a type, if this is usable.
fn target_at_type<'a>(
    holder: Holder,
    sort: Sort,
    ports: Option<&PortsByName<'a>>,
    name: &Name,
) -> Target<'a>
    ensures { result ≡ target_in holder sort (option_map (λ p. p.now) ports.entry) name.now }
{
    match ports {
        None => Target::NotChecked,
        Some(ports) => found(holder, port_by_name(sort, ports, name)),
    }
}

fn found<'a>(holder: Holder, port: Option<Port<'a>>) -> Target<'a>
    ensures { result ≡ target_of holder port.entry }
{
    match port {
        None => Target::Unknown,
        Some(port) => Target::Found(holder, port),
    }
}

/// The port of this sort that a name means.
fn port_by_name<'a>(sort: Sort, ports: &PortsByName<'a>, name: &Name) -> Option<Port<'a>>
    ensures { result ≡ port_in sort ports.now name.now }
{
    match sort {
        Sort::Event => event_by_name(ports, name),
        Sort::Data => data_by_name(ports, name),
        Sort::Adapter => adapter_by_name(ports, name),
    }
}

fn event_by_name<'a>(ports: &PortsByName<'a>, name: &Name) -> Option<Port<'a>>
    ensures { result ≡ option_map event_port (stands_for ports.now.events name.now) }
{
    match ports.event(name) {
        Some(event) => Some(port_of_event(&event)),
        None => None,
    }
}

fn port_of_event<'a>(event: &DeclaredEvent<'a>) -> Port<'a>
    ensures { result ≡ event_port event.now }
{
    Port {
        side: event.side(),
        flow: Flow::Event,
    }
}

fn data_by_name<'a>(ports: &PortsByName<'a>, name: &Name) -> Option<Port<'a>>
    ensures { result ≡ option_and_then data_port (stands_for ports.now.variables name.now) }
{
    match ports.variable(name) {
        Some(variable) => port_of_variable(&variable),
        None => None,
    }
}

/// Internal variables and fields are no ports.
fn port_of_variable<'a>(variable: &DeclaredVariable<'a>) -> Option<Port<'a>>
    ensures { result ≡ data_port variable.now }
{
    let flow = Flow::Data(UsedType::of(variable.type_use()));
    match variable.section() {
        Section::Input => Some(Port {
            side: Side::Input,
            flow,
        }),
        Section::Output => Some(Port {
            side: Side::Output,
            flow,
        }),
        Section::Internal | Section::Field => None,
    }
}

fn adapter_by_name<'a>(ports: &PortsByName<'a>, name: &Name) -> Option<Port<'a>>
    ensures { result ≡ option_and_then adapter_port (stands_for ports.now.instances name.now) }
{
    match ports.instance(name) {
        Some(instance) => port_of_instance(&instance),
        None => None,
    }
}

/// Instances are no ports.
fn port_of_instance<'a>(instance: &DeclaredInstance<'a>) -> Option<Port<'a>>
    ensures { result ≡ adapter_port instance.now }
{
    let flow = Flow::Adapter(UsedName::of(instance.type_name()));
    match instance.role() {
        Role::Socket => Some(Port {
            side: Side::Input,
            flow,
        }),
        Role::Plug => Some(Port {
            side: Side::Output,
            flow,
        }),
        Role::Block | Role::Subapplication => None,
    }
}
