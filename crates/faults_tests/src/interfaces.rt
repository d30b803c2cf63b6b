//! The ports that `interface` gives, written as six lists: event inputs, event outputs, data inputs, data outputs, plugs and sockets. After each
//! name is its type, if it has one.
use fb_iface::{Ports, interface, is_beside, is_same_role, is_same_side};
use fb_library::parse::Source;
use fb_tree::text::{Name, NameUse};
use fb_tree::{Role, Side};
use refusing::{lines_of, row_in};
use std::alloc::{AllocError, Global};
use std::test::Fail;

// Texts, and their ports. A name means its first declaration, and internal variables are no ports.
const INTERFACES: &str = r#"
FUNCTION_BLOCK TN EVENT_INPUT I; END_EVENT EVENT_OUTPUT O; END_EVENT VAR_INPUT DT:TIME; END_VAR END_FUNCTION_BLOCK => [ I ] [ O ] [ DT:TIME ] [ ] [ ] [ ]
FUNCTION_BLOCK W VAR X:INT; END_VAR VAR_INPUT X, Y:BOOL; END_VAR VAR_OUTPUT Z:ARRAY[0..1] OF WORD; END_VAR EVENT_INPUT B; A:KIND; B; END_EVENT PLUGS P:AD; END_PLUGS SOCKETS Q:AD; P:B; END_SOCKETS END_FUNCTION_BLOCK
    => [ B A:KIND ] [ ] [ Y:BOOL ] [ Z:WORD ] [ P:AD ] [ Q:AD ]
ADAPTER AD EVENT_OUTPUT RQ; END_EVENT VAR_OUTPUT V:INT; END_VAR END_ADAPTER => [ ] [ RQ ] [ ] [ V:INT ] [ ] [ ]
SUBAPPLICATION S EVENT_INPUT E; END_EVENT FBS F:T; END_FBS PLUGS P:AD; END_PLUGS END_SUBAPPLICATION => [ E ] [ ] [ ] [ ] [ P:AD ] [ ]
SYSTEM Y END_SYSTEM => [ ] [ ] [ ] [ ] [ ] [ ]
TYPE S : STRUCT X:INT; Y:AD; END_STRUCT END_TYPE => [ ] [ ] [ ] [ ] [ ] [ ]
SYSTEM Y => none
"#;

fn say_port(told: &mut String, name: &Name, used: Option<&NameUse>) -> Result<(), AllocError> {
    match used {
        Some(used) => write!(told, " {name}:{}", used.name.as_str()),
        None => write!(told, " {name}"),
    }
}

fn say_events(told: &mut String, ports: &Ports<'_>, side: Side) -> Result<(), AllocError> {
    told.push_str(" [")?;
    for (name, event) in ports.events().iter() {
        if is_same_side(event.side(), side) {
            say_port(told, name, event.type_name())?;
        }
    }
    told.push_str(" ]")
}

fn say_data(told: &mut String, ports: &Ports<'_>, side: Side) -> Result<(), AllocError> {
    told.push_str(" [")?;
    for (name, variable) in ports.variables().iter() {
        if is_beside(side, variable.section()) {
            say_port(told, name, Some(&variable.type_use().name))?;
        }
    }
    told.push_str(" ]")
}

fn say_adapters(told: &mut String, ports: &Ports<'_>, role: Role) -> Result<(), AllocError> {
    told.push_str(" [")?;
    for (name, instance) in ports.instances().iter() {
        if is_same_role(instance.role(), role) {
            say_port(told, name, Some(instance.type_name()))?;
        }
    }
    told.push_str(" ]")
}

fn ports_told(alloc: Global, ports: &Ports<'_>) -> Result<String, AllocError> {
    let mut told = String::new(alloc);
    say_events(&mut told, ports, Side::Input)?;
    say_events(&mut told, ports, Side::Output)?;
    say_data(&mut told, ports, Side::Input)?;
    say_data(&mut told, ports, Side::Output)?;
    say_adapters(&mut told, ports, Role::Plug)?;
    say_adapters(&mut told, ports, Role::Socket)?;
    Ok(told)
}

pub fn interface_told(alloc: Global, source: &Source) -> Result<String, AllocError> {
    match interface(alloc, source)? {
        Some(ports) => ports_told(alloc, &ports),
        None => "none".to_string(alloc),
    }
}

fn interface_of(alloc: Global, text: &str) -> Result<String, Fail> {
    let source = Source::read(alloc, Name::read("U")?, text)?;
    Ok(interface_told(alloc, &source)?)
}

#[test]
fn ports_of_units(rt: HostRuntime) -> Result<(), Fail> {
    for line in lines_of(rt.alloc(), INTERFACES)?.as_str().split('\n') {
        if let Some((text, expected)) = row_in(line) {
            let told = interface_of(rt.alloc(), text)?;
            assert_eq!(rt; told.as_str().trim_start(), expected, "{text}");
        }
    }
    Ok(())
}
