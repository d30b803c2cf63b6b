//! What names mean among the ports of types that declare few names and of those that declare many: the same.
use crate::plant::library;
use fb_iface::{PortsByName, Scope};
use fb_library::tree_by_name;
use fb_tree::Decl;
use fb_tree::text::Name;
use std::alloc::{AllocError, Global};
use std::test::Fail;

// A type that declares ten names and these further ones, and a unit that has it.
fn units_with(alloc: Global, further: usize) -> Result<String, AllocError> {
    let mut texts = String::new(alloc);
    texts.push_str(
        "FUNCTION_BLOCK B EVENT_INPUT E; END_EVENT EVENT_OUTPUT E; F:KIND; END_EVENT VAR_INPUT A, R:INT; END_VAR VAR_OUTPUT R:BOOL;",
    )?;
    for i in 0..further {
        write!(texts, " N{i}:BOOL;")?;
    }
    texts.push_str(
        " LAST:DINT; END_VAR PLUGS P:AD; END_PLUGS SOCKETS P:BD; Q:CD; END_SOCKETS END_FUNCTION_BLOCK\n",
    )?;
    texts.push_str("SUBAPPLICATION S FBS I:B; END_FBS END_SUBAPPLICATION")?;
    Ok(texts)
}

// What a name means in each name space.
fn say_meanings(told: &mut String, ports: &PortsByName<'_>, name: &Name) -> Result<(), AllocError> {
    write!(told, "{name}:")?;
    if let Some(event) = ports.event(name) {
        let is_typed = event.type_name().is_some();
        write!(told, " {:?} event, typed {is_typed}", event.side())?;
    }
    if let Some(variable) = ports.variable(name) {
        let used = &variable.type_use().name.name;
        write!(told, " {:?} of {}", variable.section(), used.as_str())?;
    }
    if let Some(instance) = ports.instance(name) {
        let used = &instance.type_name().name;
        write!(told, " {:?} of {}", instance.role(), used.as_str())?;
    }
    told.push_str("; ")
}

// What names mean in a type that declares ten names and these further ones.
fn meanings_told(alloc: Global, further: usize) -> Result<String, Fail> {
    let library = library(alloc, &units_with(alloc, further)?)?;
    let declared = match tree_by_name(&library, &Name::read("S")?) {
        Some(Decl::Subapplication(declared)) => declared,
        _ => return Err(Fail::from("no subapplication")),
    };
    let scope = Scope::of_type(alloc, &library, declared)?;
    let ports = scope.ports_of(&Name::read("I")?).ok_or("no ports")?;
    let mut told = String::new(alloc);
    for name in ["E", "F", "A", "R", "LAST", "P", "Q", "X"] {
        say_meanings(&mut told, ports, &Name::read(name)?)?;
    }
    Ok(told)
}

const MEANINGS: &str =
    "E: Input event, typed false; F: Output event, typed true; A: Input of INT; R: Input of INT; LAST: Output of DINT; P: Plug of AD; Q: Socket of CD; X:; ";

// Up to 40 names are searched in the tree.
#[test]
fn names_mean_their_first_declarations(rt: HostRuntime) -> Result<(), Fail> {
    for further in [0, 29, 30, 31, 200] {
        let told = meanings_told(rt.alloc(), further)?;
        assert_eq!(rt; told.as_str(), MEANINGS, "{further} further names");
    }
    Ok(())
}
