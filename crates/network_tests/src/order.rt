//! An order with inner types first, and types that reach themselves.
use crate::told::{names_in, names_told, order_told, put};
use crate::units::{Question, compare, library_of};
use fb_library::{Change, Library, far};
use fb_tree::text::Name;
use fb_types::{inner_first, recursive};
use std::alloc::Global;
use std::process::Abort;
use std::test::Fail;

fn recursive_told(alloc: Global, library: &Library, names: &[Name]) -> Result<String, Fail> {
    let found = recursive(alloc, library, names)?;
    names_told(alloc, found.as_slice())
}

/// Those that reach themselves of all that the unit rests on.
fn loops_told(alloc: Global, library: &Library, unit: &str) -> Result<String, Fail> {
    let names = far(alloc, library, Name::read(unit)?)?;
    recursive_told(alloc, library, names.as_slice())
}

/// The order of all that a unit rests on, and what reaches itself of that.
struct Order;

impl Question for Order {
    fn answer(alloc: Global, library: &Library, asked: &str) -> Result<String, Fail> {
        let order = order_told(alloc, library, asked)?;
        let loops = loops_told(alloc, library, asked)?;
        Ok(format!(in alloc; "{order} | {loops}")?)
    }
}

const DIAMOND: &str = r#"
== D is absent
FUNCTION_BLOCK A FBS X:B; Y:C; END_FBS END_FUNCTION_BLOCK
FUNCTION_BLOCK B FBS X:D; END_FBS END_FUNCTION_BLOCK
FUNCTION_BLOCK C FBS X:D; END_FBS END_FUNCTION_BLOCK
A => D C B A |
B => D B |
D => D |
"#;

const CYCLES: &str = r#"
== A and B reach themselves, and neither S above them nor C below them does; T is in itself
FUNCTION_BLOCK A FBS X:B; END_FBS END_FUNCTION_BLOCK
FUNCTION_BLOCK B FBS X:A; Y:C; END_FBS END_FUNCTION_BLOCK
SUBAPPLICATION S FBS Z:A; END_FBS END_SUBAPPLICATION
FUNCTION_BLOCK T FBS X:T; END_FBS END_FUNCTION_BLOCK
S => recursive | A B
T => recursive | T
"#;

#[test]
fn inner_types_come_first(rt: HostRuntime) -> Result<(), Fail> {
    compare::<Order>(&rt, rt.alloc(), DIAMOND)?;
    compare::<Order>(&rt, rt.alloc(), CYCLES)
}

#[test]
fn those_that_reach_themselves_stand_as_given(rt: HostRuntime) -> Result<(), Fail> {
    let library = library_of(rt.alloc(), CYCLES)?;
    let names = names_in(rt.alloc(), "T S B")?;
    let found = recursive_told(rt.alloc(), &library, names.as_slice())?;
    assert_eq!(rt; found.as_str(), "T B");
    Ok(())
}

/// Adds the change that puts U0 or one of those after it, each of which holds the next.
fn put_link(alloc: Global, changes: &mut Vec<Change>, number: u32) -> Result<(), Fail> {
    let inner = number.saturating_add(1);
    let text = format!(in alloc;
        "FUNCTION_BLOCK U{number} FBS X:U{inner}; END_FBS END_FUNCTION_BLOCK"
    )?;
    put(alloc, changes, text.as_str())
}

/// A chain from U0, of which the last one, U4095, is absent.
fn chain(alloc: Global) -> Result<Library, Fail> {
    let mut changes = Vec::new(alloc);
    for number in 0..4095u32 {
        put_link(alloc, &mut changes, number)?;
    }
    Ok(Library::new(alloc).edited(1, changes.as_slice())?)
}

/// How many names there are, the first one and the last one.
fn ends_told(alloc: Global, names: &[Name]) -> Result<String, Fail> {
    match (names.first(), names.last()) {
        (Some(first), Some(last)) => Ok(format!(in alloc; "{} {first} {last}", names.len())?),
        _ => Ok(String::new(alloc)),
    }
}

/// Compares the order of all that U0 rests on, which has no cycle.
fn compare_chain(rt: &impl Abort, alloc: Global, library: &Library) -> Result<(), Fail> {
    let order = inner_first(alloc, library, Name::read("U0")?)?.ok_or("no cycle")?;
    let ends = ends_told(alloc, order.as_slice())?;
    assert_eq!(rt; ends.as_str(), "4096 U4095 U0");
    assert_eq!(rt; loops_told(alloc, library, "U0")?.as_str(), "");
    Ok(())
}

#[test]
fn a_chain_of_4096_units(rt: HostRuntime) -> Result<(), Fail> {
    compare_chain(&rt, rt.alloc(), &chain(rt.alloc())?)
}
