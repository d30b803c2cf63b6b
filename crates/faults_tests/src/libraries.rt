//! Libraries of units, and the parts of faults and interfaces.
use crate::plant::{library, put, say_names};
use fb_faults::faults;
use fb_iface::{Code, Fault, interface, sorted_faults};
use fb_library::parse::{Body, Source};
use fb_library::{Change, Library, View, declaration_by_name, far, near, tree_by_name};
use fb_tree::text::{Name, Span};
use std::alloc::{AllocError, Global};
use std::process::Abort;
use std::test::Fail;

// S rests on A, and A and B on each other.
pub const RECURSIVE: &str = r#"
SUBAPPLICATION S FBS Z:A; END_FBS END_SUBAPPLICATION
FUNCTION_BLOCK A FBS X:B; END_FBS END_FUNCTION_BLOCK
FUNCTION_BLOCK B FBS Y:A; END_FBS END_FUNCTION_BLOCK
"#;

fn is_declared(library: &Library, name: &Name) -> bool {
    let is_whole = match View::get(library, name) {
        Some(source) => matches!(source.body(), Body::Tree(_)),
        None => false,
    };
    let has_tree = tree_by_name(library, name).is_some();
    is_whole && has_tree && declaration_by_name(library, name).is_some()
}

/// The names near a unit, and those far of it.
fn near_and_far(alloc: Global, library: &Library, name: Name) -> Result<String, AllocError> {
    let mut told = String::new(alloc);
    say_names(&mut told, &near(alloc, library, name)?)?;
    told.push_str(" |")?;
    say_names(&mut told, &far(alloc, library, name)?)?;
    Ok(told)
}

#[test]
fn near_is_mentioned_and_far_is_reached(rt: HostRuntime) -> Result<(), Fail> {
    let library = library(rt.alloc(), RECURSIVE)?;
    let s = Name::read("s")?;
    let told = near_and_far(rt.alloc(), &library, s)?;
    assert_eq!(rt; told.as_str(), " A S | A B S", "near and far");
    assert!(rt; is_declared(&library, &s));
    Ok(())
}

/// How many units there are, and their names with their revisions.
fn units(alloc: Global, library: &Library) -> Result<String, AllocError> {
    let mut told = format!(in alloc; "{}:", library.len())?;
    for name in &library.names(alloc)? {
        write!(told, " {name} {}", library.revision(name))?;
    }
    Ok(told)
}

/// The text of a unit, or nothing.
fn text_of<'a>(library: &'a Library, name: &Name) -> &'a str {
    match library.source(name) {
        Some(source) => source.text(),
        None => "",
    }
}

const SHORT: &str = "FUNCTION_BLOCK B END_FUNCTION_BLOCK";

/// The changes that put a text for B and remove S.
fn changes(alloc: Global) -> Result<[Change; 2], Fail> {
    let unit = Name::read("S")?;
    Ok([put(alloc, "B", 1, SHORT)?, Change::Remove { unit, base: 1 }])
}

/// Makes copies of the changes, of which the first is for B.
fn change_by_copies(rt: &impl Abort, alloc: Global, library: &mut Library) -> Result<(), Fail> {
    let changes = changes(alloc)?;
    let copies = Change::copies(alloc, changes.as_slice())?;
    let first = copies.as_slice().first().map(Change::unit);
    assert_eq!(rt; first, Some(Name::read("B")?), "B");
    Ok(library.apply(2, copies.as_slice())?)
}

fn compare_units(
    rt: &impl Abort,
    alloc: Global,
    library: &Library,
    expected: &str,
) -> Result<(), Fail> {
    assert_eq!(rt; units(alloc, library)?.as_str(), expected, "units");
    Ok(())
}

/// Changes a copy of these units, and compares both then.
fn compare_copy(rt: &impl Abort, alloc: Global, library: &Library) -> Result<(), Fail> {
    let mut copy = library.copy()?;
    let [b, s] = [Name::read("B")?, Name::read("S")?];
    compare_units(rt, alloc, &copy, "3: A 1 B 1 S 1")?;
    let found = [copy.name_at(1), copy.name_at(3)];
    assert_eq!(rt; found, [Some(b), None], "names");
    change_by_copies(rt, alloc, &mut copy)?;
    compare_units(rt, alloc, &copy, "2: A 1 B 2")?;
    compare_units(rt, alloc, library, "3: A 1 B 1 S 1")?;
    assert_eq!(rt; copy.revision(&s), 0, "S");
    assert_eq!(rt; text_of(&copy, &b), SHORT, "B");
    assert_eq!(rt; text_of(&copy, &s), "", "S");
    Ok(())
}

#[test]
fn a_copy_is_changed_alone(rt: HostRuntime) -> Result<(), Fail> {
    compare_copy(&rt, rt.alloc(), &library(rt.alloc(), RECURSIVE)?)
}

/// How many faults a unit has.
fn count(alloc: Global, library: &Library, name: &str) -> Result<usize, Fail> {
    Ok(faults(alloc, library, &Name::read(name)?)?.len())
}

/// Whether the text of a unit has no interface.
fn is_without_interface(alloc: Global, text: &str) -> Result<bool, Fail> {
    let source = Source::read(alloc, Name::read("A")?, text)?;
    Ok(interface(alloc, &source)?.is_none())
}

#[test]
fn what_is_absent_or_broken(rt: HostRuntime) -> Result<(), Fail> {
    let none = Library::new(rt.alloc());
    let some = library(rt.alloc(), RECURSIVE)?;
    assert_eq!(rt; count(rt.alloc(), &none, "A")?, 0, "in no library");
    assert_eq!(rt; count(rt.alloc(), &some, "C")?, 0, "not in the library");
    assert!(rt; is_without_interface(rt.alloc(), "X")?);
    Ok(())
}

fn fault(code: Code, start: usize, end: usize) -> Fault {
    Fault {
        code,
        span: Span { start, end },
    }
}

#[test]
fn faults_go_by_place_and_then_by_number(rt: HostRuntime) -> Result<(), Fail> {
    let with = fault(Code::WithUnknown, 36, 37);
    let name = fault(Code::NameDiffers, 15, 16);
    let twice = fault(Code::Duplicate, 36, 37);
    let longer = fault(Code::NameDiffers, 36, 40);
    let sorted = sorted_faults(rt.alloc(), [with, longer, twice, name, with].as_slice())?;
    assert!(rt; sorted.as_slice() == [name, twice, with, longer].as_slice());
    Ok(())
}

#[test]
fn codes_have_words_and_numbers(rt: HostRuntime) -> Result<(), Fail> {
    let [first, last] = [Code::NoSuchResource, Code::StructRecursive];
    let words = format!(in rt.alloc(); "{first} {} {last} {}", first.number(), last.number())?;
    assert_eq!(rt;
        words.as_str(),
        "NO_SUCH_RESOURCE 22 STRUCT_RECURSIVE 24",
        "codes"
    );
    Ok(())
}
