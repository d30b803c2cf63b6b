//! A block and the type of its instance: what the block rests on, and a copy of their library.
use crate::told::{names_told, say_names};
use fb_library::parse::Source;
use fb_library::{Change, Library, View, far, near};
use fb_text::Name;
use std::alloc::Global;
use std::process::Abort;
use std::test::Fail;

const BLOCK: &str = "FUNCTION_BLOCK C FBS S:E_SPLIT; END_FBS END_FUNCTION_BLOCK";

const TYPE: &str =
    "FUNCTION_BLOCK E_SPLIT EVENT_INPUT EI; END_EVENT EVENT_OUTPUT EO1; EO2; END_EVENT END_FUNCTION_BLOCK";

const OTHER: &str = "FUNCTION_BLOCK E_SPLIT END_FUNCTION_BLOCK";

/// Puts a unit by the commit of this number.
pub fn put(
    library: &mut Library,
    alloc: Global,
    commit: u64,
    unit: &str,
    text: &str,
) -> Result<(), Fail> {
    let unit = Name::read(unit)?;
    let source = Source::read(alloc, unit, text)?;
    let base = library.revision(&unit);
    Ok(library.apply(commit, &[Change::Put { base, source }])?)
}

/// Puts the block by the first commit, and the type by the second.
fn fill(library: &mut Library, alloc: Global) -> Result<(), Fail> {
    put(library, alloc, 1, "C", BLOCK)?;
    put(library, alloc, 2, "E_SPLIT", TYPE)
}

/// The text of a unit, empty if it is absent.
fn text_of<'a>(library: &'a Library, unit: &Name) -> &'a str {
    match View::get(library, unit) {
        Some(source) => source.text(),
        None => "",
    }
}

/// Whether this unit is at the place, with this revision and this text.
fn stands_at(library: &Library, place: usize, unit: &str, revision: u64, text: &str) -> bool {
    match library.name_at(place) {
        Some(name) => {
            name.as_str() == unit
                && library.revision(&name) == revision
                && text_of(library, &name) == text
        }
        None => false,
    }
}

/// Whether a library holds the block, and the type with this revision and this text.
fn holds(library: &Library, revision: u64, text: &str) -> bool {
    stands_at(library, 0, "C", 1, BLOCK)
        && stands_at(library, 1, "E_SPLIT", revision, text)
        && library.name_at(2).is_none()
}

/// Changes the type in a copy and then in the library. Whether both hold what they should each time.
fn are_apart(alloc: Global, library: &mut Library, copy: &mut Library) -> Result<bool, Fail> {
    let were_alike = holds(library, 2, TYPE) && holds(copy, 2, TYPE);
    put(copy, alloc, 3, "E_SPLIT", OTHER)?;
    let is_left = holds(library, 2, TYPE) && holds(copy, 3, OTHER);
    put(library, alloc, 4, "E_SPLIT", "")?;
    Ok(were_alike && is_left && holds(library, 4, "") && holds(copy, 3, OTHER))
}

/// The names near the block, and those far of it.
fn near_and_far(alloc: Global, library: &Library) -> Result<String, Fail> {
    let block = Name::read("C")?;
    let mut told = names_told(alloc, &near(alloc, library, block)?)?;
    told.push_str("| ")?;
    say_names(&mut told, &far(alloc, library, block)?)?;
    Ok(told)
}

fn compare(rt: &impl Abort, alloc: Global, library: &mut Library) -> Result<(), Fail> {
    fill(library, alloc)?;
    let told = near_and_far(alloc, library)?;
    assert_eq!(rt; told.as_str(), "C E_SPLIT | C E_SPLIT ", "near and far");
    let mut copy = library.copy()?;
    assert!(rt; are_apart(alloc, library, &mut copy)?);
    Ok(())
}

#[test]
fn a_copy_and_its_library_are_apart(rt: HostRuntime) -> Result<(), Fail> {
    let mut library = Library::new(rt.alloc());
    compare(&rt, rt.alloc(), &mut library)
}
