//! Tables of libraries. Under each heading, `== WHAT IT IS`, there are the units of a library with what is asked of them: in each line
//! `NAME: TEXT => ANSWER`. In the place of a text there may be `VARIABLES | STATEMENTS` of a block.
use crate::plant::put;
use fb_library::Library;
use refusing::{lines_of, row_in};
use std::alloc::{AllocError, Global};
use std::process::Abort;
use std::test::Fail;

/// What is asked of a unit.
pub trait Question {
    /// The answer, in words with a blank before each.
    fn answer(alloc: Global, library: &Library, unit: &str) -> Result<String, Fail>;
}

/// A text, or that of a block with these variables and statements.
fn whole(alloc: Global, text: &str) -> Result<String, AllocError> {
    match text.split_once(" | ") {
        Some((variables, statements)) => format!(in alloc;
            "FUNCTION_BLOCK V VAR {variables} END_VAR ALGORITHM P IN ST: {statements} END_ALGORITHM END_FUNCTION_BLOCK"
        ),
        None => text.to_string(alloc),
    }
}

/// A library of the units in these lines.
fn library(alloc: Global, lines: &str) -> Result<Library, Fail> {
    let mut changes = Vec::new(alloc);
    for line in lines.split('\n') {
        if let Some((unit, _)) = row_in(line) {
            let (name, text) = unit.split_once(": ").ok_or("no name")?;
            changes.push(put(alloc, name, 0, whole(alloc, text)?.as_str())?)?;
        }
    }
    Ok(Library::new(alloc).edited(1, changes.as_slice())?)
}

/// Asks of each unit in these lines.
fn compare_lines<Q: Question>(rt: &impl Abort, alloc: Global, lines: &str) -> Result<(), Fail> {
    let library = library(alloc, lines)?;
    for line in lines.split('\n') {
        if let Some((unit, expected)) = row_in(line) {
            let (name, _) = unit.split_once(": ").ok_or("no name")?;
            let answer = Q::answer(alloc, &library, name)?;
            assert_eq!(rt; answer.as_str().trim_start(), expected, "{unit}");
        }
    }
    Ok(())
}

/// Asks of each unit of each library of a table. The units in these lines are in each of them, too.
pub fn compare_units<Q: Question>(
    rt: &impl Abort,
    alloc: Global,
    others: &str,
    table: &str,
) -> Result<(), Fail> {
    let table = lines_of(alloc, table)?;
    let (before, libraries) = table.as_str().split_once("== ").ok_or("no heading")?;
    assert_eq!(rt; before, "\n");
    for library in libraries.split("\n== ") {
        let (heading, lines) = library.split_once('\n').ok_or("a heading alone")?;
        assert!(rt; lines.contains(": "), "no units: {heading}");
        let units = format!(in alloc; "{others}{lines}")?;
        compare_lines::<Q>(rt, alloc, units.as_str())?;
    }
    Ok(())
}
