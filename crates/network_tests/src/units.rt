//! Tables of libraries. Under each heading, `== WHAT IT IS`, there are the texts of the units of a library, each in a line with `\n` for a
//! line break, and rows `QUESTION => ANSWER` on the library, in one line or two. What begins with `// ` is a remark.
use crate::told::put;
use fb_library::Library;
use std::alloc::{AllocError, Global};
use std::process::Abort;
use std::test::Fail;

/// What rows of a table ask.
pub trait Question {
    /// Whether it is this that a row asks.
    fn asks(_asked: &str) -> bool {
        true
    }

    /// The answer, in words.
    fn answer(alloc: Global, library: &Library, asked: &str) -> Result<String, Fail>;
}

/// The lines of a table, with each row in one.
pub fn lines_of(alloc: Global, table: &str) -> Result<String, AllocError> {
    table.replace(alloc, "\n    => ", " => ")
}

/// Whether a line has the text of a unit.
fn is_unit(line: &str) -> bool {
    let is_other = line.is_empty() || line.starts_with("// ") || line.starts_with("== ");
    !is_other && !line.contains(" =>")
}

/// A library of the units in these lines.
pub fn library_of(alloc: Global, table: &str) -> Result<Library, Fail> {
    let mut changes = Vec::new(alloc);
    let lines = lines_of(alloc, table)?;
    for line in lines.as_str().split('\n') {
        if is_unit(line) {
            let text = line.replace(alloc, "\\n", "\n")?;
            put(alloc, &mut changes, text.as_str())?;
        }
    }
    Ok(Library::new(alloc).edited(1, changes.as_slice())?)
}

/// Compares the answers to the rows in these lines on the library of the units in them.
fn compare_lines<Q: Question>(rt: &impl Abort, alloc: Global, lines: &str) -> Result<(), Fail> {
    let library = library_of(alloc, lines)?;
    for line in lines.split('\n') {
        if let Some((asked, expected)) = line.split_once(" =>") {
            if Q::asks(asked) {
                let answer = Q::answer(alloc, &library, asked)?;
                let told = answer.as_str().trim_end();
                assert_eq!(rt; told, expected.trim_start(), "{asked}");
            }
        }
    }
    Ok(())
}

/// Compares the answers to the rows of each library of a table.
pub fn compare<Q: Question>(rt: &impl Abort, alloc: Global, table: &str) -> Result<(), Fail> {
    let table = lines_of(alloc, table)?;
    let (before, libraries) = table.as_str().split_once("== ").ok_or("no heading")?;
    assert_eq!(rt; before, "\n");
    for library in libraries.split("\n== ") {
        let (heading, lines) = library.split_once('\n').ok_or("a heading alone")?;
        assert!(rt; lines.contains(" =>"), "no rows: {heading}");
        compare_lines::<Q>(rt, alloc, lines)?;
    }
    Ok(())
}
