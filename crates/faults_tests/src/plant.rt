//! The units that the texts of the tables name, and the notation of faults.
//!
//! A table has a row `TEXT => FAULTS` in each line, or in two where they are long. A text alone has no faults, and what begins with `// ` is
//! a remark. Faults are written as `CODE words; CODE words`, the words being those at the place of the fault. If they occur for the second
//! time in the text, `#2` follows, and so on. The faults of each text are compared with those that the checkers find together, too.
use crate::checkers::are_found_together;
use fb_faults::faults;
use fb_iface::Fault;
use fb_library::parse::Source;
use fb_library::{Change, Library};
use fb_tree::text::{Name, Span};
use refusing::{lines_of, row_in};
use std::alloc::{AllocError, Global};
use std::process::Abort;
use std::test::Fail;

const UNITS: &str = r#"
ADAPTER A EVENT_INPUT E; END_EVENT VAR_INPUT V:INT; END_VAR END_ADAPTER
ADAPTER AA EVENT_INPUT X; END_EVENT EVENT_OUTPUT X; END_EVENT VAR_INPUT Y:INT; END_VAR END_ADAPTER
ADAPTER AD EVENT_INPUT CF; E; END_EVENT EVENT_OUTPUT RQ; END_EVENT VAR_INPUT U:BOOL; W:INT; END_VAR VAR_OUTPUT V:INT; L:ARRAY[0..3] OF WORD; END_VAR END_ADAPTER
FUNCTION_BLOCK B EVENT_INPUT I; END_EVENT EVENT_OUTPUT O; END_EVENT VAR_INPUT X:INT; X1:DINT; END_VAR VAR_OUTPUT Y:INT; END_VAR VAR L:INT; END_VAR PLUGS P:AD; END_PLUGS SOCKETS Q:AD; END_SOCKETS END_FUNCTION_BLOCK
ADAPTER BAD
SUBAPPLICATION C EVENT_INPUT I; END_EVENT EVENT_OUTPUT O; END_EVENT VAR_INPUT X:INT; END_VAR VAR_OUTPUT Y:INT; END_VAR PLUGS P:AD; END_PLUGS SOCKETS Q:AD; END_SOCKETS END_SUBAPPLICATION
FUNCTION_BLOCK LENGTHS VAR_INPUT A:ARRAY[0..9]OF INT; B:STRING[10]; B1:STRING[1_0]; D:ARRAY[0..8] OF INT; E:string; F:ANY[3]; O:ANY; END_VAR END_FUNCTION_BLOCK
FUNCTION_BLOCK M VAR_INPUT X:BOOL; END_VAR END_FUNCTION_BLOCK
FUNCTION_BLOCK PP PLUGS P:AD; END_PLUGS END_FUNCTION_BLOCK
FUNCTION_BLOCK QQ SOCKETS Q:AD; END_SOCKETS END_FUNCTION_BLOCK
TYPE REC : STRUCT X:INT; Y:INT; END_STRUCT END_TYPE
SUBAPPLICATION S END_SUBAPPLICATION
FUNCTION_BLOCK T EVENT_INPUT I; END_EVENT EVENT_OUTPUT O; END_EVENT END_FUNCTION_BLOCK
FUNCTION_BLOCK TU VAR_INPUT V:INT; END_VAR END_FUNCTION_BLOCK
SYSTEM Y END_SYSTEM
"#;

/// The change that puts a text under a name.
pub fn put(alloc: Global, unit: &str, base: u64, text: &str) -> Result<Change, Fail> {
    let source = Source::read(alloc, Name::read(unit)?, text)?;
    Ok(Change::Put { base, source })
}

/// A library of the units whose texts are these lines. The second word of each is its name.
pub fn library(alloc: Global, texts: &str) -> Result<Library, Fail> {
    let mut changes = Vec::new(alloc);
    for text in texts.split('\n') {
        if !text.is_empty() {
            let unit = text.split_whitespace().nth(1).ok_or("no name")?;
            changes.push(put(alloc, unit, 0, text)?)?;
        }
    }
    Ok(Library::new(alloc).edited(1, changes.as_slice())?)
}

/// Names, each with a blank before it.
pub fn say_names(told: &mut String, names: &[Name]) -> Result<(), AllocError> {
    for name in names {
        write!(told, " {name}")?;
    }
    Ok(())
}

/// A library with this text as the unit `U` beside its units.
fn with_text(alloc: Global, library: &Library, text: &str) -> Result<Library, Fail> {
    Ok(library.edited(2, [put(alloc, "U", 0, text)?].as_slice())?)
}

/// The units of the tables, with this text as the unit `U` beside them.
pub fn plant_with(alloc: Global, text: &str) -> Result<Library, Fail> {
    let plant = library(alloc, UNITS)?;
    with_text(alloc, &plant, text)
}

/// The faults of this text as the unit `U`, beside the units of a library.
pub fn faults_of(alloc: Global, library: &Library, text: &str) -> Result<Vec<Fault>, Fail> {
    let changed = with_text(alloc, library, text)?;
    Ok(faults(alloc, &changed, &Name::read("U")?)?)
}

/// Whether the faults of this text as the unit `U` are those that the checkers find together.
fn are_found_in(alloc: Global, library: &Library, text: &str) -> Result<bool, Fail> {
    let changed = with_text(alloc, library, text)?;
    Ok(are_found_together(alloc, &changed, &Name::read("U")?)?)
}

/// Whether both are bytes of one word.
fn are_joined(left: Option<&u8>, right: Option<&u8>) -> bool {
    match (left, right) {
        (Some(left), Some(right)) => is_in_word(*left) && is_in_word(*right),
        _ => false,
    }
}

fn is_in_word(b: u8) -> bool {
    b.is_ascii_alphanumeric() || b == b'_'
}

/// Whether these words are at a place of the text, and are no part of longer ones.
fn stands_at(text: &[u8], at: usize, words: &[u8]) -> bool {
    let (Some(before), Some(rest)) = (text.get(..at), text.get(at..)) else {
        return false;
    };
    match rest.strip_prefix(words) {
        Some(behind) => {
            !are_joined(before.last(), words.first()) && !are_joined(words.last(), behind.first())
        }
        None => false,
    }
}

/// How often these words are between two places of the text.
fn count(text: &str, words: &str, from: usize, to: usize) -> usize {
    (from..to)
        .filter(|at| stands_at(text.as_bytes(), *at, words.as_bytes()))
        .count()
}

/// Adds a fault to what was written. Its words are counted from a place of the text.
fn tell(text: &str, from: usize, fault: &Fault, told: &mut String) -> Result<(), AllocError> {
    let Span { start, end } = fault.span;
    let between = if told.is_empty() { "" } else { "; " };
    let words = text.get(start..end).unwrap_or("?");
    if words.is_empty() {
        return write!(told, "{between}{} the end", fault.code);
    }
    write!(told, "{between}{} {words}", fault.code)?;
    match count(text, words, from, start) {
        0 => Ok(()),
        earlier => write!(told, " #{}", earlier.saturating_add(1)),
    }
}

/// These faults of a text.
pub fn all_told(alloc: Global, text: &str, faults: &[Fault]) -> Result<String, AllocError> {
    let mut told = String::new(alloc);
    for fault in faults {
        tell(text, 0, fault, &mut told)?;
    }
    Ok(told)
}

/// The faults of a text: those at its head, which ends at this place, and those after.
fn parted(
    alloc: Global,
    library: &Library,
    text: &str,
    end: usize,
) -> Result<(String, String), Fail> {
    let mut in_head = String::new(alloc);
    let mut behind = String::new(alloc);
    for fault in &faults_of(alloc, library, text)? {
        if fault.span.start < end {
            tell(text, 0, fault, &mut in_head)?;
        } else {
            tell(text, end, fault, &mut behind)?;
        }
    }
    Ok((in_head, behind))
}

/// Compares the faults of a text with those that are known of its head, those that are expected after, and those of the checkers.
fn compare_text(
    rt: &impl Abort,
    alloc: Global,
    plant: &Library,
    (text, end): (&str, usize),
    (known, expected): (&str, &str),
) -> Result<(), Fail> {
    let (in_head, behind) = parted(alloc, plant, text, end)?;
    assert_eq!(rt; in_head.as_str(), known, "{text}");
    assert_eq!(rt; behind.as_str(), expected, "{text}");
    assert!(rt; are_found_in(alloc, plant, text)?, "{text}");
    Ok(())
}

/// Compares the faults of each row of a table, with what is before and after it, with those that it names. What is before it has
/// the faults that are known.
pub fn compare(
    rt: &impl Abort,
    alloc: Global,
    (head, foot): (&str, &str),
    known: &str,
    table: &str,
) -> Result<(), Fail> {
    let plant = library(alloc, UNITS)?;
    let lines = lines_of(alloc, table)?;
    for line in lines.as_str().split('\n') {
        if let Some((row, expected)) = row_in(line) {
            let text = format!(in alloc; "{head}{row}{foot}")?;
            let at = (text.as_str(), head.len());
            compare_text(rt, alloc, &plant, at, (known, expected))?;
        }
    }
    Ok(())
}
