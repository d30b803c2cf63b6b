//! CLASS at operators: what each makes of all pairs of classes.
//!
//! The class of an expression shows in the statements that may contain it: B and Any as a truth value, I, Num and Any as a subscript, W, Num
//! and Any as a string of bits, and what is not checked before `MOD TRUE` too.
use crate::plant::{faults_of, library};
use fb_iface::Code;
use fb_library::Library;
use refusing::{lines_of, row_in};
use std::alloc::Global;
use std::process::Abort;
use std::test::Fail;

const HEAD: &str =
    "FUNCTION_BLOCK U VAR B:BOOL; X:INT; W:WORD; R:REAL; F:ANY; A:ARRAY[0..9] OF INT; END_VAR ALGORITHM G IN ST: ";

// Operands of the classes B, I, W, O, Free, Num and Any.
static OPERANDS: [&str; 7] = ["B", "X", "W", "R", "F", "2", "1"];

// What operators make of the pairs of classes, by the left one. `-` means that their rule is broken.
const PAIRS: &str = r#"
OR XOR AND => B---F-B ----F-- --W-FWW ----F-- FFFFFFF --W-FNN B-W-FNA
= <> < > <= >= => B---B-B -B-BBBB --B-BBB -B-BBBB BBBBBBB -BBBBBB BBBBBBB
+ - * / ** => ----F-- -I-OFII ----F-- -O-OFOO FFFFFFF -I-OFNN -I-OFNN
MOD => ----F-- -I--FII ----F-- ----F-- FFFFFFF -I--FNN -I--FNN
"#;

// What they make of each class.
const SINGLES: &str = r#"
NOT => B-W-FNA
+ - => -I-OFNN
"#;

/// Whether an expression may be in a statement. If it may not, a rule of classes is the one fault.
fn may_stand(
    alloc: Global,
    none: &Library,
    (open, expression, close): (&str, &str, &str),
) -> Result<bool, Fail> {
    let text = format!(in alloc;
        "{HEAD}{open}{expression}{close} END_ALGORITHM END_FUNCTION_BLOCK"
    )?;
    match faults_of(alloc, none, text.as_str())?.as_slice() {
        [] => Ok(true),
        [fault] if fault.code == Code::Class => Ok(false),
        _ => Err(Fail::from("one fault of classes at most")),
    }
}

// The statements that show the class of an expression: as a truth value, a subscript, a string of bits, and before `MOD TRUE`.
static STATEMENTS: [(&str, &str); 4] = [
    ("B := (", ");"),
    ("F := A[(", ")];"),
    ("W := (", ");"),
    ("F := (", ") MOD TRUE;"),
];

// In which of these an expression of each class may be.
static LETTERS: [(&str, &str); 7] = [
    ("+---", "B"),
    ("-+--", "I"),
    ("--+-", "W"),
    ("----", "O"),
    ("++++", "F"),
    ("-++-", "N"),
    ("+++-", "A"),
];

/// In which of the statements an expression may be.
fn stands(alloc: Global, none: &Library, expression: &str) -> Result<String, Fail> {
    let mut found = String::new(alloc);
    for (open, close) in &STATEMENTS {
        let may_stand = may_stand(alloc, none, (open, expression, close))?;
        found.push_str(if may_stand { "+" } else { "-" })?;
    }
    Ok(found)
}

/// The letter of the class of an expression.
fn letter(alloc: Global, none: &Library, expression: &str) -> Result<&'static str, Fail> {
    if !may_stand(alloc, none, ("F := (", expression, ");"))? {
        return Ok("-");
    }
    let stands = stands(alloc, none, expression)?;
    let known = LETTERS
        .iter()
        .find(|(places, _)| *places == stands.as_str());
    Ok(known.map_or("?", |(_, letter)| *letter))
}

/// What an operator makes of each of these left operands, of which one may be absent, with each operand.
fn table(alloc: Global, none: &Library, lefts: &[&str], operator: &str) -> Result<String, Fail> {
    let mut table = String::new(alloc);
    for left in lefts {
        table.push_str(" ")?;
        for right in &OPERANDS {
            let expression = format!(in alloc; "{left} {operator} {right}")?;
            table.push_str(letter(alloc, none, expression.as_str())?)?;
        }
    }
    Ok(table)
}

/// Compares what each operator of each row makes of these left operands.
fn compare(rt: &impl Abort, alloc: Global, lefts: &[&str], rows: &str) -> Result<(), Fail> {
    let none = library(alloc, "")?;
    for line in lines_of(alloc, rows)?.as_str().split('\n') {
        if let Some((operators, expected)) = row_in(line) {
            for operator in operators.split_whitespace() {
                let found = table(alloc, &none, lefts, operator)?;
                assert_eq!(rt; found.as_str().trim_start(), expected, "{operator}");
            }
        }
    }
    Ok(())
}

#[test]
fn operators_on_all_classes(rt: HostRuntime) -> Result<(), Fail> {
    compare(&rt, rt.alloc(), &OPERANDS, PAIRS)?;
    compare(&rt, rt.alloc(), &[""], SINGLES)
}
