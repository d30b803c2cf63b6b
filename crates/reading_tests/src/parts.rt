//! The parts of declarations.
use crate::readers::read;
use crate::told::words;
use fb_grammar::Tokens;
use fb_structured_text::expression;
use fb_text::Span;
use fb_tree::{Expr, LiteralForm};
use refusing::{lines_of, row_in};
use std::alloc::{AllocError, Global};
use std::process::Abort;
use std::test::Fail;

// Under the name of a part, texts with what is read at their start, and how many tokens are after it, or from the one that does not
// continue.
const PARTS: &str = r#"
== names with commas
A, in ,B_1 ; C => A 0..1; IN 3..5; B_1 7..10 / 2
A, ,B => stops / 2
A, => stops / 0
1 A => stops / 2
WITH => stops / 1

== names with points
A.B.C,D => A 0..1; B 2..3; C 4..5 / 2

== names alone
A ON 1 B => A 0..1; ON 2..4 / 2

== events
EVENT_OUTPUT EO1; EO2:T WITH X,Y; END_EVENT VAR => Output EO1; Output EO2:T WITH X,Y / 1
EVENT_INPUT E F; END_EVENT => stops / 3
EVENT_INPUT E: END_EVENT => stops / 1
EVENT_INPUT E; => stops / 0
EVENT_INPUT 1; END_EVENT => stops / 3

== data
VAR_INPUT X,Y:STRING[80]:=-1; END_VAR => Input X,Y:Sized STRING 14..24 := Whole 26..28 / 0

== internal variables
VAR A: ARRAY[0..9,1..2] OF INT := [1, T#250ms, X]; END_VAR => Internal A:Array INT 7..30 := [Bit 35..36, Typed(Other) 38..45, X 47..48] 34..49 / 0

== fields
STRUCT IN,ON:INT := 1; N:STRING[8]; END_STRUCT; END_TYPE => Field IN,ON:Plain INT 13..16 := Bit 20..21; Field N:Sized STRING 25..34 / 2
STRUCT END_STRUCT => / 0
STRUCT VAR F:INT; END_VAR END_STRUCT => stops / 7

== blocks
FBS F:TN; G:TN(DT:=T#250ms); H:TN; END_FBS PLUGS P:AD; END_PLUGS => Block F:TN; Block G:TN(DT := Typed(Other) 19..26); Block H:TN / 6

== plugs
PLUGS P:AD; END_PLUGS SOCKETS Q:AD(); END_SOCKETS => Plug P:AD / 8

== sockets
SOCKETS Q:AD(); END_SOCKETS SUBAPPS K:INNER; END_SUBAPPS => Socket Q:AD / 6

== subapplications
SUBAPPS K:INNER; END_SUBAPPS => Subapplication K:INNER / 0

== connections
EVENT_CONNECTIONS G.O TO N.E; END_CONNECTIONS => Event G.O TO N.E / 0
DATA_CONNECTIONS A TO F; END_CONNECTIONS => Data A TO F / 0
ADAPTER_CONNECTIONS K TO R.Q; END_CONNECTIONS => Adapter K TO R.Q / 0

== states
EC_STATES S0; S1: G, ->CNF, H->P.E; END_STATES => S0; S1: G, ->CNF, H->P.E / 0

== device
DEVICE D:DT RESOURCE R1:RT END_RESOURCE RESOURCE R2:RT(N:=1); END_RESOURCE END_DEVICE MAPPINGS => DEVICE D:DT R1:RT R2:RT(N := Bit 58..59) / 1

== mappings
MAPPINGS APP.SUB.F ON D.R1; END_MAPPINGS SERVICE => APP.SUB.F ON D.R1 / 1

== service
SERVICE a ; -> END_SERVICE => / 0

== expression
A => A / 0
// names of 22, 23 and 64 bytes
abcdefghijklmnopqrst_v => ABCDEFGHIJKLMNOPQRST_V / 0
abcdefghijklmnopqrst_vw[1] + abcdefghijklmnopqrst_v => {ABCDEFGHIJKLMNOPQRST_VW[Bit] Add 27..28 ABCDEFGHIJKLMNOPQRST_V} / 0
abcdefgh1abcdefgh2abcdefgh3abcdefgh4abcdefgh5abcdefgh6abcdefgh7_.Pabcdefghijklmnopqrstuv
    => ABCDEFGH1ABCDEFGH2ABCDEFGH3ABCDEFGH4ABCDEFGH5ABCDEFGH6ABCDEFGH7_.PABCDEFGHIJKLMNOPQRSTUV / 0
P.X[1, I + 1] = T#5s; => {P.X[Bit][{I Add 9..10 Bit}] Equal 14..15 Typed(Other)} / 1
// several names, each with subscripts or none
A.B.in.On.st; => A.B.IN.ON.ST / 1
A[1].B.C[2, I[3].J] . D => A[Bit].B.C[Whole][I[Whole].J].D / 0
A.1 => stops / 1
A[1].END_IF => stops / 1
A.B[1][2].C => A.B[Bit] / 5
-1 ** 2 => {Minus 0..1 Bit Power 3..5 Whole} / 0
- - 1 => stops / 2
NOT (A OR B) => Not 0..3 ({A Or 7..9 B}) / 0
A AND => stops / 0
A[1][2] => A[Bit] / 3
(A => stops / 0
IF => stops / 1
// stronger operators bind first
A OR B & -C OR D <> 1.5 => {A Or 2..4 {B And 7..8 Minus 9..10 C} Or 12..14 {D NotEqual 17..19 Real}} / 0

== statements
 => / 0
; A := 1; EXIT; RETURN; END_ALGORITHM => EMPTY; A := Bit; EXIT; RETURN / 1
A := 1 => stops / 0
A[1].X := 2; => A[Bit].X := Whole / 0
IF A THEN ; ELSIF B THEN ; ELSE ; END_IF; => IF A (EMPTY) IF B (EMPTY) ELSE (EMPTY); EMPTY / 0
IF A THEN ELSE ; ELSIF B THEN END_IF => stops / 4
CASE A OF -1, 2..INT#3: ; 4: END_CASE => CASE A (EMPTY) ELSE () / 0
CASE A OF ELSE ; END_CASE => stops / 3
FOR I := 1 TO 10 DO END_FOR => FOR I := Bit TO Whole () / 0
FOR I := 1 BY 2 TO 10 DO END_FOR => stops / 6
FOR A[1] := 1 TO 10 DO END_FOR => stops / 9
WHILE A DO ; END_WHILE REPEAT ; UNTIL B END_REPEAT => WHILE A (EMPTY); REPEAT (EMPTY) UNTIL B / 0
REPEAT ; UNTIL B; END_REPEAT => stops / 2
CASE A OF 1: ; ; 2, 3: EXIT; ELSE RETURN; END_CASE IF A THEN ; ELSIF B THEN END_IF FOR I := 1 TO 9 BY 2 DO ; END_FOR
    => CASE A (EMPTY; EMPTY; EXIT) ELSE (RETURN); IF A (EMPTY) IF B () ELSE (); FOR I := Bit TO Whole BY Whole (EMPTY) / 0
"#;

/// Reads a part at the front of the text of each row.
fn compare(rt: &impl Abort, alloc: Global, part: &str, rows: &str) -> Result<(), Fail> {
    assert!(rt; rows.contains(" => "), "{part}");
    for line in rows.split('\n') {
        if let Some((text, expected)) = row_in(line) {
            let (words, left) = read(alloc, part, text)?;
            let told = format!(in alloc; "{words} / {left}")?;
            assert_eq!(rt; told.as_str().trim_start(), expected, "{text}");
        }
    }
    Ok(())
}

#[test]
fn parts_of_texts(rt: HostRuntime) -> Result<(), Fail> {
    let lines = lines_of(rt.alloc(), PARTS)?;
    let (before, parts) = lines.as_str().split_once("== ").ok_or("no part")?;
    assert_eq!(rt; before, "\n");
    for part in parts.split("\n== ") {
        let (name, rows) = part.split_once('\n').ok_or("a part alone")?;
        compare(&rt, rt.alloc(), name, rows)?;
    }
    Ok(())
}

// A part that is repeated before a middle, the middle, and a part that is repeated as often after it; whether it is read, and what is left.
static NESTED: [(&str, &str, &str, &str, usize, bool, usize); 11] = [
    // the last level is 64
    ("expression", "(", "1", ")", 64, true, 0),
    ("expression", "(", "1", ")", 65, false, 67),
    ("expression", "A[", "1", "]", 64, true, 0),
    ("expression", "A[", "1", "]", 65, false, 67),
    ("expression", "A.B[", "A.B", "].C", 64, true, 0),
    ("expression", "A.B[", "1", "].C", 65, false, 197),
    ("statements", "IF A THEN ", ";", " END_IF", 64, true, 0),
    ("statements", "IF A THEN ", ";", " END_IF", 65, false, 69),
    // long rows and bodies
    ("expression", "1+", "1", "*1", 15_000, true, 0),
    ("expression", "A[1].", "A", ".A", 10_000, true, 0),
    ("statements", ";", "A:=1;", ";", 30_000, true, 0),
];

fn around(
    alloc: Global,
    before: &str,
    middle: &str,
    behind: &str,
    count: usize,
) -> Result<String, AllocError> {
    let mut text = before.repeat(alloc, count)?;
    text.push_str(middle)?;
    text.push_str(behind.repeat(alloc, count)?.as_str())?;
    Ok(text)
}

#[test]
fn nested_parts(rt: HostRuntime) -> Result<(), Fail> {
    for (part, before, middle, behind, count, is_read, left) in &NESTED {
        let text = around(rt.alloc(), before, middle, behind, *count)?;
        let (words, rest) = read(rt.alloc(), *part, text.as_str())?;
        assert_eq!(rt; words.as_str() != "stops", *is_read, "{before}");
        assert_eq!(rt; rest, *left, "{before}");
    }
    Ok(())
}

static LITERALS: [(&str, LiteralForm); 5] = [
    ("0", LiteralForm::Bit),
    ("16#FF", LiteralForm::Whole),
    ("1.5", LiteralForm::Real),
    ("'A'", LiteralForm::Text),
    ("false", LiteralForm::Truth),
];

/// The expression at the front of a text.
fn expression_of(alloc: Global, text: &str) -> Result<Expr, Fail> {
    if text.len() >= 4_294_967_296 {
        return Err(Fail::from("a text of 4 GiB"));
    }
    Ok(expression(alloc, &mut Tokens::of(text))?)
}

/// The form of the literal that a text is.
fn form_of(alloc: Global, text: &str) -> Result<LiteralForm, Fail> {
    match &expression_of(alloc, text)? {
        Expr::Literal(literal) => Ok(literal.form),
        _ => Err(Fail::from("no literal")),
    }
}

/// The variable that a text is, in words: its first name with its place and how many subscripts it has, where the variable is, and the
/// further names in the same way.
fn variable_told(alloc: Global, text: &str) -> Result<String, Fail> {
    match &expression_of(alloc, text)? {
        Expr::Name(used) => {
            let Span { start, end } = used.span.span();
            let mut told = format!(in alloc; "{} ", used.name.name())?;
            write!(told, "{start}..{end} (0) in {start}..{end}")?;
            Ok(told)
        }
        Expr::Reference(variable, _) => {
            let Span { start, end } = variable.span.span();
            let first = variable.name_span().span();
            let mut told = format!(in alloc; "{} ", variable.name())?;
            write!(told, "{}..{}", first.start, first.end)?;
            write!(told, " ({}) in {start}..{end}", variable.subscripts)?;
            for member in variable.members() {
                let name = words(alloc, &member.name)?;
                write!(told, " with {name} ({})", member.subscripts)?;
            }
            Ok(told)
        }
        _ => Err(Fail::from("no variable")),
    }
}

// Variables, with their names and their places.
const VARIABLES: &str = r#"
 ab [1] => AB 1..3 (1) in 1..7
 p . x => P 1..2 (0) in 1..6 with X 5..6 (0)
abcdefghijklmnopqrst_vw => ABCDEFGHIJKLMNOPQRST_VW 0..23 (0) in 0..23
// through the last name, or through the last bracket
x[1, 2].f ; => X 0..1 (2) in 0..9 with F 8..9 (0)
x.f[0] . g[1,2,3] ; => X 0..1 (0) in 0..17 with F 2..3 (1) with G 9..10 (3)
"#;

#[test]
fn variables(rt: HostRuntime) -> Result<(), Fail> {
    for line in lines_of(rt.alloc(), VARIABLES)?.as_str().split('\n') {
        if let Some((text, expected)) = row_in(line) {
            let told = variable_told(rt.alloc(), text)?;
            assert_eq!(rt; told.as_str(), expected, "{text}");
        }
    }
    Ok(())
}

#[test]
fn literals(rt: HostRuntime) -> Result<(), Fail> {
    for (text, form) in &LITERALS {
        assert_eq!(rt; form_of(rt.alloc(), text)?, *form, "{text}");
    }
    Ok(())
}
