//! Expressions and statements, in algorithms and guards.
use crate::plant::compare;
use std::alloc::Global;
use std::process::Abort;
use std::test::Fail;

// What is before and after the statements of a row: variables, and plugs, sockets and instances whose types are checked or not.
const HEAD: &str =
    "FUNCTION_BLOCK U VAR_INPUT XI:INT; END_VAR VAR_OUTPUT XO:INT; END_VAR VAR X:INT; B:BOOL; W:WORD; R:REAL; F:ANY; S:STRING[5]; A:ARRAY[0..9] OF INT; C:ARRAY[0..9] OF BOOL; B:INT; END_VAR PLUGS P:AD; N:NONE; K:BAD; M:TU; END_PLUGS SOCKETS Q:AD; Z:TU; END_SOCKETS FBS I:TU; Q:TU; J:TU; END_FBS PLUGS J:AD; END_PLUGS EVENT_INPUT EI; END_EVENT ALGORITHM G IN ST: ";

const FOOT: &str = " END_ALGORITHM END_FUNCTION_BLOCK";

// What is wrong with these declarations.
const KNOWN: &str =
    "DUPLICATE B #2; UNKNOWN_TYPE NONE; UNKNOWN_TYPE BAD; WRONG_KIND TU; WRONG_KIND TU #2; DUPLICATE Q #2; DUPLICATE J #2";

const EXPRESSIONS: &str = r#"
// VARIABLE_UNKNOWN, and CLASS of what a name means
X := XI; XO := X; XI := XO;
x := xo;
Y := 1; => VARIABLE_UNKNOWN Y
X := EI; => VARIABLE_UNKNOWN EI
X := P; => VARIABLE_UNKNOWN P
// the first declaration counts
B := TRUE;
B := 5; => CLASS :=
// data of plugs and sockets, both sides
X := P.V; P.V := Q.V; P.U := Q.U;
B := P.V; X := Q.U; => CLASS :=; CLASS := #2
X := P.Y; Q . E := 1; => VARIABLE_UNKNOWN P.Y; VARIABLE_UNKNOWN Q . E
// the type is absent, broken or no adapter
X := N.V; B := K.Y; Z.V := TRUE; M.Y := N.V OR 5 + N.V;
// an instance of a block, and a name that means none
X := I.V; Y.V := 1; J.V := 1; => VARIABLE_UNKNOWN I.V; VARIABLE_UNKNOWN Y.V; VARIABLE_UNKNOWN J.V
// a variable of an elementary type has no members
X := X.V; => MEMBER_UNKNOWN V
X := A[1]; A[X] := 2; B := C[0];
X := A; B := A[1]; X := C[1]; => CLASS := #2; CLASS := #3
A[B] := 1; => CLASS B
X := A[X, W, 1.5, B OR TRUE]; => CLASS W; CLASS 1.5; CLASS B OR TRUE
X := A[(W)] + A[-R]; => CLASS (W); CLASS -R
// no array: other values
F := TRUE; R := F[1]; B := F[1]; S[1] := R; => CLASS := #3
W := P.L[1]; X := P.L[2]; X := P.L[TRUE]; => CLASS := #2; CLASS := #3; CLASS TRUE
// what is unknown or not checked has subscripts all the same
X := Y[B]; X := N.V[TRUE, 1]; => VARIABLE_UNKNOWN Y; CLASS B; CLASS TRUE
X := P.Y[Y]; => VARIABLE_UNKNOWN P.Y; VARIABLE_UNKNOWN Y #2
X := A[A[A[B]]]; => CLASS B
X := A[A[TRUE] AND 2]; => CLASS TRUE; CLASS AND
// no elementary type has a field, a plug has no subscripts, and all subscripts are checked
X := A[0].V; B := Y[B].V[TRUE]; X.V.W := TRUE; B := P.V.W AND 1;
    => MEMBER_UNKNOWN V; VARIABLE_UNKNOWN Y; CLASS B #2; CLASS TRUE; MEMBER_UNKNOWN V #3; MEMBER_UNKNOWN W #2
P.L[0].V := TRUE; X := P[1].V; B := N.V.W[1.5].U[Y]; => MEMBER_UNKNOWN V; VARIABLE_UNKNOWN P #2; CLASS 1.5; VARIABLE_UNKNOWN Y
X := A[A[B].V].V + A[A[B]]; => CLASS B; MEMBER_UNKNOWN V; MEMBER_UNKNOWN V #2; CLASS B #2

// CLASS in expressions
X := 1 + 2 * X ** 2 - X MOD 3; R := X / 2 + 1.5;
X := X + TRUE; => CLASS +
B := X = 1 AND X < 2.5 OR NOT B XOR 1;
W := W AND 255 OR NOT W;
X := X AND 1; W := W + 1; => CLASS AND; CLASS +
// an operation that breaks its rule is not checked further
X := X + TRUE + B; B := -B OR X; => CLASS +; CLASS -
// a comparison is a truth value, even a wrong one
X := B = 5; => CLASS :=; CLASS = #2
B := B < 5; X := 1 + (W >= X); => CLASS <; CLASS +; CLASS >=
X := ((TRUE)); B := (X); => CLASS :=; CLASS := #2
X := F; B := F AND 1; W := F + TRUE;
X := 1 MOD 1.5; X := -X MOD 2; => CLASS MOD
X := - TRUE; B := NOT 1.5; => CLASS -; CLASS NOT
X := INT#5; B := BOOL#TRUE; W := WORD#16#FF; R := T#5s; R := 'A';
X := T#5s; B := INT#1; W := 'A'; X := ANY_NUM#5; => CLASS := #2; CLASS := #3
X := R; R := X; X := 1.5; R := W; => CLASS := #4
B := 0; B := 00; W := 1; R := 7; => CLASS := #2
"#;

// CLASS in statements of each form.
const STATEMENTS: &str = r#"
; EXIT; RETURN;
IF B THEN ELSIF 1 THEN ELSIF X > 1 THEN END_IF
IF X THEN Y := 1; ELSIF 5 THEN Y := 2; ELSE B := 5; END_IF => CLASS X; VARIABLE_UNKNOWN Y; CLASS 5; VARIABLE_UNKNOWN Y #2; CLASS := #3
IF B AND X THEN END_IF => CLASS AND
CASE X OF 1: ; 2, 3..5: END_CASE CASE R OF 1: END_CASE
CASE B OF 1: B := 7; 2: Y := 1; ELSE B := 8; END_CASE => CLASS B; CLASS :=; VARIABLE_UNKNOWN Y; CLASS := #3
CASE 1 OF 1: END_CASE CASE X = 1 OF 1: END_CASE => CLASS X = 1
FOR X := 1 TO XI BY -1 DO A[X] := X; END_FOR
FOR X := 1 TO 2 DO END_FOR
FOR X := B TO 1.5 BY W DO B := 5; END_FOR => CLASS B; CLASS 1.5; CLASS W; CLASS := #2
FOR W := 1 TO 2 DO END_FOR FOR A := 1 TO 2 DO END_FOR => CLASS W; CLASS A
FOR F := 1 TO 2 DO END_FOR FOR Y := 1 TO 2 DO END_FOR FOR P := 1 TO 2 DO END_FOR => VARIABLE_UNKNOWN Y; VARIABLE_UNKNOWN P
FOR R := Y TO Y + 1 BY X + TRUE DO END_FOR => CLASS R; VARIABLE_UNKNOWN Y; VARIABLE_UNKNOWN Y #2; CLASS + #2
WHILE B DO X := X + 1; END_WHILE
WHILE X DO B := X; END_WHILE => CLASS X; CLASS :=
REPEAT X := X + 1; UNTIL X > 5 END_REPEAT
REPEAT B := X; UNTIL X + 5 END_REPEAT => CLASS :=; CLASS X + 5
// one in another
IF B THEN CASE X OF 1: FOR X := 1 TO 5 DO WHILE B DO REPEAT B := 5; UNTIL Y END_REPEAT END_WHILE END_FOR END_CASE END_IF => CLASS := #2; VARIABLE_UNKNOWN Y
REPEAT WHILE X DO FOR B := 1 TO B DO CASE B OF 1: ELSE IF X THEN END_IF END_CASE END_FOR END_WHILE UNTIL X END_REPEAT
    => CLASS X; CLASS B; CLASS B #2; CLASS B #3; CLASS X #2; CLASS X #3
IF B THEN IF B THEN IF B THEN IF X THEN ELSE Y := (((W + 1))); END_IF END_IF END_IF END_IF => CLASS X; VARIABLE_UNKNOWN Y; CLASS +
"#;

#[test]
fn faults_of_algorithms(rt: HostRuntime) -> Result<(), Fail> {
    compare(&rt, rt.alloc(), (HEAD, FOOT), KNOWN, EXPRESSIONS)?;
    compare(&rt, rt.alloc(), (HEAD, FOOT), KNOWN, STATEMENTS)
}

/// Compares the faults of statements that are within others, which open and close so.
fn compare_within(
    rt: &impl Abort,
    alloc: Global,
    (open, close): (&str, &str),
    rows: &str,
) -> Result<(), Fail> {
    let head = format!(in alloc; "{HEAD}{open}")?;
    let foot = format!(in alloc; "{close}{FOOT}")?;
    compare(rt, alloc, (head.as_str(), foot.as_str()), KNOWN, rows)
}

// What a statement may be inside, without a fault of its own.
static AROUND: [(&str, &str); 8] = [
    ("IF B THEN ", " END_IF"),
    ("IF B THEN ELSIF 1 THEN ", " END_IF"),
    ("IF B THEN ELSE ", " END_IF"),
    ("CASE X OF 1: ; 2: ", " END_CASE"),
    ("CASE X OF 1: ELSE ", " END_CASE"),
    ("FOR X := 1 TO 2 DO ", " END_FOR"),
    ("WHILE B DO ", " END_WHILE"),
    ("REPEAT ", " UNTIL B END_REPEAT"),
];

#[test]
fn statements_in_each_other(rt: HostRuntime) -> Result<(), Fail> {
    for around in &AROUND {
        compare_within(&rt, rt.alloc(), *around, STATEMENTS)?;
    }
    Ok(())
}

#[test]
fn statements_at_the_last_level(rt: HostRuntime) -> Result<(), Fail> {
    let row = "Y := X + TRUE; => VARIABLE_UNKNOWN Y; CLASS +";
    let open = "IF B THEN ".repeat(rt.alloc(), 64)?;
    let close = " END_IF".repeat(rt.alloc(), 64)?;
    compare_within(&rt, rt.alloc(), (open.as_str(), close.as_str()), row)
}

// Units with guards, with algorithms, and with neither.
const UNITS: &str = r#"
// guards
FUNCTION_BLOCK U EVENT_INPUT E; END_EVENT VAR X:INT; B:BOOL; END_VAR EC_STATES S; END_STATES EC_TRANSITIONS S TO S := E [X]; S TO S := E & Y; S TO S := [B]; S TO S := [(X)]; S TO S := E; S TO S := 1; S TO S := E AND 1; S TO S := [2]; END_TRANSITIONS END_FUNCTION_BLOCK
    => CLASS X #2; VARIABLE_UNKNOWN Y; CLASS (X); CLASS 2
// all algorithms, but those in Structured Text alone
FUNCTION_BLOCK U ALGORITHM G IN ST: X := 1; END_ALGORITHM ALGORITHM G IN ST Y := 1; END_ALGORITHM ALGORITHM H IN C: Z := 1; END_ALGORITHM END_FUNCTION_BLOCK
    => VARIABLE_UNKNOWN X; DUPLICATE G #2; VARIABLE_UNKNOWN Y
ADAPTER U END_ADAPTER
SUBAPPLICATION U END_SUBAPPLICATION
SYSTEM U END_SYSTEM
TYPE U : STRUCT X:NO; END_STRUCT END_TYPE
"#;

#[test]
fn faults_of_guards(rt: HostRuntime) -> Result<(), Fail> {
    compare(&rt, rt.alloc(), ("", ""), "", UNITS)
}
