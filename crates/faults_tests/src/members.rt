//! References with further names: the fields of structures, and what is not checked.
use crate::structures::Places;
use crate::units::compare_units;
use std::test::Fail;

// Two structures, one in the other.
const STRUCTURES: &str = r#"
S: TYPE S : STRUCT F:INT; A:ARRAY[0..3] OF INT; G:U; Q:ARRAY[0..1] OF U; END_STRUCT; END_TYPE
U: TYPE U : STRUCT H:BOOL; N:STRING[8]; END_STRUCT END_TYPE
"#;

// Blocks beside these structures.
const BESIDE: &str = r#"
== the last type gives the class, and behind a name that is no field none is judged
V: X:S; | X.F := 1; X.G.H := 2; X.K := 1; X.G.K.L := 1; => CLASS 69..71 MEMBER_UNKNOWN 77..78 MEMBER_UNKNOWN 89..90

== arrays of structures, nested; an array without a subscript has no fields
V: X:ARRAY[0..1] OF S; | X[0].A[1] := TRUE; X[0].Q[1].H := 2; X.F := 1; X[0].Q.H := 1; X[0].A[1].F := 1;
    => CLASS 78..80 CLASS 99..101 MEMBER_UNKNOWN 107..108 MEMBER_UNKNOWN 122..123 MEMBER_UNKNOWN 140..141

== with a subscript a structure has no fields, and what is no array has other values
V: X:S; | X[0].F := 1; X[0] := TRUE; X.F[0] := TRUE; X.G[0].H := 1; => MEMBER_UNKNOWN 58..59 CLASS 71..73 CLASS 87..89 MEMBER_UNKNOWN 103..104

== elementary types, lengths and arrays have no fields; ANY is not judged, but its subscripts are
V: I:INT; T:STRING[4]; Y:ANY; Z:ANY_INT[3]; M:ARRAY[0..1] OF ANY; | I[0].F := 1; T.F := 1; Y.F := TRUE; Y[0].F[TRUE] := 1; Z.F := 1; M.F := 1; M[0].F := 1;
    => MEMBER_UNKNOWN 116..117 MEMBER_UNKNOWN 126..127 CLASS 154..158 MEMBER_UNKNOWN 168..169 MEMBER_UNKNOWN 178..179

== no variable: the first name, with a second one that follows it directly, and no third
V:  | X := 1; X.F := 1; X.F.G := 1; X[0].F := 1; X[0] := 1;
    => VARIABLE_UNKNOWN 49..50 VARIABLE_UNKNOWN 57..60 VARIABLE_UNKNOWN 67..70 VARIABLE_UNKNOWN 79..80 VARIABLE_UNKNOWN 92..93

== a variable whose type has no fields
V: I:INT; | I.F := 1; I.F.G := TRUE; => MEMBER_UNKNOWN 57..58 MEMBER_UNKNOWN 67..68

== a whole structure has other values; a reference goes from its first name through its last name or bracket
V: X,Y:S; B:BOOL; | X := Y; X := TRUE; B := X = Y; IF X.G.H THEN END_IF; IF X.F THEN END_IF; B := NOT X.G; X.A[X.G.H] := 1; B := X.K AND 5;
    => CLASS 73..75 CLASS 119..122 CLASS 141..144 CLASS 154..159 MEMBER_UNKNOWN 174..175

== all subscripts are judged, behind a name that is no field too
V: X:S; | X.K[TRUE].L[Y] := 1; => MEMBER_UNKNOWN 55..56 CLASS 57..61 VARIABLE_UNKNOWN 65..66
"#;

#[test]
fn fields_of_structures(rt: HostRuntime) -> Result<(), Fail> {
    compare_units::<Places>(&rt, rt.alloc(), STRUCTURES, BESIDE)
}

// Blocks where S is no such structure.
const OTHERS: &str = r#"
== a broken type is as an absent one
S: TYPE S : STRUCT F:INT => SYNTAX 21..21
V: X:S; | X.F := TRUE; X.G.H := 1; X[0].F := 1;

== a unit that is there and is no structure has no fields
S: FUNCTION_BLOCK S VAR_INPUT F:INT; END_VAR END_FUNCTION_BLOCK
V: X:S; | X.F := 1; X[0].F := 1; => MEMBER_UNKNOWN 55..56 MEMBER_UNKNOWN 68..69

== a field of type ANY, and one of a generic type with a length
S: TYPE S : STRUCT A:ANY; B:ANY_NUM[2]; END_STRUCT END_TYPE
V: X:S; | X.A := TRUE; X.A.K.L := 1; X.A[1] := TRUE; X.A[1].K := TRUE; X.B.K := 1; X.B := TRUE; => CLASS 87..89 MEMBER_UNKNOWN 118..119 CLASS 130..132

== a structure that carries itself is judged as any other
S: TYPE S : STRUCT F:S; I:INT; END_STRUCT END_TYPE => STRUCT_RECURSIVE 5..6
V: X:S; | X.F.F.F.I := TRUE; => CLASS 63..65

== the first of two fields counts
S: TYPE S : STRUCT F:INT; F:BOOL; END_STRUCT END_TYPE => DUPLICATE 23..24
V: X:S; | X.F := TRUE; X.F := 1; => CLASS 57..59

== references within subscripts
S: TYPE S : STRUCT F:INT; A:ARRAY[0..3] OF INT; END_STRUCT END_TYPE
V: X:ARRAY[0..1] OF S; | X[X[0].F].A[X[1].A[0], 2] := X[0].F;

== places across blanks
S: TYPE S : STRUCT F:INT; END_STRUCT END_TYPE
V: X:S; | X . (* c *) K := 1; Y [ 0 ] . K := 1; Y . K . L := 1; => MEMBER_UNKNOWN 65..66 VARIABLE_UNKNOWN 73..74 VARIABLE_UNKNOWN 91..96

== S is absent: a plain S is not judged, with a subscript too; an array of S without a subscript and one with a length have no fields
V: X:S; Y:ARRAY[0..1] OF S; Z:S[3]; | X := TRUE; X.F := 1; X[0].F := 1; X[TRUE].F.G := 1; Y.F := 1; Y[0].F := 1; Z.F := 1; Z[0].F := 1;
    => CLASS 83..85 CLASS 117..121 MEMBER_UNKNOWN 135..136 MEMBER_UNKNOWN 158..159 MEMBER_UNKNOWN 171..172
"#;

#[test]
fn fields_of_other_types(rt: HostRuntime) -> Result<(), Fail> {
    compare_units::<Places>(&rt, rt.alloc(), "", OTHERS)
}

// Plugs, instances and guards beside the two structures.
const PORTS: &str = r#"
== P is a plug and a variable: the plug where a name directly follows it, else the variable; data of the plug may be a structure
AD: ADAPTER AD VAR_OUTPUT V:S; I:INT; END_VAR END_ADAPTER
W: FUNCTION_BLOCK W PLUGS P:AD; END_PLUGS VAR P:S; END_VAR ALGORITHM G IN ST: P.V.F := 1; P.I.F := 1; P.F := 1; P.A[0] := 1; P[0].F := 1; P.V.K := 1; P.V[0].F := 1; END_ALGORITHM END_FUNCTION_BLOCK
    => MEMBER_UNKNOWN 91..92 VARIABLE_UNKNOWN 99..102 VARIABLE_UNKNOWN 109..112 MEMBER_UNKNOWN 127..128 MEMBER_UNKNOWN 139..140 MEMBER_UNKNOWN 154..155

== the first declaration of P is that of an instance, so P is no plug and stands for the variable
AD: ADAPTER AD VAR_OUTPUT F:BOOL; END_VAR END_ADAPTER
W: FUNCTION_BLOCK W FBS P:S; END_FBS PLUGS P:AD; END_PLUGS VAR P:S; END_VAR ALGORITHM G IN ST: P.F := 1; P.F := TRUE; END_ALGORITHM END_FUNCTION_BLOCK
    => WRONG_KIND 23..24 DUPLICATE 40..41 CLASS 106..108

== guards; an event is no variable, whatever its type is called
V: FUNCTION_BLOCK V EVENT_INPUT E:S; END_EVENT VAR X:S; END_VAR EC_STATES A; END_STATES EC_TRANSITIONS A TO A := E[X.Q[0].N]; A TO A := [X.K]; A TO A := E[E.F]; END_TRANSITIONS END_FUNCTION_BLOCK
    => CLASS 112..120 MEMBER_UNKNOWN 136..137 VARIABLE_UNKNOWN 152..155
"#;

// The same without them.
const ALONE: &str = r#"
== data of a plug whose type is absent is not judged
W: FUNCTION_BLOCK W PLUGS P:AD; END_PLUGS ALGORITHM G IN ST: P.V.F := TRUE; P[0].V := 1; P := 1; END_ALGORITHM END_FUNCTION_BLOCK
    => UNKNOWN_TYPE 25..27 VARIABLE_UNKNOWN 73..74 VARIABLE_UNKNOWN 86..87

== a unit with the name of an elementary or a generic type is no type of values
INT: TYPE INT : STRUCT F:BOOL; END_STRUCT END_TYPE
ANY_S: TYPE ANY_S : STRUCT F:ANY_S; END_STRUCT END_TYPE
V: FUNCTION_BLOCK V VAR X:INT; Y:ANY_S; END_VAR ALGORITHM P IN ST: X.F := 1; Y.F := 1; END_ALGORITHM END_FUNCTION_BLOCK => MEMBER_UNKNOWN 66..67
"#;

#[test]
fn fields_of_ports(rt: HostRuntime) -> Result<(), Fail> {
    compare_units::<Places>(&rt, rt.alloc(), STRUCTURES, PORTS)?;
    compare_units::<Places>(&rt, rt.alloc(), "", ALONE)
}
