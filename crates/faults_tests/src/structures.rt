//! Structures: their faults, and those of what has them as types.
use crate::plant::compare;
use crate::units::{Question, compare_units};
use fb_faults::faults;
use fb_library::Library;
use fb_tree::text::Name;
use std::alloc::Global;
use std::test::Fail;

// What a structure declares: its name, its fields, which are one name space, and their initial values.
const STRUCTURES: &str = r#"
TYPE U : STRUCT END_STRUCT END_TYPE
TYPE B : STRUCT END_STRUCT; END_TYPE => NAME_DIFFERS B
TYPE U : STRUCT X:INT; END_STRUCT END_VAR => SYNTAX END_VAR
TYPE U : STRUCT X, Y:INT; Z, x:BOOL; Y:ABSENT; V:INT; END_STRUCT END_TYPE => DUPLICATE x; DUPLICATE Y #2
TYPE U : STRUCT A, B:BOOL:=7; C:INT:=TRUE; C:BOOL:=7; END_STRUCT END_TYPE => LITERAL 7; LITERAL TRUE; DUPLICATE C #2; LITERAL 7 #2
TYPE U : STRUCT L:ARRAY [0..2] OF INT:=[1, N, 'x']; M:INT:=[1]; N:ANY:=[1, TRUE]; O:ARRAY [0..1] OF INT:=1; END_STRUCT END_TYPE
    => LITERAL 'x'; LITERAL [1]; LITERAL 1 #5
// types of fields may be absent, broken and of any kind
TYPE U : STRUCT V:ABSENT; W:BAD; X:A; Y:S; Z:REC; END_STRUCT END_TYPE
// but none is the structure itself
TYPE U : STRUCT X:INT; B:u; C:ARRAY[0..1] OF U; END_STRUCT END_TYPE => STRUCT_RECURSIVE U
// no adapter, no block and no subapplication
FUNCTION_BLOCK U PLUGS P:REC; END_PLUGS SOCKETS Q:REC; END_SOCKETS FBS F:REC; END_FBS END_FUNCTION_BLOCK => WRONG_KIND REC; WRONG_KIND REC #2; WRONG_KIND REC #3
SYSTEM U APPLICATION P FBS F:REC(X:=TRUE); END_FBS SUBAPPS G:REC; END_SUBAPPS EVENT_CONNECTIONS F.X TO G.Y; END_CONNECTIONS END_APPLICATION END_SYSTEM
    => WRONG_KIND REC; WRONG_KIND REC #2
"#;

#[test]
fn faults_of_structures(rt: HostRuntime) -> Result<(), Fail> {
    compare(&rt, rt.alloc(), ("", ""), "", STRUCTURES)
}

/// The places of the faults of a unit.
pub struct Places;

impl Question for Places {
    fn answer(alloc: Global, library: &Library, unit: &str) -> Result<String, Fail> {
        let mut told = String::new(alloc);
        for fault in &faults(alloc, library, &Name::read(unit)?)? {
            let (start, end) = (fault.span.start, fault.span.end);
            write!(told, " {} {start}..{end}", fault.code)?;
        }
        Ok(told)
    }
}

const IN_STRUCTURES: &str = r#"
== a structure with other fields of one name
S: TYPE S : STRUCT F,G:INT:=TRUE; F:BOOL; END_STRUCT END_TYPE => LITERAL 25..29 DUPLICATE 31..32

== a structure that is called otherwise, with a field of its declared name
S: TYPE Q : STRUCT F:Q; END_STRUCT END_TYPE => NAME_DIFFERS 5..6

== a structure that is called otherwise, with a field of its own type, which goes by the unit's name
S: TYPE Q : STRUCT F:S; END_STRUCT END_TYPE => NAME_DIFFERS 5..6 STRUCT_RECURSIVE 5..6

== structures that carry each other, through arrays and lengths, and one that leads to them
S: TYPE S : STRUCT F:ARRAY[0..1] OF T; END_STRUCT END_TYPE => STRUCT_RECURSIVE 5..6
T: TYPE T : STRUCT G:S[3]; END_STRUCT END_TYPE => STRUCT_RECURSIVE 5..6
R: TYPE R : STRUCT G:S; END_STRUCT END_TYPE

== the same where one of them is broken
S: TYPE S : STRUCT F:ARRAY[0..1] OF T; END_STRUCT END_TYPE
T: TYPE T : STRUCT G:S[3]; END_STRUCT => SYNTAX 34..34
R: TYPE R : STRUCT G:S; END_STRUCT END_TYPE
"#;

#[test]
fn places_of_faults_in_structures(rt: HostRuntime) -> Result<(), Fail> {
    compare_units::<Places>(&rt, rt.alloc(), "", IN_STRUCTURES)
}

const BESIDE_STRUCTURES: &str = r#"
== a structure and a block, each the type of values in the other, and a block that has itself as such a type
S: TYPE S : STRUCT F:B; END_STRUCT END_TYPE
B: FUNCTION_BLOCK B VAR X:S; END_VAR END_FUNCTION_BLOCK
C: FUNCTION_BLOCK C VAR X:C; END_VAR END_FUNCTION_BLOCK

== a structure as the type of a plug and of an instance
S: TYPE S : STRUCT END_STRUCT END_TYPE
W: FUNCTION_BLOCK W PLUGS P:S; END_PLUGS FBS I:S; END_FBS END_FUNCTION_BLOCK => WRONG_KIND 25..26 WRONG_KIND 44..45

== values of structures, and of types that are absent, which have the class of all other values
S: TYPE S : STRUCT F:INT; A:ARRAY[0..3] OF INT; G:U; Q:ARRAY[0..1] OF U; END_STRUCT; END_TYPE
U: TYPE U : STRUCT H:BOOL; N:STRING[8]; END_STRUCT END_TYPE
V: FUNCTION_BLOCK V VAR X:S:=1; Y:S:=TRUE; Z:S:=[1]; A:ARRAY[0..1] OF S:=[1,TRUE]; END_VAR END_FUNCTION_BLOCK => LITERAL 34..38 LITERAL 45..48 LITERAL 73..77
W: FUNCTION_BLOCK W VAR X:T:=1; Y:T:=TRUE; Z:T:=[1]; A:ARRAY[0..1] OF T:=[1,TRUE]; END_VAR END_FUNCTION_BLOCK => LITERAL 34..38 LITERAL 45..48 LITERAL 73..77

== connections of values of types that are absent, which are the same where they are spelled alike
V: SUBAPPLICATION V FBS A:M; B:N; END_FBS DATA_CONNECTIONS A.O TO B.I; A.O TO B.K; END_CONNECTIONS END_SUBAPPLICATION => DATA_TYPE 75..78
M: FUNCTION_BLOCK M VAR_OUTPUT O:S; END_VAR END_FUNCTION_BLOCK
N: FUNCTION_BLOCK N VAR_INPUT I:S; K:T; END_VAR END_FUNCTION_BLOCK
"#;

#[test]
fn places_of_faults_beside_structures(rt: HostRuntime) -> Result<(), Fail> {
    compare_units::<Places>(&rt, rt.alloc(), "", BESIDE_STRUCTURES)
}
