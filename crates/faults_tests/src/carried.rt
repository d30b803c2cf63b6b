//! What is near units whose values have structures as types.
use crate::plant::say_names;
use crate::units::{Question, compare_units};
use fb_library::{Library, near};
use fb_tree::text::Name;
use std::alloc::Global;
use std::test::Fail;

/// The names near a unit.
struct Near;

impl Question for Near {
    fn answer(alloc: Global, library: &Library, unit: &str) -> Result<String, Fail> {
        let mut told = String::new(alloc);
        say_names(&mut told, &near(alloc, library, Name::read(unit)?)?)?;
        Ok(told)
    }
}

const STRUCTURES: &str = r#"
== a structure in a structure, a block and what holds it
S: TYPE S : STRUCT G:U; END_STRUCT END_TYPE => S U
SW: SUBAPPLICATION SW FBS F:V; END_FBS END_SUBAPPLICATION => S SW U V
U: TYPE U : STRUCT H:BOOL; END_STRUCT END_TYPE => U
V: FUNCTION_BLOCK V VAR X:S; END_VAR END_FUNCTION_BLOCK => S U V

== the same with a block in the structure's place, which carries nothing on
S: FUNCTION_BLOCK S VAR G:U; END_VAR END_FUNCTION_BLOCK => S U
U: TYPE U : STRUCT H:INT; END_STRUCT END_TYPE => U
V: FUNCTION_BLOCK V VAR X:S; END_VAR END_FUNCTION_BLOCK => S V

== the type of an event is no mention, and a part of the wrong kind carries too; U is absent
E: FUNCTION_BLOCK E EVENT_INPUT I:S; END_EVENT END_FUNCTION_BLOCK => E
S: TYPE S : STRUCT G:U; END_STRUCT END_TYPE => S U
W: FUNCTION_BLOCK W FBS I:S; END_FBS END_FUNCTION_BLOCK => S U W
"#;

#[test]
fn structures_are_near_what_carries_them(rt: HostRuntime) -> Result<(), Fail> {
    compare_units::<Near>(&rt, rt.alloc(), "", STRUCTURES)
}

const OTHERS: &str = r#"
== a block is carried and carries nothing on, also where a part carries it
B: FUNCTION_BLOCK B VAR X:U; END_VAR END_FUNCTION_BLOCK => B U
W: FUNCTION_BLOCK W VAR Y:B; END_VAR END_FUNCTION_BLOCK => B W
Z: FUNCTION_BLOCK Z FBS I:W; END_FBS END_FUNCTION_BLOCK => B W Z

== the values of an adapter type are near a block with a plug of it, and not near what holds the block
AD: ADAPTER AD VAR_OUTPUT O:S; END_VAR END_ADAPTER => AD S
P: FUNCTION_BLOCK P PLUGS A:AD; END_PLUGS END_FUNCTION_BLOCK => AD P S
Q: SUBAPPLICATION Q FBS I:P; END_FBS END_SUBAPPLICATION => P Q

== structures that carry each other, elementary types, lengths and arrays
S: TYPE S : STRUCT F:ARRAY[0..1] OF T; L:ARRAY[0..1] OF INT; END_STRUCT END_TYPE => S T
T: TYPE T : STRUCT G:S[3]; END_STRUCT END_TYPE => S T
R: TYPE R : STRUCT G:S; END_STRUCT END_TYPE => R S T
V: FUNCTION_BLOCK V VAR_INPUT A:any_num; B:Time; END_VAR VAR_OUTPUT C:STRING[3]; END_VAR VAR D:REALS; END_VAR FBS I:INT; END_FBS END_FUNCTION_BLOCK
    => INT REALS V
"#;

#[test]
fn other_units_carry_nothing_on(rt: HostRuntime) -> Result<(), Fail> {
    compare_units::<Near>(&rt, rt.alloc(), "", OTHERS)
}
