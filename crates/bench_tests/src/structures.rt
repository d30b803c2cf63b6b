//! Structures in conversations: what is checked again when one changes, and what blocks a net.
use crate::conversation::compare;
use std::test::Fail;

const CONVERSATIONS: &str = r#"
== A fault that is judged by a structure two structures deep
{"op":"commit","changes":[{"put":"S","base":0,"text":"TYPE S : STRUCT G:U; END_STRUCT END_TYPE"},{"put":"SW","base":0,"text":"SUBAPPLICATION SW FBS F:V; END_FBS END_SUBAPPLICATION"},{"put":"U","base":0,"text":"TYPE U : STRUCT H:BOOL; END_STRUCT END_TYPE"},{"put":"V","base":0,"text":"FUNCTION_BLOCK V VAR X:S; END_VAR ALGORITHM P IN ST: X.G.H := 2; END_ALGORITHM END_FUNCTION_BLOCK"}]} => {"commit":1}
{"op":"work","turns":9} => {"accepted":5}
{"op":"ask","kind":"faults","unit":"V"} => {"faults":[["CLASS",59,61]]}
{"op":"ask","kind":"net","unit":"SW"} => {"net":{"blocked":["V"]}}
{"op":"commit","changes":[{"put":"U","base":1,"text":"TYPE U : STRUCT H:INT; END_STRUCT END_TYPE"}]} => {"commit":2}
each faults S SW U V => {"answer":"pending"}
{"op":"ask","kind":"net","unit":"SW"} => {"answer":"pending"}
{"op":"work","turns":9} => {"accepted":5}
{"op":"ask","kind":"faults","unit":"V"} => {"faults":[]}
{"op":"ask","kind":"net","unit":"SW"} => {"net":{"blocks":[["F","V"]],"borders":[],"links":[]}}

== A structure becomes a block, which carries nothing on, and a structure again
{"op":"commit","changes":[{"put":"S","base":0,"text":"TYPE S : STRUCT G:U; END_STRUCT END_TYPE"},{"put":"U","base":0,"text":"TYPE U : STRUCT H:BOOL; END_STRUCT END_TYPE"},{"put":"V","base":0,"text":"FUNCTION_BLOCK V VAR X:S; END_VAR ALGORITHM P IN ST: X.G.H := 2; END_ALGORITHM END_FUNCTION_BLOCK"}]} => {"commit":1}
{"op":"work","turns":9} => {"accepted":3}
{"op":"commit","changes":[{"put":"S","base":1,"text":"FUNCTION_BLOCK S VAR G:U; END_VAR END_FUNCTION_BLOCK"}]} => {"commit":2}
each faults S V => {"answer":"pending"}
{"op":"ask","kind":"faults","unit":"U"} => {"faults":[]}
{"op":"work","turns":9} => {"accepted":2}
{"op":"ask","kind":"faults","unit":"V"} => {"faults":[["MEMBER_UNKNOWN",55,56]]}
{"op":"commit","changes":[{"put":"U","base":1,"text":"TYPE U : STRUCT H:INT; END_STRUCT END_TYPE"}]} => {"commit":3}
each faults S U => {"answer":"pending"}
{"op":"ask","kind":"faults","unit":"V"} => {"faults":[["MEMBER_UNKNOWN",55,56]]}
{"op":"work","turns":9} => {"accepted":2}
{"op":"commit","changes":[{"put":"S","base":2,"text":"TYPE S : STRUCT G:U; END_STRUCT END_TYPE"}]} => {"commit":4}
each faults S V => {"answer":"pending"}
{"op":"ask","kind":"faults","unit":"U"} => {"faults":[]}
{"op":"work","turns":9} => {"accepted":2}
{"op":"commit","changes":[{"put":"U","base":3,"text":"TYPE U : STRUCT H:BOOL; END_STRUCT END_TYPE"}]} => {"commit":5}
each faults S U V => {"answer":"pending"}
{"op":"work","turns":9} => {"accepted":3}
{"op":"ask","kind":"faults","unit":"V"} => {"faults":[["CLASS",59,61]]}

== The type of an event is no mention
{"op":"commit","changes":[{"put":"E","base":0,"text":"FUNCTION_BLOCK E EVENT_INPUT I:S; END_EVENT END_FUNCTION_BLOCK"}]} => {"commit":1}
{"op":"work","turns":9} => {"accepted":1}
{"op":"commit","changes":[{"put":"S","base":0,"text":"TYPE S : STRUCT G:U; END_STRUCT END_TYPE"}]} => {"commit":2}
{"op":"ask","kind":"faults","unit":"E"} => {"faults":[]}
{"op":"ask","kind":"faults","unit":"S"} => {"answer":"pending"}

== A part of the wrong kind carries too
{"op":"commit","changes":[{"put":"S","base":0,"text":"TYPE S : STRUCT G:U; END_STRUCT END_TYPE"},{"put":"W","base":0,"text":"FUNCTION_BLOCK W FBS I:S; END_FBS END_FUNCTION_BLOCK"}]} => {"commit":1}
{"op":"work","turns":9} => {"accepted":2}
{"op":"ask","kind":"faults","unit":"W"} => {"faults":[["WRONG_KIND",23,24]]}
{"op":"commit","changes":[{"put":"U","base":0,"text":"TYPE U : STRUCT H:BOOL; END_STRUCT END_TYPE"}]} => {"commit":2}
each faults S W => {"answer":"pending"}
{"op":"work","turns":9} => {"accepted":3}
{"op":"ask","kind":"faults","unit":"W"} => {"faults":[["WRONG_KIND",23,24]]}

== A block that is the type of a value carries nothing on, and is near those that have it there
{"op":"commit","changes":[{"put":"B","base":0,"text":"FUNCTION_BLOCK B VAR X:U; END_VAR END_FUNCTION_BLOCK"},{"put":"W","base":0,"text":"FUNCTION_BLOCK W VAR Y:B; END_VAR END_FUNCTION_BLOCK"},{"put":"Z","base":0,"text":"FUNCTION_BLOCK Z FBS I:W; END_FBS END_FUNCTION_BLOCK"}]} => {"commit":1}
{"op":"work","turns":9} => {"accepted":3}
{"op":"commit","changes":[{"put":"U","base":0,"text":"TYPE U : STRUCT H:BOOL; END_STRUCT END_TYPE"}]} => {"commit":2}
{"op":"ask","kind":"faults","unit":"B"} => {"answer":"pending"}
each faults W Z => {"faults":[]}
{"op":"work","turns":9} => {"accepted":2}
{"op":"commit","changes":[{"put":"B","base":1,"text":"FUNCTION_BLOCK B VAR X:U; END_VAR END_FUNCTION_BLOCK "}]} => {"commit":3}
each faults B W Z => {"answer":"pending"}

== What a plug's type carries is near the block, and not near what holds the block
{"op":"commit","changes":[{"put":"AD","base":0,"text":"ADAPTER AD VAR_OUTPUT O:S; END_VAR END_ADAPTER"},{"put":"P","base":0,"text":"FUNCTION_BLOCK P PLUGS A:AD; END_PLUGS ALGORITHM G IN ST: A.O.F := TRUE; END_ALGORITHM END_FUNCTION_BLOCK"},{"put":"Q","base":0,"text":"SUBAPPLICATION Q FBS I:P; END_FBS END_SUBAPPLICATION"}]} => {"commit":1}
{"op":"work","turns":9} => {"accepted":4}
{"op":"ask","kind":"faults","unit":"P"} => {"faults":[]}
{"op":"commit","changes":[{"put":"S","base":0,"text":"TYPE S : STRUCT F:INT; END_STRUCT END_TYPE"}]} => {"commit":2}
each faults AD P => {"answer":"pending"}
{"op":"ask","kind":"net","unit":"Q"} => {"answer":"pending"}
{"op":"ask","kind":"faults","unit":"Q"} => {"faults":[]}
{"op":"work","turns":9} => {"accepted":4}
{"op":"ask","kind":"faults","unit":"P"} => {"faults":[["CLASS",64,66]]}

== A result comes late, by a name two structures deep
{"op":"commit","changes":[{"put":"S","base":0,"text":"TYPE S : STRUCT G:U; END_STRUCT END_TYPE"},{"put":"V","base":0,"text":"FUNCTION_BLOCK V VAR X:S; END_VAR ALGORITHM P IN ST: X.G.H := 2; END_ALGORITHM END_FUNCTION_BLOCK"}]} => {"commit":1}
{"op":"take"} => {"job":1,"kind":"faults","unit":"S"}
{"op":"take"} => {"job":2,"kind":"faults","unit":"V"}
{"op":"commit","changes":[{"put":"U","base":0,"text":"TYPE U : STRUCT H:BOOL; END_STRUCT END_TYPE"}]} => {"commit":2}
{"op":"deliver","job":1} => {"refused":"Stale","unit":"U"}
{"op":"deliver","job":2} => {"refused":"Stale","unit":"U"}

== A structure is removed
{"op":"commit","changes":[{"put":"S","base":0,"text":"TYPE S : STRUCT G:U; END_STRUCT END_TYPE"},{"put":"V","base":0,"text":"FUNCTION_BLOCK V VAR X:S; END_VAR ALGORITHM P IN ST: X.K := 1; END_ALGORITHM END_FUNCTION_BLOCK"}]} => {"commit":1}
{"op":"work","turns":9} => {"accepted":2}
{"op":"ask","kind":"faults","unit":"V"} => {"faults":[["MEMBER_UNKNOWN",55,56]]}
{"op":"commit","changes":[{"remove":"S","base":1}]} => {"commit":2}
{"op":"ask","kind":"faults","unit":"V"} => {"answer":"pending"}
{"op":"work","turns":9} => {"accepted":1}
{"op":"ask","kind":"faults","unit":"V"} => {"faults":[]}

== A structure with a fault blocks what rests on it
{"op":"commit","changes":[{"put":"W","base":0,"text":"FUNCTION_BLOCK W VAR X:S; END_VAR END_FUNCTION_BLOCK"},{"put":"S","base":0,"text":"TYPE S : STRUCT F:S; END_STRUCT END_TYPE"},{"put":"A","base":0,"text":"SUBAPPLICATION A FBS F:W; END_FBS END_SUBAPPLICATION"}]} => {"commit":1}
{"op":"work","turns":9} => {"accepted":4}
{"op":"ask","kind":"net","unit":"A"} => {"net":{"blocked":["S"]}}
{"op":"ask","kind":"net","unit":"S"} => {"refused":"NoSuchKey"}

== An absent part blocks; an absent type of a value does not
{"op":"commit","changes":[{"put":"A","base":0,"text":"SUBAPPLICATION A FBS F:W; END_FBS END_SUBAPPLICATION"},{"put":"B","base":0,"text":"FUNCTION_BLOCK B FBS Z:M; END_FBS END_FUNCTION_BLOCK"},{"put":"W","base":0,"text":"FUNCTION_BLOCK W VAR X:B; Y:M; END_VAR END_FUNCTION_BLOCK"}]} => {"commit":1}
{"op":"work","turns":9} => {"accepted":4}
{"op":"ask","kind":"net","unit":"A"} => {"net":{"blocked":["B","M"]}}
{"op":"commit","changes":[{"put":"B","base":1,"text":"FUNCTION_BLOCK B VAR Z:M; END_VAR END_FUNCTION_BLOCK"}]} => {"commit":2}
{"op":"work","turns":9} => {"accepted":4}
{"op":"ask","kind":"net","unit":"A"} => {"net":{"blocks":[["F","W"]],"borders":[],"links":[]}}

== A recursion behind a value, and a circle that no parts close
{"op":"commit","changes":[{"put":"A","base":0,"text":"SUBAPPLICATION A FBS F:W; END_FBS END_SUBAPPLICATION"},{"put":"B","base":0,"text":"FUNCTION_BLOCK B FBS Y:B; END_FBS END_FUNCTION_BLOCK"},{"put":"W","base":0,"text":"FUNCTION_BLOCK W VAR X:B; END_VAR END_FUNCTION_BLOCK"}]} => {"commit":1}
{"op":"work","turns":9} => {"accepted":4}
{"op":"ask","kind":"net","unit":"A"} => {"net":{"recursive":["B"]}}
{"op":"commit","changes":[{"put":"B","base":1,"text":"FUNCTION_BLOCK B END_FUNCTION_BLOCK"},{"put":"C","base":0,"text":"SUBAPPLICATION C SUBAPPS I:A; END_SUBAPPS END_SUBAPPLICATION"},{"put":"W","base":1,"text":"FUNCTION_BLOCK W VAR X:C; END_VAR END_FUNCTION_BLOCK"}]} => {"commit":2}
{"op":"work","turns":20} => {"accepted":6}
{"op":"ask","kind":"net","unit":"A"} => {"net":{"blocks":[["F","W"]],"borders":[],"links":[]}}
{"op":"ask","kind":"net","unit":"C"} => {"net":{"blocks":[["I.F","W"]],"borders":[],"links":[]}}
{"op":"commit","changes":[{"put":"B","base":2,"text":"FUNCTION_BLOCK B FBS Y:B; END_FBS END_FUNCTION_BLOCK"},{"put":"W","base":2,"text":"FUNCTION_BLOCK W VAR X:B; END_VAR END_FUNCTION_BLOCK"}]} => {"commit":3}
{"op":"work","turns":20} => {"accepted":5}
each net A C => {"net":{"recursive":["B"]}}

== What is reached by a value alone is neither counted nor composed
{"op":"commit","changes":[{"put":"W","base":0,"text":"FUNCTION_BLOCK W VAR X:DEPTH_0; END_VAR END_FUNCTION_BLOCK"},{"put":"A","base":0,"text":"SUBAPPLICATION A FBS F:W; END_FBS END_SUBAPPLICATION"},{"put":"DEPTH_0","base":0,"text":"SUBAPPLICATION DEPTH_0 SUBAPPS L:DEPTH_1; R:DEPTH_1; END_SUBAPPS END_SUBAPPLICATION"},{"put":"DEPTH_1","base":0,"text":"SUBAPPLICATION DEPTH_1 SUBAPPS L:DEPTH_2; R:DEPTH_2; END_SUBAPPS END_SUBAPPLICATION"},{"put":"DEPTH_2","base":0,"text":"SUBAPPLICATION DEPTH_2 SUBAPPS L:DEPTH_3; R:DEPTH_3; END_SUBAPPS END_SUBAPPLICATION"},{"put":"DEPTH_3","base":0,"text":"SUBAPPLICATION DEPTH_3 SUBAPPS L:DEPTH_4; R:DEPTH_4; END_SUBAPPS END_SUBAPPLICATION"},{"put":"DEPTH_4","base":0,"text":"SUBAPPLICATION DEPTH_4 SUBAPPS L:DEPTH_5; R:DEPTH_5; END_SUBAPPS END_SUBAPPLICATION"},{"put":"DEPTH_5","base":0,"text":"SUBAPPLICATION DEPTH_5 SUBAPPS L:DEPTH_6; R:DEPTH_6; END_SUBAPPS END_SUBAPPLICATION"},{"put":"DEPTH_6","base":0,"text":"SUBAPPLICATION DEPTH_6 SUBAPPS L:DEPTH_7; R:DEPTH_7; END_SUBAPPS END_SUBAPPLICATION"},{"put":"DEPTH_7","base":0,"text":"SUBAPPLICATION DEPTH_7 SUBAPPS L:DEPTH_8; R:DEPTH_8; END_SUBAPPS END_SUBAPPLICATION"},{"put":"DEPTH_8","base":0,"text":"SUBAPPLICATION DEPTH_8 SUBAPPS L:DEPTH_9; R:DEPTH_9; END_SUBAPPS END_SUBAPPLICATION"},{"put":"DEPTH_9","base":0,"text":"SUBAPPLICATION DEPTH_9 SUBAPPS L:DEPTH_10; R:DEPTH_10; END_SUBAPPS END_SUBAPPLICATION"},{"put":"DEPTH_10","base":0,"text":"SUBAPPLICATION DEPTH_10 SUBAPPS L:DEPTH_11; R:DEPTH_11; END_SUBAPPS END_SUBAPPLICATION"},{"put":"DEPTH_11","base":0,"text":"SUBAPPLICATION DEPTH_11 SUBAPPS L:DEPTH_12; R:DEPTH_12; END_SUBAPPS END_SUBAPPLICATION"},{"put":"DEPTH_12","base":0,"text":"SUBAPPLICATION DEPTH_12 END_SUBAPPLICATION"}]} => {"commit":1}
{"op":"work","turns":40} => {"accepted":29}
{"op":"ask","kind":"net","unit":"DEPTH_0"} => {"net":"too_large"}
{"op":"ask","kind":"net","unit":"A"} => {"net":{"blocks":[["F","W"]],"borders":[],"links":[]}}

== A reference through an absent structure, through a structure, and through structures that carry each other
{"op":"commit","changes":[{"put":"V","base":0,"text":"FUNCTION_BLOCK V VAR X:S; END_VAR EC_STATES A: P; END_STATES ALGORITHM P IN ST: X.F := 1; X.G.H := 2; X.K := 1; END_ALGORITHM END_FUNCTION_BLOCK"},{"put":"S","base":0,"text":"TYPE S : STRUCT F:INT; G:U; END_STRUCT; END_TYPE"}]} => {"commit":1}
{"op":"work","turns":9} => {"accepted":2}
{"op":"ask","kind":"faults","unit":"S"} => {"faults":[]}
{"op":"ask","kind":"faults","unit":"V"} => {"faults":[["MEMBER_UNKNOWN",104,105]]}
{"op":"commit","changes":[{"put":"U","base":0,"text":"TYPE U : STRUCT H:BOOL; END_STRUCT; END_TYPE"}]} => {"commit":2}
each faults V S => {"answer":"pending"}
{"op":"work","turns":9} => {"accepted":3}
{"op":"ask","kind":"faults","unit":"V"} => {"faults":[["CLASS",96,98],["MEMBER_UNKNOWN",104,105]]}
{"op":"commit","changes":[{"put":"U","base":2,"text":"TYPE U : STRUCT H:S; END_STRUCT; END_TYPE"}]} => {"commit":3}
{"op":"work","turns":9} => {"accepted":3}
each faults S U => {"faults":[["STRUCT_RECURSIVE",5,6]]}
{"op":"ask","kind":"faults","unit":"V"} => {"faults":[["MEMBER_UNKNOWN",104,105]]}
"#;

#[test]
fn conversations(rt: HostRuntime) -> Result<(), Fail> {
    compare(&rt, rt.alloc(), CONVERSATIONS)
}
