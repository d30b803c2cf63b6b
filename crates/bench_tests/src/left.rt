//! Nets and plans that a change of a block type leaves unchanged, and those that it does not.
use crate::conversation::compare;
use std::test::Fail;

const CONVERSATIONS: &str = r#"
== The block type of the plant gets an algorithm, then a fault, and then it is mended; its units are the same to look at
plant => {"commit":1}
{"op":"work","turns":9} => {"accepted":6}
{"op":"commit","changes":[{"put":"TN","base":1,"text":"FUNCTION_BLOCK TN (* later *) EVENT_INPUT I; END_EVENT EVENT_OUTPUT O; END_EVENT VAR_INPUT DT:TIME; END_VAR VAR N:INT; END_VAR ALGORITHM A IN ST: N := 2; END_ALGORITHM END_FUNCTION_BLOCK"}]} => {"commit":2}
{"op":"ask","kind":"net","unit":"SA"} => {"answer":"pending"}
{"op":"ask","kind":"deploy","unit":"Y"} => {"answer":"pending"}
{"op":"work","turns":9} => {"accepted":5}
{"op":"ask","kind":"net","unit":"SA"} => {"net":{"blocks":[["F","TN"],["G","TN"],["H","TN"]],"borders":[],"links":[["event","F.O","G.I"],["event","G.O","H.I"]]}}
{"op":"ask","kind":"deploy","unit":"Y"} => {"deploy":{"cuts":[["event","APP.SUB.F.O","APP.SUB.G.I"]],"resources":[["D.R1",["CREATE FB APP.SUB.G TN","CREATE FB APP.SUB.H TN","WRITE APP.SUB.G.DT T#250ms","CREATE CONNECTION APP.SUB.G.O APP.SUB.H.I","START D.R1"]],["D.R2",["CREATE FB APP.SUB.F TN","START D.R2"]]]}}
{"op":"commit","changes":[{"put":"TN","base":2,"text":"FUNCTION_BLOCK TN EVENT_INPUT I; END_EVENT EVENT_OUTPUT O; END_EVENT VAR_INPUT DT:TIME; END_VAR VAR N:INT; END_VAR ALGORITHM A IN ST: M := 2; END_ALGORITHM END_FUNCTION_BLOCK"}]} => {"commit":3}
{"op":"work","turns":9} => {"accepted":5}
{"op":"ask","kind":"net","unit":"SA"} => {"net":{"blocked":["TN"]}}
{"op":"ask","kind":"deploy","unit":"Y"} => {"deploy":{"stopped":{"blocked":["TN"]}}}
{"op":"commit","changes":[{"put":"TN","base":3,"text":"FUNCTION_BLOCK TN EVENT_INPUT I; END_EVENT EVENT_OUTPUT O; END_EVENT VAR_INPUT DT:TIME; END_VAR END_FUNCTION_BLOCK"}]} => {"commit":4}
{"op":"work","turns":9} => {"accepted":5}
{"op":"ask","kind":"net","unit":"SA"} => {"net":{"blocks":[["F","TN"],["G","TN"],["H","TN"]],"borders":[],"links":[["event","F.O","G.I"],["event","G.O","H.I"]]}}

== A port goes, and comes back; then the type goes
plant => {"commit":1}
{"op":"work","turns":9} => {"accepted":6}
{"op":"commit","changes":[{"put":"TN","base":1,"text":"FUNCTION_BLOCK TN EVENT_INPUT I; END_EVENT EVENT_OUTPUT O; END_EVENT END_FUNCTION_BLOCK"}]} => {"commit":2}
{"op":"work","turns":9} => {"accepted":5}
{"op":"ask","kind":"net","unit":"SA"} => {"net":{"blocked":["SA"]}}
{"op":"commit","changes":[{"put":"TN","base":2,"text":"FUNCTION_BLOCK TN EVENT_INPUT I; END_EVENT EVENT_OUTPUT O; END_EVENT VAR_INPUT DT:TIME; END_VAR END_FUNCTION_BLOCK"}]} => {"commit":3}
{"op":"work","turns":9} => {"accepted":5}
{"op":"ask","kind":"deploy","unit":"Y"} => {"deploy":{"cuts":[["event","APP.SUB.F.O","APP.SUB.G.I"]],"resources":[["D.R1",["CREATE FB APP.SUB.G TN","CREATE FB APP.SUB.H TN","WRITE APP.SUB.G.DT T#250ms","CREATE CONNECTION APP.SUB.G.O APP.SUB.H.I","START D.R1"]],["D.R2",["CREATE FB APP.SUB.F TN","START D.R2"]]]}}
{"op":"commit","changes":[{"remove":"TN","base":3}]} => {"commit":4}
{"op":"work","turns":9} => {"accepted":4}
{"op":"ask","kind":"net","unit":"SA"} => {"net":{"blocked":["SA","TN"]}}
"#;

#[test]
fn conversations(rt: HostRuntime) -> Result<(), Fail> {
    compare(&rt, rt.alloc(), CONVERSATIONS)
}
