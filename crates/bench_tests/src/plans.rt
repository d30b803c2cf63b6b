//! Plans of systems.
use crate::conversation::compare;
use std::test::Fail;

const CONVERSATIONS: &str = r#"
== A system with blocks on two resources; then one block that no mapping places, and a mapping that is of nothing
plant => {"commit":1}
{"op":"ask","kind":"deploy","unit":"Y"} => {"answer":"pending"}
{"op":"work","turns":9} => {"accepted":6}
{"op":"ask","kind":"deploy","unit":"Y"} => {"deploy":{"cuts":[["event","APP.SUB.F.O","APP.SUB.G.I"]],"resources":[["D.R1",["CREATE FB APP.SUB.G TN","CREATE FB APP.SUB.H TN","WRITE APP.SUB.G.DT T#250ms","CREATE CONNECTION APP.SUB.G.O APP.SUB.H.I","START D.R1"]],["D.R2",["CREATE FB APP.SUB.F TN","START D.R2"]]]}}
{"op":"ask","kind":"deploy","unit":"SA"} => {"refused":"NoSuchKey"}
misplaced => {"commit":2}
{"op":"ask","kind":"net","unit":"SA"} => {"net":{"blocks":[["F","TN"],["G","TN"],["H","TN"]],"borders":[],"links":[["event","F.O","G.I"],["event","G.O","H.I"]]}}
{"op":"ask","kind":"deploy","unit":"Y"} => {"answer":"pending"}
{"op":"work","turns":9} => {"accepted":3}
{"op":"ask","kind":"deploy","unit":"Y"} => {"deploy":{"faulty":[["UNMAPPED","APP.SUB.G"],["UNMAPPED","APP.SUB.H"],["NO_SUCH_BLOCK","APP.Z"]]}}
{"op":"take"} => {"job":0}

== A system whose subapplication is absent has no flat network, and so no commands
{"op":"commit","changes":[{"put":"Y","base":0,"text":"SYSTEM Y APPLICATION APP SUBAPPS SUB:SA; END_SUBAPPS END_APPLICATION DEVICE D:DT RESOURCE R1:RT END_RESOURCE RESOURCE R2:RT END_RESOURCE END_DEVICE MAPPINGS APP ON D.R1; END_MAPPINGS END_SYSTEM"}]} => {"commit":1}
{"op":"work","turns":9} => {"accepted":3}
{"op":"ask","kind":"deploy","unit":"Y"} => {"deploy":{"stopped":{"blocked":["SA","Y"]}}}

== A plan is late where a type has changed that the system does not mention; and a unit that is no system any more has no plan
{"op":"commit","changes":[{"put":"T","base":0,"text":"FUNCTION_BLOCK T END_FUNCTION_BLOCK"},{"put":"P","base":0,"text":"SUBAPPLICATION P FBS X:T; END_FBS END_SUBAPPLICATION"},{"put":"Q","base":0,"text":"SYSTEM Q APPLICATION A SUBAPPS Y:P; END_SUBAPPS END_APPLICATION DEVICE D:DT RESOURCE R:RT END_RESOURCE END_DEVICE MAPPINGS A ON D.R; END_MAPPINGS END_SYSTEM"}]} => {"commit":1}
{"op":"work","turns":5} => {"accepted":5}
{"op":"take"} => {"job":1,"kind":"deploy","unit":"Q"}
{"op":"commit","changes":[{"put":"T","base":1,"text":"FUNCTION_BLOCK T EVENT_INPUT I; END_EVENT END_FUNCTION_BLOCK"}]} => {"commit":2}
{"op":"deliver","job":1} => {"refused":"Stale","unit":"T"}
{"op":"work","turns":9} => {"accepted":5}
{"op":"ask","kind":"deploy","unit":"Q"} => {"deploy":{"cuts":[],"resources":[["D.R",["CREATE FB A.Y.X T","START D.R"]]]}}
{"op":"commit","changes":[{"put":"Q","base":1,"text":"SUBAPPLICATION Q SUBAPPS Y:P; END_SUBAPPS END_SUBAPPLICATION"}]} => {"commit":3}
{"op":"ask","kind":"deploy","unit":"Q"} => {"refused":"NoSuchKey"}
{"op":"work","turns":9} => {"accepted":2}
"#;

#[test]
fn conversations(rt: HostRuntime) -> Result<(), Fail> {
    compare(&rt, rt.alloc(), CONVERSATIONS)
}
