//! Faults of charts, networks and systems, with their places in bytes.
use crate::conversation::compare;
use std::test::Fail;

const CONVERSATIONS: &str = r#"
== A chart that names an algorithm, two events and a variable that nothing declares
{"op":"commit","changes":[{"put":"Q","base":0,"text":"FUNCTION_BLOCK Q EC_STATES S: H -> O; END_STATES EC_TRANSITIONS S TO S := E; END_TRANSITIONS ALGORITHM G IN ST: X := 1; END_ALGORITHM END_FUNCTION_BLOCK"}]} => {"commit":1}
{"op":"work","turns":9} => {"accepted":1}
{"op":"ask","kind":"faults","unit":"Q"} => {"faults":[["ALGORITHM_UNKNOWN",30,31],["EVENT_UNKNOWN",35,36],["EVENT_UNKNOWN",74,75],["VARIABLE_UNKNOWN",112,113]]}

== An event that passes through a subapplication
{"op":"commit","changes":[{"put":"P","base":0,"text":"SUBAPPLICATION P EVENT_INPUT E; END_EVENT EVENT_OUTPUT F; END_EVENT EVENT_CONNECTIONS E TO F; END_CONNECTIONS END_SUBAPPLICATION"}]} => {"commit":1}
{"op":"work","turns":9} => {"accepted":2}
{"op":"ask","kind":"faults","unit":"P"} => {"faults":[["PASS_THROUGH",86,92]]}

== A parameter of no input, and a plug with two connections
{"op":"commit","changes":[{"put":"AD","base":0,"text":"ADAPTER AD EVENT_INPUT CF; END_EVENT EVENT_OUTPUT RQ; END_EVENT VAR_OUTPUT V:INT; END_VAR END_ADAPTER"},{"put":"PP","base":0,"text":"FUNCTION_BLOCK PP PLUGS P:AD; END_PLUGS END_FUNCTION_BLOCK"},{"put":"QQ","base":0,"text":"FUNCTION_BLOCK QQ SOCKETS Q:AD; END_SOCKETS END_FUNCTION_BLOCK"},{"put":"U","base":0,"text":"SUBAPPLICATION U FBS L:PP; R:QQ; V:QQ(Z:=1); END_FBS ADAPTER_CONNECTIONS L.P TO R.Q; L.P TO V.Q; END_CONNECTIONS END_SUBAPPLICATION"}]} => {"commit":1}
{"op":"work","turns":9} => {"accepted":5}
{"op":"ask","kind":"faults","unit":"U"} => {"faults":[["PARAMETER_UNKNOWN",38,39],["SECOND_ADAPTER",85,88]]}

== An application that is mapped twice, once to a resource that the device does not have
{"op":"commit","changes":[{"put":"Z","base":0,"text":"SYSTEM Z APPLICATION APP END_APPLICATION DEVICE D:DT RESOURCE R1:RT END_RESOURCE END_DEVICE MAPPINGS APP ON D.R1; APP ON D.R9; END_MAPPINGS END_SYSTEM"}]} => {"commit":1}
{"op":"work","turns":9} => {"accepted":3}
{"op":"ask","kind":"faults","unit":"Z"} => {"faults":[["MAPPED_TWICE",114,117],["NO_SUCH_RESOURCE",121,125]]}
"#;

#[test]
fn faults_have_their_places(rt: HostRuntime) -> Result<(), Fail> {
    compare(&rt, rt.alloc(), CONVERSATIONS)
}
