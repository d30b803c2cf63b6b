//! Which kept nets are passed to jobs.
use crate::conversation::compare_steps;
use crate::jobs::Jobs;
use std::test::Fail;

// An event through two borders to two blocks, with all values but that of the outermost net, which was committed once more. Then the type
// changes, and the three faults that it reaches are found.
const NESTED: &str = r#"
== The outermost net is made of the two that are kept, and the two are made of none once the type has changed / 4 / 100
@1 {"op":"commit","changes":[{"put":"T","base":0,"text":"FUNCTION_BLOCK T EVENT_INPUT I; END_EVENT EVENT_OUTPUT O; END_EVENT END_FUNCTION_BLOCK"},{"put":"INNER","base":0,"text":"SUBAPPLICATION INNER EVENT_INPUT E; END_EVENT FBS F1:T; F2:T; END_FBS EVENT_CONNECTIONS E TO F1.I; E TO F2.I; END_CONNECTIONS END_SUBAPPLICATION"},{"put":"MID","base":0,"text":"SUBAPPLICATION MID EVENT_INPUT E; END_EVENT SUBAPPS K:INNER; END_SUBAPPS EVENT_CONNECTIONS E TO K.E; END_CONNECTIONS END_SUBAPPLICATION"},{"put":"OUTER","base":0,"text":"SUBAPPLICATION OUTER FBS G:T; END_FBS SUBAPPS N:MID; END_SUBAPPS EVENT_CONNECTIONS G.O TO N.E; END_CONNECTIONS END_SUBAPPLICATION"}]} => {"commit":1}
{"op":"work","turns":9} => {"accepted":7}
{"op":"commit","changes":[{"put":"OUTER","base":1,"text":"SUBAPPLICATION OUTER FBS G:T; END_FBS SUBAPPS N:MID; END_SUBAPPS EVENT_CONNECTIONS G.O TO N.E; END_CONNECTIONS END_SUBAPPLICATION"}]} => {"commit":2}
@along faults OUTER => nets
@along net OUTER => nets INNER MID
@1 {"op":"ask","kind":"net","unit":"OUTER"} => {"net":{"blocks":[["G","T"],["N.K.F1","T"],["N.K.F2","T"]],"borders":[],"links":[["event","G.O","N.K.F1.I"],["event","G.O","N.K.F2.I"]]}}
{"op":"commit","changes":[{"put":"T","base":1,"text":"FUNCTION_BLOCK T EVENT_INPUT I; END_EVENT EVENT_OUTPUT O; END_EVENT END_FUNCTION_BLOCK"}]} => {"commit":3}
{"op":"work","turns":3} => {"accepted":3}
@next net INNER => nets
@next net MID => nets
"#;

#[test]
fn inner_nets_are_taken_along(rt: HostRuntime) -> Result<(), Fail> {
    compare_steps::<Jobs>(&rt, rt.alloc(), NESTED)
}

// A system over four subapplications, of which one rests on another, and one block of its own; then its mapping changes.
const PLANT: &str = r#"
== The net and the plan of a system take the nets of all its subapplications along, and not its own / 8 / 100
@1 {"op":"commit","changes":[{"put":"T","base":0,"text":"FUNCTION_BLOCK T END_FUNCTION_BLOCK"},{"put":"S1","base":0,"text":"SUBAPPLICATION S1 FBS X:T; END_FBS END_SUBAPPLICATION"},{"put":"S2","base":0,"text":"SUBAPPLICATION S2 FBS X:T; END_FBS END_SUBAPPLICATION"},{"put":"S3","base":0,"text":"SUBAPPLICATION S3 SUBAPPS X:S1; END_SUBAPPS END_SUBAPPLICATION"},{"put":"S4","base":0,"text":"SUBAPPLICATION S4 FBS X:T; END_FBS END_SUBAPPLICATION"},{"put":"Y","base":0,"text":"SYSTEM Y APPLICATION A FBS B:T; END_FBS SUBAPPS P:S2; Q:S3; R:S4; END_SUBAPPS END_APPLICATION DEVICE D:DT RESOURCE R1:RT END_RESOURCE END_DEVICE MAPPINGS A ON D.R1; END_MAPPINGS END_SYSTEM"}]} => {"commit":1}
{"op":"work","turns":20} => {"accepted":12}
{"op":"commit","changes":[{"put":"Y","base":1,"text":"SYSTEM Y APPLICATION A FBS B:T; END_FBS SUBAPPS P:S2; Q:S3; R:S4; END_SUBAPPS END_APPLICATION DEVICE D:DT RESOURCE R2:RT END_RESOURCE END_DEVICE MAPPINGS A ON D.R2; END_MAPPINGS END_SYSTEM"}]} => {"commit":2}
@along faults Y => nets
@along net Y => nets S1 S2 S3 S4
@along deploy Y => nets S1 S2 S3 S4
"#;

#[test]
fn plans_take_subapplications_along(rt: HostRuntime) -> Result<(), Fail> {
    compare_steps::<Jobs>(&rt, rt.alloc(), PLANT)
}

// A subapplication with one that it holds, of which no value is there yet.
const FOUND: &str = r#"
== A net that was found on the way to another is still pending, is no hint, and is asked for and taken as ever / 4 / 100
@1 {"op":"commit","changes":[{"put":"T","base":0,"text":"FUNCTION_BLOCK T END_FUNCTION_BLOCK"},{"put":"A","base":0,"text":"SUBAPPLICATION A SUBAPPS X:B; END_SUBAPPS END_SUBAPPLICATION"},{"put":"B","base":0,"text":"SUBAPPLICATION B FBS X:T; END_FBS END_SUBAPPLICATION"}]} => {"commit":1}
{"op":"work","turns":3} => {"accepted":3}
@finds net A => nets B
@1 {"op":"ask","kind":"net","unit":"B"} => {"answer":"pending"}
{"op":"work","turns":9} => {"accepted":1}
{"op":"ask","kind":"net","unit":"B"} => {"net":{"blocks":[["X","T"]],"borders":[],"links":[]}}
{"op":"ask","kind":"net","unit":"A"} => {"net":{"blocks":[["X.X","T"]],"borders":[],"links":[]}}
"#;

#[test]
fn a_net_on_the_way_stays_pending(rt: HostRuntime) -> Result<(), Fail> {
    compare_steps::<Jobs>(&rt, rt.alloc(), FOUND)
}
