//! Flat networks of subapplications and systems.
use crate::conversation::compare;
use std::alloc::{AllocError, Global};
use std::test::Fail;

const CONVERSATIONS: &str = r#"
== A subapplication that rests on two types that hold each other
{"op":"commit","changes":[{"put":"A","base":0,"text":"FUNCTION_BLOCK A FBS X:B; END_FBS END_FUNCTION_BLOCK"},{"put":"B","base":0,"text":"FUNCTION_BLOCK B FBS Y:A; END_FBS END_FUNCTION_BLOCK"},{"put":"S","base":0,"text":"SUBAPPLICATION S FBS Z:A; END_FBS END_SUBAPPLICATION"}]} => {"commit":1}
{"op":"ask","kind":"net","unit":"S"} => {"answer":"pending"}
{"op":"ask","kind":"net","unit":"A"} => {"refused":"NoSuchKey"}
{"op":"work","turns":9} => {"accepted":4}
{"op":"ask","kind":"faults","unit":"A"} => {"faults":[]}
{"op":"ask","kind":"net","unit":"S"} => {"net":{"recursive":["A","B"]}}

== Two subapplications that hold each other, and others above them whose nets are worked later
{"op":"commit","changes":[{"put":"A","base":0,"text":"SUBAPPLICATION A SUBAPPS X:B; END_SUBAPPS END_SUBAPPLICATION"},{"put":"B","base":0,"text":"SUBAPPLICATION B SUBAPPS Y:A; END_SUBAPPS END_SUBAPPLICATION"},{"put":"C","base":0,"text":"SUBAPPLICATION C SUBAPPS Z:A; END_SUBAPPS END_SUBAPPLICATION"},{"put":"D","base":0,"text":"SYSTEM D APPLICATION P SUBAPPS Z:C; END_SUBAPPS END_APPLICATION END_SYSTEM"}]} => {"commit":1}
{"op":"work","turns":5} => {"accepted":5}
{"op":"ask","kind":"net","unit":"A"} => {"net":{"recursive":["A","B"]}}
{"op":"ask","kind":"net","unit":"C"} => {"answer":"pending"}
{"op":"work","turns":9} => {"accepted":4}
each net C D => {"net":{"recursive":["A","B"]}}
{"op":"ask","kind":"deploy","unit":"D"} => {"deploy":{"stopped":{"recursive":["A","B"]}}}

== An event through two borders to two blocks; and then a type that all of it rests on is taken away and comes back
{"op":"commit","changes":[{"put":"T","base":0,"text":"FUNCTION_BLOCK T EVENT_INPUT I; END_EVENT EVENT_OUTPUT O; END_EVENT END_FUNCTION_BLOCK"},{"put":"INNER","base":0,"text":"SUBAPPLICATION INNER EVENT_INPUT E; END_EVENT FBS F1:T; F2:T; END_FBS EVENT_CONNECTIONS E TO F1.I; E TO F2.I; END_CONNECTIONS END_SUBAPPLICATION"},{"put":"MID","base":0,"text":"SUBAPPLICATION MID EVENT_INPUT E; END_EVENT SUBAPPS K:INNER; END_SUBAPPS EVENT_CONNECTIONS E TO K.E; END_CONNECTIONS END_SUBAPPLICATION"},{"put":"OUTER","base":0,"text":"SUBAPPLICATION OUTER FBS G:T; END_FBS SUBAPPS N:MID; END_SUBAPPS EVENT_CONNECTIONS G.O TO N.E; END_CONNECTIONS END_SUBAPPLICATION"}]} => {"commit":1}
{"op":"work","turns":9} => {"accepted":7}
{"op":"ask","kind":"net","unit":"OUTER"} => {"net":{"blocks":[["G","T"],["N.K.F1","T"],["N.K.F2","T"]],"borders":[],"links":[["event","G.O","N.K.F1.I"],["event","G.O","N.K.F2.I"]]}}
{"op":"ask","kind":"net","unit":"INNER"} => {"net":{"blocks":[["F1","T"],["F2","T"]],"borders":[["event","E","F1.I"],["event","E","F2.I"]],"links":[]}}
// T decides the nets of all that rest on it, though OUTER alone mentions it beside INNER.
{"op":"commit","changes":[{"remove":"T","base":1}]} => {"commit":2}
{"op":"ask","kind":"net","unit":"MID"} => {"answer":"pending"}
{"op":"ask","kind":"faults","unit":"MID"} => {"faults":[]}
{"op":"work","turns":9} => {"accepted":5}
{"op":"ask","kind":"net","unit":"MID"} => {"net":{"blocked":["INNER","T"]}}
// MID is no longer a subapplication: its net is gone, and OUTER's waits.
{"op":"commit","changes":[{"put":"MID","base":1,"text":"FUNCTION_BLOCK MID EVENT_INPUT E; END_EVENT END_FUNCTION_BLOCK"}]} => {"commit":3}
{"op":"ask","kind":"net","unit":"MID"} => {"refused":"NoSuchKey"}
{"op":"ask","kind":"net","unit":"INNER"} => {"net":{"blocked":["INNER","T"]}}
{"op":"work","turns":9} => {"accepted":3}
{"op":"ask","kind":"net","unit":"OUTER"} => {"net":{"blocked":["OUTER","T"]}}

== The net of a subapplication is worked again beside the nets that are kept
{"op":"commit","changes":[{"put":"T","base":0,"text":"FUNCTION_BLOCK T EVENT_INPUT I; END_EVENT EVENT_OUTPUT O; END_EVENT END_FUNCTION_BLOCK"},{"put":"INNER","base":0,"text":"SUBAPPLICATION INNER EVENT_INPUT E; END_EVENT FBS F1:T; F2:T; END_FBS EVENT_CONNECTIONS E TO F1.I; E TO F2.I; END_CONNECTIONS END_SUBAPPLICATION"},{"put":"MID","base":0,"text":"SUBAPPLICATION MID EVENT_INPUT E; END_EVENT SUBAPPS K:INNER; END_SUBAPPS EVENT_CONNECTIONS E TO K.E; END_CONNECTIONS END_SUBAPPLICATION"},{"put":"OUTER","base":0,"text":"SUBAPPLICATION OUTER FBS G:T; END_FBS SUBAPPS N:MID; END_SUBAPPS EVENT_CONNECTIONS G.O TO N.E; END_CONNECTIONS END_SUBAPPLICATION"}]} => {"commit":1}
{"op":"work","turns":9} => {"accepted":7}
{"op":"commit","changes":[{"put":"OUTER","base":1,"text":"SUBAPPLICATION OUTER FBS G:T; END_FBS SUBAPPS N:MID; END_SUBAPPS EVENT_CONNECTIONS G.O TO N.E; END_CONNECTIONS END_SUBAPPLICATION"}]} => {"commit":2}
{"op":"work","turns":9} => {"accepted":2}
{"op":"ask","kind":"net","unit":"OUTER"} => {"net":{"blocks":[["G","T"],["N.K.F1","T"],["N.K.F2","T"]],"borders":[],"links":[["event","G.O","N.K.F1.I"],["event","G.O","N.K.F2.I"]]}}

== A plug and a socket, one of them inside a subapplication
{"op":"commit","changes":[{"put":"AD","base":0,"text":"ADAPTER AD EVENT_INPUT CF; END_EVENT EVENT_OUTPUT RQ; END_EVENT VAR_OUTPUT V:INT; END_VAR END_ADAPTER"},{"put":"PP","base":0,"text":"FUNCTION_BLOCK PP PLUGS P:AD; END_PLUGS END_FUNCTION_BLOCK"},{"put":"QQ","base":0,"text":"FUNCTION_BLOCK QQ SOCKETS Q:AD; END_SOCKETS END_FUNCTION_BLOCK"},{"put":"SB","base":0,"text":"SUBAPPLICATION SB SOCKETS K:AD; END_SOCKETS FBS R:QQ; END_FBS ADAPTER_CONNECTIONS K TO R.Q; END_CONNECTIONS END_SUBAPPLICATION"},{"put":"TP","base":0,"text":"SUBAPPLICATION TP FBS L:PP; END_FBS SUBAPPS M:SB; END_SUBAPPS ADAPTER_CONNECTIONS L.P TO M.K; END_CONNECTIONS END_SUBAPPLICATION"}]} => {"commit":1}
{"op":"work","turns":9} => {"accepted":7}
{"op":"ask","kind":"net","unit":"TP"} => {"net":{"blocks":[["L","PP"],["M.R","QQ"]],"borders":[],"links":[["event","L.P.RQ","M.R.Q.RQ"],["event","M.R.Q.CF","L.P.CF"],["data","L.P.V","M.R.Q.V"]]}}
{"op":"ask","kind":"net","unit":"SB"} => {"net":{"blocks":[["R","QQ"]],"borders":[["adapter","K","R.Q"]],"links":[]}}
{"op":"ask","kind":"deploy","unit":"SB"} => {"refused":"NoSuchKey"}

== A system with one application. Its own change reaches its own net alone
plant => {"commit":1}
{"op":"work","turns":9} => {"accepted":6}
{"op":"ask","kind":"net","unit":"Y"} => {"net":{"blocks":[["APP.SUB.F","TN"],["APP.SUB.G","TN"],["APP.SUB.H","TN"]],"borders":[],"links":[["event","APP.SUB.F.O","APP.SUB.G.I"],["event","APP.SUB.G.O","APP.SUB.H.I"]]}}
misplaced => {"commit":2}
{"op":"ask","kind":"net","unit":"SA"} => {"net":{"blocks":[["F","TN"],["G","TN"],["H","TN"]],"borders":[],"links":[["event","F.O","G.I"],["event","G.O","H.I"]]}}
{"op":"ask","kind":"net","unit":"Y"} => {"answer":"pending"}
{"op":"work","turns":9} => {"accepted":3}
{"op":"take"} => {"job":0}

== A result for a net is late where a type that the unit rests on has changed, though the unit does not mention it
{"op":"commit","changes":[{"put":"T","base":0,"text":"FUNCTION_BLOCK T END_FUNCTION_BLOCK"},{"put":"P","base":0,"text":"SUBAPPLICATION P FBS X:T; END_FBS END_SUBAPPLICATION"},{"put":"Q","base":0,"text":"SUBAPPLICATION Q SUBAPPS Y:P; END_SUBAPPS END_SUBAPPLICATION"}]} => {"commit":1}
{"op":"work","turns":4} => {"accepted":4}
{"op":"take"} => {"job":1,"kind":"net","unit":"Q"}
{"op":"commit","changes":[{"put":"T","base":1,"text":"FUNCTION_BLOCK T EVENT_INPUT I; END_EVENT END_FUNCTION_BLOCK"}]} => {"commit":2}
{"op":"deliver","job":1} => {"refused":"Stale","unit":"T"}
{"op":"ask","kind":"net","unit":"Q"} => {"answer":"pending"}
{"op":"work","turns":9} => {"accepted":4}
{"op":"ask","kind":"net","unit":"Q"} => {"net":{"blocks":[["Y.X","T"]],"borders":[],"links":[]}}

== A subapplication becomes a block while both its jobs are out: there is no key of its net any more, and the result for its faults is late
{"op":"commit","changes":[{"put":"S","base":0,"text":"SUBAPPLICATION S END_SUBAPPLICATION"}]} => {"commit":1}
{"op":"take"} => {"job":1,"kind":"faults","unit":"S"}
{"op":"take"} => {"job":2,"kind":"net","unit":"S"}
{"op":"commit","changes":[{"put":"S","base":1,"text":"FUNCTION_BLOCK S END_FUNCTION_BLOCK"}]} => {"commit":2}
{"op":"deliver","job":2} => {"refused":"NoSuchKey"}
{"op":"deliver","job":1} => {"refused":"Stale","unit":"S"}
{"op":"ask","kind":"net","unit":"S"} => {"refused":"NoSuchKey"}
{"op":"ask","kind":"faults","unit":"S"} => {"answer":"pending"}

== The type of a value may be absent. A structure is no type of instances; then there is a block of its name
{"op":"commit","changes":[{"put":"W","base":0,"text":"FUNCTION_BLOCK W VAR_INPUT X:LEVEL; END_VAR END_FUNCTION_BLOCK"},{"put":"SW","base":0,"text":"SUBAPPLICATION SW FBS F:W; END_FBS END_SUBAPPLICATION"},{"put":"S","base":0,"text":"TYPE S : STRUCT F:INT; END_STRUCT END_TYPE"},{"put":"SX","base":0,"text":"SUBAPPLICATION SX FBS F:S; END_FBS END_SUBAPPLICATION"}]} => {"commit":1}
{"op":"work","turns":9} => {"accepted":6}
{"op":"ask","kind":"net","unit":"SW"} => {"net":{"blocks":[["F","W"]],"borders":[],"links":[]}}
{"op":"ask","kind":"faults","unit":"SX"} => {"faults":[["WRONG_KIND",24,25]]}
{"op":"ask","kind":"net","unit":"SX"} => {"net":{"blocked":["SX"]}}
{"op":"ask","kind":"net","unit":"S"} => {"refused":"NoSuchKey"}
{"op":"commit","changes":[{"put":"S","base":1,"text":"FUNCTION_BLOCK S END_FUNCTION_BLOCK"}]} => {"commit":2}
{"op":"ask","kind":"net","unit":"SX"} => {"answer":"pending"}
{"op":"work","turns":9} => {"accepted":3}
{"op":"ask","kind":"net","unit":"SX"} => {"net":{"blocks":[["F","S"]],"borders":[],"links":[]}}
{"op":"ask","kind":"net","unit":"SW"} => {"net":{"blocks":[["F","W"]],"borders":[],"links":[]}}
"#;

#[test]
fn conversations(rt: HostRuntime) -> Result<(), Fail> {
    compare(&rt, rt.alloc(), CONVERSATIONS)
}

// A type, a subapplication that holds it so many times, and one that holds the subapplication.
fn holding(alloc: Global, instances: u32) -> Result<String, AllocError> {
    let mut line = String::from_str(
        alloc,
        r#"{"op":"commit","changes":[{"put":"T","base":0,"text":"FUNCTION_BLOCK T END_FUNCTION_BLOCK"},{"put":"S","base":0,"text":"SUBAPPLICATION S FBS "#,
    )?;
    for i in 0..instances {
        write!(line, "B{i}:T; ")?;
    }
    line.push_str(
        r#"END_FBS END_SUBAPPLICATION"},{"put":"U","base":0,"text":"SUBAPPLICATION U SUBAPPS X:S; END_SUBAPPS END_SUBAPPLICATION"}]}"#,
    )?;
    Ok(line)
}

// The flat network of so many blocks.
fn flat_of(alloc: Global, blocks: u32) -> Result<String, AllocError> {
    let mut reply = String::from_str(alloc, r#"{"net":{"blocks":["#)?;
    let mut comma = "";
    for i in 0..blocks {
        write!(reply, r#"{comma}["B{i}","T"]"#)?;
        comma = ",";
    }
    reply.push_str(r#"],"borders":[],"links":[]}}"#)?;
    Ok(reply)
}

// A conversation on a subapplication with so many blocks, of which this is the net. The one above it, whose net is worked later, is
// too large.
fn held(alloc: Global, instances: u32, net: &str) -> Result<String, AllocError> {
    let commit = holding(alloc, instances)?;
    format!(in alloc;
        r#"
== {instances} instances
{commit} => {{"commit":1}}
{{"op":"work","turns":9}} => {{"accepted":5}}
{{"op":"ask","kind":"net","unit":"S"}} => {net}
{{"op":"ask","kind":"net","unit":"U"}} => {{"net":"too_large"}}
"#
    )
}

// As many blocks as a network may have, and one more.
#[test]
fn many_instances(rt: HostRuntime) -> Result<(), Fail> {
    let flat = flat_of(rt.alloc(), 4096)?;
    let most = held(rt.alloc(), 4096, flat.as_str())?;
    compare(&rt, rt.alloc(), most.as_str())?;
    let more = held(rt.alloc(), 4097, r#"{"net":"too_large"}"#)?;
    compare(&rt, rt.alloc(), more.as_str())
}

// Adds a commit of subapplications from one number to before another, each of which holds the next one twice.
fn say_doubling(text: &mut String, from: u32, to: u32) -> Result<(), AllocError> {
    text.push_str(r#"{"op":"commit","changes":["#)?;
    let mut comma = "";
    for i in from..to {
        let next = i + 1;
        write!(
            text,
            r#"{comma}{{"put":"S{i}","base":0,"text":"SUBAPPLICATION S{i} SUBAPPS X:S{next}; Y:S{next}; END_SUBAPPS END_SUBAPPLICATION"}}"#
        )?;
        comma = ",";
    }
    text.push_str("]}")
}

// The numbers of three commits, and the subapplications of each.
static DOUBLED: [(u32, u32, u32); 3] = [(2, 0, 14), (3, 14, 28), (4, 28, 39)];

// The commits of forty subapplications in a chain, and what is known then.
fn chain(alloc: Global) -> Result<String, AllocError> {
    let mut text = String::from_str(
        alloc,
        r#"
== a chain
{"op":"commit","changes":[{"put":"S39","base":0,"text":"SUBAPPLICATION S39 END_SUBAPPLICATION"}]} => {"commit":1}
"#,
    )?;
    for (commit, from, to) in &DOUBLED {
        say_doubling(&mut text, *from, *to)?;
        writeln!(text, " => {{\"commit\":{commit}}}")?;
    }
    text.push_str(
        r#"{"op":"work","turns":1000} => {"accepted":80}
{"op":"ask","kind":"net","unit":"S0"} => {"net":"too_large"}
{"op":"ask","kind":"net","unit":"S38"} => {"net":{"blocks":[],"borders":[],"links":[]}}
"#,
    )?;
    Ok(text)
}

#[test]
fn a_chain_that_doubles(rt: HostRuntime) -> Result<(), Fail> {
    compare(&rt, rt.alloc(), chain(rt.alloc())?.as_str())
}
